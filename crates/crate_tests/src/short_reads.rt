//! A drive that says that it has the bytes of a log without records, and gives fewer of them.
use disk_trait::{AttachFault, DiskFault, LogDisk};
use recovery::{OpenFault, inspect, open, width_of};
use std::alloc::Global;

// The head of a log, which ends with six zeros.
const HEAD: &[u8; 16] = b"MDLOCLOG\x02\x01\0\0\0\0\0\0";

/// Gives this many bytes of the head of a log, whatever is read.
#[derive(Drop)]
struct ShortDisk {
    given: usize,
}

impl LogDisk for ShortDisk {
    ghost use Rattle.std.specs.Prelude.{None};

    ghost drive = { λ d. record { bytes = None; images = λ c. Unit {0}; clock = 0; since = λ t c. Unit {0}; faults = 0; calls = None; attaches = None } };

    ghost keeps_laws = { λ d. record { counts_now = λ t c le now. tt; only_now = λ c since. tt; longer = λ s t c le since. tt; held = λ xs told. tt } };

    fn attach(&mut self, _alloc: Global, _name: &str, _make: bool) -> Result<(), AttachFault> {
        Ok(())
    }

    fn len(&mut self) -> Result<u64, DiskFault> {
        Ok(17)
    }

    fn read(&mut self, _at: u64, into: &mut [u8]) -> Result<usize, DiskFault> {
        let count = self.given.min(HEAD.len()).min(into.len());
        into[..count].copy_from_slice(&HEAD[..count]);
        Ok(count)
    }

    fn write(&mut self, _at: u64, _piece: &[u8]) -> Result<(), DiskFault> {
        Ok(())
    }

    fn cut(&mut self, _len: u64) -> Result<(), DiskFault> {
        Ok(())
    }

    fn sync(&mut self) -> Result<(), DiskFault> {
        Ok(())
    }
}

// What the width, an inspection and an opening say.
fn faults<D: LogDisk>(
    alloc: Global,
    [mut first, mut second, third]: [D; 3],
) -> [Option<OpenFault>; 3] {
    [
        width_of(&mut first).err(),
        inspect(alloc, &mut second, 1, 0).err(),
        open(alloc, third, 1, 0).err().map(|refused| refused.cause),
    ]
}

#[test]
fn a_short_read_of_the_head_is_no_log(rt: HostRuntime) {
    for given in 0..16 {
        let drives = [
            ShortDisk { given },
            ShortDisk { given },
            ShortDisk { given },
        ];
        assert_same!(rt; faults(rt.alloc(), drives), [Some(OpenFault::NotLog); 3]);
    }
}
