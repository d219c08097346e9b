//! A drive whose content is unknown can keep the trait's contract.
use disk_trait::{AttachFault, DiskFault, LogDisk};
use std::alloc::Global;

/// Accepts every write and forgets it, and fails at each attach.
#[derive(Drop)]
struct ForgetfulDisk {
    faults: u64,
}

impl LogDisk for ForgetfulDisk {
    ghost use Rattle.std.specs.Prelude.{None};

    ghost drive = { λ d. record { bytes = None; images = λ c. Unit {0}; clock = 0; since = λ t c. Unit {0}; faults = d.faults; calls = None; attaches = None } };

    ghost keeps_laws = { λ d. record { counts_now = λ t c le now. tt; only_now = λ c since. tt; longer = λ s t c le since. tt; held = λ xs told. tt } };

    fn attach(&mut self, _alloc: Global, _name: &str, _make: bool) -> Result<(), AttachFault> {
        self.faults = self.faults.saturating_add(1);
        Err(AttachFault::Disk)
    }

    fn len(&mut self) -> Result<u64, DiskFault> {
        Ok(0)
    }

    fn read(&mut self, _at: u64, _into: &mut [u8]) -> Result<usize, DiskFault> {
        Ok(0)
    }

    fn write(&mut self, _at: u64, _piece: &[u8]) -> Result<(), DiskFault> {
        Ok(())
    }

    fn cut(&mut self, _len: u64) -> Result<(), DiskFault> {
        Ok(())
    }

    fn sync(&mut self) -> Result<(), DiskFault> {
        Ok(())
    }
}

fn write_and_sync<D: LogDisk>(disk: &mut D) -> Result<(), DiskFault> {
    disk.write(0, b"log")?;
    disk.sync()
}

#[test]
fn a_drive_that_tells_nothing_is_a_drive(rt: HostRuntime) {
    let mut disk = ForgetfulDisk { faults: 0 };
    let attached = disk.attach(rt.alloc(), "log", true);
    assert_is!(rt; matches!(attached, Err(AttachFault::Disk)));
    write_and_sync(&mut disk).expect(&rt, "it failed");
    disk.cut(0).expect(&rt, "it failed");
    assert_same!(rt; (disk.len(), disk.read(0, &mut [0; 4])), (Ok(0), Ok(0)));
}
