//! What a drive in memory leaves, picked by length and fill, and where it fails.
use disk_mem::{DiskCall, Fail as Failing, MemDisk, PickFault};
use disk_trait::{AttachFault, DiskFault, LogDisk};
use std::alloc::Global;
use std::process::Abort;

// A drive with the bytes 5 and 6, room for 8 bytes and for 8 calls. These calls fail.
fn two_bytes(rt: &impl Abort, alloc: Global, failing: &[Failing]) -> MemDisk {
    let bytes = Vec::from_slice(alloc, &[5, 6]).expect(rt, "no memory");
    let failing = Vec::from_slice(alloc, failing).expect(rt, "no memory");
    MemDisk::new(alloc, bytes, 8, 8, failing).expect(rt, "no drive")
}

// An image of a moment by a length and the value of its free bytes.
type Image = (u64, u64, u8, &'static [u8]);

fn expect_image(rt: &impl Abort, disk: &MemDisk, moment: u64, len: u64, fill: u8, want: &[u8]) {
    let image = disk.pick(moment, len, &[fill]).expect(rt, "it failed");
    assert_same!(rt; (moment, image.as_slice()), (moment, want));
}

fn expect_images(rt: &impl Abort, disk: &MemDisk, images: &[Image]) {
    for (moment, len, fill, want) in images {
        expect_image(rt, disk, *moment, *len, *fill, want);
    }
}

// Four moments: the original bytes, two writes, and a sync between them.
fn write_twice<D: LogDisk>(disk: &mut D) -> Result<(), DiskFault> {
    disk.write(0, &[7])?;
    disk.sync()?;
    disk.write(0, &[1, 2, 3])
}

const IMAGES: &[Image] = &[
    (0, 9, 4, &[5, 6]),
    (1, 9, 0, &[0, 6]),
    (1, 0, 1, &[1, 6]),
    (2, 9, 1, &[7, 6]),
    (3, 9, 0, &[0, 0, 0]),
    (3, 0, 1, &[1, 1]),
];

fn is_not_picked_above_the_clock(rt: &impl Abort, disk: &MemDisk) {
    let behind = PickFault::NoMoment { moments: 3 };
    assert_same!(rt; disk.pick(4, 9, &[0]).err(), Some(behind));
}

#[test]
fn bytes_of_a_write_are_any_until_its_sync(rt: HostRuntime) {
    let mut disk = two_bytes(&rt, rt.alloc(), &[]);
    write_twice(&mut disk).expect(&rt, "it failed");
    expect_images(&rt, &disk, IMAGES);
    is_not_picked_above_the_clock(&rt, &disk);
}

fn cut<D: LogDisk>(disk: &mut D) -> Result<(), DiskFault> {
    disk.cut(0)
}

const LENGTHS: &[Image] = &[(1, 0, 9, &[]), (1, 1, 9, &[9]), (1, 9, 9, &[9, 9])];

#[test]
fn a_cut_may_leave_each_length(rt: HostRuntime) {
    let mut disk = two_bytes(&rt, rt.alloc(), &[]);
    cut(&mut disk).expect(&rt, "it failed");
    expect_images(&rt, &disk, LENGTHS);
}

const FAILING: &[Failing] = &[
    Failing {
        call: DiskCall::Write,
        number: 1,
    },
    Failing {
        call: DiskCall::Sync,
        number: 2,
    },
    Failing {
        call: DiskCall::Attach,
        number: 2,
    },
];

#[derive(Clone, Copy)]
enum Call {
    Attach,
    Write(u8),
    WriteLong,
    Sync,
    Len,
    FirstByte,
}

fn attach<D: LogDisk>(disk: &mut D, alloc: Global) -> Result<u64, DiskFault> {
    match disk.attach(alloc, "log", false) {
        Ok(()) => Ok(0),
        Err(AttachFault::Disk) => Err(DiskFault),
        Err(AttachFault::Memory) => Ok(u64::MAX),
    }
}

fn first_byte<D: LogDisk>(disk: &mut D) -> Result<u64, DiskFault> {
    let mut byte = [0];
    disk.read(0, &mut byte)?;
    Ok(u64::from(byte[0]))
}

fn nothing(told: Result<(), DiskFault>) -> Result<u64, DiskFault> {
    match told {
        Ok(()) => Ok(0),
        Err(fault) => Err(fault),
    }
}

// Makes a call, and returns the number that it returns, if it returns one.
fn make<D: LogDisk>(disk: &mut D, alloc: Global, call: Call) -> Result<u64, DiskFault> {
    match call {
        Call::Attach => attach(disk, alloc),
        Call::Write(byte) => nothing(disk.write(0, &[byte])),
        Call::WriteLong => nothing(disk.write(0, &[1; 9])),
        Call::Sync => nothing(disk.sync()),
        Call::Len => disk.len(),
        Call::FirstByte => first_byte(disk),
    }
}

const CALLS: &[(Call, Option<u64>)] = &[
    (Call::Attach, Some(0)),
    (Call::Write(7), None),
    // A failed write leaves the bytes that a read returns.
    (Call::FirstByte, Some(5)),
    (Call::Write(8), Some(0)),
    (Call::Sync, Some(0)),
    // Beyond the room.
    (Call::WriteLong, None),
    (Call::Sync, None),
    (Call::Attach, None),
    // Beyond the calls.
    (Call::Len, None),
];

fn fails_by_kind_and_number<D: LogDisk>(rt: &impl Abort, disk: &mut D, alloc: Global) {
    for (call, told) in CALLS {
        assert_same!(rt; make(disk, alloc, *call).ok(), *told);
    }
}

#[test]
fn calls_fail_by_kind_and_number(rt: HostRuntime) {
    let mut disk = two_bytes(&rt, rt.alloc(), FAILING);
    fails_by_kind_and_number(&rt, &mut disk, rt.alloc());
    expect_image(&rt, &disk, 5, 8, 3, &[3; 8]);
}
