//! Logs byte by byte, and drives that have them.
use disk_mem::{Fail, MemDisk};
use std::alloc::Global;
use std::process::Abort;

pub(crate) const HEADER: &[u8] = b"MDLOCLOG\x02\x01\0\0\0\0\0\0";

// The clear commit byte after the last record.
pub(crate) const END: &[u8] = b"\0";

// The records: a commit byte and a kind, an id, and for a put its x, its y and its moment.
pub(crate) const PUT_1: &[u8] =
    b"\x01\x01\0\0\0\0\0\0\0\x01\0\0\0\x03\0\0\0\x05\0\0\0\0\0\0\0\x0a\0\0\0\0\0\0";

pub(crate) const PUT_2: &[u8] =
    b"\x01\x01\0\0\0\0\0\0\0\x02\0\0\0\x04\0\0\0\x04\0\0\0\0\0\0\0\x14\0\0\0\0\0\0";

pub(crate) const PUT_3: &[u8] =
    b"\x01\x01\0\0\0\0\0\0\0\x03\0\0\0\x06\0\0\0\x01\0\0\0\0\0\0\0\x0f\0\0\0\0\0\0";

pub(crate) const REMOVE_3: &[u8] =
    b"\x01\x03\0\0\0\0\0\0\0\x03\0\0\0\0\0\0\0\0\0\0\0\0\0\0\0\0\0\0\0\0\0\0";

pub(crate) const PUT_4: &[u8] =
    b"\x01\x01\0\0\0\0\0\0\0\x04\0\0\0\x07\0\0\0\x07\0\0\0\0\0\0\0\x1e\0\0\0\0\0\0";

// The first object with a later moment.
pub(crate) const LATER_1: &[u8] =
    b"\x01\x01\0\0\0\0\0\0\0\x01\0\0\0\x03\0\0\0\x05\0\0\0\0\0\0\0\x0b\0\0\0\0\0\0";

// A record whose commit byte was not set, nor that of the next one.
pub(crate) const UNSET_1: &[u8] =
    b"\0\x01\0\0\0\0\0\0\0\x01\0\0\0\x03\0\0\0\x05\0\0\0\0\0\0\0\x0a\0\0\0\0\0\0";

pub(crate) const EMPTY: &[&[u8]] = &[HEADER, END];

// Three puts and a removal, and the fresh log of them.
pub(crate) const FILLED: &[&[u8]] = &[HEADER, PUT_1, PUT_2, PUT_3, REMOVE_3, END];

pub(crate) const ANEW: &[&[u8]] = &[HEADER, PUT_1, PUT_2, END];

// The log that was filled, with one put more.
pub(crate) const FILLED_AND_ON: &[&[u8]] = &[HEADER, PUT_1, PUT_2, PUT_3, REMOVE_3, PUT_4, END];

pub(crate) const GONE_ON: &[&[u8]] = &[HEADER, PUT_1, PUT_2, PUT_4, END];

// The bytes of these pieces.
fn bytes_of(rt: &impl Abort, alloc: Global, pieces: &[&[u8]]) -> Vec<u8> {
    let mut bytes = Vec::new(alloc);
    for piece in pieces {
        bytes.extend_from_slice(piece).expect(rt, "no memory");
    }
    bytes
}

// A drive with these bytes. These of its calls fail.
pub(crate) fn disk_of(rt: &impl Abort, alloc: Global, bytes: &[u8], failing: &[Fail]) -> MemDisk {
    let bytes = Vec::from_slice(alloc, bytes).expect(rt, "no memory");
    let failing = Vec::from_slice(alloc, failing).expect(rt, "no memory");
    MemDisk::new(alloc, bytes, 1_024, 128, failing).expect(rt, "no drive")
}

pub(crate) fn disk_with(rt: &impl Abort, alloc: Global, pieces: &[&[u8]]) -> MemDisk {
    failing_disk(rt, alloc, pieces, &[])
}

// The same, and these of its calls fail.
pub(crate) fn failing_disk(
    rt: &impl Abort,
    alloc: Global,
    pieces: &[&[u8]],
    failing: &[Fail],
) -> MemDisk {
    disk_of(rt, alloc, bytes_of(rt, alloc, pieces).as_slice(), failing)
}

// Fails unless a drive has these bytes.
pub(crate) fn expect_bytes(rt: &impl Abort, alloc: Global, disk: &MemDisk, pieces: &[&[u8]]) {
    let wanted = bytes_of(rt, alloc, pieces);
    assert_same!(rt; disk.bytes(), wanted.as_slice());
}
