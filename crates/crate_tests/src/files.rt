//! A drive over a real file of the temporary folder.
use crate::checks::same_bytes;
use crate::folder::{expect_taken_away, path_of};
use crate::logs::files::is_read_back;
use disk_file::{FileDisk, LockFile, Reason};
use disk_trait::{AttachFault, DiskFault, LogDisk};
use std::alloc::Global;
use std::env::Env;
use std::fs::Files;
use std::path::PathBuf;
use std::process::Abort;
use std::{fs, process};

fn attach<D: LogDisk>(
    disk: &mut D,
    alloc: Global,
    name: &str,
    make: bool,
) -> Result<(), AttachFault> {
    disk.attach(alloc, name, make)
}

fn fill_and_cut<D: LogDisk>(rt: &impl Abort, disk: &mut D) {
    disk.write(0, b"abcd").expect(rt, "no write");
    disk.write(2, b"xyz").expect(rt, "no write");
    disk.write(0, b"A").expect(rt, "no write");
    disk.sync().expect(rt, "no sync");
    disk.cut(4).expect(rt, "no cut");
}

// Reads from the second byte on, and returns six bytes of the buffer.
fn read<D: LogDisk>(rt: &impl Abort, disk: &mut D) -> [u8; 6] {
    let mut into = [b'-'; 6];
    disk.read(1, &mut into).expect(rt, "no read");
    into
}

fn length<D: LogDisk>(disk: &mut D) -> Result<u64, DiskFault> {
    disk.len()
}

fn is_not_made<D: LogDisk>(rt: &impl Abort, disk: &mut D, alloc: Global, name: &str) {
    assert_is!(rt; length(disk).is_err());
    assert_is!(rt; matches!(attach(disk, alloc, name, false), Err(AttachFault::Disk)));
}

fn is_made<D: LogDisk>(rt: &impl Abort, disk: &mut D, alloc: Global, name: &str) {
    assert_is!(rt; attach(disk, alloc, name, true).is_ok());
    assert_is!(rt; matches!(length(disk), Ok(0)));
    fill_and_cut(rt, disk);
    same_bytes(rt, &read(rt, disk), b"bxy---");
    assert_is!(rt; matches!(length(disk), Ok(4)));
}

fn is_there<R: Abort + Files>(rt: &R, name: &str) -> bool {
    fs::exists(rt, name).expect(rt, "nobody knows")
}

fn makes_a_file<R: Abort + Files + AllocGlobal, D: LogDisk>(rt: &R, disk: &mut D, name: &str) {
    is_not_made(rt, disk, rt.alloc(), name);
    assert_is!(rt; !is_there(rt, name));
    is_made(rt, disk, rt.alloc(), name);
    expect_taken_away(rt, name, b"Abxy");
}

// The drive may be sent to a thread.
fn keeps_what_is_written<R: Abort + Files + AllocGlobal, D: LogDisk + Send>(
    rt: &R,
    mut disk: D,
    name: &str,
) {
    makes_a_file(rt, &mut disk, name);
    is_read_back(rt, disk, name);
}

// Two drives read the file. One that wants to change it is refused, and then has no lock. So the other one changes it,
// and from then on no third drive can read it.
fn has_one_writer<R: Abort + AllocGlobal, D: LogDisk>(rt: &R, drives: [D; 3], name: &str) {
    let [mut first, mut second, mut third] = drives;
    assert_is!(rt; attach(&mut first, rt.alloc(), name, true).is_ok());
    assert_is!(rt; attach(&mut second, rt.alloc(), name, false).is_ok());
    is_refused(rt, &mut first);
    second.write(0, b"ab").expect(rt, "no write");
    assert_is!(rt; first.sync().is_err());
    assert_is!(rt; matches!(attach(&mut third, rt.alloc(), name, false), Err(AttachFault::Disk)));
}

fn is_refused<D: LogDisk>(rt: &impl Abort, disk: &mut D) {
    assert_is!(rt; disk.sync().is_err());
    assert_is!(rt; disk.cut(0).is_err());
    assert_is!(rt; disk.write(0, b"xyz").is_err());
    assert_is!(rt; matches!(length(disk), Ok(0)));
}

fn drive<R: Abort + Files + Clone + Drop>(rt: &R) -> FileDisk<R> {
    FileDisk::new(rt.clone().expect(rt, "it failed"))
}

fn path<R: Abort + Env + AllocGlobal>(rt: &R, case: &str, id: u32) -> PathBuf {
    let name = format!(in rt.alloc(); "disk_file-{case}-{id}").expect(rt, "a name");
    path_of(rt, name.as_str())
}

// Why a file isn't opened that isn't there, and why another drive doesn't open it that has written to it.
fn reasons<R: Abort + Files + Clone + Drop + AllocGlobal>(rt: &R, name: &str) -> [Option<Reason>; 2]
where
    R::File: LockFile,
{
    let (mut writer, mut reader) = (drive(rt), drive(rt));
    assert_is!(rt; attach(&mut writer, rt.alloc(), name, false).is_err());
    assert_is!(rt; attach(&mut writer, rt.alloc(), name, true).is_ok());
    writer.write(0, b"ab").expect(rt, "no write");
    assert_is!(rt; attach(&mut reader, rt.alloc(), name, false).is_err());
    [writer.reason(), reader.reason()]
}

#[test]
fn a_file_is_made_where_it_may_be_and_keeps_what_is_written_a_log_too(rt: HostRuntime) {
    let path = path(&rt, "kept", process::id(rt.process()));
    keeps_what_is_written(&rt, drive(&rt), path.as_str());
}

#[test]
fn an_open_that_reads_a_file_is_in_the_way_of_a_writer_and_a_writer_of_all(rt: HostRuntime) {
    let path = path(&rt, "locked", process::id(rt.process()));
    let drives = [drive(&rt), drive(&rt), drive(&rt)];
    has_one_writer(&rt, drives, path.as_str());
    expect_taken_away(&rt, path.as_str(), b"ab");
}

#[test]
fn a_drive_says_why_its_last_failed_call_failed(rt: HostRuntime) {
    let path = path(&rt, "reasons", process::id(rt.process()));
    let wanted = [Some(Reason::Missing), Some(Reason::Held)];
    assert_same!(rt; reasons(&rt, path.as_str()), wanted);
    expect_taken_away(&rt, path.as_str(), b"ab");
}
