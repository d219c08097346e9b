//! How the drive's file is opened.
ghost use Rattle.std.specs.Prelude.{◌≡◌, ◌↔◌, true};
ghost use Rattle.std.specs.Fs.{new_options, with_read, with_write, with_create};
ghost use Rattle.std.specs.IoError.{error_kind};
ghost use Rattle.disk_file.specs.Folders.{folder_of};

use crate::held::HeldFile;
use crate::locks::LockFile;
use crate::system::or_unsupported;
use disk_trait::AttachFault;
use std::fs::{Files, OpenFile, OpenOptions};
use std::io::{self, ErrorKind};
use std::path::Path;

/// Options for reading and writing. The file is created if `make` is true and there is none.
fn options(make: bool) -> OpenOptions
    ensures { result ≡ with_create (with_write (with_read new_options true) true) make }
{
    let mut options = OpenOptions::new();
    options.read(true).write(true).create(make);
    options
}

/// The folder of a file's name: the part before the last slash, or the folder that the program runs in.
fn folder_of(name: &str) -> &str
    ensures { result.now ≡ folder_of name.now }
{
    match Path::new(name).parent() {
        Some(folder) if !folder.as_str().is_empty() => folder.as_str(),
        _ => ".",
    }
}

/// Waits until the name of a file is on the disk. Until then a crash may leave a new file under no name, whatever bytes
/// were synced.
fn sync_folder<R: Files>(rt: &R, name: &str) -> io::Result<()> {
    let mut options = OpenOptions::new();
    options.read(true);
    let folder = options.open(rt, folder_of(name))?;
    or_unsupported(folder.sync_all())
}

/// If a program starts with a standard stream closed, the system opens the file under that stream's number. Then output
/// for the stream would go into the file. A second handle never has one of these three numbers.
fn open_apart<R: Files>(rt: &R, name: &str, make: bool) -> io::Result<R::File> {
    let first = options(make).open(rt, name)?;
    if make {
        sync_folder(rt, name)?;
    }
    first.try_clone()
}

/// What an attach reports for an error of the system.
pub fn cause(error: &io::Error) -> AttachFault
    ensures { result ≡ AttachFault.Memory ↔ error_kind error.now ≡ ErrorKind.OutOfMemory }
{
    match error.kind() {
        ErrorKind::OutOfMemory => AttachFault::Memory,
        _ => AttachFault::Disk,
    }
}

/// Opens the file of a name and locks it for reading. If `make` is true and there is no file, the call creates one, and
/// it syncs the folder.
pub fn opened<R: Files>(rt: &R, name: &str, make: bool) -> io::Result<HeldFile<R::File>>
where
    R::File: LockFile,
{
    open_apart(rt, name, make).and_then(HeldFile::shared)
}
