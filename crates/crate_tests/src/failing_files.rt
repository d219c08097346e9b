//! A drive over files of the test's own, one call of which fails: the drive's results then, and the calls that it makes
//! of its file.
use disk_file::{FileDisk, Hold, LockFile, Reason};
use disk_trait::LogDisk;
use std::alloc::{Allocator, Global};
use std::cell::Cell;
use std::fs::{Files, Metadata, OpenFile, OpenOptions};
use std::io;
use std::io::{ErrorKind, Read, Seek, SeekFrom, Write};
use std::process::Abort;

#[derive(Clone, Copy, Debug, PartialEq, Eq)]
enum Call {
    Open,
    Clone,
    // Another open has a lock in the way: one for reading, or one alone. Or there are no locks, or there is no memory
    // for one.
    Share,
    Alone,
    Lock,
    LockMemory,
    // The folder can't be opened or synced, or the system can't sync folders.
    Folder,
    SyncFolder,
    FolderSyncs,
    Metadata,
    SetLen,
    SyncData,
    Seek,
    Read,
    Write,
}

// The calls of a file: clones, writes, syncs of its bytes, the sum of the lengths to which it was cut, and syncs of its
// folder.
type Asked = (u64, u64, u64, u64, u64);

// The call that fails, and the calls that were made.
#[derive(Drop)]
struct Notes {
    failing: Option<Call>,
    clones: Cell<u64>,
    writes: Cell<u64>,
    syncs: Cell<u64>,
    cuts: Cell<u64>,
    folders: Cell<u64>,
}

impl Notes {
    fn new(failing: Option<Call>) -> Notes {
        Notes {
            failing,
            clones: Cell::new(0),
            writes: Cell::new(0),
            syncs: Cell::new(0),
            cuts: Cell::new(0),
            folders: Cell::new(0),
        }
    }

    fn answer(&self, call: Call) -> io::Result<()> {
        if self.failing == Some(call) {
            return Err(unsupported());
        }
        Ok(())
    }

    fn answer_of_lock(&self, hold: Hold) -> io::Result<()> {
        match (self.failing, hold) {
            (Some(Call::Share), Hold::Shared) | (Some(Call::Alone), Hold::Alone) => Err(
                io::Error::from(ErrorKind::WouldBlock),
            ),
            (Some(Call::LockMemory), _) => Err(io::Error::from(ErrorKind::OutOfMemory)),
            _ => self.answer(Call::Lock),
        }
    }

    // The folder of the file is the one that the test runs in.
    fn answer_of_folder(&self, call: Call) -> io::Result<()> {
        if self.failing == Some(call) {
            return Err(io::Error::from(ErrorKind::PermissionDenied));
        }
        Ok(())
    }

    fn asked(&self) -> Asked {
        (
            self.clones.get(),
            self.writes.get(),
            self.syncs.get(),
            self.cuts.get(),
            self.folders.get(),
        )
    }
}

fn unsupported() -> io::Error {
    io::Error::from(ErrorKind::Unsupported)
}

fn add(cell: &Cell<u64>, more: u64) {
    cell.set(cell.get().saturating_add(more));
}

// More than 32 bits hold.
const LENGTH: u64 = 4_294_967_301;

// A file that has this length, returns no bytes and accepts all.
#[derive(Drop)]
struct NotedFile<'a> {
    notes: &'a Notes,
}

impl Read for NotedFile<'_> {
    fn read(&mut self, _buf: &mut [u8]) -> io::Result<usize> {
        self.notes.answer(Call::Read)?;
        Ok(0)
    }
}

impl Write for NotedFile<'_> {
    fn write(&mut self, buf: &[u8]) -> io::Result<usize> {
        self.notes.answer(Call::Write)?;
        add(&self.notes.writes, 1);
        Ok(buf.len())
    }

    fn flush(&mut self) -> io::Result<()> {
        Ok(())
    }
}

impl Seek for NotedFile<'_> {
    fn seek(&mut self, _to: SeekFrom) -> io::Result<u64> {
        self.notes.answer(Call::Seek)?;
        Ok(0)
    }
}

impl<'a> OpenFile for NotedFile<'a> {
    fn metadata(&self) -> io::Result<Metadata> {
        self.notes.answer(Call::Metadata)?;
        Ok(Metadata::of_file(LENGTH))
    }

    fn set_len(&self, size: u64) -> io::Result<()> {
        self.notes.answer(Call::SetLen)?;
        add(&self.notes.cuts, size);
        Ok(())
    }

    fn sync_all(&self) -> io::Result<()> {
        self.notes.answer_of_folder(Call::SyncFolder)?;
        self.notes.answer(Call::FolderSyncs)?;
        add(&self.notes.folders, 1);
        Ok(())
    }

    fn sync_data(&self) -> io::Result<()> {
        self.notes.answer(Call::SyncData)?;
        add(&self.notes.syncs, 1);
        Ok(())
    }

    fn try_clone(&self) -> io::Result<NotedFile<'a>> {
        self.notes.answer(Call::Clone)?;
        add(&self.notes.clones, 1);
        Ok(NotedFile { notes: self.notes })
    }
}

impl LockFile for NotedFile<'_> {
    fn try_hold(&self, hold: Hold) -> io::Result<()> {
        self.notes.answer_of_lock(hold)
    }
}

#[derive(Drop)]
struct NotedFiles<'a> {
    notes: &'a Notes,
}

impl<'a> Files for NotedFiles<'a> {
    type File = NotedFile<'a>;

    type Dir = NotedFile<'a>;

    fn open_file(&self, how: &OpenOptions, path: &str) -> io::Result<NotedFile<'a>> {
        how.check()?;
        if path == "." {
            self.notes.answer_of_folder(Call::Folder)?;
        } else {
            self.notes.answer(Call::Open)?;
        }
        Ok(NotedFile { notes: self.notes })
    }

    fn open_dir(&self, _path: &str) -> io::Result<NotedFile<'a>> {
        Err(unsupported())
    }

    fn metadata(&self, _path: &str) -> io::Result<Metadata> {
        Err(unsupported())
    }

    fn symlink_metadata(&self, _path: &str) -> io::Result<Metadata> {
        Err(unsupported())
    }

    fn copy(&self, _from: &str, _to: &str) -> io::Result<u64> {
        Err(unsupported())
    }

    fn rename(&self, _from: &str, _to: &str) -> io::Result<()> {
        Err(unsupported())
    }

    fn remove_file(&self, _path: &str) -> io::Result<()> {
        Err(unsupported())
    }

    fn create_dir(&self, _path: &str) -> io::Result<()> {
        Err(unsupported())
    }

    fn remove_dir(&self, _path: &str) -> io::Result<()> {
        Err(unsupported())
    }

    fn remove_dir_all<B: Allocator>(&self, _alloc: B, _path: &str) -> io::Result<()> {
        Err(unsupported())
    }
}

fn attaches<D: LogDisk>(disk: &mut D, alloc: Global) -> bool {
    disk.attach(alloc, "log", true).is_ok()
}

// The length, the number of bytes that a read returns, and whether a write, a cut to seven bytes and a sync return
// `Ok`.
type Told = (Option<u64>, Option<usize>, bool, bool, bool);

fn told(disk: &mut FileDisk<NotedFiles<'_>>) -> Told {
    (
        disk.len().ok(),
        disk.read(0, &mut [0; 4]).ok(),
        disk.write(0, b"abc").is_ok(),
        disk.cut(7).is_ok(),
        disk.sync().is_ok(),
    )
}

struct Case {
    failing: Option<Call>,
    attaches: bool,
    told: Told,
    asked: Asked,
    // Why a call failed, the attach and all of them.
    reasons: (Option<Reason>, Option<Reason>),
}

const NO_FILE: Told = (None, None, false, false, false);

// Each call of a file, and the drive's result then. No failure is hidden, or reported for another call.
const CASES: &[Case] = &[
    Case {
        failing: None,
        attaches: true,
        told: (Some(LENGTH), Some(0), true, true, true),
        asked: (1, 1, 1, 7, 1),
        reasons: (None, None),
    },
    Case {
        failing: Some(Call::Open),
        attaches: false,
        told: NO_FILE,
        asked: (0, 0, 0, 0, 0),
        reasons: (Some(Reason::Other), Some(Reason::Other)),
    },
    Case {
        failing: Some(Call::Clone),
        attaches: false,
        told: NO_FILE,
        asked: (0, 0, 0, 0, 1),
        reasons: (Some(Reason::Other), Some(Reason::Other)),
    },
    Case {
        failing: Some(Call::Share),
        attaches: false,
        told: NO_FILE,
        asked: (1, 0, 0, 0, 1),
        reasons: (Some(Reason::Held), Some(Reason::Other)),
    },
    Case {
        failing: Some(Call::Alone),
        attaches: true,
        told: (Some(LENGTH), Some(0), false, false, false),
        asked: (1, 0, 0, 0, 1),
        reasons: (None, Some(Reason::Held)),
    },
    Case {
        failing: Some(Call::Lock),
        attaches: true,
        told: (Some(LENGTH), Some(0), true, true, true),
        asked: (1, 1, 1, 7, 1),
        reasons: (None, None),
    },
    Case {
        failing: Some(Call::LockMemory),
        attaches: false,
        told: NO_FILE,
        asked: (1, 0, 0, 0, 1),
        reasons: (None, Some(Reason::Other)),
    },
    Case {
        failing: Some(Call::Folder),
        attaches: false,
        told: NO_FILE,
        asked: (0, 0, 0, 0, 0),
        reasons: (Some(Reason::Denied), Some(Reason::Other)),
    },
    Case {
        failing: Some(Call::SyncFolder),
        attaches: false,
        told: NO_FILE,
        asked: (0, 0, 0, 0, 0),
        reasons: (Some(Reason::Denied), Some(Reason::Other)),
    },
    Case {
        failing: Some(Call::FolderSyncs),
        attaches: true,
        told: (Some(LENGTH), Some(0), true, true, true),
        asked: (1, 1, 1, 7, 0),
        reasons: (None, None),
    },
    Case {
        failing: Some(Call::Metadata),
        attaches: true,
        told: (None, Some(0), true, true, true),
        asked: (1, 1, 1, 7, 1),
        reasons: (None, Some(Reason::Other)),
    },
    Case {
        failing: Some(Call::SetLen),
        attaches: true,
        told: (Some(LENGTH), Some(0), true, false, true),
        asked: (1, 1, 1, 0, 1),
        reasons: (None, Some(Reason::Other)),
    },
    Case {
        failing: Some(Call::SyncData),
        attaches: true,
        told: (Some(LENGTH), Some(0), true, true, false),
        asked: (1, 1, 0, 7, 1),
        reasons: (None, Some(Reason::Other)),
    },
    Case {
        failing: Some(Call::Seek),
        attaches: true,
        told: (Some(LENGTH), None, false, true, true),
        asked: (1, 0, 1, 7, 1),
        reasons: (None, Some(Reason::Other)),
    },
    Case {
        failing: Some(Call::Read),
        attaches: true,
        told: (Some(LENGTH), None, true, true, true),
        asked: (1, 1, 1, 7, 1),
        reasons: (None, Some(Reason::Other)),
    },
    Case {
        failing: Some(Call::Write),
        attaches: true,
        told: (Some(LENGTH), Some(0), false, true, true),
        asked: (1, 0, 1, 7, 1),
        reasons: (None, Some(Reason::Other)),
    },
];

fn expect_case(rt: &impl Abort, alloc: Global, case: &Case) {
    let notes = Notes::new(case.failing);
    let mut disk = FileDisk::new(NotedFiles { notes: &notes });
    let attached = attaches(&mut disk, alloc);
    let reason = disk.reason();
    let answers = told(&mut disk);
    assert_same!(rt; (case.failing, attached, answers), (case.failing, case.attaches, case.told));
    assert_same!(rt; (case.failing, notes.asked()), (case.failing, case.asked));
    assert_same!(rt; (case.failing, (reason, disk.reason())), (case.failing, case.reasons));
}

#[test]
fn a_call_of_the_file_that_fails_is_told_and_each_call_asks_for_its_own(rt: HostRuntime) {
    for case in CASES {
        expect_case(&rt, rt.alloc(), case);
    }
}
