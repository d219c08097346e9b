//! Damaged logs of both versions and widths: what is found in them, and what each command does with them.
use crate::checks::{Case, EMPTY, is_untouched, run_case};
use crate::hostile::records::{ABANDON, BEGIN, DROP, INSTALL, MOVE, PUT, Record, log_of};
use crate::hostile::runs::{found_in, images_of, must};
use crate::memory::Left;
use cell_format::Cause;
use recovery::OpenFault;
use std::alloc::{AllocError, Global};
use std::process::Abort;
use std::sync::Wait;
use std::thread::Threads;

// What is to be found in a file of version 2. A file of version 1 isn't played over (`played`).
#[derive(Clone, Copy)]
struct Want {
    // The numbers of cells, points, leaves, unfinished splits, and splits that were begun.
    found: Result<[u64; 5], OpenFault>,
    status: u8,
    // What `check`, `show` and `play` write.
    texts: [&'static str; 3],
}

// Which log a file is: its version and its width.
#[derive(Clone, Copy)]
struct Head {
    version: u8,
    width: u8,
}

// A file: a log of these records, with this byte inserted at its place, and then a number of bytes cut off its end.
#[derive(Clone, Copy)]
struct Damage(&'static [Record], Option<(usize, u8)>, usize);

const PUT_7: Record = Record {
    kind: PUT,
    number: 7,
    place: 0x3_0000_0005,
    moment: 0,
    len: 0,
};

// Byte 25 set, and byte 18.
const PUT_OF_1: Record = Record { moment: 1, ..PUT_7 };

const PUT_OF_BYTE_18: Record = Record {
    moment: 0x100_0000_0000_0000,
    ..PUT_7
};

const MOVE_7: Record = Record {
    kind: MOVE,
    ..PUT_7
};

const MOVE_OF_1: Record = Record {
    kind: MOVE,
    ..PUT_OF_1
};

const DROP_7: Record = Record {
    kind: DROP,
    place: 0,
    ..PUT_7
};

const DROP_AT_A_PLACE: Record = Record {
    place: 0x100_0000_0000_0000,
    ..DROP_7
};

const KIND_0: Record = Record { kind: 0, ..DROP_7 };

const KIND_7: Record = Record { kind: 7, ..DROP_7 };

const KIND_9: Record = Record { kind: 9, ..DROP_7 };

// Begin 1 of the empty name.
const BEGIN_1: Record = Record {
    kind: BEGIN,
    number: 1,
    place: 0,
    moment: 0,
    len: 0,
};

const BEGIN_2: Record = Record {
    number: 2,
    ..BEGIN_1
};

// Begin 2 of `1`, and of `10`.
const BEGIN_2_OF_1: Record = Record {
    place: 0x8000_0000_0000_0000,
    len: 1,
    ..BEGIN_2
};

const BEGIN_2_OF_10: Record = Record {
    len: 2,
    ..BEGIN_2_OF_1
};

const BEGIN_OF_0: Record = Record { len: 1, ..BEGIN_1 };

const BEGIN_OF_64_BITS: Record = Record { len: 64, ..BEGIN_1 };

const BEGIN_OF_65_BITS: Record = Record { len: 65, ..BEGIN_1 };

// A name of one bit, and a second bit after it.
const BEGIN_WITH_A_STRAY_BIT: Record = Record {
    place: 0xC000_0000_0000_0000,
    len: 1,
    ..BEGIN_1
};

const INSTALL_1: Record = Record {
    kind: INSTALL,
    ..BEGIN_1
};

const INSTALL_2: Record = Record {
    kind: INSTALL,
    ..BEGIN_2
};

const ABANDON_1: Record = Record {
    kind: ABANDON,
    ..BEGIN_1
};

const NOT_LOG: Want = Want {
    found: Err(OpenFault::NotLog),
    status: 4,
    texts: ["refused not a log\n"; 3],
};

const OF_VERSION_0: Want = Want {
    found: Err(OpenFault::OldLog {
        version: 0,
        width: 1,
    }),
    texts: ["refused log version 0 width 1\n"; 3],
    ..NOT_LOG
};

const OF_VERSION_3: Want = Want {
    found: Err(OpenFault::OldLog {
        version: 3,
        width: 1,
    }),
    texts: ["refused log version 3 width 1\n"; 3],
    ..NOT_LOG
};

const QUAD_OF_VERSION_3: Want = Want {
    found: Err(OpenFault::OldLog {
        version: 3,
        width: 2,
    }),
    texts: ["refused log version 3 width 2\n"; 3],
    ..NOT_LOG
};

const OF_WIDTH_3: Want = Want {
    found: Err(OpenFault::OldLog {
        version: 2,
        width: 3,
    }),
    texts: ["refused log version 2 width 3\n"; 3],
    ..NOT_LOG
};

const OF_1_AND_WIDTH_3: Want = Want {
    found: Err(OpenFault::OldLog {
        version: 1,
        width: 3,
    }),
    texts: ["refused log version 1 width 3\n"; 3],
    ..NOT_LOG
};

const SHORT: Want = Want {
    found: Err(OpenFault::Damaged {
        cell: 0,
        cause: Cause::ShortCell,
    }),
    texts: ["refused cell 0 short\n"; 3],
    ..NOT_LOG
};

const KIND: Want = Want {
    found: Err(OpenFault::Damaged {
        cell: 0,
        cause: Cause::Kind,
    }),
    texts: ["refused cell 0 kind\n"; 3],
    ..NOT_LOG
};

const RESERVED: Want = Want {
    found: Err(OpenFault::Damaged {
        cell: 0,
        cause: Cause::Reserved,
    }),
    texts: ["refused cell 0 reserved\n"; 3],
    ..NOT_LOG
};

const NAME: Want = Want {
    found: Err(OpenFault::Damaged {
        cell: 0,
        cause: Cause::BadName,
    }),
    texts: ["refused cell 0 name\n"; 3],
    ..NOT_LOG
};

const IMPOSSIBLE_0: Want = Want {
    found: Err(OpenFault::Damaged {
        cell: 0,
        cause: Cause::Impossible,
    }),
    texts: ["refused cell 0 impossible\n"; 3],
    ..NOT_LOG
};

const IMPOSSIBLE_1: Want = Want {
    found: Err(OpenFault::Damaged {
        cell: 1,
        cause: Cause::Impossible,
    }),
    texts: ["refused cell 1 impossible\n"; 3],
    ..NOT_LOG
};

const IMPOSSIBLE_2: Want = Want {
    found: Err(OpenFault::Damaged {
        cell: 2,
        cause: Cause::Impossible,
    }),
    texts: ["refused cell 2 impossible\n"; 3],
    ..NOT_LOG
};

const NOTHING: Want = Want {
    found: Ok([0, 0, 1, 0, 0]),
    status: 0,
    texts: [
        "cells 0\npoints 0\nleaves 1\nunfinished 0\n",
        "id,x,y,moment\n",
        lines!("1,1,absent,\n"),
    ],
};

const ONE_PUT: Want = Want {
    found: Ok([1, 1, 1, 0, 0]),
    status: 0,
    texts: [
        "cells 1\npoints 1\nleaves 1\nunfinished 0\n",
        "id,x,y,moment\n7,3,5,0\n",
        lines!("1,1,at,3:5:0\n"),
    ],
};

const PUT_AND_MOVE: Want = Want {
    found: Ok([2, 1, 1, 0, 0]),
    texts: [
        "cells 2\npoints 1\nleaves 1\nunfinished 0\n",
        "id,x,y,moment\n7,3,5,0\n",
        lines!("1,1,at,3:5:0\n"),
    ],
    ..ONE_PUT
};

const PUT_AND_MOVE_OF_1: Want = Want {
    texts: [
        "cells 2\npoints 1\nleaves 1\nunfinished 0\n",
        "id,x,y,moment\n7,3,5,1\n",
        lines!("1,1,at,3:5:1\n"),
    ],
    ..PUT_AND_MOVE
};

const ONE_PUT_OF_1: Want = Want {
    texts: [
        "cells 1\npoints 1\nleaves 1\nunfinished 0\n",
        "id,x,y,moment\n7,3,5,1\n",
        lines!("1,1,at,3:5:1\n"),
    ],
    ..ONE_PUT
};

const ONE_PUT_OF_BYTE_18: Want = Want {
    texts: [
        "cells 1\npoints 1\nleaves 1\nunfinished 0\n",
        "id,x,y,moment\n7,3,5,72057594037927936\n",
        lines!("1,1,at,3:5:72057594037927936\n"),
    ],
    ..ONE_PUT
};

const SECOND_BEGIN_INSTALLED: Want = Want {
    found: Ok([3, 0, 2, 0, 2]),
    status: 0,
    texts: [
        "cells 3\npoints 0\nleaves 2\nunfinished 0\n",
        "id,x,y,moment\n",
        lines!("1,1,absent,\n"),
    ],
};

const FOUR_LEAVES: Want = Want {
    found: Ok([3, 0, 4, 0, 2]),
    texts: [
        "cells 3\npoints 0\nleaves 4\nunfinished 0\n",
        "id,x,y,moment\n",
        lines!("1,1,absent,\n"),
    ],
    ..SECOND_BEGIN_INSTALLED
};

const SECOND_BEGIN_OPEN: Want = Want {
    found: Ok([3, 0, 1, 1, 2]),
    status: 0,
    texts: [
        "cells 3\npoints 0\nleaves 1\nunfinished 1\n",
        "id,x,y,moment\n",
        lines!("1,1,absent,\n"),
    ],
};

const SECOND_SPLIT_OPEN: Want = Want {
    found: Ok([3, 0, 2, 1, 2]),
    texts: [
        "cells 3\npoints 0\nleaves 2\nunfinished 1\n",
        "id,x,y,moment\n",
        lines!("1,1,absent,\n"),
    ],
    ..SECOND_BEGIN_OPEN
};

const SECOND_SPLIT_OF_FOUR_OPEN: Want = Want {
    found: Ok([3, 0, 4, 1, 2]),
    texts: [
        "cells 3\npoints 0\nleaves 4\nunfinished 1\n",
        "id,x,y,moment\n",
        lines!("1,1,absent,\n"),
    ],
    ..SECOND_BEGIN_OPEN
};

// The files in which each is to be found in both versions and widths. Bytes 0 to 15 are the header, whose byte 8 is the
// version. Record n begins at byte 16 + 32 n.
const FILES: &[(Want, &[Damage])] = &[
    (
        NOT_LOG,
        &[
            Damage(&[], None, 1),
            Damage(&[], None, 17),
            Damage(&[], Some((7, b'H')), 0),
            Damage(&[], Some((10, 1)), 0),
            Damage(&[], Some((15, 1)), 0),
        ],
    ),
    // Commit bytes.
    (
        NOTHING,
        &[
            Damage(&[], None, 0),
            Damage(&[], Some((16, 255)), 0),
            Damage(&[PUT_7], Some((16, 0)), 0),
        ],
    ),
    (
        ONE_PUT,
        &[
            Damage(&[PUT_7], None, 0),
            Damage(&[PUT_7, PUT_7], Some((48, 2)), 7),
        ],
    ),
    (
        SHORT,
        &[
            Damage(&[PUT_7], None, 1),
            Damage(&[PUT_7], None, 32),
            Damage(&[], Some((16, 1)), 0),
        ],
    ),
    // Spellings.
    (
        KIND,
        &[
            Damage(&[KIND_0], None, 0),
            Damage(&[KIND_7], None, 0),
            Damage(&[KIND_9], Some((47, 1)), 0),
        ],
    ),
    (
        RESERVED,
        &[
            Damage(&[PUT_7], Some((42, 1)), 0),
            Damage(&[PUT_7], Some((47, 1)), 0),
            Damage(&[DROP_AT_A_PLACE], None, 0),
            Damage(&[BEGIN_OF_65_BITS], Some((35, 1)), 0),
        ],
    ),
    (
        NAME,
        &[
            Damage(&[BEGIN_OF_65_BITS], None, 0),
            Damage(&[BEGIN_WITH_A_STRAY_BIT], None, 0),
        ],
    ),
    // Records that can't follow those before them.
    (
        IMPOSSIBLE_0,
        &[
            Damage(&[BEGIN_2], None, 0),
            Damage(&[BEGIN_OF_0], None, 0),
            Damage(&[BEGIN_OF_64_BITS], None, 0),
            Damage(&[INSTALL_1], None, 0),
            Damage(&[ABANDON_1], None, 0),
            Damage(&[MOVE_7], None, 0),
            Damage(&[DROP_7], None, 0),
        ],
    ),
    (IMPOSSIBLE_1, &[Damage(&[PUT_7, PUT_7], None, 0)]),
    (PUT_AND_MOVE, &[Damage(&[PUT_7, MOVE_7], None, 0)]),
    (
        IMPOSSIBLE_2,
        &[
            Damage(&[BEGIN_1, BEGIN_2, INSTALL_1], None, 0),
            Damage(&[BEGIN_1, INSTALL_1, BEGIN_2], None, 0),
            Damage(&[BEGIN_1, INSTALL_1, INSTALL_1], None, 0),
        ],
    ),
    (
        SECOND_BEGIN_OPEN,
        &[Damage(&[BEGIN_1, ABANDON_1, BEGIN_2], None, 0)],
    ),
];

// The same if splits create two leaves.
const FILES_BY_TWO: &[(Want, &[Damage])] = &[
    (OF_VERSION_0, &[Damage(&[], Some((8, 0)), 0)]),
    (OF_VERSION_3, &[Damage(&[], Some((8, 3)), 0)]),
    (
        SECOND_BEGIN_INSTALLED,
        &[Damage(&[BEGIN_1, BEGIN_2, INSTALL_2], None, 0)],
    ),
    (
        SECOND_SPLIT_OPEN,
        &[Damage(&[BEGIN_1, INSTALL_1, BEGIN_2_OF_1], None, 0)],
    ),
    (
        IMPOSSIBLE_2,
        &[Damage(&[BEGIN_1, INSTALL_1, BEGIN_2_OF_10], None, 0)],
    ),
];

// The same if they create four. There is no leaf that only a split in two would create.
const FILES_BY_FOUR: &[(Want, &[Damage])] = &[
    (QUAD_OF_VERSION_3, &[Damage(&[], Some((8, 3)), 0)]),
    (
        FOUR_LEAVES,
        &[Damage(&[BEGIN_1, BEGIN_2, INSTALL_2], None, 0)],
    ),
    (
        SECOND_SPLIT_OF_FOUR_OPEN,
        &[Damage(&[BEGIN_1, INSTALL_1, BEGIN_2_OF_10], None, 0)],
    ),
    (
        IMPOSSIBLE_2,
        &[Damage(&[BEGIN_1, INSTALL_1, BEGIN_2_OF_1], None, 0)],
    ),
];

// The files in which each is to be found in one version alone. The moments of version 2 are reserved bytes in version
// 1.
const FILES_OF_1: &[(Want, &[Damage])] = &[
    (OF_1_AND_WIDTH_3, &[Damage(&[], Some((9, 3)), 0)]),
    (
        RESERVED,
        &[
            Damage(&[PUT_OF_1], None, 0),
            Damage(&[PUT_OF_BYTE_18], None, 0),
            Damage(&[MOVE_OF_1], None, 0),
        ],
    ),
];

const FILES_OF_2: &[(Want, &[Damage])] = &[
    (OF_WIDTH_3, &[Damage(&[], Some((9, 3)), 0)]),
    (ONE_PUT_OF_1, &[Damage(&[PUT_OF_1], None, 0)]),
    (ONE_PUT_OF_BYTE_18, &[Damage(&[PUT_OF_BYTE_18], None, 0)]),
    (
        PUT_AND_MOVE_OF_1,
        &[
            Damage(&[PUT_7, MOVE_OF_1], None, 0),
            Damage(&[PUT_OF_1, MOVE_OF_1], None, 0),
        ],
    ),
    (IMPOSSIBLE_1, &[Damage(&[PUT_OF_1, MOVE_7], None, 0)]),
];

fn file_of(alloc: Global, head: Head, damage: &Damage) -> Result<Vec<u8>, AllocError> {
    let Damage(records, edit, cut) = *damage;
    let mut file = log_of(alloc, head.width, records, &[0])?;
    set(&mut file, 8, head.version);
    if let Some((at, byte)) = edit {
        set(&mut file, at, byte);
    }
    file.truncate(file.len().saturating_sub(cut));
    Ok(file)
}

fn set(file: &mut Vec<u8>, at: usize, byte: u8) {
    if let Some(slot) = file.get_mut(at) {
        *slot = byte;
    }
}

fn is_found<R: Abort>(rt: &R, alloc: Global, file: &[u8], head: Head, want: &Want) -> bool {
    match found_in(rt, alloc, head.width, file) {
        Ok(found) => want.found == Ok(found.counts) && found.version == head.version,
        Err(fault) => want.found == Err(fault),
    }
}

// A run in which `play` looks up object 7.
const ASKING: &Case<'static> = &Case {
    input: rows!("1,where,7,,,,,\n"),
    ..EMPTY
};

// The same over a file that must not change.
fn asking<'a>(file: &'a [u8], want: &Want) -> Case<'a> {
    Case {
        file: Some(file),
        status: want.status,
        held: file,
        ..*ASKING
    }
}

fn judge_reads<R: Abort + Threads + Wait + Sync>(rt: &R, alloc: Global, file: &[u8], want: &Want) {
    let [checked, shown, _] = want.texts;
    let asking = asking(file, want);
    let check = Case {
        name: "check of a damaged log",
        words: &["check", "log"],
        text: checked,
        ..asking
    };
    is_untouched(rt, alloc, &check);
    let show = Case {
        name: "show of a damaged log",
        words: &["show", "log", "0", "0", "3", "5"],
        text: shown,
        ..asking
    };
    is_untouched(rt, alloc, &show);
}

// A refused play leaves the file unchanged and no history, and a crash leaves the file at each moment.
fn judge_kept<R: Abort>(rt: &R, alloc: Global, left: &Left, file: &[u8]) {
    for image in images_of(rt, alloc, left).iter() {
        let is_same = image.bytes.as_slice() == file;
        must(rt, is_same, "crash in a play at moment", image.moment);
    }
    let is_kept = left.history().is_empty() && left.file() == file;
    must(rt, is_kept, "play of a file of length", file.len() as u64);
}

fn refused_of_1(width: u8) -> &'static str {
    match width {
        2 => "refused log version 1 width 2\n",
        _ => "refused log version 1 width 1\n",
    }
}

// The status and the text of a play. A play over version 1 is refused, unless the header is faulty.
fn played(head: Head, want: &Want) -> (u8, &'static str) {
    let is_header = matches!(
        want.found,
        Err(OpenFault::NotLog) | Err(OpenFault::OldLog { .. })
    );
    if head.version == 1 && !is_header {
        return (4, refused_of_1(head.width));
    }
    let [_, _, text] = want.texts;
    (want.status, text)
}

fn judge_play<R: Abort + Threads + Wait + Sync>(
    rt: &R,
    alloc: Global,
    file: &[u8],
    head: Head,
    want: &Want,
) {
    let (status, text) = played(head, want);
    let left = run_case(rt, alloc, &asking(file, want));
    must(rt, left.tells(status, text), text, head.version as u64);
    if status != 0 {
        judge_kept(rt, alloc, &left, file);
    }
}

fn judge<R: Abort + Threads + Wait + Sync>(
    rt: &R,
    alloc: Global,
    head: Head,
    damage: &Damage,
    want: &Want,
) {
    let file = file_of(alloc, head, damage).expect(rt, "it failed");
    let file = file.as_slice();
    let [checked, _, _] = want.texts;
    let is_found = is_found(rt, alloc, file, head, want);
    must(rt, is_found, checked, head.version as u64);
    judge_reads(rt, alloc, file, want);
    judge_play(rt, alloc, file, head, want);
}

fn each_file<R: Abort + Threads + Wait + Sync>(
    rt: &R,
    alloc: Global,
    head: Head,
    all: &[(Want, &[Damage])],
) {
    for (want, files) in all {
        for damage in files.iter() {
            judge(rt, alloc, head, damage, want);
        }
    }
}

fn each_version<R: Abort + Threads + Wait + Sync>(
    rt: &R,
    alloc: Global,
    width: u8,
    of_width: &[(Want, &[Damage])],
) {
    for (version, of_version) in [(1, FILES_OF_1), (2, FILES_OF_2)] {
        let head = Head { version, width };
        each_file(rt, alloc, head, FILES);
        each_file(rt, alloc, head, of_version);
        each_file(rt, alloc, head, of_width);
    }
}

#[test]
fn each_damaged_log_has_its_line_under_each_command(rt: HostRuntime) {
    each_version(&rt, rt.alloc(), 1, FILES_BY_TWO);
    each_version(&rt, rt.alloc(), 2, FILES_BY_FOUR);
}
