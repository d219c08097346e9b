//! Reads and writes that continue after short ones.
ghost use Rattle.std.specs.Prelude.{◌≤◌, ◌<◌, length, take, IfOk, OnOk};
ghost use Rattle.std.specs.Io.KnownBytes.{Appends, Consumes, IsAtEnd};
ghost use Rattle.std.specs.Io.Seek.{MovesTo};
ghost use Rattle.disk_file.specs.Moves.{GivesFrom, PutsAt};

use std::io::{self, ErrorKind, Read, Seek, SeekFrom, Write};

/// Fills `into` from the reader's position on, up to its end, and returns the number of bytes.
fn fill<F: Read>(file: &mut F, into: &mut [u8]) -> io::Result<usize>
    ensures bound { IfOk result (λ n. n ≤ length into.new) }
    ensures bytes { IfOk result (λ n. Consumes (F.remaining file.old) (F.remaining file.new) (take n into.new)) }
    ensures end { IfOk result (λ n. n < length into.new → IsAtEnd (F.remaining file.new)) }
{
    let mut at = 0;
    while at < into.len() {
        match file.read(&mut into[at..]) {
            Ok(0) => return Ok(at),
            Ok(n) => at += n,
            Err(error) => return Err(error),
        }
    }
    Ok(at)
}

/// Writes the whole piece. A write that accepts no byte is a failure.
fn put_all<F: Write>(file: &mut F, piece: &[u8]) -> io::Result<()>
    ensures bytes { OnOk result (Appends (F.contents file.old) (F.contents file.new) piece.now) }
{
    let mut at = 0;
    while at < piece.len() {
        match file.write(&piece[at..]) {
            Ok(0) => return Err(io::Error::from(ErrorKind::WriteZero)),
            Ok(n) => at += n,
            Err(error) => return Err(error),
        }
    }
    Ok(())
}

/// Moves to a place, counted from the file's start.
fn seek_to<F: Seek>(file: &mut F, at: u64) -> io::Result<()>
    ensures place { MovesTo (F.stream_position file.old) (F.stream_position file.new) at result }
{
    match file.seek(SeekFrom::Start(at)) {
        Ok(_) => Ok(()),
        Err(error) => Err(error),
    }
}

/// Reads the bytes of a file from a place on, as many as `into` has room for.
pub fn read_from<F: Read + Seek>(file: &mut F, at: u64, into: &mut [u8]) -> io::Result<usize>
    ensures bound { IfOk result (λ n. n ≤ length into.new) }
    ensures end { IfOk result (λ n. n < length into.new → IsAtEnd (F.remaining file.new)) }
    ensures gives { IfOk result (λ n. GivesFrom F.stream_position F.remaining file.old file.new at (take n into.new)) }
{
    seek_to(file, at)?;
    fill(file, into)
}

/// Writes a piece at a place of a file.
pub fn write_to<F: Write + Seek>(file: &mut F, at: u64, piece: &[u8]) -> io::Result<()>
    ensures puts { OnOk result (PutsAt F.stream_position F.contents file.old file.new at piece.now) }
{
    seek_to(file, at)?;
    put_all(file, piece)
}
