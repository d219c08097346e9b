//! What the system can't do for some files, such as those on a network: lock one, or sync a folder.
ghost use Rattle.std.specs.Prelude.{◌≡◌, ◌↔◌, Err, IsTrue, IsOk, MatchResult};
ghost use Rattle.std.specs.IoError.{error_kind};
ghost use Rattle.disk_file.specs.System.{IsUnsupported};

use std::io::{self, ErrorKind};

/// The result of a call of the system. An error that says that the system can't do this counts as success. Every other
/// error stays.
pub fn or_unsupported(answer: io::Result<()>) -> io::Result<()>
    ensures { MatchResult answer (λ _. IsOk result) (λ error.
        (IsUnsupported (error_kind error) → IsOk result) × ((IsUnsupported (error_kind error) → ⊥) → result ≡ Err error)) }
{
    match answer {
        Err(error) if is_unsupported(error.kind()) => Ok(()),
        answer => answer,
    }
}

fn is_unsupported(kind: ErrorKind) -> bool
    ensures { IsTrue result ↔ IsUnsupported kind }
{
    matches!(kind, ErrorKind::Unsupported | ErrorKind::InvalidInput)
}
