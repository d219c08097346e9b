//! The latest moment of objects.
ghost use Rattle.std.specs.Prelude.{◌≡◌};
ghost use Rattle.store_file.specs.Objects.{IsLatest, later};

use plain_list::Member;

/// The latest moment of these objects, if there are any.
pub fn latest_of(members: &[Member]) -> Option<u64>
    ensures { IsLatest members.now result }
{
    let mut latest = None;
    for member in members {
        latest = Some(later_of(latest, member.moment));
    }
    latest
}

// The later of two moments, if there is a first one.
fn later_of(latest: Option<u64>, moment: u64) -> u64
    ensures { result ≡ later latest moment }
{
    match latest {
        Some(before) => before.max(moment),
        None => moment,
    }
}
