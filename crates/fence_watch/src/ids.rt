//! Rising ids: one more, and one less.
ghost use Rattle.std.specs.Prelude.{◌≡◌, ◌+◌, ◌≤◌, vec_len, vec_capacity};
ghost use Rattle.fence_watch.specs.Watches.{with_id, without_id};
ghost use Rattle.fence_watch.specs.Guards.{AreRising};

/// There is room, so the call can't fail. An id after all others costs a search. An id before all others moves them
/// all.
pub(crate) fn put_id(ids: &mut Vec<u64>, id: u64)
    requires rising { AreRising ids.old.items }
    requires room { vec_len ids.old + 1 ≤ vec_capacity ids.old }
    ensures { ids.new.items ≡ with_id id ids.old.items }
{
    let place = ids.partition_point(|other| *other <= id);
    let _ = ids.insert(place, id);
}

pub(crate) fn take_id(ids: &mut Vec<u64>, id: u64)
    requires rising { AreRising ids.old.items }
    ensures { ids.new.items ≡ without_id id ids.old.items }
{
    if let Ok(place) = ids.binary_search(&id) {
        ids.remove(place);
    }
}
