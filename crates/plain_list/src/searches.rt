//! Binary searches by id.
ghost use Rattle.std.specs.Prelude.{◌≡◌};
ghost use Rattle.plain_list.specs.Places.{IsRising};
ghost use Rattle.plain_list.specs.World.{places_of, position_of};
ghost use Rattle.plain_list.specs.Answer.{IsIndexFor};

use crate::world::{Member, Stamped, World};

/// Returns the position of the object with this id.
pub fn find_id(world: &World, id: u64) -> Option<Stamped>
    ensures { result ≡ position_of world.now id }
{
    let members = world.as_slice();
    match index_for(members, id) {
        Ok(index) => Some(members[index].stamped()),
        Err(_) => None,
    }
}

/// Returns the index of the object with this id, or `Err` with the index at which it would be inserted.
pub(crate) fn index_for(members: &[Member], id: u64) -> Result<usize, usize>
    requires { IsRising (places_of members.now) }
    ensures { IsIndexFor id members.now result }
{
    members.binary_search_by_key(&id, |m| m.id)
}
