//! How an operation changes the list of objects, whose ids rise.
ghost use Rattle.std.specs.Prelude.{◌≡◌, OnOk, OnErr};
ghost use Rattle.plain_list.specs.World.{IsWorld};
ghost use Rattle.plain_list.specs.Answer.{after_of};

use crate::ops::Op;
use crate::searches::index_for;
use crate::world::{MOST_MEMBERS, Member};
use std::alloc::AllocError;
use zorder::coordinates_fit;

pub(crate) fn change(members: &mut Vec<Member>, op: &Op) -> Result<(), AllocError>
    requires { IsWorld members.old.items }
    ensures ok { OnOk result (members.new.items ≡ after_of members.old.items op.now) }
    ensures err { OnErr result (members.new.items ≡ members.old.items) }
    ensures world { IsWorld members.new.items }
{
    match *op {
        Op::Put { id, at, moment } => put(members, Member { id, at, moment }),
        Op::Move { id, at, moment } => {
            move_to(members, Member { id, at, moment });
            Ok(())
        }
        Op::Remove { id } => {
            remove(members, id);
            Ok(())
        }
        Op::Find { id: _ } => Ok(()),
        Op::Within { region: _ } => Ok(()),
        Op::Near { at: _, k: _ } => Ok(()),
    }
}

fn put(members: &mut Vec<Member>, member: Member) -> Result<(), AllocError>
    requires { IsWorld members.old.items }
    ensures ok { OnOk result (members.new.items ≡ after_of members.old.items (Op.Put member.id member.at member.moment)) }
    ensures err { OnErr result (members.new.items ≡ members.old.items) }
    ensures world { IsWorld members.new.items }
{
    match index_for(members, member.id) {
        Ok(_) => Ok(()),
        Err(index) => {
            if members.len() < MOST_MEMBERS {
                coordinates_fit(member.at);
                members.insert(index, member)?;
            }
            Ok(())
        }
    }
}

fn move_to(members: &mut Vec<Member>, member: Member)
    requires { IsWorld members.old.items }
    ensures after { members.new.items ≡ after_of members.old.items (Op.Move member.id member.at member.moment) }
    ensures world { IsWorld members.new.items }
{
    if let Ok(index) = index_for(members, member.id) {
        if members[index].moment <= member.moment {
            coordinates_fit(member.at);
            members[index] = member;
        }
    }
}

fn remove(members: &mut Vec<Member>, id: u64)
    requires { IsWorld members.old.items }
    ensures after { members.new.items ≡ after_of members.old.items (Op.Remove id) }
    ensures world { IsWorld members.new.items }
{
    if let Ok(index) = index_for(members, id) {
        members.remove(index);
    }
}
