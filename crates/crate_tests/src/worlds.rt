//! Worlds of listed objects.
use plain_list::{Op, World, after};
use std::alloc::Global;
use zorder::{Memory, Placed};

/// The world after one more operation.
pub fn next(world: World, op: &Op) -> Result<World, Memory> {
    match after(world, op) {
        Ok(world) => Ok(world),
        Err(_) => Err(Memory),
    }
}

/// A world of these objects, each with moment 0.
pub fn world_of(alloc: Global, objects: &[Placed]) -> Result<World, Memory> {
    let mut world = World::empty(alloc);
    for object in objects {
        let Placed { id, at } = *object;
        world = next(world, &Op::Put { id, at, moment: 0 })?;
    }
    Ok(world)
}
