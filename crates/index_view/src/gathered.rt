//! A visitor that keeps all objects that it meets.
ghost use Rattle.std.specs.Prelude.{◌≡◌, [], false, IfOk};
ghost use Rattle.index_view.specs.Gathered.{Gathers};

use crate::visits::Visit;
use std::alloc::Global;
use zorder::{Memory, Placed};

/// The objects that it met, in the order in which it met them.
#[derive(Drop)]
pub(crate) struct Gathered {
    pub(crate) objects: Vec<Placed>,
    /// Whether memory ran out. Then some objects are missing.
    pub(crate) is_short: bool,
}

impl Gathered {
    /// Takes memory for so many objects.
    pub(crate) fn with_capacity(alloc: Global, most: usize) -> Result<Gathered, Memory>
        ensures { IfOk result (λ gathered. gathered.objects.items ≡ []) }
    {
        Ok(Gathered {
            objects: Vec::with_capacity(alloc, most)?,
            is_short: false,
        })
    }
}

impl Visit for Gathered {
    ghost does = { Gathers };

    fn visit(&mut self, object: Placed) {
        if self.objects.push(object).is_err() {
            self.is_short = true;
        }
    }
}
