//! The attaches of a drive in memory.
ghost use Rattle.std.specs.Prelude.{◌≡◌, IfOk};

use std::alloc::{AllocError, Global};
use std::marker::Model;

/// An attach that returned Ok.
#[derive(Drop)]
pub struct Attached {
    name: String,
    make: bool,
}

impl Model for Attached {
    ghost use Rattle.disk_trait.specs.Drive.{Attach};
    ghost use Rattle.std.specs.Prelude.{string_bytes};

    ghost Value = { Attach };

    ghost view = { λ a. record { name = string_bytes a.name; make = a.make } };
}

impl Attached {
    pub(crate) fn new(alloc: Global, name: &str, make: bool) -> Result<Attached, AllocError>
        ensures { IfOk result (λ a. a ≡ record { name = name.now; make = make }) }
    {
        let name = String::from_str(alloc, name)?;
        Ok(Attached { name, make })
    }

    pub fn name(&self) -> &str
        ensures { result.now ≡ self.now.name }
    {
        self.name.as_str()
    }

    /// Returns whether the attach might create the file.
    pub fn makes(&self) -> bool
        ensures { result ≡ self.now.make }
    {
        self.make
    }
}
