// For each entry of a table the units that read it.

ghost use Rattle.std.specs.Prelude.{◌≡◌, ◌<◌, IfOk, length};
ghost use Rattle.least_table.specs.System.{readers_of};
ghost use Rattle.least_table.specs.steps.Worklist.{AreReaders};

use crate::system::System;
use std::alloc::{AllocError, Global};
use std::marker::Model;

/// The units that read an entry. To contracts it is that list.
#[derive(Drop)]
pub(crate) struct Readers {
    units: Vec<usize>,
}

impl Model for Readers {
    ghost use Rattle.std.specs.Prelude.{List, ℕ};

    ghost Value = { List ℕ };

    ghost view = { λ r. r.units.items };
}

impl Readers {
    pub(crate) fn units(&self) -> &[usize]
        ensures { result.now ≡ self.now }
    {
        self.units.as_slice()
    }
}

/// For each entry the units that read it. Asks once for each unit and entry.
pub(crate) fn all_readers<S: System>(alloc: Global, sys: &S) -> Result<Vec<Readers>, AllocError>
    ensures { IfOk result (λ readers. AreReaders (S.meaning sys.now) readers.items) }
{
    let mut readers = Vec::with_capacity(alloc, sys.entries())?;
    for entry in 0..sys.entries() {
        readers.push(readers_of_entry(alloc, sys, entry)?)?;
    }
    Ok(readers)
}

fn readers_of_entry<S: System>(alloc: Global, sys: &S, entry: usize) -> Result<Readers, AllocError>
    requires { entry < length (S.meaning sys.now).widest }
    ensures { IfOk result (λ readers. readers ≡ readers_of (S.meaning sys.now) entry) }
{
    let mut units = Vec::new(alloc);
    for unit in 0..sys.units() {
        if sys.reads(unit, entry) {
            units.push(unit)?;
        }
    }
    Ok(Readers { units })
}
