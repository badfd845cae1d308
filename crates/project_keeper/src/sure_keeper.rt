// A keeper in memory that never fails: its count of faults is always 0.
ghost use Rattle.std.specs.Prelude.{◌≡◌, true, List, ℕ};
ghost use Rattle.project_keeper.specs.Keeping.{are_lawful, NamesDiffer, own_of};

use crate::edit::Edit;
use crate::keeper::{Keeper, KeeperRefusal};
use crate::rows::Rows;
use crate::table;
use station_ports::outside::NoMemory;
use station_ports::texts::Name;
use std::alloc::Global;
use tree_items::Items;

/// Projects in memory. It is open from its making, and never fails.
#[derive(Drop)]
pub struct SureKeeper {
    alloc: Global,
    rows: Rows,
    ghost lawful: { are_lawful rows.callers ≡ true },
}

impl SureKeeper {
    /// A keeper that holds these rows. Takes no memory.
    pub fn of(alloc: Global, rows: Rows) -> Self
        requires lawful { are_lawful rows.callers ≡ true }
        requires differ { NamesDiffer rows.callers }
        ensures holds { ⟦<SureKeeper as Keeper>⟧.holds result (own_of rows.callers) }
        ensures open { ⟦<SureKeeper as Keeper>⟧.is_open result }
        ensures tells { ⟦<SureKeeper as Keeper>⟧.tells result }
    {
        SureKeeper { alloc, rows }
    }
}

impl Keeper for SureKeeper {
    ghost faults = { λ k. 0 };

    ghost is_open = { λ k. Unit {0} };

    ghost tells = { λ k. Unit {0} };

    ghost holds = { λ k m. (caller : List ℕ) → m caller ≡ own_of k.rows.callers caller };

    fn open(&mut self, _name: &str) -> Result<(), KeeperRefusal> {
        Ok(())
    }

    fn projects(&mut self, caller: &Name) -> Result<Items<Name>, KeeperRefusal> {
        match table::names(self.alloc, self.rows.callers.as_slice(), caller) {
            Ok(done) => Ok(done),
            Err(NoMemory) => Err(KeeperRefusal::NoMemory),
        }
    }

    fn edits(
        &mut self,
        caller: &Name,
        project: &Name,
    ) -> Result<Option<Items<Edit>>, KeeperRefusal> {
        match table::edits(self.alloc, self.rows.callers.as_slice(), caller, project) {
            Ok(done) => Ok(done),
            Err(NoMemory) => Err(KeeperRefusal::NoMemory),
        }
    }

    fn stored_bytes(&mut self, caller: &Name) -> Result<u64, KeeperRefusal> {
        Ok(table::stored_bytes(self.rows.callers.as_slice(), caller))
    }

    fn create(&mut self, caller: &Name, project: &Name) -> Result<(), KeeperRefusal> {
        match table::create(self.alloc, &mut self.rows.callers, caller, project) {
            Ok(done) => Ok(done),
            Err(NoMemory) => Err(KeeperRefusal::NoMemory),
        }
    }

    fn append(&mut self, caller: &Name, project: &Name, edit: Edit) -> Result<(), KeeperRefusal> {
        match table::append(&mut self.rows.callers, caller, project, edit) {
            Ok(done) => Ok(done),
            Err(NoMemory) => Err(KeeperRefusal::NoMemory),
        }
    }
}
