// A keeper in memory, which always tells what it holds. It fails in the calls whose numbers are listed, counted from 1 over all
// its calls.
ghost use Rattle.std.specs.Prelude.{◌≡◌, ◌↔◌, ◌⊎◌, ◌^◌, ◌-◌, true, min, length, map, IfOk, OnOk, OnErr, IfSome, IsErr, IsErrOf, MatchOption, List, ℕ};
ghost use Rattle.std.specs.List.{AllByRecursion};
ghost use Rattle.station_ports.specs.Faults.{IsListed, IsCallCounted};
ghost use Rattle.project_keeper.specs.Names.{is_name};
ghost use Rattle.project_keeper.specs.Projects.{Rows as RowsOf, is_lawful, edits_of, stored, with_project, with_edit, changed_for};
ghost use Rattle.project_keeper.specs.Keeping.{IsFaultRisen, IsAbsent, HasRoom, are_lawful, NamesDiffer, own_of};

use crate::edit::Edit;
use crate::keeper::{Keeper, KeeperRefusal};
use crate::rows::Rows;
use crate::table;
use station_ports::faults::FailingCalls;
use station_ports::outside::NoMemory;
use station_ports::texts::Name;
use std::alloc::Global;
use tree_items::Items;

/// Projects in memory. It is open from its making.
#[derive(Drop)]
pub struct MemoryKeeper {
    alloc: Global,
    rows: Rows,
    failing: FailingCalls,
    ghost lawful: { are_lawful rows.callers ≡ true },
}

impl MemoryKeeper {
    /// A keeper that holds these rows, with the numbers of the calls that are to fail. Takes no memory.
    pub fn of(alloc: Global, rows: Rows, failing: Vec<u64>) -> Self
        requires lawful { are_lawful rows.callers ≡ true }
        requires differ { NamesDiffer rows.callers }
        ensures holds { ⟦<MemoryKeeper as Keeper>⟧.holds result (own_of rows.callers) }
        ensures faults { ⟦<MemoryKeeper as Keeper>⟧.faults result ≡ 0 }
        ensures open { ⟦<MemoryKeeper as Keeper>⟧.is_open result }
        ensures tells { ⟦<MemoryKeeper as Keeper>⟧.tells result }
        ensures failing { result.failing.numbers.items ≡ failing.items }
        ensures calls { result.failing.calls ≡ 0 }
    {
        MemoryKeeper {
            alloc,
            rows,
            failing: FailingCalls::of(failing),
        }
    }
}

impl Keeper for MemoryKeeper {
    ghost faults = { λ k. k.failing.count.faults };

    ghost is_open = { λ k. Unit {0} };

    ghost tells = { λ k. Unit {0} };

    ghost holds = { λ k m. (caller : List ℕ) → m caller ≡ own_of k.rows.callers caller };

    fn open(&mut self, _name: &str) -> Result<(), KeeperRefusal> {
        if self.failing.next_fails() {
            return Err(KeeperRefusal::Failed);
        }
        Ok(())
    }

    fn projects(&mut self, caller: &Name) -> Result<Items<Name>, KeeperRefusal> {
        if self.failing.next_fails() {
            return Err(KeeperRefusal::Failed);
        }
        match table::names(self.alloc, self.rows.callers.as_slice(), caller) {
            Ok(done) => Ok(done),
            Err(NoMemory) => Err(KeeperRefusal::NoMemory),
        }
    }

    fn edits(
        &mut self,
        caller: &Name,
        project: &Name,
    ) -> Result<Option<Items<Edit>>, KeeperRefusal> {
        if self.failing.next_fails() {
            return Err(KeeperRefusal::Failed);
        }
        match table::edits(self.alloc, self.rows.callers.as_slice(), caller, project) {
            Ok(done) => Ok(done),
            Err(NoMemory) => Err(KeeperRefusal::NoMemory),
        }
    }

    fn stored_bytes(&mut self, caller: &Name) -> Result<u64, KeeperRefusal> {
        if self.failing.next_fails() {
            return Err(KeeperRefusal::Failed);
        }
        Ok(table::stored_bytes(self.rows.callers.as_slice(), caller))
    }

    fn create(&mut self, caller: &Name, project: &Name) -> Result<(), KeeperRefusal> {
        if self.failing.next_fails() {
            return Err(KeeperRefusal::Failed);
        }
        match table::create(self.alloc, &mut self.rows.callers, caller, project) {
            Ok(done) => Ok(done),
            Err(NoMemory) => Err(KeeperRefusal::NoMemory),
        }
    }

    fn append(&mut self, caller: &Name, project: &Name, edit: Edit) -> Result<(), KeeperRefusal> {
        if self.failing.next_fails() {
            return Err(KeeperRefusal::Failed);
        }
        match table::append(&mut self.rows.callers, caller, project, edit) {
            Ok(done) => Ok(done),
            Err(NoMemory) => Err(KeeperRefusal::NoMemory),
        }
    }
}
