// Monotone systems over a finite grid.

ghost use Rattle.std.specs.Prelude.{◌≡◌, ◌+◌, ◌<◌, ◌≤◌, OnOk, length};
ghost use Rattle.least_table.specs.System.{Meaning, IsJoined, IsTable, IsMonotone, GivesBetween};

use crate::table::Table;
use station_ports::outside::NoMemory;
use station_ports::steps::Steps;
use std::alloc::Global;
use std::sync::ledger::Ledger;

/// Units that give intervals for the entries of a table, each under the entries that it reads. What
/// a system means is on a grid, each entry has a widest interval, and under a larger table no unit
/// gives less. The law is of every value of the type: what it needs to know of one, as that its
/// grid rises, stands in a ghost field.
pub trait System {
    ghost meaning: { Self → Meaning };

    /// Room that `raise` works in, so that it needs none of its own. What it holds between two
    /// calls has no meaning.
    type Scratch: Drop;

    fn scratch(&self, alloc: Global) -> Result<Self::Scratch, NoMemory>;

    /// How many entries a table of the system has.
    fn entries(&self) -> usize
        ensures { result ≡ length (meaning self.now).widest };

    /// How many units there are.
    fn units(&self) -> usize
        ensures { result ≡ (meaning self.now).units };

    /// Whether what the unit gives may depend on the entry.
    fn reads(&self, unit: usize, entry: usize) -> bool
        requires unit { unit < (meaning self.now).units }
        requires entry { entry < length (meaning self.now).widest }
        ensures { result ≡ (meaning self.now).reads unit entry };

    /// From which entry on to before which one a unit may give something. All entries, where a
    /// system doesn't say less: no others are looked through once the unit was evaluated.
    fn given(&self, _unit: usize) -> (usize, usize)
        requires { _unit < (meaning self.now).units }
        ensures order { result.0 ≤ result.1 }
        ensures whole { result.1 ≤ length (meaning self.now).widest }
        ensures outside { GivesBetween (meaning self.now) _unit result.0 result.1 }
    {
        (0, self.entries())
    }

    /// Joins into each entry of `into` what the unit gives for it under `table`. Counts one step of
    /// solving, also where there is no memory for it; what `into` holds then is not said.
    fn raise<L: Ledger>(
        &self,
        alloc: Global,
        unit: usize,
        table: &Table,
        into: &mut Table,
        scratch: &mut Self::Scratch,
        steps: &mut Steps<L>,
    ) -> Result<(), NoMemory>
        requires unit { unit < (meaning self.now).units }
        requires table { IsTable (meaning self.now) table.now }
        requires into { length into.old ≡ length (meaning self.now).widest }
        ensures steps { steps.new ≡ record steps.old { solved = steps.old.solved + 1 } }
        ensures joined { OnOk result (IsJoined ((meaning self.now).gives unit table.now) into.old into.new) };

    ghost law: { (system : Self) → IsMonotone (meaning system) };
}
