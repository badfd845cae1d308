// The units that wait for evaluation.

ghost use Rattle.std.specs.Prelude.{◌≡◌, ℕ, ◌<◌, IfOk, OnOk, MatchOption, [], ◌∷◌};
ghost use Rattle.std.specs.List.{Contains, range_with_len};
ghost use Rattle.least_table.specs.steps.Worklist.{IsQueued};

use std::alloc::{AllocError, Global};
use std::collections::VecDeque;
use std::marker::Model;

/// Units that wait, first in first out, each once; a mark for each unit tells whether it waits. To
/// contracts it is the number of units and the list of those that wait.
#[derive(Drop)]
pub(crate) struct Pending {
    marks: Vec<bool>,
    queue: VecDeque<usize>,
}

impl Model for Pending {
    ghost use Rattle.std.specs.Prelude.{length};
    ghost use Rattle.least_table.specs.steps.Worklist.{Waiting, AreMarked};

    ghost Value = { Waiting };

    ghost view = { λ p. record { units = length p.marks.items; queue = p.queue.items } };

    ghost invariant = { λ p. AreMarked p.marks.items p.queue.items };
}

impl Pending {
    /// All units wait, in order.
    pub(crate) fn all(alloc: Global, units: usize) -> Result<Pending, AllocError>
        ensures units { IfOk result (λ pending. pending.units ≡ units) }
        ensures all { IfOk result (λ pending. pending.queue ≡ range_with_len 0 units) }
    {
        let queue = all_units(alloc, units)?;
        let marks = vec![in alloc; true; units]?;
        Ok(Pending { marks, queue })
    }

    /// Takes the unit that has waited longest.
    pub(crate) fn take(&mut self) -> Option<usize>
        ensures units { self.new.units ≡ self.old.units }
        ensures first { MatchOption result (self.old.queue ≡ []) (λ unit. self.old.queue ≡ unit ∷ self.new.queue) }
        ensures inside { MatchOption result Unit (λ unit. unit < self.old.units) }
    {
        match self.queue.pop_front() {
            None => None,
            Some(unit) => {
                self.marks[unit] = false;
                Some(unit)
            },
        }
    }

    /// Lets a unit wait, where it doesn't yet.
    fn put(&mut self, unit: usize) -> Result<(), AllocError>
        requires { unit < self.old.units }
        ensures units { self.new.units ≡ self.old.units }
        ensures queued { OnOk result (IsQueued (unit ∷ []) self.old.queue self.new.queue) }
    {
        if !self.marks[unit] {
            self.queue.push_back(unit)?;
            self.marks[unit] = true;
        }
        Ok(())
    }

    /// Lets units wait.
    pub(crate) fn put_all(&mut self, units: &[usize]) -> Result<(), AllocError>
        requires { (unit : ℕ) → Contains units.now unit → unit < self.old.units }
        ensures units { self.new.units ≡ self.old.units }
        ensures queued { OnOk result (IsQueued units.now self.old.queue self.new.queue) }
    {
        for unit in units {
            self.put(*unit)?;
        }
        Ok(())
    }
}

fn all_units(alloc: Global, units: usize) -> Result<VecDeque<usize>, AllocError>
    ensures { IfOk result (λ queue. queue.items ≡ range_with_len 0 units) }
{
    let mut queue = VecDeque::with_capacity(alloc, units)?;
    for unit in 0..units {
        queue.push_back(unit)?;
    }
    Ok(queue)
}
