// Two counts of steps that contracts see and that nothing but a step raises.
ghost use Rattle.std.specs.Prelude.{◌≡◌, ℕ, ◌+◌, ◌-◌, ◌^◌, min};
ghost use Rattle.station_ports.specs.Views.{StepsView};

use std::marker::Model;
use std::sync::ledger::{Blank, Book, Ledger, Share};

/// The steps of parsing and of solving. The counts are amounts of two shares of one ledger, which take no bytes; two numbers
/// rise with them for tests, and stay at their last value. There is no way to copy them.
#[derive(Drop)]
pub struct Steps<L: Ledger> {
    book: Book<L>,
    parsing: Share<L>,
    solving: Share<L>,
    parsed: u64,
    solved: u64,
}

impl<L: Ledger> Model for Steps<L> {
    ghost Value = { StepsView };

    ghost view = { λ s. record { parsed = s.parsing.amount; solved = s.solving.amount } };

    ghost invariant = { λ s. (s.parsing.parts ≡ 1) × (s.solving.parts ≡ 1)
        × (s.parsed ≡ min s.parsing.amount (2 ^ 64 - 1)) × (s.solved ≡ min s.solving.amount (2 ^ 64 - 1)) };
}

impl<L: Ledger> Steps<L> {
    /// No steps yet, over a new ledger of two parts. The runtime is asked for so that no call which is given steps, and has no
    /// runtime, can count on others. Takes no memory.
    pub fn new(_runtime: &HostRuntime, blank: Blank) -> Self
        requires name { blank.name ≡ L.name }
        requires parts { blank.parts ≡ L.parts }
        requires two { blank.parts ≡ 2 }
        ensures parsed { result.parsed ≡ 0 }
        ensures solved { result.solved ≡ 0 }
    {
        let (book, mut parsing) = blank.open::<L>();
        let solving = parsing.split_off(1, 0);
        Steps {
            book,
            parsing,
            solving,
            parsed: 0,
            solved: 0,
        }
    }

    /// Counts one step of parsing.
    pub fn parse_step(&mut self)
        ensures { self.new ≡ record self.old { parsed = self.old.parsed + 1 } }
    {
        self.book.add(&mut self.parsing, 1);
        self.parsed = self.parsed.saturating_add(1);
    }

    /// Counts one step of solving.
    pub fn solve_step(&mut self)
        ensures { self.new ≡ record self.old { solved = self.old.solved + 1 } }
    {
        self.book.add(&mut self.solving, 1);
        self.solved = self.solved.saturating_add(1);
    }

    /// The parse steps, as far as a u64 goes.
    pub fn parsed(&self) -> u64
        ensures { result ≡ min self.now.parsed (2 ^ 64 - 1) }
    {
        self.parsed
    }

    /// The solve steps, as far as a u64 goes.
    pub fn solved(&self) -> u64
        ensures { result ≡ min self.now.solved (2 ^ 64 - 1) }
    {
        self.solved
    }
}
