// Counters of faults, and the lists of calls that are to fail in memory.
ghost use Rattle.std.specs.Prelude.{◌≡◌, ◌≤◌, ◌^◌, ◌+◌, ◌-◌, ◌↔◌, min, IsTrue};
ghost use Rattle.station_ports.specs.Faults.{IsListed, IsCallCounted};

/// A count of faults, which stays at its last value.
#[derive(Debug, Drop)]
pub struct FaultCount {
    faults: u64,
}

impl FaultCount {
    pub fn new() -> Self
        ensures { result.faults ≡ 0 }
    {
        FaultCount { faults: 0 }
    }

    /// Counts a fault.
    pub fn raise(&mut self)
        ensures later { self.old.faults ≤ self.new.faults }
        ensures counted { self.new.faults ≡ min (self.old.faults + 1) (2 ^ 64 - 1) }
    {
        self.faults = self.faults.saturating_add(1);
    }
}

/// The numbers of the calls that are to fail, counted from 1, and what was counted so far.
#[derive(Debug, Drop)]
pub struct FailingCalls {
    numbers: Vec<u64>,
    calls: u64,
    count: FaultCount,
}

impl FailingCalls {
    pub fn of(numbers: Vec<u64>) -> Self
        ensures numbers { result.numbers.items ≡ numbers.items }
        ensures calls { result.calls ≡ 0 }
        ensures faults { result.count.faults ≡ 0 }
    {
        FailingCalls {
            numbers,
            calls: 0,
            count: FaultCount::new(),
        }
    }

    /// Counts a call, and tells whether it is to fail, which is counted as a fault.
    pub fn next_fails(&mut self) -> bool
        ensures listed { IsTrue result ↔ IsListed self.old }
        ensures counted { IsCallCounted self.old self.new (IsTrue result) }
    {
        self.calls = self.calls.saturating_add(1);
        let fails = self.numbers.contains(&self.calls);
        if fails {
            self.count.raise();
        }
        fails
    }

    /// Counts a fault of another cause.
    pub fn raise(&mut self)
        ensures later { self.old.count.faults ≤ self.new.count.faults }
        ensures counted { self.new.count.faults ≡ min (self.old.count.faults + 1) (2 ^ 64 - 1) }
        ensures numbers { self.new.numbers.items ≡ self.old.numbers.items }
        ensures calls { self.new.calls ≡ self.old.calls }
    {
        self.count.raise();
    }
}
