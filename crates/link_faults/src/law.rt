// What holds of the first fault, as data.

ghost use Rattle.link_faults.specs.FirstLaws as laws;

/// The fault that is kept is one of those noted, and none of these comes before it; one is kept where
/// one is noted; and which one doesn't hang on the order in which they are noted.
pub fn first_fault_laws()
    ensures least { laws.KeepsTheFirst }
    ensures none { laws.KeepsOne }
    ensures order { laws.OrderPlaysNoPart }
{}
