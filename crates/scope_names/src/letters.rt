// Names compared with their ASCII letters raised, without a copy of either.
ghost use Rattle.std.specs.Prelude.{◌≡◌, ◌↔◌, IsTrue};
ghost use Rattle.std.specs.Ordering.{nat_cmp};
ghost use Rattle.std.specs.Cmp.Lexicographic.{slice_cmp};
ghost use Rattle.iec_tables.specs.Words.{raised_all};

use iec_tables::letters::raise;
use std::cmp::Ordering;

/// Names in the order of their bytes with small letters raised; of two of which one begins the other, the shorter first.
pub fn compare_names(a: &[u8], b: &[u8]) -> Ordering
    ensures { result ≡ slice_cmp nat_cmp (raised_all a.now) (raised_all b.now) }
{
    let mut at = 0;
    while at < a.len() && at < b.len() {
        match raise(a[at]).cmp(&raise(b[at])) {
            Ordering::Equal => at += 1,
            unequal => return unequal,
        }
    }
    a.len().cmp(&b.len())
}

/// Whether two names are the same with small letters raised.
pub fn is_same_name(a: &[u8], b: &[u8]) -> bool
    ensures { IsTrue result ↔ (raised_all a.now ≡ raised_all b.now) }
{
    a.len() == b.len() && compare_names(a, b).is_eq()
}
