// The names of conversions, cut at `_TO_`.
ghost use Rattle.std.specs.Prelude.{◌≡◌, ◌↔◌, ℕ, IsTrue, MatchOption, ◌++◌, codes, take};
ghost use Rattle.iec_tables.specs.Words.{raised_all};
ghost use Rattle.standard_names.specs.Joints.{HasNoJoint, IsCut};

use iec_tables::letters::raise;

// The parts of a name before and behind the first `_TO_` in it, with letters raised.
pub(crate) fn cut(name: &[u8]) -> Option<(&[u8], &[u8])>
    ensures { MatchOption result (HasNoJoint (raised_all name.now))
        (λ parts. IsCut (raised_all name.now) (raised_all parts.0.now) (raised_all parts.1.now)) }
{
    for at in 0..name.len() {
        if let Some(rest) = behind_joint(&name[at..]) {
            return Some((&name[..at], rest));
        }
    }
    None
}

// What follows `_TO_` where the text begins with it.
fn behind_joint(text: &[u8]) -> Option<&[u8]>
    ensures { MatchOption result (¬ (take 4 (raised_all text.now) ≡ codes "_TO_"))
        (λ rest. raised_all text.now ≡ codes "_TO_" ++ raised_all rest.now) }
{
    match text {
        [a, b, c, d, rest @ ..]
            if raise(*a) == b'_' && raise(*b) == b'T' && raise(*c) == b'O' && raise(*d) == b'_' => {
            Some(rest)
        },
        _ => None,
    }
}
