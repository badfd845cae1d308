// Names compared with their letters raised, as equal or not.

ghost use Rattle.std.specs.Prelude.{◌≡◌, bytes_eq};
ghost use Rattle.iec_tables.specs.Words.{raised_all};

use iec_tables::letters::raise;
use scope_names::is_same_name;

/// Whether two names are one.
#[tactic(auto, using(crate::proofs::Same::decided))]
pub fn is_one_name(a: &[u8], b: &[u8]) -> bool
    ensures { result ≡ bytes_eq (raised_all a.now) (raised_all b.now) }
{
    is_same_name(a, b)
}

/// Whether a text is a name with its letters raised.
pub fn is_raised(text: &[u8], name: &[u8]) -> bool
    ensures { result ≡ bytes_eq text.now (raised_all name.now) }
{
    match text {
        [] => name.is_empty(),
        [first, rest @ ..] => match name {
            [] => false,
            [byte, name_rest @ ..] => *first == raise(*byte) && is_raised(rest, name_rest),
        },
    }
}
