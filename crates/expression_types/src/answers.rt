// Answers of several parts that stand side by side.

ghost use Rattle.std.specs.Prelude.{◌≡◌, ◌&&◌};
ghost use Rattle.expression_types.specs.steps.Several as spec;

use crate::judged::Judged;

/// Whether all are good, one more of them.
pub(crate) fn still_good(all: bool, next: Option<Judged>) -> bool
    ensures { result ≡ spec.still_good all next }
{
    match next {
        Some(_) => all,
        None => false,
    }
}

/// Whether all are good, several more of them.
pub(crate) fn all_good(all: bool, next: bool) -> bool
    ensures { result ≡ (all && next) }
{
    all && next
}

/// The answer, where those beside it are good, too.
pub(crate) fn where_all<T: Copy>(all: bool, answer: Option<T>) -> Option<T>
    ensures { result ≡ spec.where_all all answer }
{
    match all {
        true => answer,
        false => None,
    }
}
