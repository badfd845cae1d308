// The loops around a statement.

ghost use Rattle.std.specs.Prelude.{◌≡◌};
ghost use Rattle.body_rules.specs.Loops as spec;
ghost use Rattle.body_rules.specs.steps.Around.{around};

use scope_names::is_same_name;

/// The loops around a statement, from the innermost out.
#[derive(Drop)]
pub(crate) enum Loops<'a> {
    Outermost,
    /// A loop that counts no variable.
    Within(&'a Loops<'a>),
    /// A FOR with the name of its variable.
    Counting(&'a [u8], &'a Loops<'a>),
}

pub(crate) fn is_in_loop(loops: &Loops<'_>) -> bool
    ensures { result ≡ spec.is_in_loop (around loops.now) }
{
    match loops {
        Loops::Outermost => false,
        Loops::Within(_) => true,
        Loops::Counting(_, _) => true,
    }
}

/// Whether a name is that of the variable of a loop around.
pub(crate) fn counts(loops: &Loops<'_>, name: &[u8]) -> bool
    ensures { result ≡ spec.counts (around loops.now) name.now }
{
    match loops {
        Loops::Outermost => false,
        Loops::Within(outer) => counts(outer, name),
        Loops::Counting(variable, outer) => is_same_name(variable, name) || counts(outer, name),
    }
}
