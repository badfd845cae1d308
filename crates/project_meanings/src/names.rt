// What a name alone stands for.

ghost use Rattle.std.specs.Prelude.{◌≡◌};
ghost use Rattle.project_meanings.specs.Names as spec;
ghost use Rattle.project_meanings.specs.Tables.{body_in, whole_in};

use crate::whole::{Body, Whole};
use declared_names::{found, own_number, seen_here};
use expression_types::Seen;
use project_declarations::What;

fn is_step(what: Option<What>) -> bool
    ensures { result ≡ spec.is_step what }
{
    match what {
        Some(What::Step(_)) => true,
        _ => false,
    }
}

fn has_step(whole: &Whole<'_, '_>, body: &Body, name: &[u8]) -> bool
    ensures { result ≡ spec.has_step (whole_in whole.now).known.project body.now.unit name.now }
{
    is_step(found(whole.at.project(), body.scope, name))
}

fn is_there(number: Option<usize>) -> bool
    ensures { result ≡ spec.is_there number }
{
    match number {
        None => false,
        Some(_) => true,
    }
}

fn has_own(whole: &Whole<'_, '_>, name: &[u8]) -> bool
    ensures { result ≡ spec.has_own (whole_in whole.now) name.now }
{
    is_there(own_number(&whole.at, name))
}

fn sees_step(whole: &Whole<'_, '_>, body: &Body, name: &[u8]) -> bool
    ensures { result ≡ spec.sees_step (whole_in whole.now) (body_in body.now) name.now }
{
    has_step(whole, body, name) && !has_own(whole, name)
}

/// What a name alone stands for.
pub(crate) fn seen_there(whole: &Whole<'_, '_>, name: &[u8]) -> Seen
    ensures { result ≡ spec.seen_there (whole_in whole.now) name.now }
{
    match &whole.body {
        None => seen_here(&whole.at, name),
        Some(body) => {
            if sees_step(whole, body, name) {
                Seen::NoValue(body.step)
            } else {
                seen_here(&whole.at, name)
            }
        },
    }
}
