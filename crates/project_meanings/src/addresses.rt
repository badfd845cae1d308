// What an address stands for.

ghost use Rattle.std.specs.Prelude.{◌≡◌};
ghost use Rattle.st_lexer.specs.steps.Readings.{address_parts};
ghost use Rattle.declaration_order.specs.Leads.{variable_site};
ghost use Rattle.declared_names.specs.Seen as seen;
ghost use Rattle.declared_names.specs.Tables.{known_at};
ghost use Rattle.project_meanings.specs.Addresses as spec;
ghost use Rattle.project_meanings.specs.Tables.{whole_in};

use crate::whole::Whole;
use declared_names::{At, found, given_at, in_function, number_there, value_type};
use declared_types::Given;
use expression_types::{Seen, ValueType};
use project_declarations::{ADDRESSES, What};
use st_lexer::{AddressValue, address_value};
use st_tree::Site;

/// What the declaration of a number gives, if there is one.
pub(crate) fn given_there(at: &At<'_, '_>, number: Option<usize>) -> Option<Given>
    ensures { result ≡ seen.given_there (known_at at.now) number }
{
    match number {
        None => None,
        Some(number) => given_at(at, number),
    }
}

fn varying(given: Option<Given>) -> Seen
    ensures { result ≡ seen.varying given }
{
    match given {
        None => Seen::Faulty,
        Some(given) => Seen::Variable(value_type(given.ty)),
    }
}

fn declared_at(at: &At<'_, '_>, site: Site) -> Seen
    ensures { result ≡ spec.declared_at (known_at at.now) site }
{
    varying(given_there(at, number_there(at.project(), Some(site))))
}

fn by_size(value: Option<AddressValue<'_>>) -> Seen
    ensures { result ≡ spec.by_size (address_parts value.entry) }
{
    match value {
        None => Seen::Faulty,
        Some(value) => Seen::Variable(ValueType::Elem(value.width.elem())),
    }
}

fn located(at: &At<'_, '_>, address: &[u8], what: Option<What>) -> Seen
    ensures { result ≡ spec.located (known_at at.now) address.now (variable_site what) }
{
    match what {
        Some(What::Variable(site)) => declared_at(at, site),
        _ => by_size(address_value(address)),
    }
}

/// What an address stands for.
pub(crate) fn address_there(whole: &Whole<'_, '_>, address: &[u8]) -> Seen
    ensures { result ≡ spec.address_there (whole_in whole.now) address.now }
{
    let project = whole.at.project();
    if in_function(project, whole.at.owner()) {
        Seen::Foreign
    } else {
        located(&whole.at, address, found(project, ADDRESSES, address))
    }
}
