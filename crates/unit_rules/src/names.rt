// Names that their scope has already, and those of the standard.

ghost use Rattle.std.specs.Prelude.{◌≡◌, ◌<◌, length};
ghost use Rattle.std.specs.Option.{option_copied};
ghost use Rattle.scope_names.specs.Scopes.{StandsAt, declares};
ghost use Rattle.link_faults.specs.First.{after};
ghost use Rattle.unit_rules.specs.Twice as spec;

use link_faults::{Faults, LinkCode};
use project_declarations::{OUTERMOST, VALUES, What};
use scope_names::{NameRow, Names, is_same_name};
use st_tree::Site;
use standard_types::is_standard_name;

fn is_taken(row: &NameRow<'_, What>) -> bool
    ensures { result ≡ spec.is_taken row.now }
{
    row.scope == OUTERMOST && is_standard_name(row.name)
}

fn enumeration_of(what: What) -> Option<Site>
    ensures { result ≡ spec.enumeration_of what }
{
    match what {
        What::Value(site, _) => Some(site),
        What::Unit(_) => None,
        What::Type(_) => None,
        What::Variable(_) => None,
        What::Task(_) => None,
        What::Line(_) => None,
        What::Step(_) => None,
        What::Action(_) => None,
    }
}

fn is_same_enumeration(a: Option<Site>, b: Option<Site>) -> bool
    ensures { result ≡ spec.same_enumeration a b }
{
    match a {
        None => false,
        Some(a) => match b {
            None => false,
            Some(b) => a.file == b.file && a.node.0 == b.node.0,
        },
    }
}

fn declares_same(other: &NameRow<'_, What>, row: &NameRow<'_, What>) -> bool
    ensures { result ≡ declares row.now.scope row.now.name.now other.now }
{
    other.scope == row.scope && is_same_name(other.name, row.name)
}

/// Whether two rows are values of one name in one enumeration.
fn is_same_value(other: &NameRow<'_, What>, row: &NameRow<'_, What>) -> bool
    ensures { result ≡ spec.same_value other.now row.now }
{
    declares_same(other, row)
        && is_same_enumeration(enumeration_of(other.what), enumeration_of(row.what))
}

/// The row directly before a place.
fn row_before<'a, 't>(rows: &'a [NameRow<'t, What>], at: usize) -> Option<&'a NameRow<'t, What>>
    ensures { option_copied result ≡ spec.row_before rows.now at }
{
    if at == 0 { None } else { rows.get(at - 1) }
}

fn is_further_value(rows: &[NameRow<'_, What>], at: usize, row: &NameRow<'_, What>) -> bool
    ensures { result ≡ spec.is_same_value (spec.row_before rows.now at) row.now }
{
    match row_before(rows, at) {
        Some(other) => is_same_value(other, row),
        None => false,
    }
}

/// Whether the scope of a row, or the enumeration of a value, has its name already.
fn is_further(names: &Names<'_, What>, at: usize, row: &NameRow<'_, What>) -> bool
    requires { StandsAt names.now at row.now }
    ensures { result ≡ spec.is_further names.now at row.now }
{
    if row.scope == VALUES {
        is_further_value(names.rows(), at, row)
    } else {
        names.repeats(at)
    }
}

fn note_name(names: &Names<'_, What>, at: usize, row: &NameRow<'_, What>, faults: &mut Faults)
    requires { StandsAt names.now at row.now }
    ensures { faults.new ≡ after faults.old (spec.row_faults names.now at row.now) }
{
    if is_further(names, at, row) || is_taken(row) {
        faults.note(row.site, LinkCode::Twice);
    }
}

/// Notes the first name, by file and node, that its scope declares already, or under which the standard
/// has a function or a block where units and types are named. Takes time linear in the names.
pub fn note_names(names: &Names<'_, What>, faults: &mut Faults)
    ensures { faults.new ≡ after faults.old (spec.names_faults names.now) }
{
    for (at, row) in names.rows().iter().enumerate() {
        note_name(names, at, row, faults);
    }
}
