// The functions of a project as calls see them.

ghost use Rattle.std.specs.Prelude.{◌≡◌, length, map};
ghost use Rattle.std.specs.Option.{option_map};
ghost use Rattle.iec_tables.specs.Words.{raised_all};
ghost use Rattle.expression_types.specs.Inputs as inputs;
ghost use Rattle.declared_names.specs.Tables.{known_at, project_in};
ghost use Rattle.project_meanings.specs.Functions as spec;
ghost use Rattle.project_meanings.specs.Rows.{bare_inputs, bare_signature};
ghost use Rattle.project_meanings.specs.Signatures as signatures;
ghost use Rattle.project_meanings.specs.steps.Named.{is_found, place_named};
ghost use Rattle.project_meanings.specs.Tables.{whole_in};

use crate::addresses::given_there;
use crate::letters::is_one_name;
use crate::rows::{InputRow, Signature};
use crate::whole::Whole;
use declared_names::{At, Project, found, value_type};
use declared_types::{DeclType, Given};
use expression_types::{FunctionNo, Taken, ValueType};
use project_declarations::What;

fn taken_of_type(ty: DeclType) -> Taken
    ensures { result ≡ spec.taken_of_type ty }
{
    match ty {
        DeclType::Scalar(bounds) => Taken::Elem(bounds.elem),
        DeclType::Enumeration(shape) => Taken::Shape(shape),
        DeclType::Array(_) => Taken::Nothing,
        DeclType::Structure(_) => Taken::Nothing,
        DeclType::Instance(_) => Taken::Nothing,
    }
}

fn taken_of(given: Option<Given>) -> Taken
    ensures { result ≡ spec.taken_of given }
{
    match given {
        None => Taken::Anything,
        Some(given) => taken_of_type(given.ty),
    }
}

#[tactic(auto, using(crate::proofs::Inputs::taken_past))]
fn input_at(at: &At<'_, '_>, rows: &[InputRow<'_>], place: usize) -> Option<Taken>
    ensures { result ≡ inputs.taken_at (map (spec.input_of (known_at at.now)) (bare_inputs rows.now))
        place }
{
    if place < rows.len() {
        Some(taken_of(given_there(at, rows[place].number)))
    } else {
        None
    }
}

/// The place of the first input with this name.
#[tactic(auto, using(crate::proofs::Inputs::place_next, crate::proofs::Inputs::place_stop, crate::proofs::Inputs::place_end))]
fn place_of(rows: &[InputRow<'_>], name: &[u8]) -> Option<usize>
    ensures { result ≡ place_named (bare_inputs rows.now) name.now }
{
    for i in 0..rows.len() {
        if is_one_name(rows[i].name, name) {
            return Some(i);
        }
    }
    None
}

fn is_found(what: Option<What>) -> bool
    ensures { result ≡ is_found what }
{
    match what {
        None => false,
        Some(_) => true,
    }
}

/// Whether a scope declares a name.
fn is_declared(project: &Project<'_>, scope: u32, name: &[u8]) -> bool
    ensures { result ≡ inputs.is_among (spec.names_of_scope (project_in project.now) scope)
        (raised_all name.now) }
{
    is_found(found(project, scope, name))
}

fn result_of(given: Option<Given>) -> Option<ValueType>
    ensures { result ≡ spec.result_type given }
{
    match given {
        None => None,
        Some(given) => Some(value_type(given.ty)),
    }
}

fn signature<'s, 'a, 't>(
    whole: &'s Whole<'a, 't>,
    function: FunctionNo,
) -> Option<&'s Signature<'t>>
    ensures { option_map (λ row. bare_signature row.now) result
        ≡ signatures.signature_at (whole_in whole.now).known.project function.0 }
{
    whole.signatures.at(function.0 as usize)
}

/// How many inputs a function has.
pub(crate) fn input_count(whole: &Whole<'_, '_>, function: FunctionNo) -> usize
    ensures { result ≡ length (spec.function_there (whole_in whole.now).known function).inputs }
{
    match signature(whole, function) {
        None => 0,
        Some(row) => row.inputs.len(),
    }
}

/// What the input at a place takes.
pub(crate) fn input(whole: &Whole<'_, '_>, function: FunctionNo, place: usize) -> Option<Taken>
    ensures { result ≡ inputs.taken_at
        (spec.function_there (whole_in whole.now).known function).inputs place }
{
    match signature(whole, function) {
        None => None,
        Some(row) => input_at(&whole.at, row.inputs.as_slice(), place),
    }
}

/// The place of the input with this name.
#[tactic(auto, using(crate::proofs::Inputs::places_agree))]
pub(crate) fn input_named(whole: &Whole<'_, '_>, function: FunctionNo, name: &[u8]) -> Option<usize>
    ensures { result ≡ inputs.place_of
        (spec.function_there (whole_in whole.now).known function).inputs (raised_all name.now) }
{
    match signature(whole, function) {
        None => None,
        Some(row) => place_of(row.inputs.as_slice(), name),
    }
}

/// Whether a function declares a variable of this name.
pub(crate) fn declares(whole: &Whole<'_, '_>, function: FunctionNo, name: &[u8]) -> bool
    ensures { result ≡ inputs.is_among
        (spec.function_there (whole_in whole.now).known function).declared (raised_all name.now) }
{
    match signature(whole, function) {
        None => false,
        Some(row) => is_declared(whole.at.project(), row.scope, name),
    }
}

/// The type of a function's result.
pub(crate) fn result_type(whole: &Whole<'_, '_>, function: FunctionNo) -> Option<ValueType>
    ensures { result ≡ (spec.function_there (whole_in whole.now).known function).result }
{
    match signature(whole, function) {
        None => None,
        Some(row) => result_of(given_there(&whole.at, row.result)),
    }
}
