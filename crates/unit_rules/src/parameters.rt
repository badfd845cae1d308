// The parameters of a task.

ghost use Rattle.std.specs.Prelude.{◌≡◌};
ghost use Rattle.link_faults.specs.First.{after};
ghost use Rattle.link_faults.specs.Checked.{Tells};
ghost use Rattle.link_faults.specs.declared.code.LinkCode.TheVariants as code;
ghost use Rattle.expression_types.specs.Meanings.{meant};
ghost use Rattle.unit_rules.specs.Noted.{fault_at, fault_where};
ghost use Rattle.unit_rules.specs.Parameters as spec;
ghost use Rattle.unit_rules.specs.steps.Given as steps;

use crate::noted::note_at;
use expression_types::{Meaning, Names, Place, Standing, constant_number, node_of, placed};
use iec_tables::elem::Elem;
use link_faults::{Faults, LinkCode};
use scope_names::is_same_name;
use st_tree::{Expr, Identifier, Number, Parameter};

/// The parameters that a task may have.
#[derive(Clone, Copy, Debug, PartialEq, Eq)]
pub enum ParameterKind {
    Priority,
    Interval,
    Single,
    /// None of them.
    Other,
}

/// Which parameters are given.
#[derive(Clone, Copy, Debug, PartialEq, Eq)]
pub struct Given {
    pub priority: bool,
    pub interval: bool,
    pub single: bool,
}

fn is_named(name: &[u8], word: &[u8]) -> bool
    ensures { result ≡ spec.same_names name.now word.now }
{
    is_same_name(name, word)
}

fn kind_of(name: &[u8]) -> ParameterKind
    ensures { result ≡ spec.kind_of name.now }
{
    if is_named(name, b"PRIORITY") {
        ParameterKind::Priority
    } else if is_named(name, b"INTERVAL") {
        ParameterKind::Interval
    } else if is_named(name, b"SINGLE") {
        ParameterKind::Single
    } else {
        ParameterKind::Other
    }
}

fn is_priority(number: Number) -> bool
    ensures { result ≡ spec.is_priority number }
{
    0 <= number.value && number.value <= 65_535
}

fn in_priorities<M: Meaning>(
    meaning: &M,
    file: u16,
    faults: &mut Faults,
    value: &Expr,
    number: Number,
) -> Option<Number>
    ensures { Tells (spec.in_priorities (meant (M.names meaning.now) (M.parts meaning.now)) file
        value.now number) faults.old faults.new result }
{
    if is_priority(number) {
        Some(number)
    } else {
        let standing = Standing {
            file,
            constant: true,
        };
        let node = node_of(meaning, standing, value);
        note_at(file, node, LinkCode::BadBound, faults);
        None
    }
}

/// The number of a priority.
fn priority<M: Meaning>(meaning: &M, file: u16, faults: &mut Faults, value: &Expr) -> Option<Number>
    ensures { Tells (spec.priority (meant (M.names meaning.now) (M.parts meaning.now)) file
        value.now) faults.old faults.new result }
{
    match constant_number(meaning, file, faults, Place::Integer, value) {
        Some(number) => in_priorities(meaning, file, faults, value, number),
        None => None,
    }
}

fn note_priority<M: Meaning>(meaning: &M, file: u16, value: &Expr, faults: &mut Faults)
    ensures { faults.new ≡ after faults.old (spec.priority_faults (meant (M.names meaning.now)
        (M.parts meaning.now)) file value.now) }
{
    let _number = priority(meaning, file, faults, value);
}

/// A value that needn't be constant.
fn note_value<M: Meaning>(meaning: &M, file: u16, place: Place, value: &Expr, faults: &mut Faults)
    ensures { faults.new ≡ after faults.old (spec.value_faults (meant (M.names meaning.now)
        (M.parts meaning.now)) file place value.now) }
{
    let standing = Standing {
        file,
        constant: false,
    };
    let _judged = placed(meaning, standing, faults, place, value);
}

fn note_unknown<M: Meaning>(meaning: &M, file: u16, parameter: &Parameter, faults: &mut Faults)
    ensures { faults.new ≡ after faults.old (spec.unknown_faults (meant (M.names meaning.now)
        (M.parts meaning.now)) file parameter.now) }
{
    note_at(file, parameter.name.node, LinkCode::Unknown, faults);
    note_value(meaning, file, Place::Any, parameter.value.get(), faults);
}

fn note_kind<M: Meaning>(
    meaning: &M,
    file: u16,
    kind: ParameterKind,
    parameter: &Parameter,
    faults: &mut Faults,
)
    ensures { faults.new ≡ after faults.old (spec.kind_faults (meant (M.names meaning.now)
        (M.parts meaning.now)) file parameter.now kind) }
{
    let value = parameter.value.get();
    match kind {
        ParameterKind::Priority => note_priority(meaning, file, value, faults),
        ParameterKind::Interval => {
            note_value(meaning, file, Place::Elem(Elem::Time), value, faults)
        },
        ParameterKind::Single => {
            note_value(meaning, file, Place::Elem(Elem::Bool), value, faults)
        },
        ParameterKind::Other => note_unknown(meaning, file, parameter, faults),
    }
}

fn gives(given: Given, kind: ParameterKind) -> bool
    ensures { result ≡ steps.gives given kind }
{
    match kind {
        ParameterKind::Priority => given.priority,
        ParameterKind::Interval => given.interval,
        ParameterKind::Single => given.single,
        ParameterKind::Other => false,
    }
}

fn and_given(given: Given, kind: ParameterKind) -> Given
    ensures { result ≡ steps.and_given given kind }
{
    let mut given = given;
    match kind {
        ParameterKind::Priority => given.priority = true,
        ParameterKind::Interval => given.interval = true,
        ParameterKind::Single => given.single = true,
        ParameterKind::Other => {},
    }
    given
}

fn note_twice(file: u16, given: Given, kind: ParameterKind, name: &Identifier, faults: &mut Faults)
    ensures { faults.new ≡ after faults.old (fault_where (steps.gives given kind)
        (fault_at file name.now.node code.Twice)) }
{
    if gives(given, kind) {
        note_at(file, name.node, LinkCode::Twice, faults);
    }
}

fn note_parameter<M: Meaning>(
    meaning: &M,
    file: u16,
    given: Given,
    kind: ParameterKind,
    parameter: &Parameter,
    faults: &mut Faults,
)
    ensures { faults.new ≡ after faults.old (steps.noted_of (meant (M.names meaning.now)
        (M.parts meaning.now)) file given kind parameter.now) }
{
    note_twice(file, given, kind, &parameter.name, faults);
    note_kind(meaning, file, kind, parameter, faults);
}

/// Notes what is wrong with the parameters of a task, and tells which are given.
pub(crate) fn note_parameters<M: Meaning>(
    meaning: &M,
    file: u16,
    parameters: &[Parameter],
    faults: &mut Faults,
) -> Given
    ensures noted { faults.new ≡ after faults.old (spec.parameters_faults (meant
        (M.names meaning.now) (M.parts meaning.now)) file parameters.now) }
    ensures given { result ≡ steps.given_in parameters.now }
{
    let mut given = Given {
        priority: false,
        interval: false,
        single: false,
    };
    for parameter in parameters {
        let kind = kind_of(parameter.name.name.bytes());
        note_parameter(meaning, file, given, kind, parameter, faults);
        given = and_given(given, kind);
    }
    given
}
