// Which inputs the arguments of a call give, by place or by name.

ghost use Rattle.std.specs.Prelude.{◌≡◌, bytes_eq, map};
ghost use Rattle.iec_tables.specs.Words.{raised_all};
ghost use Rattle.st_tree.specs.declared.expression.Argument.{Argument as AnArgument};
ghost use Rattle.expression_types.specs.Inputs as spec;
ghost use Rattle.expression_types.specs.steps.Apart.{is_apart_from};

use crate::meaning::{FunctionNo, Meaning, Names};
use iec_tables::letters::raise;
use st_tree::{Argument, Identifier};

/// Whether the text is the name with letters raised.
pub(crate) fn is_same_name(text: &[u8], name: &[u8]) -> bool
    ensures { result ≡ bytes_eq text.now (raised_all name.now) }
{
    match text {
        [] => name.is_empty(),
        [first, rest @ ..] => match name {
            [] => false,
            [byte, name_rest @ ..] => *first == raise(*byte) && is_same_name(rest, name_rest),
        },
    }
}

pub(crate) fn is_enabling(name: &[u8]) -> bool
    ensures { result ≡ spec.is_enabling (raised_all name.now) }
{
    is_same_name(b"EN", name) || is_same_name(b"ENO", name)
}

/// EN or ENO, where the function declares no variable of that name.
pub(crate) fn is_undeclared<M: Meaning>(
    meaning: &M,
    function: FunctionNo,
    name: &Option<Identifier>,
) -> bool
    ensures { result ≡ spec.is_enable ((M.parts meaning.now).function function).declared name.now }
{
    match name {
        None => false,
        Some(name) => {
            if is_enabling(name.name.bytes()) {
                !meaning.declares(function, name.name.bytes())
            } else {
                false
            }
        }
    }
}

fn is_given(by_name: bool, name: &Option<Identifier>) -> bool
    ensures { result ≡ spec.is_given by_name name.now }
{
    match name {
        None => !by_name,
        Some(_) => by_name,
    }
}

/// Whether all arguments stand by name, or all by place.
#[tactic(auto, using(crate::proofs::Steps::all_next, crate::proofs::Steps::all_stop))]
pub(crate) fn are_given(arguments: &[Argument], by_name: bool) -> bool
    ensures { result ≡ spec.are_given by_name (map (λ (a : AnArgument). a.name) arguments.now) }
{
    for i in 0..arguments.len() {
        if !is_given(by_name, &arguments[i].name) {
            return false;
        }
    }
    true
}

fn written_place<M: Meaning>(
    meaning: &M,
    function: FunctionNo,
    name: &Option<Identifier>,
) -> Option<usize>
    ensures { result ≡ spec.written_place ((M.parts meaning.now).function function).inputs name.now }
{
    match name {
        None => None,
        Some(name) => meaning.input_named(function, name.name.bytes()),
    }
}

/// The place of the input that an argument gives.
pub(crate) fn place_given<M: Meaning>(
    meaning: &M,
    function: FunctionNo,
    at: usize,
    name: &Option<Identifier>,
) -> Option<usize>
    ensures { result ≡ spec.place_given ((M.parts meaning.now).function function).inputs at name.now }
{
    match name {
        None => Some(at),
        Some(name) => meaning.input_named(function, name.name.bytes()),
    }
}

/// Whether an argument from a place on, without EN and ENO, gives the input at this place.
fn is_given_again<M: Meaning>(
    meaning: &M,
    function: FunctionNo,
    arguments: &[Argument],
    place: usize,
) -> bool
    ensures { result ≡ spec.is_given_again ((M.parts meaning.now).function function).inputs
        (spec.without_enables ((M.parts meaning.now).function function).declared
        (map (λ (a : AnArgument). a.name) arguments.now)) place }
{
    for i in 0..arguments.len() {
        let name = &arguments[i].name;
        if !is_undeclared(meaning, function, name)
            && is_place(place, written_place(meaning, function, name))
        {
            return true;
        }
    }
    false
}

fn is_place(place: usize, given: Option<usize>) -> bool
    ensures { result ≡ spec.is_place place given }
{
    match given {
        None => false,
        Some(given) => place == given,
    }
}

fn is_new<M: Meaning>(
    meaning: &M,
    function: FunctionNo,
    arguments: &[Argument],
    place: Option<usize>,
) -> bool
    ensures { result ≡ spec.is_new ((M.parts meaning.now).function function).inputs
        (spec.without_enables ((M.parts meaning.now).function function).declared
        (map (λ (a : AnArgument). a.name) arguments.now)) place }
{
    match place {
        None => false,
        Some(place) => !is_given_again(meaning, function, arguments, place),
    }
}

/// EN or ENO, or the name of an input which no later argument gives again.
fn is_apart<M: Meaning>(
    meaning: &M,
    function: FunctionNo,
    name: &Option<Identifier>,
    later: &[Argument],
) -> bool
    ensures { result ≡ is_apart_from ((M.parts meaning.now).function function) name.now
        (map (λ (a : AnArgument). a.name) later.now) }
{
    if is_undeclared(meaning, function, name) {
        true
    } else {
        let place = written_place(meaning, function, name);
        is_new(meaning, function, later, place)
    }
}

/// Whether each name is that of an input, and none gives the input of another one.
#[tactic(auto, using(crate::proofs::Steps::apart_next, crate::proofs::Steps::apart_stop))]
fn are_new<M: Meaning>(meaning: &M, function: FunctionNo, arguments: &[Argument]) -> bool
    ensures { result ≡ spec.are_new ((M.parts meaning.now).function function).inputs
        (spec.without_enables ((M.parts meaning.now).function function).declared
        (map (λ (a : AnArgument). a.name) arguments.now)) }
{
    for i in 0..arguments.len() {
        if !is_apart(meaning, function, &arguments[i].name, &arguments[i + 1..]) {
            return false;
        }
    }
    true
}

/// Whether a function of the project takes this list of arguments.
pub(crate) fn fits_function<M: Meaning>(
    meaning: &M,
    function: FunctionNo,
    arguments: &[Argument],
) -> bool
    ensures { result ≡ spec.fits_function ((M.parts meaning.now).function function)
        (map (λ (a : AnArgument). a.name) arguments.now) }
{
    if are_given(arguments, false)
        && (arguments.len() == 0 || arguments.len() == meaning.input_count(function))
    {
        true
    } else {
        are_given(arguments, true) && are_new(meaning, function, arguments)
    }
}
