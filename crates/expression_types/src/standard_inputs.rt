// Which arguments of a call give the inputs of a function of the standard, by place or by name.

ghost use Rattle.std.specs.Prelude.{◌≡◌, [], ◌∷◌, length, map, option_map, Some};
ghost use Rattle.st_tree.specs.declared.expression.Argument.{Argument as AnArgument};
ghost use Rattle.expression_types.specs.Inputs.{without_enables};
ghost use Rattle.expression_types.specs.StandardInputs as spec;
ghost use Rattle.expression_types.specs.steps.Three as three;

use crate::arguments::{are_given, is_enabling, is_same_name};
use st_tree::{Argument, Identifier};
use standard_names::StandardFunction;

/// Where in a list of arguments those stand that give the inputs of a function. Where it has fewer
/// than three, the others say nothing.
#[derive(Clone, Copy)]
pub(crate) struct Places {
    pub(crate) first: usize,
    pub(crate) second: usize,
    pub(crate) third: usize,
}

/// EN and ENO.
pub(crate) fn is_left_out(name: &Option<Identifier>) -> bool
    ensures { result ≡ spec.is_left_out name.now }
{
    match name {
        None => false,
        Some(name) => is_enabling(name.name.bytes()),
    }
}

fn has_name(input: &[u8], name: &Option<Identifier>) -> bool
    ensures { result ≡ spec.has_name input.now name.now }
{
    match name {
        None => false,
        Some(name) => is_same_name(input, name.name.bytes()),
    }
}

/// Where in the list the argument by this name stands.
#[tactic(auto, using(crate::proofs::Placing::place_next, crate::proofs::Placing::place_stop, crate::proofs::Placing::place_end))]
fn place_named(arguments: &[Argument], input: &[u8]) -> Option<usize>
    ensures place { result ≡ spec.place_named (map (λ (a : AnArgument). a.name) arguments.now)
        input.now }
    ensures in_range { three.IsIn (length arguments.now) result }
{
    for i in 0..arguments.len() {
        if has_name(input, &arguments[i].name) {
            return Some(i);
        }
    }
    None
}

fn one_named(arguments: &[Argument], first: &[u8]) -> Option<Places>
    ensures place { option_map three.one_listed result ≡ spec.places_named (map
        (λ (a : AnArgument). a.name) arguments.now) (first.now ∷ []) }
    ensures in_range { three.AreIn (length arguments.now) result }
{
    match place_named(arguments, first) {
        None => None,
        Some(first) => Some(Places {
            first,
            second: first,
            third: first,
        }),
    }
}

fn two_named(arguments: &[Argument], first: &[u8], second: &[u8]) -> Option<Places>
    ensures place { option_map three.two_listed result ≡ spec.places_named (map
        (λ (a : AnArgument). a.name) arguments.now) (first.now ∷ second.now ∷ []) }
    ensures in_range { three.AreIn (length arguments.now) result }
{
    let at_first = place_named(arguments, first);
    let at_second = place_named(arguments, second);
    match (at_first, at_second) {
        (Some(first), Some(second)) => Some(Places {
            first,
            second,
            third: first,
        }),
        _ => None,
    }
}

fn three_named(arguments: &[Argument], first: &[u8], second: &[u8], third: &[u8]) -> Option<Places>
    ensures place { option_map three.three_listed result ≡ spec.places_named (map
        (λ (a : AnArgument). a.name) arguments.now) (first.now ∷ second.now ∷ third.now ∷ []) }
    ensures in_range { three.AreIn (length arguments.now) result }
{
    let at_first = place_named(arguments, first);
    let at_second = place_named(arguments, second);
    let at_third = place_named(arguments, third);
    match (at_first, at_second, at_third) {
        (Some(first), Some(second), Some(third)) => Some(Places {
            first,
            second,
            third,
        }),
        _ => None,
    }
}

/// Where the arguments by the names of the inputs stand.
fn places_named(called: StandardFunction, arguments: &[Argument]) -> Option<Places>
    ensures place { option_map (three.places_listed called) result ≡ spec.places_named
        (map (λ (a : AnArgument). a.name) arguments.now) (spec.inputs_of called) }
    ensures in_range { three.AreIn (length arguments.now) result }
{
    match called {
        StandardFunction::Abs | StandardFunction::Convert(_, _) => one_named(arguments, b"IN"),
        StandardFunction::Min | StandardFunction::Max => two_named(arguments, b"IN1", b"IN2"),
        StandardFunction::Limit => three_named(arguments, b"MN", b"IN", b"MX"),
        StandardFunction::Sel => three_named(arguments, b"G", b"IN0", b"IN1"),
        StandardFunction::Shl
        | StandardFunction::Shr
        | StandardFunction::Rol
        | StandardFunction::Ror => two_named(arguments, b"IN", b"N"),
    }
}

fn input_count(called: StandardFunction) -> usize
    ensures { result ≡ length (spec.inputs_of called) }
{
    match called {
        StandardFunction::Abs | StandardFunction::Convert(_, _) => 1,
        StandardFunction::Limit | StandardFunction::Sel => 3,
        _ => 2,
    }
}

/// The places of the inputs.
fn places_in_order(called: StandardFunction) -> Places
    ensures place { three.places_listed called result ≡ spec.places_from 0 (spec.inputs_of called) }
    ensures in_range { three.AreIn (length (spec.inputs_of called)) (Some result) }
{
    match called {
        StandardFunction::Abs | StandardFunction::Convert(_, _) => Places {
            first: 0,
            second: 0,
            third: 0,
        },
        StandardFunction::Limit | StandardFunction::Sel => Places {
            first: 0,
            second: 1,
            third: 2,
        },
        _ => Places {
            first: 0,
            second: 1,
            third: 0,
        },
    }
}

/// How many arguments there are, EN and ENO aside.
#[tactic(auto, using(crate::proofs::Placing::count_more, crate::proofs::Placing::count_same, crate::proofs::Placing::count_end))]
fn count_ordinary(arguments: &[Argument]) -> usize
    ensures { result ≡ length (without_enables [] (map (λ (a : AnArgument). a.name) arguments.now)) }
{
    let mut count = 0;
    for i in 0..arguments.len() {
        if !is_left_out(&arguments[i].name) {
            count += 1;
        }
    }
    count
}

/// Where the arguments stand that give the inputs of a function; none where the list doesn't fit.
pub(crate) fn places_given(called: StandardFunction, arguments: &[Argument]) -> Option<Places>
    ensures place { option_map (three.places_listed called) result ≡ spec.places_given
        (spec.inputs_of
        called) (map (λ (a : AnArgument). a.name) arguments.now) }
    ensures in_range { three.AreIn (length arguments.now) result }
{
    if are_given(arguments, false) {
        if arguments.len() == input_count(called) {
            Some(places_in_order(called))
        } else {
            None
        }
    } else if are_given(arguments, true) && count_ordinary(arguments) == input_count(called) {
        places_named(called, arguments)
    } else {
        None
    }
}
