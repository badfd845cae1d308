// What an expression is, or its faults: each call notes the first fault, and answers None where there is
// one, or where what is faulty elsewhere is used.

ghost use Rattle.std.specs.Prelude.{◌≡◌, ◌<◌, [], ◌∷◌, Some, length, map};
ghost use Rattle.link_faults.specs.Checked.{Tells};
ghost use Rattle.expression_types.specs.Lists.{TellsAll};
ghost use Rattle.expression_types.specs.Meanings.{meant};
ghost use Rattle.expression_types.specs.Reads as reads;
ghost use Rattle.expression_types.specs.Calls as calls;
ghost use Rattle.expression_types.specs.Shared as shared;
ghost use Rattle.expression_types.specs.StandardCalls as standard;
ghost use Rattle.expression_types.specs.steps.Three as three;
ghost use Rattle.expression_types.specs.declared.judged.Place.TheVariants as place;
ghost use Rattle.expression_types.specs.Judge as spec;
ghost use Rattle.expression_types.specs.declared.meaning.Taken.TheVariants as taken;

use crate::answers::{all_good, still_good, where_all};
use crate::arguments::{fits_function, is_undeclared, place_given};
use crate::function_calls::{function_result, taken_by, whole_code};
use crate::judged::{ExprType, Judged, Place, Standing};
use crate::loose::node_of;
use crate::meaning::{Callee, FunctionNo, Meaning, Names, Seen, Taken, ValueType};
use crate::operators::{operated_pair, with_unary};
use crate::parts::{element_of, field_of, root_seen, root_type};
use crate::places::fitted;
use crate::rules::{
    known, known_number, number_literal, plain, truth_number, typed, typed_literal, used,
    value_of_type, varying, without_own, wrong,
};
use crate::shared::{elementary, of_three, of_two};
use crate::standard_calls::{its_type, this_type};
use crate::standard_inputs::{is_left_out, places_given};
use iec_tables::elem::Elem;
use link_faults::{Faults, LinkCode};
use st_tree::{
    Argument, BinaryOperator, Expr, Identifier, Node, Number, Part, Path, UnaryOperator,
};
use standard_names::StandardFunction;

/// Whether all indices are integers.
#[cycle(expression)]
#[tactic(auto, using(crate::proofs::Loops::told_step, crate::proofs::Loops::all_end))]
fn are_integers<M: Meaning>(
    meaning: &M,
    standing: Standing,
    faults: &mut Faults,
    indices: &[Expr],
) -> bool
    ensures { TellsAll (reads.indices_in (meant (M.names meaning.now) (M.parts meaning.now))
        standing (map (spec.read (meant (M.names meaning.now) (M.parts meaning.now)) standing)
        indices.now)) faults.old faults.new result }
{
    let mut all = true;
    for i in 0..indices.len() {
        all = still_good(
            all,
            placed(meaning, standing, faults, Place::Integer, &indices[i]),
        );
    }
    all
}

/// The indices of what is no array that is known.
#[cycle(expression)]
#[tactic(auto, using(crate::proofs::Told::alone))]
fn indices_alone<M: Meaning>(
    meaning: &M,
    standing: Standing,
    faults: &mut Faults,
    indices: &[Expr],
) -> Option<ValueType>
    ensures { Tells (reads.indices_alone (meant (M.names meaning.now) (M.parts meaning.now))
        standing (map (spec.read (meant (M.names meaning.now) (M.parts meaning.now)) standing)
        indices.now)) faults.old faults.new result }
{
    let _also = are_integers(meaning, standing, faults, indices);
    None
}

/// An element of what stands before it.
#[cycle(expression)]
#[tactic(auto, using(crate::proofs::Indices::index_told))]
fn element<M: Meaning>(
    meaning: &M,
    standing: Standing,
    faults: &mut Faults,
    node: Node,
    indices: &[Expr],
    before: ValueType,
) -> Option<ValueType>
    ensures { Tells (reads.indexed (meant (M.names meaning.now) (M.parts meaning.now)) standing
        node (map (spec.read (meant (M.names meaning.now) (M.parts meaning.now)) standing)
        indices.now) before) faults.old faults.new result }
{
    let element = element_of(meaning, standing, faults, node, indices.len(), before);
    let all = are_integers(meaning, standing, faults, indices);
    where_all(all, element)
}

/// A part of what stands before it, where that is known.
#[cycle(expression)]
#[tactic(auto, unfolding(crate::specs::Judge::read_part, crate::specs::Judge::read))]
fn part_type<M: Meaning>(
    meaning: &M,
    standing: Standing,
    faults: &mut Faults,
    node: Node,
    before: Option<ValueType>,
    part: &Part,
) -> Option<ValueType>
    ensures { Tells (reads.part_of (spec.read_part (meant (M.names meaning.now) (M.parts
        meaning.now)) standing part.now) node before) faults.old faults.new result }
{
    match part {
        Part::Field(name) => match before {
            None => None,
            Some(before) => field_of(meaning, standing, faults, node, name, before),
        },
        Part::Index(_, indices) => match before {
            None => indices_alone(meaning, standing, faults, indices.as_slice()),
            Some(before) => { element(meaning, standing, faults, node, indices.as_slice(), before) }
        },
    }
}

/// From part to part.
#[cycle(expression)]
#[tactic(auto, using(crate::proofs::Loops::part_step, crate::proofs::Loops::part_end))]
fn walk<M: Meaning>(
    meaning: &M,
    standing: Standing,
    faults: &mut Faults,
    node: Node,
    before: Option<ValueType>,
    parts: &[Part],
) -> Option<ValueType>
    ensures { Tells (reads.walk node (map (spec.read_part (meant (M.names meaning.now) (M.parts
        meaning.now)) standing) parts.now) before) faults.old faults.new result }
{
    let mut ty = before;
    for i in 0..parts.len() {
        ty = part_type(meaning, standing, faults, node, ty, &parts[i]);
    }
    ty
}

/// A variable's part.
#[cycle(expression)]
#[tactic(auto, using(crate::proofs::Told::both_some, crate::proofs::Told::both_left, crate::proofs::Told::both_right))]
fn with_parts<M: Meaning>(
    meaning: &M,
    standing: Standing,
    faults: &mut Faults,
    node: Node,
    seen: Seen,
    parts: &[Part],
) -> Option<Judged>
    ensures { Tells (reads.with_parts standing node (map (spec.read_part (meant (M.names
        meaning.now) (M.parts meaning.now)) standing) parts.now) (reads.root_type standing node
        seen)) faults.old faults.new result }
{
    match root_type(faults, standing, node, seen) {
        None => {
            let _also = walk(meaning, standing, faults, node, None, parts);
            None
        }
        Some(root) => match walk(meaning, standing, faults, node, Some(root), parts) {
            None => None,
            Some(last) => Some(varying(standing, typed(last))),
        },
    }
}

/// What is seen, alone or with parts.
#[cycle(expression)]
#[tactic(auto, using(crate::proofs::Told::parts_told))]
fn seen_judged<M: Meaning>(
    meaning: &M,
    standing: Standing,
    faults: &mut Faults,
    node: Node,
    seen: Seen,
    parts: &[Part],
) -> Option<Judged>
    ensures { Tells (reads.seen_judged standing node seen (map (spec.read_part (meant (M.names
        meaning.now) (M.parts meaning.now)) standing) parts.now)) faults.old faults.new result }
{
    match parts {
        [] => used(faults, standing, node, seen),
        [_, ..] => with_parts(meaning, standing, faults, node, seen, parts),
    }
}

/// A variable, a constant, or a part of one.
#[cycle(expression)]
#[tactic(auto, unfolding(crate::specs::Judge::read_path, crate::specs::Judge::read_part))]
pub fn judge_path<M: Meaning>(
    meaning: &M,
    standing: Standing,
    faults: &mut Faults,
    path: &Path,
) -> Option<Judged>
    ensures { Tells (spec.read_path (meant (M.names meaning.now) (M.parts meaning.now)) standing
        path.now).judged faults.old faults.new result }
{
    let seen = root_seen(meaning, &path.root);
    seen_judged(
        meaning,
        standing,
        faults,
        path.node,
        seen,
        path.parts.as_slice(),
    )
}

/// The value of an argument, where any type will do.
#[cycle(expression)]
#[tactic(auto, unfolding(crate::specs::Judge::read_argument, crate::specs::Judge::read))]
fn argument_value<M: Meaning>(
    meaning: &M,
    standing: Standing,
    faults: &mut Faults,
    argument: &Argument,
) -> Option<Judged>
    ensures { Tells (reads.argument_value (meant (M.names meaning.now) (M.parts meaning.now))
        standing (spec.read_argument (meant (M.names meaning.now) (M.parts meaning.now)) standing
        argument.now)) faults.old faults.new result }
{
    placed(meaning, standing, faults, Place::Any, argument.value.get())
}

/// Whether the arguments' values hold no faults.
#[cycle(expression)]
#[tactic(auto, using(crate::proofs::Loops::told_step, crate::proofs::Loops::all_end))]
fn are_values<M: Meaning>(
    meaning: &M,
    standing: Standing,
    faults: &mut Faults,
    arguments: &[Argument],
) -> bool
    ensures { TellsAll (reads.arguments_in (meant (M.names meaning.now) (M.parts meaning.now))
        standing (map (spec.read_argument (meant (M.names meaning.now) (M.parts meaning.now))
        standing) arguments.now)) faults.old faults.new result }
{
    let mut all = true;
    for i in 0..arguments.len() {
        all = still_good(
            all,
            argument_value(meaning, standing, faults, &arguments[i]),
        );
    }
    all
}

/// Where nothing can be called so, the values of the arguments are judged all the same.
#[cycle(expression)]
#[tactic(auto, using(crate::proofs::Told::with_all_told))]
fn uncalled<M: Meaning>(
    meaning: &M,
    standing: Standing,
    faults: &mut Faults,
    node: Node,
    code: LinkCode,
    arguments: &[Argument],
) -> Option<Judged>
    ensures { Tells (calls.uncalled (meant (M.names meaning.now) (M.parts meaning.now)) standing
        node code (map (spec.read_argument (meant (M.names meaning.now) (M.parts meaning.now))
        standing)
        arguments.now)) faults.old faults.new result }
{
    let called = wrong(faults, standing, node, code);
    let all = are_values(meaning, standing, faults, arguments);
    where_all(all, called)
}

/// EN and ENO are out of profile.
#[cycle(expression)]
#[tactic(auto, unfolding(crate::specs::Judge::read_argument, crate::specs::Judge::read), using(crate::proofs::Told::both_left))]
fn enabled<M: Meaning>(
    meaning: &M,
    standing: Standing,
    faults: &mut Faults,
    argument: &Argument,
) -> Option<Judged>
    ensures { Tells (reads.enabled (meant (M.names meaning.now) (M.parts meaning.now)) standing
        (spec.read_argument (meant (M.names meaning.now) (M.parts meaning.now)) standing
        argument.now)
        argument.now.name) faults.old faults.new result }
{
    match &argument.name {
        None => argument_value(meaning, standing, faults, argument),
        Some(name) => {
            let left: Option<Judged> = wrong(faults, standing, name.node, LinkCode::OutOfProfile);
            let _also = argument_value(meaning, standing, faults, argument);
            left
        }
    }
}

// ---- functions of the project

/// The value of what takes none but whole arrays, structures and blocks.
#[cycle(expression)]
#[tactic(auto, using(crate::proofs::Told::bind_some, crate::proofs::Told::bind_none))]
fn whole_value<M: Meaning>(
    meaning: &M,
    standing: Standing,
    faults: &mut Faults,
    e: &Expr,
) -> Option<Judged>
    ensures { Tells (calls.value_taken (meant (M.names meaning.now) (M.parts meaning.now)) standing
        (spec.read (meant (M.names meaning.now) (M.parts meaning.now)) standing e.now) (Some
        taken.Nothing))
        faults.old faults.new result }
{
    match placed(meaning, standing, faults, Place::Any, e) {
        None => None,
        Some(judged) => whole_code(
            meaning,
            standing,
            faults,
            node_of(meaning, standing, e),
            judged.ty,
        ),
    }
}

/// The value of an input.
#[cycle(expression)]
fn value_taken<M: Meaning>(
    meaning: &M,
    standing: Standing,
    faults: &mut Faults,
    e: &Expr,
    taken: Option<Taken>,
) -> Option<Judged>
    ensures { Tells (calls.value_taken (meant (M.names meaning.now) (M.parts meaning.now)) standing
        (spec.read (meant (M.names meaning.now) (M.parts meaning.now)) standing e.now) taken)
        faults.old faults.new result }
{
    match taken {
        None => placed(meaning, standing, faults, Place::Any, e),
        Some(Taken::Anything) => placed(meaning, standing, faults, Place::Any, e),
        Some(Taken::Elem(elem)) => placed(meaning, standing, faults, Place::Elem(elem), e),
        Some(Taken::Shape(shape)) => placed(meaning, standing, faults, Place::Shape(shape), e),
        Some(Taken::Nothing) => whole_value(meaning, standing, faults, e),
    }
}

/// An argument at its place in the list.
#[cycle(expression)]
#[tactic(auto, unfolding(crate::specs::Judge::read_argument, crate::specs::Judge::read))]
fn given<M: Meaning>(
    meaning: &M,
    standing: Standing,
    faults: &mut Faults,
    function: FunctionNo,
    at: usize,
    argument: &Argument,
) -> Option<Judged>
    ensures { Tells (calls.given (meant (M.names meaning.now) (M.parts meaning.now)) standing
        ((M.parts meaning.now).function function) at
        (spec.read_argument (meant (M.names meaning.now) (M.parts meaning.now)) standing argument.now)) faults.old faults.new result }
{
    if is_undeclared(meaning, function, &argument.name) {
        enabled(meaning, standing, faults, argument)
    } else {
        let place = place_given(meaning, function, at, &argument.name);
        let taken = taken_by(meaning, function, place);
        value_taken(meaning, standing, faults, argument.value.get(), taken)
    }
}

/// Whether the arguments hold no faults.
#[cycle(expression)]
#[tactic(auto, using(crate::proofs::Calls::given_step, crate::proofs::Calls::given_end))]
fn are_all_given<M: Meaning>(
    meaning: &M,
    standing: Standing,
    faults: &mut Faults,
    function: FunctionNo,
    arguments: &[Argument],
) -> bool
    ensures { TellsAll (calls.all_given (meant (M.names meaning.now) (M.parts meaning.now)) standing
        ((M.parts meaning.now).function function) 0
        (map (spec.read_argument (meant (M.names meaning.now) (M.parts meaning.now)) standing) arguments.now)) faults.old faults.new result }
{
    let mut all = true;
    for i in 0..arguments.len() {
        all = still_good(
            all,
            given(meaning, standing, faults, function, i, &arguments[i]),
        );
    }
    all
}

#[cycle(expression)]
#[tactic(auto, using(crate::proofs::Calls::function_told))]
fn function_call<M: Meaning>(
    meaning: &M,
    standing: Standing,
    faults: &mut Faults,
    node: Node,
    function: FunctionNo,
    arguments: &[Argument],
) -> Option<Judged>
    ensures { Tells (calls.function_called (meant (M.names meaning.now) (M.parts meaning.now))
        standing node ((M.parts meaning.now).function
        function) (map (spec.read_argument (meant (M.names meaning.now) (M.parts meaning.now)) standing) arguments.now)) faults.old faults.new
        result }
{
    let fits = fits_function(meaning, function, arguments);
    let called = function_result(meaning, standing, faults, node, function, fits);
    let all = are_all_given(meaning, standing, faults, function, arguments);
    where_all(all, called)
}

// ---- functions of the standard

/// An operand that shares the type of others.
#[cycle(expression)]
#[tactic(auto, using(crate::proofs::Told::bind_some, crate::proofs::Told::bind_none))]
fn sharing<M: Meaning>(
    meaning: &M,
    standing: Standing,
    faults: &mut Faults,
    e: &Expr,
) -> Option<Judged>
    ensures { Tells (shared.sharing standing (spec.read (meant (M.names meaning.now) (M.parts
        meaning.now)) standing e.now)) faults.old faults.new result }
{
    match judge(meaning, standing, faults, e) {
        Some(judged) => elementary(faults, standing, node_of(meaning, standing, e), judged),
        None => None,
    }
}

/// Two operands of one type, by the places of their arguments.
#[cycle(expression)]
fn shared_by_two<M: Meaning>(
    meaning: &M,
    standing: Standing,
    faults: &mut Faults,
    node: Node,
    arguments: &[Argument],
    p: usize,
    q: usize,
) -> Option<Judged>
    requires first { p < length arguments.now }
    requires second { q < length arguments.now }
    ensures { Tells (shared.shared (meant (M.names meaning.now) (M.parts meaning.now)) standing node
        ((three.value_or (map (spec.read_argument (meant (M.names meaning.now) (M.parts
        meaning.now)) standing) arguments.now) p) ∷ (three.value_or (map (spec.read_argument (meant
        (M.names meaning.now) (M.parts meaning.now)) standing) arguments.now) q) ∷ [])) faults.old
        faults.new result }
{
    let x = arguments[p].value.get();
    let y = arguments[q].value.get();
    let i = sharing(meaning, standing, faults, x);
    let j = sharing(meaning, standing, faults, y);
    of_two(meaning, standing, faults, node, x, y, i, j)
}

/// Three operands of one type.
#[cycle(expression)]
fn shared_by_three<M: Meaning>(
    meaning: &M,
    standing: Standing,
    faults: &mut Faults,
    node: Node,
    arguments: &[Argument],
    p: usize,
    q: usize,
    r: usize,
) -> Option<Judged>
    requires first { p < length arguments.now }
    requires second { q < length arguments.now }
    requires third { r < length arguments.now }
    ensures { Tells (shared.shared (meant (M.names meaning.now) (M.parts meaning.now)) standing node
        ((three.value_or (map (spec.read_argument (meant (M.names meaning.now) (M.parts
        meaning.now)) standing) arguments.now) p) ∷ (three.value_or (map (spec.read_argument (meant
        (M.names meaning.now) (M.parts meaning.now)) standing) arguments.now) q) ∷ (three.value_or
        (map (spec.read_argument (meant (M.names meaning.now) (M.parts meaning.now)) standing)
        arguments.now) r) ∷ [])) faults.old faults.new result }
{
    let x = arguments[p].value.get();
    let y = arguments[q].value.get();
    let z = arguments[r].value.get();
    let i = sharing(meaning, standing, faults, x);
    let j = sharing(meaning, standing, faults, y);
    let k = sharing(meaning, standing, faults, z);
    of_three(meaning, standing, faults, node, x, y, z, i, j, k)
}

/// One of two by a BOOL.
#[cycle(expression)]
fn selected<M: Meaning>(
    meaning: &M,
    standing: Standing,
    faults: &mut Faults,
    node: Node,
    arguments: &[Argument],
    p: usize,
    q: usize,
    r: usize,
) -> Option<Judged>
    requires first { p < length arguments.now }
    requires second { q < length arguments.now }
    requires third { r < length arguments.now }
    ensures { Tells (standard.selected (meant (M.names meaning.now) (M.parts meaning.now)) standing
        node (three.value_or (map (spec.read_argument (meant (M.names meaning.now) (M.parts
        meaning.now)) standing) arguments.now) p) (three.value_or (map (spec.read_argument (meant
        (M.names meaning.now) (M.parts meaning.now)) standing) arguments.now) q) (three.value_or
        (map (spec.read_argument (meant (M.names meaning.now) (M.parts meaning.now)) standing)
        arguments.now) r)) faults.old faults.new result }
{
    let called = shared_by_two(meaning, standing, faults, node, arguments, q, r);
    let g = arguments[p].value.get();
    let beside = placed(meaning, standing, faults, Place::Elem(Elem::Bool), g);
    where_all(still_good(true, beside), called)
}

/// A value at its place, where the call is of its type.
#[cycle(expression)]
fn of_its_type<M: Meaning>(
    meaning: &M,
    standing: Standing,
    faults: &mut Faults,
    place: Place,
    arguments: &[Argument],
    p: usize,
) -> Option<Judged>
    requires { p < length arguments.now }
    ensures { Tells (standard.of_its_type standing (reads.placed_read (meant (M.names meaning.now)
        (M.parts meaning.now)) standing place (three.value_or (map (spec.read_argument (meant
        (M.names meaning.now) (M.parts meaning.now)) standing) arguments.now) p))) faults.old
        faults.new result }
{
    let x = arguments[p].value.get();
    let value = placed(meaning, standing, faults, place, x);
    its_type(standing, value)
}

/// A value at a type, where the call is of another.
#[cycle(expression)]
fn converted<M: Meaning>(
    meaning: &M,
    standing: Standing,
    faults: &mut Faults,
    from: Elem,
    to: Elem,
    arguments: &[Argument],
    p: usize,
) -> Option<Judged>
    requires { p < length arguments.now }
    ensures { Tells (standard.of_type standing to (reads.placed_read (meant (M.names meaning.now)
        (M.parts meaning.now)) standing (place.Elem from) (three.value_or (map (spec.read_argument
        (meant (M.names meaning.now) (M.parts meaning.now)) standing) arguments.now) p))) faults.old
        faults.new result }
{
    let x = arguments[p].value.get();
    let value = placed(meaning, standing, faults, Place::Elem(from), x);
    this_type(standing, ExprType::Elem(to), value)
}

/// A bit string by a number of places.
#[cycle(expression)]
fn shifted<M: Meaning>(
    meaning: &M,
    standing: Standing,
    faults: &mut Faults,
    arguments: &[Argument],
    p: usize,
    q: usize,
) -> Option<Judged>
    requires first { p < length arguments.now }
    requires second { q < length arguments.now }
    ensures { Tells (standard.shifted (meant (M.names meaning.now) (M.parts meaning.now)) standing
        (three.value_or (map (spec.read_argument (meant (M.names meaning.now) (M.parts meaning.now))
        standing) arguments.now) p) (three.value_or (map (spec.read_argument (meant (M.names
        meaning.now) (M.parts meaning.now)) standing) arguments.now) q)) faults.old faults.new
        result }
{
    let called = of_its_type(meaning, standing, faults, Place::Bits, arguments, p);
    let n = arguments[q].value.get();
    let beside = placed(meaning, standing, faults, Place::Integer, n);
    where_all(still_good(true, beside), called)
}

/// The call by the places of the arguments that give its inputs.
#[cycle(expression)]
fn standard_result<M: Meaning>(
    meaning: &M,
    standing: Standing,
    faults: &mut Faults,
    node: Node,
    called: StandardFunction,
    arguments: &[Argument],
    p: usize,
    q: usize,
    r: usize,
) -> Option<Judged>
    requires first { p < length arguments.now }
    requires second { q < length arguments.now }
    requires third { r < length arguments.now }
    ensures { Tells (standard.standard_result (meant (M.names meaning.now) (M.parts meaning.now))
        standing node called (three.listed called (three.value_or (map (spec.read_argument (meant
        (M.names meaning.now) (M.parts meaning.now)) standing) arguments.now) p) (three.value_or
        (map (spec.read_argument (meant (M.names meaning.now) (M.parts meaning.now)) standing)
        arguments.now) q) (three.value_or (map (spec.read_argument (meant (M.names meaning.now)
        (M.parts meaning.now)) standing) arguments.now) r))) faults.old faults.new result }
{
    match called {
        StandardFunction::Abs => {
            of_its_type(meaning, standing, faults, Place::Integer, arguments, p)
        }
        StandardFunction::Min | StandardFunction::Max => {
            shared_by_two(meaning, standing, faults, node, arguments, p, q)
        }
        StandardFunction::Limit => {
            shared_by_three(meaning, standing, faults, node, arguments, p, q, r)
        }
        StandardFunction::Sel => selected(meaning, standing, faults, node, arguments, p, q, r),
        StandardFunction::Shl
        | StandardFunction::Shr
        | StandardFunction::Rol
        | StandardFunction::Ror => shifted(meaning, standing, faults, arguments, p, q),
        StandardFunction::Convert(from, to) => {
            converted(meaning, standing, faults, from, to, arguments, p)
        }
    }
}

/// Whether an argument holds no faults beside the inputs.
#[cycle(expression)]
#[tactic(auto, unfolding(crate::specs::Judge::read_argument, crate::specs::Judge::read))]
fn is_good_beside<M: Meaning>(
    meaning: &M,
    standing: Standing,
    faults: &mut Faults,
    fits: bool,
    argument: &Argument,
) -> bool
    ensures { TellsAll (standard.beside (meant (M.names meaning.now) (M.parts meaning.now)) standing
        fits (spec.read_argument (meant (M.names meaning.now) (M.parts meaning.now)) standing
        argument.now)) faults.old faults.new result }
{
    if is_left_out(&argument.name) {
        let value = enabled(meaning, standing, faults, argument);
        still_good(true, value)
    } else if fits {
        true
    } else {
        let value = argument_value(meaning, standing, faults, argument);
        still_good(true, value)
    }
}

/// Whether the arguments hold no faults beside the inputs.
#[cycle(expression)]
#[tactic(auto, using(crate::proofs::Standard::beside_step, crate::proofs::Standard::beside_end))]
fn are_good_beside<M: Meaning>(
    meaning: &M,
    standing: Standing,
    faults: &mut Faults,
    fits: bool,
    arguments: &[Argument],
) -> bool
    ensures { TellsAll (standard.all_beside (meant (M.names meaning.now) (M.parts meaning.now))
        standing fits (map (spec.read_argument (meant (M.names meaning.now) (M.parts meaning.now))
        standing) arguments.now)) faults.old faults.new result }
{
    let mut all = true;
    for i in 0..arguments.len() {
        all = all_good(
            all,
            is_good_beside(meaning, standing, faults, fits, &arguments[i]),
        );
    }
    all
}

#[cycle(expression)]
fn standard_call<M: Meaning>(
    meaning: &M,
    standing: Standing,
    faults: &mut Faults,
    node: Node,
    called: StandardFunction,
    arguments: &[Argument],
) -> Option<Judged>
    ensures { Tells (standard.standard_called (meant (M.names meaning.now) (M.parts meaning.now))
        standing node called (map (spec.read_argument (meant (M.names meaning.now) (M.parts
        meaning.now)) standing) arguments.now)) faults.old faults.new result }
{
    match places_given(called, arguments) {
        None => {
            let result = wrong(faults, standing, node, LinkCode::WrongCall);
            let all = are_good_beside(meaning, standing, faults, false, arguments);
            where_all(all, result)
        }
        Some(places) => {
            let result = standard_result(
                meaning,
                standing,
                faults,
                node,
                called,
                arguments,
                places.first,
                places.second,
                places.third,
            );
            let all = are_good_beside(meaning, standing, faults, true, arguments);
            where_all(all, result)
        }
    }
}

// ---- calls

#[cycle(expression)]
fn call<M: Meaning>(
    meaning: &M,
    standing: Standing,
    faults: &mut Faults,
    node: Node,
    name: &Identifier,
    arguments: &[Argument],
) -> Option<Judged>
    ensures { Tells (spec.called (meant (M.names meaning.now) (M.parts meaning.now)) standing node
        name.now (map (spec.read_argument (meant (M.names meaning.now) (M.parts meaning.now))
        standing) arguments.now)) faults.old faults.new result }
{
    match meaning.callee(name.name.bytes()) {
        Callee::Unknown => {
            uncalled(
                meaning,
                standing,
                faults,
                node,
                LinkCode::WrongCall,
                arguments,
            )
        }
        Callee::LeftOut => {
            uncalled(
                meaning,
                standing,
                faults,
                node,
                LinkCode::OutOfProfile,
                arguments,
            )
        }
        Callee::Function(called) => {
            function_call(meaning, standing, faults, node, called, arguments)
        }
        Callee::Standard(called) => {
            standard_call(meaning, standing, faults, node, called, arguments)
        }
    }
}

/// An operand: a fault of its own counts.
#[cycle(expression)]
#[tactic(auto, using(crate::proofs::Told::bind_some, crate::proofs::Told::bind_none))]
fn operand<M: Meaning>(
    meaning: &M,
    standing: Standing,
    faults: &mut Faults,
    e: &Expr,
) -> Option<Judged>
    ensures { Tells (reads.operand standing (spec.read (meant (M.names meaning.now) (M.parts
        meaning.now)) standing e.now).node (spec.read (meant (M.names meaning.now) (M.parts
        meaning.now)) standing e.now).judged) faults.old faults.new result }
{
    match judge(meaning, standing, faults, e) {
        Some(judged) => without_own(faults, standing, node_of(meaning, standing, e), judged),
        None => None,
    }
}

#[cycle(expression)]
#[tactic(auto, using(crate::proofs::Told::bind_some, crate::proofs::Told::bind_none))]
fn unary<M: Meaning>(
    meaning: &M,
    standing: Standing,
    faults: &mut Faults,
    node: Node,
    operator: UnaryOperator,
    e: &Expr,
) -> Option<Judged>
    ensures { Tells (reads.unary standing node operator (spec.read (meant (M.names meaning.now)
        (M.parts meaning.now)) standing e.now)) faults.old faults.new result }
{
    match operand(meaning, standing, faults, e) {
        Some(judged) => with_unary(meaning, standing, faults, node, operator, e, judged),
        None => None,
    }
}

/// What an expression is.
#[cycle(expression)]
#[tactic(auto, unfolding(crate::specs::Judge::read, crate::specs::Judge::read_path, crate::specs::Judge::read_argument))]
pub fn judge<M: Meaning>(
    meaning: &M,
    standing: Standing,
    faults: &mut Faults,
    e: &Expr,
) -> Option<Judged>
    ensures { Tells (spec.read (meant (M.names meaning.now) (M.parts meaning.now)) standing
        e.now).judged faults.old faults.new result }
{
    match e {
        Expr::Number(_, _, _) => Some(plain(ExprType::Loose)),
        Expr::Typed(node, text) => {
            typed_literal(faults, standing, *node, meaning.typed_literal(text.bytes()))
        }
        Expr::Time(node, text) => {
            number_literal(
                faults,
                standing,
                *node,
                meaning.time(text.bytes()),
                Elem::Time,
            )
        }
        Expr::Truth(_, truth) => Some(known(ExprType::Elem(Elem::Bool), truth_number(*truth))),
        Expr::Path(path) => judge_path(meaning, standing, faults, path),
        Expr::Value(node, name, value) => value_of_type(
            faults,
            standing,
            *node,
            name.node,
            value.node,
            meaning.type_value(name.name.bytes(), value.name.bytes()),
        ),
        Expr::Parenthesized(_, inner) => judge(meaning, standing, faults, inner.get()),
        Expr::Unary(node, operator, operand) => {
            unary(meaning, standing, faults, *node, *operator, operand.get())
        }
        Expr::Binary(node, operator, left, right) => {
            let l = left.get();
            let r = right.get();
            let a = operand(meaning, standing, faults, l);
            let b = operand(meaning, standing, faults, r);
            operated_pair(meaning, standing, faults, *node, *operator, l, r, a, b)
        }
        Expr::Call(node, name, arguments) => {
            call(meaning, standing, faults, *node, name, arguments.as_slice())
        }
    }
}

/// An expression at its place.
#[cycle(expression)]
#[tactic(auto, using(crate::proofs::Told::bind_some, crate::proofs::Told::bind_none))]
pub fn placed<M: Meaning>(
    meaning: &M,
    standing: Standing,
    faults: &mut Faults,
    place: Place,
    e: &Expr,
) -> Option<Judged>
    ensures { Tells (spec.placed (meant (M.names meaning.now) (M.parts meaning.now)) standing
        place e.now) faults.old faults.new result }
{
    match judge(meaning, standing, faults, e) {
        Some(judged) => fitted(meaning, standing, faults, place, e, judged),
        None => None,
    }
}

fn number_of<M: Meaning>(
    meaning: &M,
    standing: Standing,
    faults: &mut Faults,
    e: &Expr,
    judged: Judged,
) -> Option<Number>
    ensures { Tells (spec.number_of standing (spec.read (meant (M.names meaning.now) (M.parts
        meaning.now)) standing e.now) judged) faults.old faults.new result }
{
    known_number(
        faults,
        standing,
        node_of(meaning, standing, e),
        judged.number,
    )
}

#[tactic(auto, using(crate::proofs::Told::bind_some, crate::proofs::Told::bind_none))]
fn constant_placed<M: Meaning>(
    meaning: &M,
    standing: Standing,
    faults: &mut Faults,
    place: Place,
    e: &Expr,
) -> Option<Number>
    ensures { Tells (spec.constant_placed (meant (M.names meaning.now) (M.parts meaning.now))
        standing place e.now) faults.old faults.new result }
{
    match placed(meaning, standing, faults, place, e) {
        Some(judged) => number_of(meaning, standing, faults, e, judged),
        None => None,
    }
}

/// The number of an expression that must be constant, at its place, in a file by its place among the
/// project's files.
pub fn constant_number<M: Meaning>(
    meaning: &M,
    file: u16,
    faults: &mut Faults,
    place: Place,
    e: &Expr,
) -> Option<Number>
    ensures { Tells (spec.constant_number (meant (M.names meaning.now) (M.parts meaning.now)) file
        place e.now) faults.old faults.new result }
{
    let standing = Standing {
        file,
        constant: true,
    };
    constant_placed(meaning, standing, faults, place, e)
}
