// Calls of instances.

ghost use Rattle.std.specs.Prelude.{◌≡◌, ◌&&◌, slice_get};
ghost use Rattle.link_faults.specs.First.{after};
ghost use Rattle.body_rules.specs.Surroundings.{here};
ghost use Rattle.body_rules.specs.Calls.{Argues};
ghost use Rattle.body_rules.specs.Calls as spec;
ghost use Rattle.body_rules.specs.steps.Around.{around};
ghost use Rattle.body_rules.specs.steps.Missing as steps;

use crate::loops::Loops;
use crate::noted::{anywhere, expression, note};
use crate::outside::{BlockPart, Bodies, Called, ExactType, Scalar};
use crate::targets::{path_type, target};
use expression_types::{ExprType, Judged, Meaning, Names, Place, ShapeNo, node_of, placed};
use iec_tables::elem::{Elem, converts};
use link_faults::{Faults, LinkCode};
use scope_names::is_same_name;
use st_tree::{Expr, Identifier, Node, Part, Path, StmtArgument};

// ---- names of arguments

fn name_of(argument: &StmtArgument) -> &Identifier
    ensures { result.now ≡ spec.name_of argument.now }
{
    match argument {
        StmtArgument::Input(_, name, _) => name,
        StmtArgument::Output(_, name, _) => name,
    }
}

fn has_name(argument: &StmtArgument, name: &[u8]) -> bool
    ensures { result ≡ spec.has_name name.now argument.now }
{
    is_same_name(name_of(argument).name.bytes(), name)
}

fn is_given(arguments: &[StmtArgument], name: &[u8]) -> bool
    ensures { result ≡ spec.is_given arguments.now name.now }
{
    for argument in arguments {
        if has_name(argument, name) {
            return true;
        }
    }
    false
}

/// Whether two arguments have one name.
fn is_given_twice(arguments: &[StmtArgument]) -> bool
    ensures { result ≡ spec.is_given_twice arguments.now }
{
    for i in 0..arguments.len() {
        if is_given(&arguments[i + 1..], name_of(&arguments[i]).name.bytes()) {
            return true;
        }
    }
    false
}

/// Whether the VAR_IN_OUT at a place is given by no argument.
fn is_missing<B: Bodies>(outside: &B, shape: ShapeNo, arguments: &[StmtArgument], at: usize) -> bool
    ensures { result ≡ steps.is_missing arguments.now (slice_get ((B.around outside.now).in_outs
        shape) at) }
{
    match outside.in_out(shape, at) {
        None => false,
        Some(name) => !is_given(arguments, name),
    }
}

/// Whether a VAR_IN_OUT of the block is given by no argument.
fn lacks_in_out<B: Bodies>(
    outside: &B,
    file: u16,
    shape: ShapeNo,
    arguments: &[StmtArgument],
) -> bool
    ensures { result ≡ spec.lacks_in_out (here (B.names outside.now) (B.parts outside.now)
        (B.around outside.now) file) shape arguments.now }
{
    for i in 0..outside.in_out_count(shape) {
        if is_missing(outside, shape, arguments, i) {
            return true;
        }
    }
    false
}

fn is_enabling(name: &[u8]) -> bool
    ensures { result ≡ spec.is_enabling name.now }
{
    is_same_name(name, b"EN") || is_same_name(name, b"ENO")
}

// ---- arguments

/// Notes what is told of an argument where the block plays no part.
fn alone<B: Bodies>(
    outside: &B,
    file: u16,
    faults: &mut Faults,
    loops: &Loops<'_>,
    argument: &StmtArgument,
)
    ensures { faults.new ≡ after faults.old (spec.alone (here (B.names outside.now)
        (B.parts outside.now) (B.around outside.now) file) (around loops.now) argument.now) }
{
    match argument {
        StmtArgument::Input(_, _, e) => expression(outside, file, faults, Place::Any, e.get()),
        StmtArgument::Output(_, _, path) => {
            let _also = target(outside, file, faults, loops, path);
        },
    }
}

fn whole_shape<B: Bodies>(
    outside: &B,
    file: u16,
    faults: &mut Faults,
    node: Node,
    e: &Expr,
    shape: ShapeNo,
)
    ensures { faults.new ≡ after faults.old (spec.whole_shape (here (B.names outside.now)
        (B.parts outside.now) (B.around outside.now) file) node e.now shape) }
{
    if outside.is_enumeration(shape) {
        let value_node = node_of(outside, anywhere(file), e);
        note(outside, file, faults, value_node, LinkCode::WrongType);
    } else {
        note(outside, file, faults, node, LinkCode::OutOfProfile);
    }
}

fn whole_judged<B: Bodies>(
    outside: &B,
    file: u16,
    faults: &mut Faults,
    node: Node,
    e: &Expr,
    judged: Judged,
)
    ensures { faults.new ≡ after faults.old (spec.whole_judged (here (B.names outside.now)
        (B.parts outside.now) (B.around outside.now) file) node e.now judged) }
{
    match judged.ty {
        ExprType::Other(shape) => whole_shape(outside, file, faults, node, e, shape),
        ExprType::Elem(_) => {
            let value_node = node_of(outside, anywhere(file), e);
            note(outside, file, faults, value_node, LinkCode::WrongType);
        },
        ExprType::Loose => {
            let value_node = node_of(outside, anywhere(file), e);
            note(outside, file, faults, value_node, LinkCode::WrongType);
        },
    }
}

#[tactic(auto, using(crate::proofs::Told::followed_some, crate::proofs::Told::followed_none))]
fn whole_input<B: Bodies>(outside: &B, file: u16, faults: &mut Faults, node: Node, e: &Expr)
    ensures { faults.new ≡ after faults.old (spec.whole_input (here (B.names outside.now)
        (B.parts outside.now) (B.around outside.now) file) node e.now) }
{
    match placed(outside, anywhere(file), faults, Place::Any, e) {
        None => (),
        Some(judged) => whole_judged(outside, file, faults, node, e, judged),
    }
}

fn input_shape<B: Bodies>(
    outside: &B,
    file: u16,
    faults: &mut Faults,
    node: Node,
    e: &Expr,
    shape: ShapeNo,
)
    ensures { faults.new ≡ after faults.old (spec.input_shape (here (B.names outside.now)
        (B.parts outside.now) (B.around outside.now) file) node e.now shape) }
{
    if outside.is_enumeration(shape) {
        expression(outside, file, faults, Place::Shape(shape), e);
    } else {
        whole_input(outside, file, faults, node, e);
    }
}

/// Notes the faults of a value for an input of a type.
fn input<B: Bodies>(
    outside: &B,
    file: u16,
    faults: &mut Faults,
    node: Node,
    e: &Expr,
    ty: ExactType,
)
    ensures { faults.new ≡ after faults.old (spec.input (here (B.names outside.now)
        (B.parts outside.now) (B.around outside.now) file) node e.now ty) }
{
    match ty {
        ExactType::Scalar(scalar) => {
            expression(outside, file, faults, Place::Elem(scalar.elem), e)
        },
        ExactType::Other(shape) => input_shape(outside, file, faults, node, e, shape),
    }
}

fn scalar_output<B: Bodies>(
    outside: &B,
    file: u16,
    faults: &mut Faults,
    path: &Path,
    scalar: Scalar,
    ty: ExprType,
)
    ensures { faults.new ≡ after faults.old (spec.scalar_output (here (B.names outside.now)
        (B.parts outside.now) (B.around outside.now) file) path.now scalar ty) }
{
    match ty {
        ExprType::Elem(elem) => {
            if !converts(scalar.elem, elem) {
                note(outside, file, faults, path.node, LinkCode::WrongType);
            }
        },
        ExprType::Other(_) => note(outside, file, faults, path.node, LinkCode::WrongType),
        ExprType::Loose => note(outside, file, faults, path.node, LinkCode::WrongType),
    }
}

fn shape_output<B: Bodies>(
    outside: &B,
    file: u16,
    faults: &mut Faults,
    node: Node,
    path: &Path,
    from: ShapeNo,
    to: ShapeNo,
)
    ensures { faults.new ≡ after faults.old (spec.shape_output (here (B.names outside.now)
        (B.parts outside.now) (B.around outside.now) file) node path.now from to) }
{
    if outside.is_enumeration(from) {
        if !outside.is_same(from, to) {
            note(outside, file, faults, path.node, LinkCode::WrongType);
        }
    } else {
        note(outside, file, faults, node, LinkCode::OutOfProfile);
    }
}

fn other_output<B: Bodies>(
    outside: &B,
    file: u16,
    faults: &mut Faults,
    node: Node,
    path: &Path,
    shape: ShapeNo,
    ty: ExprType,
)
    ensures { faults.new ≡ after faults.old (spec.other_output (here (B.names outside.now)
        (B.parts outside.now) (B.around outside.now) file) node path.now shape ty) }
{
    match ty {
        ExprType::Other(to) => shape_output(outside, file, faults, node, path, shape, to),
        ExprType::Elem(_) => note(outside, file, faults, path.node, LinkCode::WrongType),
        ExprType::Loose => note(outside, file, faults, path.node, LinkCode::WrongType),
    }
}

fn output_to<B: Bodies>(
    outside: &B,
    file: u16,
    faults: &mut Faults,
    node: Node,
    path: &Path,
    from: ExactType,
    ty: ExprType,
)
    ensures { faults.new ≡ after faults.old (spec.output_to (here (B.names outside.now)
        (B.parts outside.now) (B.around outside.now) file) node path.now from ty) }
{
    match from {
        ExactType::Scalar(scalar) => scalar_output(outside, file, faults, path, scalar, ty),
        ExactType::Other(shape) => other_output(outside, file, faults, node, path, shape, ty),
    }
}

/// Notes the faults of an output of a type to a target.
#[tactic(auto, using(crate::proofs::Told::followed_some, crate::proofs::Told::followed_none))]
fn output<B: Bodies>(
    outside: &B,
    file: u16,
    faults: &mut Faults,
    loops: &Loops<'_>,
    node: Node,
    path: &Path,
    from: ExactType,
)
    ensures { faults.new ≡ after faults.old (spec.output (here (B.names outside.now)
        (B.parts outside.now) (B.around outside.now) file) (around loops.now) node path.now
        from) }
{
    match target(outside, file, faults, loops, path) {
        None => (),
        Some(ty) => output_to(outside, file, faults, node, path, from, ty),
    }
}

// ---- exactly one type

fn is_same_elem(a: Elem, b: Elem) -> bool
    ensures { result ≡ spec.is_same_elem a b }
{
    converts(a, b) && converts(b, a)
}

fn is_same_scalar(a: Scalar, b: Scalar) -> bool
    ensures { result ≡ spec.is_same_scalar a b }
{
    is_same_elem(a.elem, b.elem) && (a.low == b.low && a.high == b.high)
}

fn is_same_type<B: Bodies>(outside: &B, file: u16, a: ExactType, b: ExactType) -> bool
    ensures { result ≡ spec.is_same_type (here (B.names outside.now) (B.parts outside.now)
        (B.around outside.now) file) a b }
{
    match (a, b) {
        (ExactType::Scalar(a), ExactType::Scalar(b)) => is_same_scalar(a, b),
        (ExactType::Other(a), ExactType::Other(b)) => outside.is_same(a, b),
        _ => false,
    }
}

fn is_exactly<B: Bodies>(outside: &B, file: u16, ty: Option<ExactType>, wanted: ExactType) -> bool
    ensures { result ≡ spec.is_exactly (here (B.names outside.now) (B.parts outside.now)
        (B.around outside.now) file) ty wanted }
{
    match ty {
        None => false,
        Some(ty) => is_same_type(outside, file, ty, wanted),
    }
}

// ---- arguments for what a block has under their names

fn is_index(part: &Part) -> bool
    ensures { result ≡ spec.is_index part.now }
{
    match part {
        Part::Index(_, _) => true,
        Part::Field(_) => false,
    }
}

fn has_index(path: &Path) -> bool
    ensures { result ≡ spec.has_index path.now }
{
    for part in path.parts.as_slice() {
        if is_index(part) {
            return true;
        }
    }
    false
}

fn is_wanted<B: Bodies>(outside: &B, file: u16, path: &Path, wanted: Option<ExactType>) -> bool
    ensures { result ≡ spec.is_wanted (here (B.names outside.now) (B.parts outside.now)
        (B.around outside.now) file) path.now wanted }
{
    match wanted {
        None => true,
        Some(wanted) => is_exactly(outside, file, path_type(outside, file, path), wanted),
    }
}

fn is_taken<B: Bodies>(
    outside: &B,
    file: u16,
    path: &Path,
    wanted: Option<ExactType>,
    told: Option<ExprType>,
) -> bool
    ensures { result ≡ spec.is_taken (here (B.names outside.now) (B.parts outside.now)
        (B.around outside.now) file) path.now wanted told }
{
    match told {
        None => true,
        Some(_) => has_index(path) || is_wanted(outside, file, path, wanted),
    }
}

fn indexed<B: Bodies>(outside: &B, file: u16, faults: &mut Faults, path: &Path)
    ensures { faults.new ≡ after faults.old (spec.indexed (here (B.names outside.now)
        (B.parts outside.now) (B.around outside.now) file) path.now) }
{
    if has_index(path) {
        note(outside, file, faults, path.node, LinkCode::OutOfProfile);
    }
}

fn in_out_path<B: Bodies>(
    outside: &B,
    file: u16,
    faults: &mut Faults,
    loops: &Loops<'_>,
    path: &Path,
    wanted: Option<ExactType>,
) -> bool
    ensures { Argues (spec.in_out_path (here (B.names outside.now) (B.parts outside.now)
        (B.around outside.now) file) (around loops.now) path.now wanted) faults.old faults.new
        result }
{
    indexed(outside, file, faults, path);
    let told = target(outside, file, faults, loops, path);
    is_taken(outside, file, path, wanted, told)
}

/// What a VAR_IN_OUT is given.
fn in_out<B: Bodies>(
    outside: &B,
    file: u16,
    faults: &mut Faults,
    loops: &Loops<'_>,
    e: &Expr,
    wanted: Option<ExactType>,
) -> bool
    ensures { Argues (spec.in_out (here (B.names outside.now) (B.parts outside.now)
        (B.around outside.now) file) (around loops.now) e.now wanted) faults.old faults.new
        result }
{
    match e {
        Expr::Path(path) => in_out_path(outside, file, faults, loops, path, wanted),
        _ => {
            expression(outside, file, faults, Place::Any, e);
            false
        },
    }
}

/// `name := value`
fn value_given<B: Bodies>(
    outside: &B,
    file: u16,
    faults: &mut Faults,
    loops: &Loops<'_>,
    node: Node,
    e: &Expr,
    part: BlockPart,
) -> bool
    ensures { Argues (spec.value_given (here (B.names outside.now) (B.parts outside.now)
        (B.around outside.now) file) (around loops.now) node e.now part) faults.old faults.new
        result }
{
    match part {
        BlockPart::Input(Some(ty)) => {
            input(outside, file, faults, node, e, ty);
            true
        },
        BlockPart::Input(None) => {
            expression(outside, file, faults, Place::Any, e);
            true
        },
        BlockPart::InOut(wanted) => in_out(outside, file, faults, loops, e, wanted),
        _ => {
            expression(outside, file, faults, Place::Any, e);
            false
        },
    }
}

/// `name => target`
fn target_given<B: Bodies>(
    outside: &B,
    file: u16,
    faults: &mut Faults,
    loops: &Loops<'_>,
    node: Node,
    path: &Path,
    part: BlockPart,
) -> bool
    ensures { Argues (spec.target_given (here (B.names outside.now) (B.parts outside.now)
        (B.around outside.now) file) (around loops.now) node path.now part) faults.old faults.new
        result }
{
    match part {
        BlockPart::Output(Some(ty)) => {
            output(outside, file, faults, loops, node, path, ty);
            true
        },
        BlockPart::Output(None) => {
            let _also = target(outside, file, faults, loops, path);
            true
        },
        _ => {
            let _also = target(outside, file, faults, loops, path);
            false
        },
    }
}

fn given<B: Bodies>(
    outside: &B,
    file: u16,
    faults: &mut Faults,
    loops: &Loops<'_>,
    argument: &StmtArgument,
    part: BlockPart,
) -> bool
    ensures { Argues (spec.given (here (B.names outside.now) (B.parts outside.now)
        (B.around outside.now) file) (around loops.now) argument.now part) faults.old faults.new
        result }
{
    match argument {
        StmtArgument::Input(node, _, e) => {
            value_given(outside, file, faults, loops, *node, e.get(), part)
        },
        StmtArgument::Output(node, _, path) => {
            target_given(outside, file, faults, loops, *node, path, part)
        },
    }
}

fn is_enable(name: &Identifier, part: BlockPart) -> bool
    ensures { result ≡ spec.is_enable name.now part }
{
    match part {
        BlockPart::Unknown => is_enabling(name.name.bytes()),
        _ => false,
    }
}

/// EN and ENO are out of profile.
#[tactic(auto, using(crate::proofs::Told::after_append))]
fn enable<B: Bodies>(
    outside: &B,
    file: u16,
    faults: &mut Faults,
    loops: &Loops<'_>,
    argument: &StmtArgument,
) -> bool
    ensures { Argues (spec.enable (here (B.names outside.now) (B.parts outside.now)
        (B.around outside.now) file) (around loops.now) argument.now) faults.old faults.new
        result }
{
    note(
        outside,
        file,
        faults,
        name_of(argument).node,
        LinkCode::OutOfProfile,
    );
    alone(outside, file, faults, loops, argument);
    true
}

fn argued_part<B: Bodies>(
    outside: &B,
    file: u16,
    faults: &mut Faults,
    loops: &Loops<'_>,
    argument: &StmtArgument,
    part: BlockPart,
) -> bool
    ensures { Argues (spec.argued_part (here (B.names outside.now) (B.parts outside.now)
        (B.around outside.now) file) (around loops.now) argument.now part) faults.old faults.new
        result }
{
    if is_enable(name_of(argument), part) {
        enable(outside, file, faults, loops, argument)
    } else {
        given(outside, file, faults, loops, argument, part)
    }
}

/// Notes the faults of an argument, and tells whether it fits the block.
fn argued<B: Bodies>(
    outside: &B,
    file: u16,
    faults: &mut Faults,
    loops: &Loops<'_>,
    shape: ShapeNo,
    argument: &StmtArgument,
) -> bool
    ensures { Argues (spec.argued (here (B.names outside.now) (B.parts outside.now)
        (B.around outside.now) file) (around loops.now) shape argument.now) faults.old faults.new
        result }
{
    let part = outside.block_part(shape, name_of(argument).name.bytes());
    argued_part(outside, file, faults, loops, argument, part)
}

fn both_fit(a: bool, b: bool) -> bool
    ensures { result ≡ (a && b) }
{
    a && b
}

/// The same of all arguments.
fn all_argued<B: Bodies>(
    outside: &B,
    file: u16,
    faults: &mut Faults,
    loops: &Loops<'_>,
    shape: ShapeNo,
    arguments: &[StmtArgument],
) -> bool
    ensures noted { faults.new ≡ after faults.old (spec.argued_faults (here (B.names outside.now)
        (B.parts outside.now) (B.around outside.now) file) (around loops.now) shape
        arguments.now) }
    ensures fit { result ≡ spec.all_fit (here (B.names outside.now) (B.parts outside.now)
        (B.around outside.now) file) (around loops.now) shape arguments.now }
{
    let mut fit = true;
    for argument in arguments {
        fit = both_fit(fit, argued(outside, file, faults, loops, shape, argument));
    }
    fit
}

// ---- calls

fn fits_names<B: Bodies>(outside: &B, file: u16, shape: ShapeNo, arguments: &[StmtArgument]) -> bool
    ensures { result ≡ spec.fits_names (here (B.names outside.now) (B.parts outside.now)
        (B.around outside.now) file) shape arguments.now }
{
    !(is_given_twice(arguments) || lacks_in_out(outside, file, shape, arguments))
}

fn note_unfit<B: Bodies>(outside: &B, file: u16, faults: &mut Faults, fit: bool, node: Node)
    ensures { faults.new ≡ after faults.old (spec.call_fault (here (B.names outside.now)
        (B.parts outside.now) (B.around outside.now) file) fit node) }
{
    if !fit {
        note(outside, file, faults, node, LinkCode::WrongCall);
    }
}

#[tactic(auto, using(crate::proofs::Told::after_append))]
fn instance_called<B: Bodies>(
    outside: &B,
    file: u16,
    faults: &mut Faults,
    loops: &Loops<'_>,
    node: Node,
    shape: ShapeNo,
    arguments: &[StmtArgument],
)
    ensures { faults.new ≡ after faults.old (spec.instance_called (here (B.names outside.now)
        (B.parts outside.now) (B.around outside.now) file) (around loops.now) node shape
        arguments.now) }
{
    let all = all_argued(outside, file, faults, loops, shape, arguments);
    let fit = both_fit(all, fits_names(outside, file, shape, arguments));
    note_unfit(outside, file, faults, fit, node);
}

fn all_alone<B: Bodies>(
    outside: &B,
    file: u16,
    faults: &mut Faults,
    loops: &Loops<'_>,
    arguments: &[StmtArgument],
)
    ensures { faults.new ≡ after faults.old (spec.all_alone (here (B.names outside.now)
        (B.parts outside.now) (B.around outside.now) file) (around loops.now) arguments.now) }
{
    for argument in arguments {
        alone(outside, file, faults, loops, argument);
    }
}

/// Where nothing can be called so, the arguments are judged all the same.
#[tactic(auto, using(crate::proofs::Told::after_append))]
fn uncalled<B: Bodies>(
    outside: &B,
    file: u16,
    faults: &mut Faults,
    loops: &Loops<'_>,
    node: Node,
    code: LinkCode,
    arguments: &[StmtArgument],
)
    ensures { faults.new ≡ after faults.old (spec.uncalled (here (B.names outside.now)
        (B.parts outside.now) (B.around outside.now) file) (around loops.now) node code
        arguments.now) }
{
    note(outside, file, faults, node, code);
    all_alone(outside, file, faults, loops, arguments);
}

/// Notes the faults of a call that is a statement.
pub(crate) fn call<B: Bodies>(
    outside: &B,
    file: u16,
    faults: &mut Faults,
    loops: &Loops<'_>,
    node: Node,
    name: &Identifier,
    arguments: &[StmtArgument],
)
    ensures { faults.new ≡ after faults.old (spec.call (here (B.names outside.now)
        (B.parts outside.now) (B.around outside.now) file) (around loops.now) node name.now
        arguments.now) }
{
    match outside.called(name.name.bytes()) {
        Called::NoInstance => {
            uncalled(
                outside,
                file,
                faults,
                loops,
                node,
                LinkCode::WrongCall,
                arguments,
            )
        },
        Called::Function => {
            uncalled(
                outside,
                file,
                faults,
                loops,
                node,
                LinkCode::OutOfProfile,
                arguments,
            )
        },
        Called::Faulty => all_alone(outside, file, faults, loops, arguments),
        Called::Instance(shape) => {
            instance_called(outside, file, faults, loops, node, shape, arguments)
        },
    }
}
