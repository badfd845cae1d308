// What is written to, and what it is assigned.

ghost use Rattle.std.specs.Prelude.{◌≡◌};
ghost use Rattle.link_faults.specs.Checked.{Tells};
ghost use Rattle.link_faults.specs.First.{after};
ghost use Rattle.body_rules.specs.Surroundings.{here};
ghost use Rattle.body_rules.specs.Targets as spec;
ghost use Rattle.body_rules.specs.steps.Around.{around};

use crate::loops::{Loops, counts};
use crate::noted::{anywhere, expression, note, wrong};
use crate::outside::{BlockPart, Bodies, ExactType};
use expression_types::{ExprType, Judged, Meaning, Names, Place, ShapeNo, judge_path};
use link_faults::{Faults, LinkCode};
use st_tree::{Expr, Identifier, Node, Part, Path, Root};

// ---- the type of a path, with its bounds

fn root_type<B: Bodies>(outside: &B, file: u16, root: &Root) -> Option<ExactType>
    ensures { result ≡ spec.root_type (here (B.names outside.now) (B.parts outside.now)
        (B.around outside.now) file) root.now }
{
    match root {
        Root::Name(name) => outside.variable_type(name.name.bytes()),
        Root::Address(address) => outside.address_type(address.name.bytes()),
    }
}

fn field_type<B: Bodies>(
    outside: &B,
    file: u16,
    name: &Identifier,
    before: ExactType,
) -> Option<ExactType>
    ensures { result ≡ spec.field_type (here (B.names outside.now) (B.parts outside.now)
        (B.around outside.now) file) name.now before }
{
    match before {
        ExactType::Scalar(_) => None,
        ExactType::Other(shape) => outside.field_type(shape, name.name.bytes()),
    }
}

fn element_type<B: Bodies>(outside: &B, file: u16, before: ExactType) -> Option<ExactType>
    ensures { result ≡ spec.element_type (here (B.names outside.now) (B.parts outside.now)
        (B.around outside.now) file) before }
{
    match before {
        ExactType::Scalar(_) => None,
        ExactType::Other(shape) => outside.element_type(shape),
    }
}

/// The type of a part, by that of what stands before it.
fn part_type<B: Bodies>(
    outside: &B,
    file: u16,
    part: &Part,
    before: Option<ExactType>,
) -> Option<ExactType>
    ensures { result ≡ spec.part_type (here (B.names outside.now) (B.parts outside.now)
        (B.around outside.now) file) part.now before }
{
    match before {
        None => None,
        Some(before) => match part {
            Part::Field(name) => field_type(outside, file, name, before),
            Part::Index(_, _) => element_type(outside, file, before),
        },
    }
}

fn parts_type<B: Bodies>(
    outside: &B,
    file: u16,
    parts: &[Part],
    before: Option<ExactType>,
) -> Option<ExactType>
    ensures { result ≡ spec.parts_type (here (B.names outside.now) (B.parts outside.now)
        (B.around outside.now) file) parts.now before }
{
    let mut ty = before;
    for part in parts {
        ty = part_type(outside, file, part, ty);
    }
    ty
}

/// The type of a path with its bounds, whatever its indices are.
pub(crate) fn path_type<B: Bodies>(outside: &B, file: u16, path: &Path) -> Option<ExactType>
    ensures { result ≡ spec.path_type (here (B.names outside.now) (B.parts outside.now)
        (B.around outside.now) file) path.now }
{
    let root = root_type(outside, file, &path.root);
    parts_type(outside, file, path.parts.as_slice(), root)
}

fn is_whole_shape<B: Bodies>(outside: &B, file: u16, shape: ShapeNo) -> bool
    ensures { result ≡ spec.is_whole_shape (here (B.names outside.now) (B.parts outside.now)
        (B.around outside.now) file) shape }
{
    if outside.is_enumeration(shape) {
        false
    } else {
        !outside.is_instance(shape)
    }
}

/// An array or a structure.
fn is_whole<B: Bodies>(outside: &B, file: u16, ty: Option<ExactType>) -> bool
    ensures { result ≡ spec.is_whole (here (B.names outside.now) (B.parts outside.now)
        (B.around outside.now) file) ty }
{
    match ty {
        None => false,
        Some(ExactType::Scalar(_)) => false,
        Some(ExactType::Other(shape)) => is_whole_shape(outside, file, shape),
    }
}

// ---- what may be written to

fn is_output(part: BlockPart) -> bool
    ensures { result ≡ spec.is_output part }
{
    match part {
        BlockPart::Output(_) => true,
        _ => false,
    }
}

fn is_output_field<B: Bodies>(outside: &B, file: u16, name: &Identifier, before: ExactType) -> bool
    ensures { result ≡ spec.is_output_field (here (B.names outside.now) (B.parts outside.now)
        (B.around outside.now) file) name.now before }
{
    match before {
        ExactType::Scalar(_) => false,
        ExactType::Other(shape) => is_output(outside.block_part(shape, name.name.bytes())),
    }
}

/// Whether a part is an output of the instance that stands before it.
fn is_output_part<B: Bodies>(outside: &B, file: u16, part: &Part, before: Option<ExactType>) -> bool
    ensures { result ≡ spec.is_output_part (here (B.names outside.now) (B.parts outside.now)
        (B.around outside.now) file) part.now before }
{
    match before {
        None => false,
        Some(before) => match part {
            Part::Field(name) => is_output_field(outside, file, name, before),
            Part::Index(_, _) => false,
        },
    }
}

fn has_output<B: Bodies>(outside: &B, file: u16, parts: &[Part], before: Option<ExactType>) -> bool
    ensures { result ≡ spec.has_output (here (B.names outside.now) (B.parts outside.now)
        (B.around outside.now) file) parts.now before }
{
    let mut ty = before;
    for part in parts {
        if is_output_part(outside, file, part, ty) {
            return true;
        }
        ty = part_type(outside, file, part, ty);
    }
    false
}

/// Whether a loop around counts the variable at this address.
fn counts_at<B: Bodies>(outside: &B, file: u16, loops: &Loops<'_>, address: &[u8]) -> bool
    ensures { result ≡ spec.counts_at (here (B.names outside.now) (B.parts outside.now)
        (B.around outside.now) file) (around loops.now) address.now }
{
    match loops {
        Loops::Outermost => false,
        Loops::Within(outer) => counts_at(outside, file, outer, address),
        Loops::Counting(variable, outer) => {
            outside.is_declared_at(variable, address) || counts_at(outside, file, outer, address)
        },
    }
}

fn is_root_written<B: Bodies>(outside: &B, file: u16, loops: &Loops<'_>, root: &Root) -> bool
    ensures { result ≡ spec.is_root_written (here (B.names outside.now) (B.parts outside.now)
        (B.around outside.now) file) (around loops.now) root.now }
{
    match root {
        Root::Name(name) => {
            !counts(loops, name.name.bytes()) && outside.is_assignable(name.name.bytes())
        },
        Root::Address(address) => {
            !counts_at(outside, file, loops, address.name.bytes())
                && outside.is_assignable_at(address.name.bytes())
        },
    }
}

fn may_be_written<B: Bodies>(outside: &B, file: u16, loops: &Loops<'_>, path: &Path) -> bool
    ensures { result ≡ spec.may_be_written (here (B.names outside.now) (B.parts outside.now)
        (B.around outside.now) file) (around loops.now) path.now }
{
    let root = root_type(outside, file, &path.root);
    if has_output(outside, file, path.parts.as_slice(), root) {
        false
    } else {
        is_root_written(outside, file, loops, &path.root)
    }
}

fn writable<B: Bodies>(
    outside: &B,
    file: u16,
    faults: &mut Faults,
    loops: &Loops<'_>,
    path: &Path,
    judged: Judged,
) -> Option<ExprType>
    ensures { Tells (spec.writable (here (B.names outside.now) (B.parts outside.now)
        (B.around outside.now) file) (around loops.now) path.now judged) faults.old faults.new
        result }
{
    if may_be_written(outside, file, loops, path) {
        Some(judged.ty)
    } else {
        wrong(faults, anywhere(file), path.node, LinkCode::NotAssignable)
    }
}

/// What a path is that is written to.
#[tactic(auto, using(crate::proofs::Told::bind_some, crate::proofs::Told::bind_none))]
pub(crate) fn target<B: Bodies>(
    outside: &B,
    file: u16,
    faults: &mut Faults,
    loops: &Loops<'_>,
    path: &Path,
) -> Option<ExprType>
    ensures { Tells (spec.target (here (B.names outside.now) (B.parts outside.now)
        (B.around outside.now) file) (around loops.now) path.now) faults.old faults.new result }
{
    match judge_path(outside, anywhere(file), faults, path) {
        None => None,
        Some(judged) => writable(outside, file, faults, loops, path, judged),
    }
}

// ---- assignments

fn whole_fault<B: Bodies>(
    outside: &B,
    file: u16,
    faults: &mut Faults,
    node: Node,
    path: &Path,
    shape: ShapeNo,
)
    ensures { faults.new ≡ after faults.old (spec.whole_fault (here (B.names outside.now)
        (B.parts outside.now) (B.around outside.now) file) node path.now shape) }
{
    if outside.is_instance(shape) {
        note(outside, file, faults, path.node, LinkCode::WrongType);
    } else {
        note(outside, file, faults, node, LinkCode::OutOfProfile);
    }
}

#[tactic(auto, using(crate::proofs::Told::after_append))]
fn assigned_shape<B: Bodies>(
    outside: &B,
    file: u16,
    faults: &mut Faults,
    node: Node,
    path: &Path,
    e: &Expr,
    shape: ShapeNo,
)
    ensures { faults.new ≡ after faults.old (spec.assigned_shape (here (B.names outside.now)
        (B.parts outside.now) (B.around outside.now) file) node path.now e.now shape) }
{
    if outside.is_enumeration(shape) {
        expression(outside, file, faults, Place::Shape(shape), e);
    } else {
        whole_fault(outside, file, faults, node, path, shape);
        expression(outside, file, faults, Place::Any, e);
    }
}

/// What is assigned to a target of a type.
fn assigned<B: Bodies>(
    outside: &B,
    file: u16,
    faults: &mut Faults,
    node: Node,
    path: &Path,
    e: &Expr,
    ty: ExprType,
)
    ensures { faults.new ≡ after faults.old (spec.assigned (here (B.names outside.now)
        (B.parts outside.now) (B.around outside.now) file) node path.now e.now ty) }
{
    match ty {
        ExprType::Elem(elem) => expression(outside, file, faults, Place::Elem(elem), e),
        ExprType::Other(shape) => assigned_shape(outside, file, faults, node, path, e, shape),
        ExprType::Loose => expression(outside, file, faults, Place::Any, e),
    }
}

fn whole_target<B: Bodies>(outside: &B, file: u16, faults: &mut Faults, node: Node, path: &Path)
    ensures { faults.new ≡ after faults.old (spec.whole_target (here (B.names outside.now)
        (B.parts outside.now) (B.around outside.now) file) node path.now) }
{
    if is_whole(outside, file, path_type(outside, file, path)) {
        note(outside, file, faults, node, LinkCode::OutOfProfile);
    }
}

/// What is assigned to what is no target.
#[tactic(auto, using(crate::proofs::Told::after_append))]
fn unassigned<B: Bodies>(
    outside: &B,
    file: u16,
    faults: &mut Faults,
    node: Node,
    path: &Path,
    e: &Expr,
)
    ensures { faults.new ≡ after faults.old (spec.unassigned (here (B.names outside.now)
        (B.parts outside.now) (B.around outside.now) file) node path.now e.now) }
{
    whole_target(outside, file, faults, node, path);
    expression(outside, file, faults, Place::Any, e);
}

/// Notes the faults of an assignment.
#[tactic(auto, using(crate::proofs::Told::followed_some, crate::proofs::Told::followed_none))]
pub(crate) fn assignment<B: Bodies>(
    outside: &B,
    file: u16,
    faults: &mut Faults,
    loops: &Loops<'_>,
    node: Node,
    path: &Path,
    e: &Expr,
)
    ensures { faults.new ≡ after faults.old (spec.assignment (here (B.names outside.now)
        (B.parts outside.now) (B.around outside.now) file) (around loops.now) node path.now
        e.now) }
{
    match target(outside, file, faults, loops, path) {
        None => unassigned(outside, file, faults, node, path, e),
        Some(ty) => assigned(outside, file, faults, node, path, e, ty),
    }
}
