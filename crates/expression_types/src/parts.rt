// What names and parts of variables stand for.

ghost use Rattle.std.specs.Prelude.{◌≡◌};
ghost use Rattle.link_faults.specs.Checked.{Tells};
ghost use Rattle.expression_types.specs.Meanings.{meant};
ghost use Rattle.expression_types.specs.Reads as reads;

use crate::judged::Standing;
use crate::meaning::{Field, Meaning, Names, Seen, ValueType};
use crate::rules::{foreign, wrong};
use link_faults::{Faults, LinkCode};
use st_tree::{Identifier, Node, Root};

pub(crate) fn root_seen<M: Meaning>(meaning: &M, root: &Root) -> Seen
    ensures { result ≡ reads.root_seen (meant (M.names meaning.now) (M.parts meaning.now)) root.now }
{
    match root {
        Root::Name(name) => meaning.seen(name.name.bytes()),
        Root::Address(address) => meaning.address(address.name.bytes()),
    }
}

/// What the parts of a path are parts of.
pub(crate) fn root_type(
    faults: &mut Faults,
    standing: Standing,
    node: Node,
    seen: Seen,
) -> Option<ValueType>
    ensures { Tells (reads.root_type standing node seen) faults.old faults.new result }
{
    match seen {
        Seen::Unknown => wrong(faults, standing, node, LinkCode::Unknown),
        Seen::Faulty => None,
        Seen::Foreign => foreign(faults, standing, node),
        Seen::Variable(ty) => Some(ty),
        Seen::Constant(constant) => Some(constant.ty),
        Seen::NoValue(shape) => Some(ValueType::Other(shape)),
    }
}

fn field_type(
    faults: &mut Faults,
    standing: Standing,
    node: Node,
    name_node: Node,
    field: Field,
) -> Option<ValueType>
    ensures { Tells (reads.field_type standing node name_node field) faults.old faults.new result }
{
    match field {
        Field::NoParts => wrong(faults, standing, node, LinkCode::Unknown),
        Field::Unknown => wrong(faults, standing, name_node, LinkCode::Unknown),
        Field::LeftOut => wrong(faults, standing, name_node, LinkCode::OutOfProfile),
        Field::Faulty => None,
        Field::Is(ty) => Some(ty),
    }
}

/// A part by its name.
pub(crate) fn field_of<M: Meaning>(
    meaning: &M,
    standing: Standing,
    faults: &mut Faults,
    node: Node,
    name: &Identifier,
    before: ValueType,
) -> Option<ValueType>
    ensures { Tells (reads.field_of (meant (M.names meaning.now) (M.parts meaning.now)) standing
        node name.now before) faults.old faults.new result }
{
    match before {
        ValueType::Elem(_) => wrong(faults, standing, node, LinkCode::Unknown),
        ValueType::Other(shape) => field_type(
            faults,
            standing,
            node,
            name.node,
            meaning.field(shape, name.name.bytes()),
        ),
    }
}

/// An element under so many indices.
pub(crate) fn element_of<M: Meaning>(
    meaning: &M,
    standing: Standing,
    faults: &mut Faults,
    node: Node,
    indices: usize,
    before: ValueType,
) -> Option<ValueType>
    ensures { Tells (reads.element_of (meant (M.names meaning.now) (M.parts meaning.now)) standing
        node indices before) faults.old faults.new result }
{
    match before {
        ValueType::Elem(_) => wrong(faults, standing, node, LinkCode::WrongType),
        ValueType::Other(shape) => match meaning.element(shape, indices) {
            None => wrong(faults, standing, node, LinkCode::WrongType),
            Some(ty) => Some(ty),
        },
    }
}
