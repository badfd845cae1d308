// Declarations of variables, and what they say of types and initial values.

use crate::expression::{Address, Expr, Identifier};
use crate::node::Node;
use iec_tables::elem::Elem;
use station_ports::texts::Name;
use tree_items::{Boxed, Items};

/// A type by its name.
#[derive(Drop)]
pub enum TypeName {
    Elementary(Node, Elem),
    Named(Identifier),
}

/// What a declaration says of the type.
#[derive(Drop)]
pub enum Spec {
    /// `typename [ "(" lower ".." upper ")" ]`
    Type(Node, TypeName, Option<Range>),
    /// The values of an enumeration: `"(" names ")"`
    Enumeration(Node, Items<Identifier>),
    /// `ARRAY "[" range { "," range } "]" OF spec`
    Array(Node, Items<Range>, Boxed<Spec>),
}

/// `lower ".." upper`
#[derive(Drop)]
pub struct Range {
    pub node: Node,
    pub lower: Boxed<Expr>,
    pub upper: Boxed<Expr>,
}

/// An initial value.
#[cycle(init)]
#[derive(Drop)]
pub enum Init {
    Value(Boxed<Expr>),
    /// The elements of an array: `"[" item { "," item } "]"`
    Array(Node, Items<Item>),
    /// The fields of a structure: `"(" name ":=" init { "," name ":=" init } ")"`
    Structure(Node, Items<FieldInit>),
}

/// Elements of an array's initial value.
#[cycle(init)]
#[derive(Drop)]
pub enum Item {
    One(Init),
    /// The count as it is written, and the value that stands so many times: `count "(" init ")"`
    Repeated(Node, Name, Init),
}

/// `name ":=" init`
#[cycle(init)]
#[derive(Drop)]
pub struct FieldInit {
    pub node: Node,
    pub name: Identifier,
    pub value: Init,
}

/// Variables declared together: `names [ AT address ] ":" spec [ ":=" init ] ";"`
#[derive(Drop)]
pub struct Decl {
    pub node: Node,
    pub names: Items<Identifier>,
    pub address: Option<Address>,
    pub spec: Spec,
    pub init: Option<Init>,
}

/// The word that a section begins with.
#[derive(Clone, Copy, Debug, PartialEq, Eq)]
pub enum SectionKind {
    Var,
    Input,
    Output,
    InOut,
    External,
    Temp,
}

/// The word behind it.
#[derive(Clone, Copy, Debug, PartialEq, Eq)]
pub enum Keep {
    Constant,
    Retain,
    NonRetain,
}

/// A section of variables, up to END_VAR.
#[derive(Drop)]
pub struct Section {
    pub node: Node,
    pub kind: SectionKind,
    pub keep: Option<Keep>,
    pub decls: Items<Decl>,
}
