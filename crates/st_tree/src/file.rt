// Units and files.

use crate::chart::Sfc;
use crate::declaration::{Decl, Init, Keep, Section, Spec, TypeName};
use crate::expression::{Expr, Identifier};
use crate::node::Node;
use crate::statement::Stmt;
use station_ports::texts::Name;
use tree_items::{Boxed, Items};

/// A unit: a function, a function block or a program.
#[derive(Drop)]
pub struct Unit {
    pub node: Node,
    pub kind: UnitKind,
    pub name: Identifier,
    pub sections: Items<Section>,
    pub body: Body,
}

/// What a unit does: `sfc | statements`
#[derive(Drop)]
pub enum Body {
    Statements(Items<Stmt>),
    Chart(Sfc),
}

/// What a unit is.
#[derive(Drop)]
pub enum UnitKind {
    /// A function with the type of its result.
    Function(TypeName),
    Block,
    Program,
}

/// Types declared together, `TYPE` to `END_TYPE`.
#[derive(Drop)]
pub struct Types {
    pub node: Node,
    pub decls: Items<TypeDecl>,
}

/// `name ":" shape [ ":=" init ] ";"`
#[derive(Drop)]
pub struct TypeDecl {
    pub node: Node,
    pub name: Identifier,
    pub shape: Shape,
    pub init: Option<Init>,
}

/// What a type is: as a declaration says it, or a structure.
#[derive(Drop)]
pub enum Shape {
    Spec(Spec),
    /// `STRUCT { fields } END_STRUCT`
    Structure(Node, Items<Fields>),
}

/// Fields of a structure declared together: `names ":" spec [ ":=" init ] ";"`
#[derive(Drop)]
pub struct Fields {
    pub node: Node,
    pub names: Items<Identifier>,
    pub spec: Spec,
    pub init: Option<Init>,
}

/// A section of global variables, `VAR_GLOBAL` to `END_VAR`.
#[derive(Drop)]
pub struct Globals {
    pub node: Node,
    pub keep: Option<Keep>,
    pub decls: Items<Decl>,
}

/// A configuration, `CONFIGURATION` to `END_CONFIGURATION`.
#[derive(Drop)]
pub struct Config {
    pub node: Node,
    pub name: Identifier,
    pub globals: Items<Globals>,
    pub resources: Items<Resource>,
    pub tasks: Tasks,
}

/// A resource, `RESOURCE` to `END_RESOURCE`.
#[derive(Drop)]
pub struct Resource {
    pub node: Node,
    pub name: Identifier,
    /// The name behind ON.
    pub kind: Identifier,
    pub globals: Items<Globals>,
    pub tasks: Tasks,
}

/// Tasks, and the programs that run under them.
#[derive(Drop)]
pub struct Tasks {
    pub tasks: Items<Task>,
    pub lines: Items<ProgramLine>,
}

/// `TASK name "(" parameters ")" ";"`
#[derive(Drop)]
pub struct Task {
    pub node: Node,
    pub name: Identifier,
    pub parameters: Items<Parameter>,
}

/// `name ":=" expr`, in the parentheses of a task.
#[derive(Drop)]
pub struct Parameter {
    pub node: Node,
    pub name: Identifier,
    pub value: Boxed<Expr>,
}

/// `PROGRAM name [ WITH task ] ":" type ";"`
#[derive(Drop)]
pub struct ProgramLine {
    pub node: Node,
    pub name: Identifier,
    pub task: Option<Identifier>,
    pub program: Identifier,
}

/// A part of a file.
#[derive(Drop)]
pub enum FilePart {
    Unit(Unit),
    Types(Types),
    Globals(Globals),
    Config(Config),
}

/// A comment with its text, its marks among it.
#[derive(Drop)]
pub struct Comment {
    pub node: Node,
    pub text: Name,
}

/// A file: what it declares, each kind in the order of the text, its comments, and the places of all its line feeds.
#[derive(Drop)]
pub struct SourceTree {
    pub units: Items<Unit>,
    pub types: Items<Types>,
    pub globals: Items<Globals>,
    pub config: Items<Config>,
    pub comments: Items<Comment>,
    pub feeds: Items<usize>,
}
