// Expressions and paths.

use crate::node::Node;
use station_ports::texts::Name;
use tree_items::{Boxed, Items};

/// A name as it is written. Names are compared with their ASCII letters raised.
#[derive(Drop)]
pub struct Identifier {
    pub node: Node,
    pub name: Name,
}

/// An address as it is written, as `%IX0.1`. Addresses are compared with their ASCII letters raised.
#[derive(Drop)]
pub struct Address {
    pub node: Node,
    pub name: Name,
}

/// What a path begins with.
#[derive(Drop)]
pub enum Root {
    Name(Identifier),
    Address(Address),
}

/// An operator before its operand.
#[derive(Clone, Copy, Debug, PartialEq, Eq)]
pub enum UnaryOperator {
    Negate,
    Not,
}

/// An operator between its operands.
#[derive(Clone, Copy, Debug, PartialEq, Eq)]
pub enum BinaryOperator {
    Or,
    Xor,
    And,
    Equal,
    NotEqual,
    Less,
    Greater,
    LessEqual,
    GreaterEqual,
    Add,
    Subtract,
    Multiply,
    Divide,
    Modulo,
}

/// An expression. Binary operators group to the left.
#[cycle(expression)]
#[derive(Drop)]
pub enum Expr {
    /// A number as it is written, and whether a minus stands directly before it.
    Number(Node, bool, Name),
    /// A typed number as it is written, as `INT#-5`.
    Typed(Node, Name),
    /// A time as it is written, as `T#5s`.
    Time(Node, Name),
    /// `TRUE` or `FALSE`.
    Truth(Node, bool),
    Path(Path),
    /// `type#value`, the value of an enumeration.
    Value(Node, Identifier, Identifier),
    /// `"(" expr ")"`, which means what the expression within means. It is no path.
    Parenthesized(Node, Boxed<Expr>),
    Unary(Node, UnaryOperator, Boxed<Expr>),
    Binary(Node, BinaryOperator, Boxed<Expr>, Boxed<Expr>),
    /// The call of a function.
    Call(Node, Identifier, Items<Argument>),
}

/// An argument of a function's call, by place or by name: `value` or `name := value`.
#[cycle(expression)]
#[derive(Drop)]
pub struct Argument {
    pub node: Node,
    pub name: Option<Identifier>,
    pub value: Boxed<Expr>,
}

/// A variable or a part of one: `root { part }`.
#[cycle(expression)]
#[derive(Drop)]
pub struct Path {
    pub node: Node,
    pub root: Root,
    pub parts: Items<Part>,
}

/// A part of a structure or an array.
#[cycle(expression)]
#[derive(Drop)]
pub enum Part {
    /// `.name`
    Field(Identifier),
    /// `[index { "," index }]`
    Index(Node, Items<Expr>),
}
