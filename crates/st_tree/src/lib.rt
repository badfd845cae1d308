//! Trees of source texts, and the code of tasks, as plain data.
#![tactic(auto)]

mod chart;
mod code;
mod declaration;
mod expression;
mod feeds;
mod file;
mod hit;
mod node;
mod plan;
mod settings;
mod statement;

pub use chart::{Action, Association, Sfc, SfcPart, Step, StepNames, Transition};
pub use code::{Cell, CellInfo, Code, Component, Number, Operation, Operator, TaskCode};
pub use declaration::{
    Decl, FieldInit, Init, Item, Keep, Range, Section, SectionKind, Spec, TypeName,
};
pub use expression::{
    Address, Argument, BinaryOperator, Expr, Identifier, Part, Path, Root, UnaryOperator,
};
pub use feeds::feeds_of;
pub use file::{
    Body, Comment, Config, Fields, FilePart, Globals, Parameter, ProgramLine, Resource, Shape,
    SourceTree, Task, Tasks, TypeDecl, Types, Unit, UnitKind,
};
pub use hit::Hit;
pub use node::{Node, NodeNo, Site};
pub use plan::PlanRefusal;
pub use settings::{CallerKey, Settings};
pub use statement::{Branch, Case, Counter, Label, Point, Stmt, StmtArgument};
