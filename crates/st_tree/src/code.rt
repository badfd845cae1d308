// The code of a task: a core language over cells, in which every name is resolved and every part stands in the order in which it
// is taken.

use crate::node::Site;
use iec_tables::elem::Elem;
use station_ports::texts::Name;
use tree_items::Items;

/// A cell: the task's own, or one that all tasks share, by its place among those.
#[derive(Clone, Copy, Debug, PartialEq, Eq)]
pub enum Cell {
    Own(usize),
    Shared(usize),
}

/// A binary operator.
#[derive(Clone, Copy, Debug, PartialEq, Eq)]
pub enum Operator {
    Add,
    Subtract,
}

/// An operator at its node, with the type of its result.
#[derive(Clone, Copy, Debug, PartialEq, Eq)]
pub struct Operation {
    pub site: Site,
    pub elem: Elem,
    pub operator: Operator,
}

/// A whole number.
#[derive(Clone, Copy, Debug, PartialEq, Eq)]
pub struct Number {
    pub value: i128,
}

/// A list of instructions over a stack of numbers: the first one, and the rest.
pub enum Code {
    Done,
    /// Puts a number on the stack.
    Literal(Number, Box<Code>),
    /// Puts what the cell holds on the stack.
    Read(Cell, Box<Code>),
    /// Takes the right operand and the left one from the stack, and puts the result on it.
    Operate(Operation, Box<Code>),
    /// Takes a number from the stack and writes it to the cell.
    Write(Cell, Box<Code>),
}

impl Drop for Code {
    fn drop(mut self) {
        loop {
            match self {
                Code::Done => return,
                Code::Literal(_, rest) => self = Box::into_inner(rest),
                Code::Read(_, rest) => self = Box::into_inner(rest),
                Code::Operate(_, rest) => self = Box::into_inner(rest),
                Code::Write(_, rest) => self = Box::into_inner(rest),
            }
        }
    }
}

/// A cell of a variable: under which name it is reported, the type of its numbers, and the number that it starts with.
#[derive(Drop)]
pub struct CellInfo {
    pub path: Name,
    pub elem: Elem,
    pub start: i128,
}

/// What a task runs in each cycle, and its own cells.
#[derive(Drop)]
pub struct TaskCode {
    pub code: Code,
    pub cells: Items<CellInfo>,
}

/// Tasks that share no variable with other tasks: their codes, the cells that they share, and the literals of their grid.
#[derive(Drop)]
pub struct Component {
    pub tasks: Items<TaskCode>,
    pub shared: Items<CellInfo>,
    pub literals: Items<i128>,
}
