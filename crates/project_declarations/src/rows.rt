// Units and declarations, and what names stand for.

use st_tree::{Decl, Keep, SectionKind, Site, TypeDecl, TypeName, Unit};

/// The place of a unit in file and text order, from 0.
#[derive(Clone, Copy, Debug, PartialEq, Eq)]
pub struct UnitNo(pub u32);

/// What a name stands for. A declaration is known by its site, an enumeration by that of the
/// specification that lists its values.
#[derive(Clone, Copy, Debug, PartialEq, Eq)]
pub enum What {
    Unit(UnitNo),
    Type(Site),
    Variable(Site),
    /// A value of an enumeration, by its place among the values, from 0.
    Value(Site, usize),
    Task(Site),
    Line(Site),
    Step(Site),
    Action(Site),
}

/// A unit and the place of its file.
#[derive(Clone, Copy)]
pub struct UnitRow<'t> {
    pub file: u16,
    pub unit: &'t Unit,
}

/// The section of a unit in which a variable is declared.
#[derive(Clone, Copy, Debug, PartialEq, Eq)]
pub struct Local {
    pub unit: UnitNo,
    pub kind: SectionKind,
    pub keep: Option<Keep>,
}

/// What a declaration belongs to.
#[derive(Clone, Copy, Debug, PartialEq, Eq)]
pub enum Owner {
    Type,
    Global(Option<Keep>),
    Local(Local),
    /// The result of a function.
    Result(UnitNo),
}

/// A declaration as it is written.
#[derive(Clone, Copy)]
pub enum Source<'t> {
    Type(&'t TypeDecl),
    Variables(&'t Decl),
    /// The type of a function's result.
    Result(&'t TypeName),
}

/// A declaration, the place of its file, and what it belongs to.
#[derive(Clone, Copy)]
pub struct DeclRow<'t> {
    pub file: u16,
    pub owner: Owner,
    pub source: Source<'t>,
}
