// Making the table of signatures.

ghost use Rattle.std.specs.Prelude.{◌≡◌, [], ◌++◌, map, flat_map, slice_get, IfOk, OnOk};
ghost use Rattle.std.specs.Option.{option_map};
ghost use Rattle.project_declarations.specs.Scopes as scopes;
ghost use Rattle.project_declarations.specs.Named.{node_of_type_name};
ghost use Rattle.project_declarations.specs.Rows.{bare_unit};
ghost use Rattle.declared_names.specs.Tables.{project_in};
ghost use Rattle.project_meanings.specs.Rows.{bare_inputs, bare_signature};
ghost use Rattle.project_meanings.specs.Signatures as spec;
ghost use Rattle.project_meanings.specs.Tables.{signatures_in};

use crate::rows::{InputRow, Signature};
use crate::table::Signatures;
use declared_names::{Project, number_there};
use project_declarations::{UnitRow, locals};
use st_tree::{Decl, Identifier, Node, Section, SectionKind, Site, TypeName, UnitKind};
use station_ports::outside::NoMemory;
use std::alloc::Global;
use tree_items::Items;

fn is_input(kind: SectionKind) -> bool
    ensures { result ≡ spec.is_input kind }
{
    match kind {
        SectionKind::Input => true,
        _ => false,
    }
}

fn declared_number(project: &Project<'_>, file: u16, node: Node) -> Option<usize>
    ensures { result ≡ spec.declared_number (project_in project.now) file node }
{
    number_there(
        project,
        Some(Site {
            file,
            node: node.number,
        }),
    )
}

fn add_names<'t>(
    rows: &mut Vec<InputRow<'t>>,
    number: Option<usize>,
    names: &'t [Identifier],
) -> Result<(), NoMemory>
    ensures { OnOk result (bare_inputs rows.new.items
        ≡ bare_inputs rows.old.items ++ map (spec.input_named number) names.now) }
{
    for x in names {
        rows.push(InputRow {
            name: x.name.bytes(),
            number,
        })?;
    }
    Ok(())
}

fn add_decls<'t>(
    rows: &mut Vec<InputRow<'t>>,
    project: &Project<'t>,
    file: u16,
    decls: &'t [Decl],
) -> Result<(), NoMemory>
    ensures { OnOk result (bare_inputs rows.new.items ≡ bare_inputs rows.old.items
        ++ flat_map (spec.decl_inputs (project_in project.now) file) decls.now) }
{
    for decl in decls {
        add_names(
            rows,
            declared_number(project, file, decl.node),
            decl.names.as_slice(),
        )?;
    }
    Ok(())
}

fn add_section<'t>(
    rows: &mut Vec<InputRow<'t>>,
    project: &Project<'t>,
    file: u16,
    section: &'t Section,
) -> Result<(), NoMemory>
    ensures { OnOk result (bare_inputs rows.new.items ≡ bare_inputs rows.old.items
        ++ spec.section_inputs (project_in project.now) file section.now) }
{
    if is_input(section.kind) {
        add_decls(rows, project, file, section.decls.as_slice())
    } else {
        Ok(())
    }
}

fn unit_inputs<'t>(
    alloc: Global,
    project: &Project<'t>,
    file: u16,
    sections: &'t [Section],
) -> Result<Vec<InputRow<'t>>, NoMemory>
    ensures { IfOk result (λ rows. bare_inputs rows.items
        ≡ flat_map (spec.section_inputs (project_in project.now) file) sections.now) }
{
    let mut rows = Vec::new(alloc);
    for section in sections {
        add_section(&mut rows, project, file, section)?;
    }
    Ok(rows)
}

fn node_of(name: &TypeName) -> Node
    ensures { result ≡ node_of_type_name name.now }
{
    match name {
        TypeName::Elementary(node, _) => *node,
        TypeName::Named(identifier) => identifier.node,
    }
}

fn result_of(project: &Project<'_>, file: u16, kind: &UnitKind) -> Option<usize>
    ensures { result ≡ spec.result_of (project_in project.now) file kind.now }
{
    match kind {
        UnitKind::Function(name) => declared_number(project, file, node_of(name)),
        UnitKind::Block => None,
        UnitKind::Program => None,
    }
}

fn scope_of(number: usize) -> Result<u32, NoMemory>
    ensures { IfOk result (λ scope. scope ≡ scopes.locals number) }
{
    match u32::try_from(number) {
        Ok(number) => locals(number),
        Err(_) => Err(NoMemory),
    }
}

fn signature_of<'t>(
    alloc: Global,
    project: &Project<'t>,
    number: usize,
    row: &UnitRow<'t>,
) -> Result<Signature<'t>, NoMemory>
    ensures { IfOk result (λ it. bare_signature it
        ≡ spec.signature_of (project_in project.now) number (bare_unit row.now)) }
{
    let scope = scope_of(number)?;
    let inputs = unit_inputs(alloc, project, row.file, row.unit.sections.as_slice())?;
    Ok(Signature {
        scope,
        inputs: Items::from_vec(inputs),
        result: result_of(project, row.file, &row.unit.kind),
    })
}

fn rows_of<'t>(
    alloc: Global,
    project: &Project<'t>,
    units: &[UnitRow<'t>],
) -> Result<Vec<Signature<'t>>, NoMemory>
    ensures { IfOk result (λ rows. map bare_signature rows.items
        ≡ spec.signatures_from (project_in project.now) 0 (map bare_unit units.now)) }
{
    let mut rows = Vec::new(alloc);
    for (number, row) in units.iter().enumerate() {
        rows.push(signature_of(alloc, project, number, row)?)?;
    }
    Ok(rows)
}

impl<'a, 't> Signatures<'a, 't> {
    /// The signatures of a project's units. Takes time in the order of their declarations, with a search
    /// by halves for each. NoMemory where there is no memory for them, or no room for the numbers of
    /// scopes.
    pub fn of(alloc: Global, project: &'a Project<'t>) -> Result<Signatures<'a, 't>, NoMemory>
        ensures rows { IfOk result (λ it. signatures_in it
            ≡ spec.signatures_of (project_in project.now)) }
        ensures project { IfOk result (λ it. project_in it.project.now ≡ project_in project.now) }
    {
        let rows = rows_of(alloc, project, project.units())?;
        Ok(Signatures { project, rows })
    }

    /// The project whose units have these signatures.
    pub fn project(&self) -> &'a Project<'t>
        ensures { project_in result.now ≡ project_in self.now.project.now }
    {
        self.project
    }

    /// The signature of the unit of a number.
    pub fn at(&self, number: usize) -> Option<&Signature<'t>>
        ensures { option_map (λ row. bare_signature row.now) result
            ≡ slice_get (signatures_in self.now) number }
    {
        self.rows.get(number)
    }
}
