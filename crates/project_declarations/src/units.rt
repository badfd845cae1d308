// Units and their variables.

ghost use Rattle.std.specs.Prelude.{◌≡◌, [], ◌∷◌, flat_map, OnOk};
ghost use Rattle.project_declarations.specs.Named as names;
ghost use Rattle.project_declarations.specs.Declarations as declared;
ghost use Rattle.project_declarations.specs.Rows.{Adds};

use crate::collected::{Collected, site_of};
use crate::rows::{Local, Owner, Source, UnitNo, UnitRow, What};
use crate::scopes::{OUTERMOST, locals};
use st_tree::{Identifier, Node, Section, TypeName, Unit, UnitKind};
use station_ports::outside::NoMemory;

pub(crate) fn node_of(name: &TypeName) -> Node
    ensures { result ≡ names.node_of_type_name name.now }
{
    match name {
        TypeName::Elementary(node, _) => *node,
        TypeName::Named(identifier) => identifier.node,
    }
}

impl<'t> Collected<'t> {
    fn section(&mut self, file: u16, unit: u32, section: &'t Section) -> Result<(), NoMemory>
        ensures { OnOk result (Adds self.old self.new [] (declared.section_decls file unit section.now)
            (names.section_names file unit section.now)) }
    {
        let scope = locals(unit)?;
        let owner = Owner::Local(Local {
            unit: UnitNo(unit),
            kind: section.kind,
            keep: section.keep,
        });
        for decl in section.decls.as_slice() {
            self.variable_decl(file, scope, owner, decl)?;
        }
        Ok(())
    }

    fn sections(&mut self, file: u16, unit: u32, sections: &'t [Section]) -> Result<(), NoMemory>
        ensures { OnOk result (Adds self.old self.new []
            (flat_map (declared.section_decls file unit) sections.now)
            (flat_map (names.section_names file unit) sections.now)) }
    {
        for section in sections {
            self.section(file, unit, section)?;
        }
        Ok(())
    }

    /// A function's result is a variable under the function's name.
    fn result(
        &mut self,
        file: u16,
        unit: u32,
        name: &'t Identifier,
        kind: &'t UnitKind,
    ) -> Result<(), NoMemory>
        ensures { OnOk result (Adds self.old self.new [] (declared.result_decls file unit kind.now)
            (names.result_names file unit name.now kind.now)) }
    {
        match kind {
            UnitKind::Function(result) => {
                let scope = locals(unit)?;
                let site = site_of(file, node_of(result));
                self.decl(file, Owner::Result(UnitNo(unit)), Source::Result(result))?;
                self.name(file, scope, name, What::Variable(site))?;
                Ok(())
            },
            UnitKind::Block => Ok(()),
            UnitKind::Program => Ok(()),
        }
    }

    /// A unit, which has that number.
    pub(crate) fn unit(&mut self, file: u16, number: u32, unit: &'t Unit) -> Result<(), NoMemory>
        ensures { OnOk result (Adds self.old self.new (declared.placed file unit.now ∷ [])
            (declared.unit_decls file number unit.now) (names.unit_names file number unit.now)) }
    {
        self.units.push(UnitRow { file, unit })?;
        self.name(file, OUTERMOST, &unit.name, What::Unit(UnitNo(number)))?;
        self.result(file, number, &unit.name, &unit.kind)?;
        self.sections(file, number, unit.sections.as_slice())?;
        self.body(file, number, &unit.body)?;
        Ok(())
    }
}
