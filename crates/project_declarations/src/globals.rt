// Global variables, types, and what specifications list.

ghost use Rattle.std.specs.Prelude.{◌≡◌, [], ◌∷◌, ◌++◌, map, flat_map, OnOk};
ghost use Rattle.project_declarations.specs.Named as names;
ghost use Rattle.project_declarations.specs.Declarations as declared;
ghost use Rattle.project_declarations.specs.Rows.{Adds};

use crate::collected::{Collected, site_of};
use crate::rows::{Owner, Source, What};
use crate::scopes::{ADDRESSES, GLOBAL, OUTERMOST, VALUES};
use scope_names::NameRow;
use st_tree::{
    Address, Decl, Fields, Globals, Identifier, Node, Shape, Site, Spec, TypeDecl, Types,
};
use std::alloc::AllocError;

impl<'t> Collected<'t> {
    /// The values of an enumeration.
    fn values(&mut self, file: u16, node: Node, list: &'t [Identifier]) -> Result<(), AllocError>
        ensures { OnOk result (Adds self.old self.new [] [] (names.values_of file node list.now)) }
    {
        let site = site_of(file, node);
        for (place, identifier) in list.iter().enumerate() {
            self.name(file, VALUES, identifier, What::Value(site, place))?;
        }
        Ok(())
    }

    /// The values of the enumeration that a specification lists.
    #[tactic(auto, unfolding(crate::specs::Named::values_in), using(crate::proofs::Adding::adds_nothing))]
    pub(crate) fn spec(&mut self, file: u16, spec: &'t Spec) -> Result<(), AllocError>
        ensures { OnOk result (Adds self.old self.new [] [] (names.values_in file spec.now)) }
    {
        match spec {
            Spec::Type(_, _, _) => Ok(()),
            Spec::Enumeration(node, list) => self.values(file, *node, list.as_slice()),
            Spec::Array(_, _, element) => self.spec(file, element.get()),
        }
    }

    /// The variables of a declaration.
    fn variables(
        &mut self,
        file: u16,
        scope: u32,
        site: Site,
        list: &'t [Identifier],
    ) -> Result<(), AllocError>
        ensures { OnOk result (Adds self.old self.new [] []
            (map (names.variable_named file scope site) list.now)) }
    {
        for identifier in list {
            self.name(file, scope, identifier, What::Variable(site))?;
        }
        Ok(())
    }

    /// Each variable of a declaration at an address declares the address.
    fn at_address(
        &mut self,
        file: u16,
        site: Site,
        address: &'t Address,
        list: &'t [Identifier],
    ) -> Result<(), AllocError>
        ensures { OnOk result (Adds self.old self.new [] []
            (map (names.at_address file site address.now) list.now)) }
    {
        for identifier in list {
            self.names.push(NameRow {
                scope: ADDRESSES,
                name: address.name.bytes(),
                site: site_of(file, identifier.node),
                node: identifier.node,
                what: What::Variable(site),
            })?;
        }
        Ok(())
    }

    fn addresses(&mut self, file: u16, decl: &'t Decl) -> Result<(), AllocError>
        ensures { OnOk result (Adds self.old self.new [] [] (names.addresses_of file decl.now)) }
    {
        match &decl.address {
            None => Ok(()),
            Some(address) => self.at_address(
                file,
                site_of(file, decl.node),
                address,
                decl.names.as_slice(),
            ),
        }
    }

    /// A declaration of variables.
    pub(crate) fn variable_decl(
        &mut self,
        file: u16,
        scope: u32,
        owner: Owner,
        decl: &'t Decl,
    ) -> Result<(), AllocError>
        ensures { OnOk result (Adds self.old self.new [] (declared.variables file owner decl.now ∷ [])
            (names.decl_names file scope decl.now)) }
    {
        self.decl(file, owner, Source::Variables(decl))?;
        self.variables(file, scope, site_of(file, decl.node), decl.names.as_slice())?;
        self.addresses(file, decl)?;
        self.spec(file, &decl.spec)?;
        Ok(())
    }

    /// A section of global variables.
    pub(crate) fn globals(&mut self, file: u16, globals: &'t Globals) -> Result<(), AllocError>
        ensures { OnOk result (Adds self.old self.new [] (declared.globals_decls file globals.now)
            (names.globals_names file globals.now)) }
    {
        for decl in globals.decls.as_slice() {
            self.variable_decl(file, GLOBAL, Owner::Global(globals.keep), decl)?;
        }
        Ok(())
    }

    fn fields(&mut self, file: u16, fields: &'t [Fields]) -> Result<(), AllocError>
        ensures { OnOk result (Adds self.old self.new [] []
            (flat_map (names.fields_values file) fields.now)) }
    {
        for group in fields {
            self.spec(file, &group.spec)?;
        }
        Ok(())
    }

    fn shape(&mut self, file: u16, shape: &'t Shape) -> Result<(), AllocError>
        ensures { OnOk result (Adds self.old self.new [] [] (names.shape_values file shape.now)) }
    {
        match shape {
            Shape::Spec(spec) => self.spec(file, spec),
            Shape::Structure(_, fields) => self.fields(file, fields.as_slice()),
        }
    }

    fn type_decl(&mut self, file: u16, decl: &'t TypeDecl) -> Result<(), AllocError>
        ensures { OnOk result (Adds self.old self.new [] (declared.type_decl file decl.now ∷ [])
            (names.type_names file decl.now)) }
    {
        self.decl(file, Owner::Type, Source::Type(decl))?;
        let site = site_of(file, decl.node);
        self.name(file, OUTERMOST, &decl.name, What::Type(site))?;
        self.shape(file, &decl.shape)?;
        Ok(())
    }

    /// Types that are declared together.
    pub(crate) fn types(&mut self, file: u16, types: &'t Types) -> Result<(), AllocError>
        ensures { OnOk result (Adds self.old self.new [] (declared.types_decls file types.now)
            (names.types_names file types.now)) }
    {
        for decl in types.decls.as_slice() {
            self.type_decl(file, decl)?;
        }
        Ok(())
    }
}
