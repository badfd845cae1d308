// The names in declarations.

ghost use Rattle.std.specs.Prelude.{◌≡◌, ◌++◌, map, OnOk};
ghost use Rattle.project_declarations.specs.Rows.{bare_decl, bare_source};
ghost use Rattle.project_declarations.specs.Named.{if_some};
ghost use Rattle.project_declarations.specs.Declarations.{joined};
ghost use Rattle.declaration_references.specs.References as refers;

use crate::references::{ReferenceKind, References};
use project_declarations::{DeclRow, Owner, Source};
use st_tree::{
    Decl, FieldInit, Fields, Identifier, Init, Item, Range, SectionKind, Shape, Spec, TypeDecl,
    TypeName,
};
use std::alloc::AllocError;

impl<'t> References<'t> {
    fn type_name(&mut self, name: &'t TypeName) -> Result<(), AllocError>
        ensures { OnOk result (self.new ≡ self.old ++ refers.type_names name.now) }
    {
        match name {
            TypeName::Elementary(_, _) => Ok(()),
            TypeName::Named(name) => {
                self.add(ReferenceKind::Type, name)?;
                Ok(())
            },
        }
    }

    fn range(&mut self, range: &'t Range) -> Result<(), AllocError>
        ensures { OnOk result (self.new ≡ self.old ++ refers.in_range range.now) }
    {
        self.expr(range.lower.get())?;
        self.expr(range.upper.get())?;
        Ok(())
    }

    fn ranges(&mut self, list: &'t [Range]) -> Result<(), AllocError>
        ensures { OnOk result (self.new ≡ self.old ++ joined (map refers.in_range list.now)) }
    {
        for range in list {
            self.range(range)?;
        }
        Ok(())
    }

    fn range_option(&mut self, range: &'t Option<Range>) -> Result<(), AllocError>
        ensures { OnOk result (self.new ≡ self.old ++ if_some refers.in_range range.now) }
    {
        match range {
            None => Ok(()),
            Some(range) => {
                self.range(range)?;
                Ok(())
            },
        }
    }

    #[tactic(auto, unfolding(crate::specs::References::in_spec))]
    fn spec(&mut self, spec: &'t Spec) -> Result<(), AllocError>
        ensures { OnOk result (self.new ≡ self.old ++ refers.in_spec spec.now) }
    {
        match spec {
            Spec::Type(_, name, range) => {
                self.type_name(name)?;
                self.range_option(range)?;
                Ok(())
            },
            Spec::Enumeration(_, _) => Ok(()),
            Spec::Array(_, ranges, element) => {
                self.ranges(ranges.as_slice())?;
                self.spec(element.get())?;
                Ok(())
            },
        }
    }

    #[cycle(init)]
    #[tactic(auto, unfolding(crate::specs::References::in_init, crate::specs::References::in_item, crate::specs::References::in_field))]
    fn init(&mut self, init: &'t Init) -> Result<(), AllocError>
        ensures { OnOk result (self.new ≡ self.old ++ refers.in_init init.now) }
    {
        match init {
            Init::Value(value) => {
                self.expr(value.get())?;
                Ok(())
            },
            Init::Array(_, items) => {
                self.items(items.as_slice())?;
                Ok(())
            },
            Init::Structure(_, fields) => {
                self.field_inits(fields.as_slice())?;
                Ok(())
            },
        }
    }

    #[cycle(init)]
    #[tactic(auto, unfolding(crate::specs::References::in_init, crate::specs::References::in_item, crate::specs::References::in_field))]
    fn item(&mut self, item: &'t Item) -> Result<(), AllocError>
        ensures { OnOk result (self.new ≡ self.old ++ refers.in_item item.now) }
    {
        match item {
            Item::One(init) => {
                self.init(init)?;
                Ok(())
            },
            Item::Repeated(_, _, init) => {
                self.init(init)?;
                Ok(())
            },
        }
    }

    #[cycle(init)]
    fn items(&mut self, list: &'t [Item]) -> Result<(), AllocError>
        ensures { OnOk result (self.new ≡ self.old ++ joined (map refers.in_item list.now)) }
    {
        for item in list {
            self.item(item)?;
        }
        Ok(())
    }

    #[cycle(init)]
    #[tactic(auto, unfolding(crate::specs::References::in_init, crate::specs::References::in_item, crate::specs::References::in_field))]
    fn field_init(&mut self, field: &'t FieldInit) -> Result<(), AllocError>
        ensures { OnOk result (self.new ≡ self.old ++ refers.in_field field.now) }
    {
        self.init(&field.value)?;
        Ok(())
    }

    #[cycle(init)]
    fn field_inits(&mut self, list: &'t [FieldInit]) -> Result<(), AllocError>
        ensures { OnOk result (self.new ≡ self.old ++ joined (map refers.in_field list.now)) }
    {
        for field in list {
            self.field_init(field)?;
        }
        Ok(())
    }

    fn init_option(&mut self, init: &'t Option<Init>) -> Result<(), AllocError>
        ensures { OnOk result (self.new ≡ self.old ++ if_some refers.in_init init.now) }
    {
        match init {
            None => Ok(()),
            Some(init) => {
                self.init(init)?;
                Ok(())
            },
        }
    }

    fn fields(&mut self, list: &'t [Fields]) -> Result<(), AllocError>
        ensures { OnOk result (self.new ≡ self.old ++ joined (map refers.in_fields list.now)) }
    {
        for fields in list {
            self.spec(&fields.spec)?;
            self.init_option(&fields.init)?;
        }
        Ok(())
    }

    fn shape(&mut self, shape: &'t Shape) -> Result<(), AllocError>
        ensures { OnOk result (self.new ≡ self.old ++ refers.in_shape shape.now) }
    {
        match shape {
            Shape::Spec(spec) => {
                self.spec(spec)?;
                Ok(())
            },
            Shape::Structure(_, fields) => {
                self.fields(fields.as_slice())?;
                Ok(())
            },
        }
    }

    fn type_decl(&mut self, decl: &'t TypeDecl) -> Result<(), AllocError>
        ensures { OnOk result (self.new ≡ self.old ++ refers.in_type_decl decl.now) }
    {
        self.shape(&decl.shape)?;
        self.init_option(&decl.init)?;
        Ok(())
    }

    fn globals(&mut self, list: &'t [Identifier]) -> Result<(), AllocError>
        ensures { OnOk result (self.new ≡ self.old ++ map refers.global list.now) }
    {
        for name in list {
            self.add(ReferenceKind::Global, name)?;
        }
        Ok(())
    }

    // The variables of a VAR_EXTERNAL lead to the globals of their names.
    fn external(&mut self, owner: Owner, names: &'t [Identifier]) -> Result<(), AllocError>
        ensures { OnOk result (self.new ≡ self.old ++ refers.externals owner names.now) }
    {
        match owner {
            Owner::Local(local) if local.kind == SectionKind::External => {
                self.globals(names)?;
                Ok(())
            },
            _ => Ok(()),
        }
    }

    fn decl(&mut self, owner: Owner, decl: &'t Decl) -> Result<(), AllocError>
        ensures { OnOk result (self.new ≡ self.old ++ refers.in_decl owner decl.now) }
    {
        self.external(owner, decl.names.as_slice())?;
        self.spec(&decl.spec)?;
        self.init_option(&decl.init)?;
        Ok(())
    }

    /// Adds what a declaration refers to.
    pub fn declaration(&mut self, row: &DeclRow<'t>) -> Result<(), AllocError>
        ensures { OnOk result (self.new ≡ self.old ++ refers.in_declaration (bare_decl row.now)) }
    {
        match row.source {
            Source::Type(decl) => {
                self.type_decl(decl)?;
                Ok(())
            },
            Source::Variables(decl) => {
                self.decl(row.owner, decl)?;
                Ok(())
            },
            Source::Result(name) => {
                self.type_name(name)?;
                Ok(())
            },
        }
    }

    /// Adds what the bounds of a range refer to.
    pub fn bounds(&mut self, range: &'t Range) -> Result<(), AllocError>
        ensures { OnOk result (self.new ≡ self.old ++ refers.in_range range.now) }
    {
        self.range(range)?;
        Ok(())
    }

    /// Adds what an initial value refers to.
    pub fn initial_value(&mut self, init: &'t Init) -> Result<(), AllocError>
        ensures { OnOk result (self.new ≡ self.old ++ refers.in_init init.now) }
    {
        self.init(init)?;
        Ok(())
    }
}
