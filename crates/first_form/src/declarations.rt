// Declarations: the names, their type, and the section round them.

ghost use Rattle.std.specs.Prelude.{◌≡◌, [], ◌∷◌, map, flat_map, Some, IfOk};
ghost use Rattle.first_form.specs.Bare.{bare_identifier, bare_spec, bare_decl, bare_section};
ghost use Rattle.first_form.specs.Nodes.{name_node, decl_nodes, section_nodes};
ghost use Rattle.first_form.specs.FirstForm as form;
ghost use Rattle.first_form.specs.steps.Answers.{Gives};
ghost use Rattle.first_form.specs.steps.Numbering.{Counts};

use crate::former::Former;
use crate::refusal::Refusal;
use crate::tree::{Decl, Identifier, Section, Spec};
use iec_tables::elem::Elem;
use st_tree::{Keep, SectionKind, TypeName};
use tree_items::Items;

impl Former {
    /// One section, or none.
    #[tactic(auto, unfolding(crate::specs::FirstForm::sections))]
    pub fn sections(&mut self, sources: &[st_tree::Section]) -> Result<Items<Section>, Refusal>
        ensures form { Gives (map bare_section) (form.sections sources.now) result }
        ensures numbers { IfOk result (λ ss. Counts self.old.next (flat_map section_nodes ss) self.new.next) }
    {
        let mut sections = Items::new(self.alloc);
        match sources {
            [] => {}
            [only] => sections.push(self.section(only)?)?,
            _ => return Err(Refusal::OtherForm),
        }
        Ok(sections)
    }

    /// A section `VAR` without a word behind it.
    #[tactic(auto, unfolding(crate::specs::FirstForm::section))]
    fn section(&mut self, source: &st_tree::Section) -> Result<Section, Refusal>
        ensures form { Gives bare_section (form.section source.now) result }
        ensures numbers { IfOk result (λ s. Counts self.old.next (section_nodes s) self.new.next) }
    {
        let node = self.node(source.node)?;
        let decls = self.declarations(source.decls.as_slice())?;
        if !is_plain(source.kind, source.keep) {
            return Err(Refusal::OtherForm);
        }
        Ok(Section { node, decls })
    }

    fn declarations(&mut self, sources: &[st_tree::Decl]) -> Result<Items<Decl>, Refusal>
        ensures form { Gives (map bare_decl) (form.each form.decl sources.now) result }
        ensures numbers { IfOk result (λ ds. Counts self.old.next (flat_map decl_nodes ds) self.new.next) }
    {
        let mut decls = Items::new(self.alloc);
        for source in sources {
            decls.push(self.declaration(source)?)?;
        }
        Ok(decls)
    }

    /// Names of the type INT, without an address or an initial value.
    #[tactic(auto, unfolding(crate::specs::FirstForm::decl))]
    fn declaration(&mut self, source: &st_tree::Decl) -> Result<Decl, Refusal>
        ensures form { Gives bare_decl (form.decl source.now) result }
        ensures numbers { IfOk result (λ d. Counts self.old.next (decl_nodes d) self.new.next) }
    {
        if source.address.is_some() || source.init.is_some() {
            return Err(Refusal::OtherForm);
        }
        let node = self.node(source.node)?;
        let names = self.names(source.names.as_slice())?;
        let spec = self.spec(&source.spec)?;
        Ok(Decl { node, names, spec })
    }

    fn names(&mut self, sources: &[st_tree::Identifier]) -> Result<Items<Identifier>, Refusal>
        ensures form { Gives (map bare_identifier) (Some (map form.identifier sources.now)) result }
        ensures numbers { IfOk result (λ is. Counts self.old.next (map name_node is) self.new.next) }
    {
        let mut names = Items::new(self.alloc);
        for source in sources {
            names.push(self.identifier(source)?)?;
        }
        Ok(names)
    }

    /// INT, without a range.
    #[tactic(auto, unfolding(crate::specs::FirstForm::spec))]
    fn spec(&mut self, source: &st_tree::Spec) -> Result<Spec, Refusal>
        ensures form { Gives bare_spec (form.spec source.now) result }
        ensures numbers { IfOk result (λ s. Counts self.old.next (s.node ∷ []) self.new.next) }
    {
        let st_tree::Spec::Type(node, name, None) = source else {
            return Err(Refusal::OtherForm);
        };
        if !is_int(name) {
            return Err(Refusal::OtherForm);
        }
        let node = self.node(*node)?;
        Ok(Spec {
            node,
            elem: Elem::Int,
        })
    }
}

/// Whether a section is `VAR` without a word behind it.
fn is_plain(kind: SectionKind, keep: Option<Keep>) -> bool
    ensures { result ≡ form.is_plain kind keep }
{
    matches!((kind, keep), (SectionKind::Var, None))
}

fn is_int(name: &TypeName) -> bool
    ensures { result ≡ form.is_int name.now }
{
    matches!(name, TypeName::Elementary(_, Elem::Int))
}
