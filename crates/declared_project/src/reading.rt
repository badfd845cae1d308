// What stands around a declaration that is read.

ghost use Rattle.std.specs.Prelude.{◌≡◌};
ghost use Rattle.link_faults.specs.Checked.{Tells};
ghost use Rattle.expression_types.specs.Meanings.{meant};
ghost use Rattle.declared_names.specs.Tables.{known_at, here_of};
ghost use Rattle.declared_project.specs.Surrounding.{constant_here, around_here, repeat_count};
ghost use Rattle.declared_project.specs.Addresses as addresses;
ghost use Rattle.declared_names.specs.Meaning as names;
ghost use Rattle.declared_names.specs.Twice as twice;

use crate::addresses::address_holds;
use crate::asked::{asked, repeat_count};
use declaration_rules::Declares;
use declared_names::{
    At, enumeration_here, expr_leads_back, has_field_twice, init_leads_back, named_type,
};
use declared_types::{ConstantPlace, NamedType, Outside};
use expression_types::{Meaning, ShapeNo, constant_number};
use iec_tables::elem::Elem;
use initial_values::{Counts, node_of};
use link_faults::{Faults, LinkCode};
use st_tree::{Expr, Init, Node, Number, Site};

/// Where a declaration is read, and what the names in its expressions mean.
#[derive(Clone, Copy)]
pub struct Reading<'a, 't, M: Meaning> {
    pub at: At<'a, 't>,
    pub meaning: &'a M,
}

impl<'a, 't, M: Meaning> Outside for Reading<'a, 't, M> {
    ghost around = { λ s. around_here (meant (M.names s.meaning.now) (M.parts s.meaning.now))
        (known_at s.at) (here_of s.at) };

    fn file(&self) -> u16 {
        self.at.file()
    }

    fn constant(&self, faults: &mut Faults, place: ConstantPlace, e: &Expr) -> Option<Number> {
        if expr_leads_back(&self.at, e) {
            faults.note(
                Site {
                    file: self.at.file(),
                    node: node_of(e).number,
                },
                LinkCode::NotConstant,
            );
            return None;
        }
        constant_number(self.meaning, self.at.file(), faults, asked(place), e)
    }

    fn named(&self, name: &[u8]) -> NamedType {
        named_type(&self.at, name)
    }

    fn enumeration(&self, node: Node) -> Option<ShapeNo> {
        enumeration_here(&self.at, node)
    }
}

impl<'a, 't, M: Meaning> Counts for Reading<'a, 't, M> {
    ghost repeats = { λ s. repeat_count };

    fn repeat(&self, text: &[u8]) -> u32 {
        repeat_count(text)
    }
}

impl<'a, 't, M: Meaning> Declares for Reading<'a, 't, M> {
    ghost leads = { λ s. names.init_leads_back (known_at s.at).project (here_of s.at) };

    ghost twice = { λ s node. twice.has_field_twice (known_at s.at).project (here_of s.at) };

    ghost holds = { λ s. addresses.address_holds };

    fn leads_back(&self, init: &Init) -> bool {
        init_leads_back(&self.at, init)
    }

    fn has_field_twice(&self, _node: Node) -> bool {
        has_field_twice(&self.at)
    }

    fn address_holds(&self, address: &[u8], elem: Elem) -> bool {
        address_holds(address, elem)
    }
}
