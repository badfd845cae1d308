// Faults at nodes, and those of expressions at their places.

ghost use Rattle.std.specs.Prelude.{◌≡◌};
ghost use Rattle.link_faults.specs.Checked.{Tells};
ghost use Rattle.link_faults.specs.First.{after};
ghost use Rattle.expression_types.specs.Rules.{wrong_at};
ghost use Rattle.body_rules.specs.Surroundings.{here};
ghost use Rattle.body_rules.specs.Told as spec;

use crate::outside::Bodies;
use expression_types::{Meaning, Names, Place, Standing, placed};
use link_faults::{Faults, LinkCode};
use st_tree::{Expr, Node, Site};

/// Where an expression needn't be constant.
pub(crate) fn anywhere(file: u16) -> Standing
    ensures { result ≡ spec.anywhere file }
{
    Standing {
        file,
        constant: false,
    }
}

/// Where it must be constant.
pub(crate) fn constant(file: u16) -> Standing
    ensures { result ≡ spec.constant file }
{
    Standing {
        file,
        constant: true,
    }
}

/// Notes a fault, where there is no answer.
pub(crate) fn wrong<T>(
    faults: &mut Faults,
    standing: Standing,
    node: Node,
    code: LinkCode,
) -> Option<T>
    ensures { Tells (wrong_at standing node code) faults.old faults.new result }
{
    let site = Site {
        file: standing.file,
        node: node.number,
    };
    faults.note(site, code);
    None
}

pub(crate) fn note<B: Bodies>(
    _outside: &B,
    file: u16,
    faults: &mut Faults,
    node: Node,
    code: LinkCode,
)
    ensures { faults.new ≡ after faults.old (spec.fault (here (B.names _outside.now)
        (B.parts _outside.now) (B.around _outside.now) file) node code) }
{
    let site = Site {
        file,
        node: node.number,
    };
    faults.note(site, code);
}

/// Notes the faults of an expression at its place.
pub(crate) fn expression<B: Bodies>(
    outside: &B,
    file: u16,
    faults: &mut Faults,
    place: Place,
    e: &Expr,
)
    ensures { faults.new ≡ after faults.old (spec.expression (here (B.names outside.now)
        (B.parts outside.now) (B.around outside.now) file) place e.now) }
{
    let _also = placed(outside, anywhere(file), faults, place, e);
}
