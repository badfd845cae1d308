// Faults of linking, and the first of them.

ghost use Rattle.std.specs.Prelude.{◌≡◌, [], ◌∷◌};
ghost use Rattle.link_faults.specs.First as spec;

use crate::code::LinkCode;
use st_tree::Site;

/// A fault of linking: the node where it stands, and what is broken there.
#[derive(Clone, Copy, Debug, PartialEq, Eq)]
pub struct LinkFault {
    pub site: Site,
    pub code: LinkCode,
}

/// The first fault, by file, node and code, of those noted so far.
#[derive(Clone, Copy, Debug, PartialEq, Eq)]
pub struct Faults {
    pub first: Option<LinkFault>,
}

fn is_before(a: LinkFault, b: LinkFault) -> bool
    ensures { result ≡ spec.is_before a b }
{
    if a.site.file != b.site.file {
        a.site.file < b.site.file
    } else if a.site.node.0 != b.site.node.0 {
        a.site.node.0 < b.site.node.0
    } else {
        a.code.code() < b.code.code()
    }
}

impl Faults {
    /// No fault so far.
    pub fn new() -> Faults
        ensures { result ≡ spec.no_faults }
    {
        Faults { first: None }
    }

    /// Notes a fault: it is kept where it comes before the first one so far.
    pub fn note(&mut self, site: Site, code: LinkCode)
        ensures { self.new ≡ spec.after self.old (record { site = site; code = code } ∷ []) }
    {
        let fault = LinkFault { site, code };
        match self.first {
            None => self.first = Some(fault),
            Some(first) => {
                if is_before(fault, first) {
                    self.first = Some(fault);
                }
            }
        }
    }
}
