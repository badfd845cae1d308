// What trees of the form are made with: the number of the next node, and names with their letters
// raised.

ghost use Rattle.std.specs.Prelude.{◌≡◌, ◌+◌, [], ◌∷◌, map, Some, IfOk, OnOk, IfErr};
ghost use Rattle.iec_tables.specs.Letters.{raised};
ghost use Rattle.first_form.specs.declared.refusal.Refusal.TheVariants as refusal;
ghost use Rattle.first_form.specs.Bare.{bare_node, bare_identifier};
ghost use Rattle.first_form.specs.FirstForm as form;
ghost use Rattle.first_form.specs.steps.Answers.{Gives};
ghost use Rattle.first_form.specs.steps.Numbering.{Counts};

use crate::refusal::Refusal;
use crate::tree::Identifier;
use iec_tables::letters::raise;
use st_tree::{Node, NodeNo};
use station_ports::texts::Name;
use std::alloc::{AllocError, Global};

/// The number of the next node.
#[derive(Drop)]
pub(crate) struct Former {
    pub alloc: Global,
    pub next: u32,
}

impl Former {
    /// The node with the next number. Where there are 2^32 nodes, which no text of the limit has,
    /// there is no room for it.
    pub fn node(&mut self, node: Node) -> Result<Node, Refusal>
        ensures same { IfOk result (λ made. bare_node made ≡ bare_node node) }
        ensures number { IfOk result (λ made. made.number.0 ≡ self.old.next) }
        ensures next { OnOk result (self.new.next ≡ self.old.next + 1) }
        ensures memory { IfErr result (λ e. e ≡ refusal.NoMemory) }
    {
        let number = self.next;
        match number.checked_add(1) {
            Some(next) => {
                self.next = next;
                Ok(Node {
                    number: NodeNo(number),
                    start: node.start,
                    end: node.end,
                })
            }
            None => Err(Refusal::NoMemory),
        }
    }

    /// The name with its ASCII letters raised.
    #[tactic(auto, unfolding(crate::specs::FirstForm::identifier))]
    pub fn identifier(&mut self, source: &st_tree::Identifier) -> Result<Identifier, Refusal>
        ensures form { Gives bare_identifier (Some (form.identifier source.now)) result }
        ensures numbers { IfOk result (λ i. Counts self.old.next (i.node ∷ []) self.new.next) }
    {
        let node = self.node(source.node)?;
        let name = raised(self.alloc, source.name.bytes())?;
        Ok(Identifier { node, name })
    }
}

/// The bytes with their ASCII letters raised.
fn raised(alloc: Global, bytes: &[u8]) -> Result<Name, AllocError>
    ensures { IfOk result (λ name. name ≡ map raised bytes.now) }
{
    let mut name = Vec::with_capacity(alloc, bytes.len())?;
    for byte in bytes {
        name.push(raise(*byte))?;
    }
    Ok(Name::from_vec(name))
}
