// What holds of numbered parts, as data.

ghost use Rattle.tree_numbers.specs.Laws as laws;

/// Numbering the parts of a file changes the numbers of their nodes alone, and gives each node the
/// number of its place among the nodes and comments.
pub fn numbering_laws()
    ensures same { laws.SameParts }
    ensures numbers { laws.RightNumbers }
{}
