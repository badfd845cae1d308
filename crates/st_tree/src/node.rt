// The places of nodes in their files.

/// The number of a node among those of its file. Nodes are numbered from 0 by their first byte, an outer node before the
/// nodes within it.
#[derive(Clone, Copy, Debug, PartialEq, Eq)]
pub struct NodeNo(pub u32);

/// A node of a project: the place of its file among the project's files, from 0, and its number there.
#[derive(Clone, Copy, Debug, PartialEq, Eq)]
pub struct Site {
    pub file: u16,
    pub node: NodeNo,
}

/// A node: its number, its first byte and the byte after its last, counted from the start of the file.
#[derive(Clone, Copy, Debug, PartialEq, Eq)]
pub struct Node {
    pub number: NodeNo,
    pub start: usize,
    pub end: usize,
}
