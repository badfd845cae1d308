// Texts that the grammar takes or refuses, worked out by hand, by its layers: the alternatives of each rule, taken once and broken in several
// places.
pub(crate) mod charts;
pub(crate) mod declarations;
pub(crate) mod expressions;
pub(crate) mod files;
pub(crate) mod statements;

/// Texts that stand between two others. Each has the place, the code and the name of the fault for which it is refused; where there is
/// none, it is a file of a form that isn't analysed yet.
pub(crate) struct Table {
    pub(crate) before: &'static str,
    pub(crate) after: &'static str,
    pub(crate) texts: &'static [(&'static str, &'static str)],
}
