// Plans of projects.

/// Why a project that links isn't analysed.
#[derive(Clone, Copy, Debug, PartialEq, Eq)]
pub enum PlanRefusal {
    /// The analysis of a form that the project has isn't built yet.
    NotBuilt,
}

impl PlanRefusal {
    ghost use Rattle.std.specs.Prelude.{◌≡◌};
    ghost use Rattle.st_tree.specs.Plans.{name_of};

    /// The name of the refusal, as reports write it.
    pub fn name(self) -> &'static str
        ensures { result.now ≡ name_of self }
    {
        match self {
            PlanRefusal::NotBuilt => "NotBuilt",
        }
    }
}
