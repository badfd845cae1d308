// Tables of rules by code.
ghost use Rattle.std.specs.Prelude.{◌≡◌, IsTrue, MatchOption, length};
ghost use Rattle.iec_tables.specs.Rules.{codes_rise, IsRuleOf, HasNoRule};

use std::marker::Model;

/// A rule of the guidelines: its code, its label and its group.
#[derive(Clone, Copy, Debug, PartialEq, Eq)]
pub struct Rule {
    /// The number behind the `S` in the name of the rule.
    pub code: u8,
    /// The number that the PLCopen coding guidelines give the rule, or `-`.
    pub label: &'static [u8],
    /// The part of the guidelines: `N`, `C`, `CP` or `L`.
    pub group: &'static [u8],
}

/// A table of `N` rules whose codes rise strictly. To contracts it is the list of its rows.
#[derive(Drop)]
pub struct Rules<'a, const N: usize> {
    rows: &'a [Rule],
}

impl<'a, const N: usize> Model for Rules<'a, N> {
    ghost use Rattle.std.specs.Prelude.{◌≡◌, List, IsTrue, length};
    ghost use Rattle.iec_tables.specs.declared.rule.Rule.{Rule};
    ghost use Rattle.iec_tables.specs.Rules.{codes_rise};

    ghost Value = { List Rule };

    ghost view = { λ s. s.rows.now };

    ghost invariant = { λ s. (length s.rows.now ≡ N) × IsTrue (codes_rise s.rows.now) };
}

impl<'a, const N: usize> Rules<'a, N> {
    /// The table of these `N` rows, whose codes rise strictly.
    pub fn of(rows: &'a [Rule]) -> Rules<'a, N>
        requires length { length rows.now ≡ N }
        requires rising { IsTrue (codes_rise rows.now) }
        ensures { result ≡ rows.now }
    {
        Rules { rows }
    }

    /// The rule with that code, or None where no row has it.
    pub fn find(&self, code: u8) -> Option<Rule>
        ensures { MatchOption result (HasNoRule self.now code) (IsRuleOf self.now code) }
    {
        find_rule(self.rows, code)
    }
}

fn find_rule(rows: &[Rule], code: u8) -> Option<Rule>
    requires { IsTrue (codes_rise rows.now) }
    ensures { MatchOption result (HasNoRule rows.now code) (IsRuleOf rows.now code) }
{
    match rows.binary_search_by_key(&code, |rule| rule.code) {
        Ok(place) => Some(rows[place]),
        Err(_) => None,
    }
}
