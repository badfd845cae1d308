// The rules of the guidelines.
ghost use Rattle.std.specs.Prelude.{◌≡◌, map};
ghost use Rattle.iec_tables.specs.Rules.{rule_codes, rule_labels, rule_groups};

use crate::rule::{Rule, Rules};

macro_rules! rows {
    ($($code:literal $label:literal $group:literal),*) => {
        [$(Rule { code: $code, label: $label, group: $group }),*]
    };
}

static RULES: [Rule; 24] = rows![
    1 b"N1" b"N", 2 b"N5" b"N", 3 b"N6" b"N", 4 b"-" b"N", 5 b"-" b"N",
    6 b"C3" b"C", 7 b"-" b"C", 8 b"-" b"C", 9 b"CP10" b"CP", 10 b"CP12" b"CP",
    11 b"CP13" b"CP", 12 b"CP14" b"CP", 13 b"CP24" b"CP", 14 b"CP25" b"CP", 15 b"CP26" b"CP",
    16 b"-" b"CP", 17 b"-" b"CP", 18 b"-" b"CP", 19 b"-" b"L", 20 b"-" b"L",
    21 b"-" b"L", 22 b"-" b"L", 23 b"-" b"L", 24 b"-" b"L"
];

/// The rules S01 to S24 in the order of their codes, 1 to 24. A label is the number that the PLCopen coding guidelines give the
/// rule, `-` where they give none. The choice of the rules and their codes are this profile's.
pub fn rules() -> Rules<'static, 24>
    ensures codes { map (λ rule. rule.code) result ≡ rule_codes }
    ensures labels { map (λ rule. rule.label.now) result ≡ rule_labels }
    ensures groups { map (λ rule. rule.group.now) result ≡ rule_groups }
{
    Rules::of(&RULES)
}
