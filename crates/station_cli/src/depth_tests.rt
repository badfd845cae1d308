// How deep the forms of the grammar may nest, worked out by hand: texts in which a part is repeated.
use crate::grammar_tests::is_taken_as;
use std::alloc::{AllocError, Global};
use std::test::Fail;

/// Texts of these parts: `before`, some turns of `part`, what is in the middle, as many turns of `closing`, `after`. `part` is a line, so that
/// the k-th is on line k + 1.
struct Nesting {
    before: &'static str,
    part: &'static str,
    closing: &'static str,
    after: &'static str,
    /// The number of turns, the middle, and the place, the code and the name of the fault, or nothing where the text is a file.
    rows: &'static [(usize, &'static str, &'static str)],
}

const NESTINGS: [Nesting; 58] = [
    // Operators: each counts up to the end of the expression, whatever its rank.
    Nesting {
        before: "PROGRAM P n := a\n",
        part: "+ b\n",
        closing: "",
        after: "; END_PROGRAM",
        rows: &[
            (256, "", ""),
            (257, "", "258:3 7 TooDeep"),
            (256, "; m := c + d", ""),
            (256, "+", "258:2 6 Grammar"),
            (254, "+ f(c)", ""),
            (255, "+ f", ""),
            (255, "+ f(c)", "257:4 7 TooDeep"),
            (254, "+ f(c + d)", "256:9 7 TooDeep"),
            (254, "+ f(c, -1)", ""),
            (254, "+ f(c, -d)", "256:9 7 TooDeep"),
        ],
    },
    Nesting {
        before: "PROGRAM P n := a\n",
        part: "- 1\n",
        closing: "",
        after: "; END_PROGRAM",
        rows: &[(256, "", ""), (257, "", "258:3 7 TooDeep")],
    },
    Nesting {
        before: "PROGRAM P n := a\n",
        part: "* b\n",
        closing: "",
        after: "; END_PROGRAM",
        rows: &[(256, "", ""), (257, "", "258:3 7 TooDeep")],
    },
    Nesting {
        before: "PROGRAM P n := a\n",
        part: "MOD b\n",
        closing: "",
        after: "; END_PROGRAM",
        rows: &[(256, "", ""), (257, "", "258:5 7 TooDeep")],
    },
    Nesting {
        before: "PROGRAM P n := a\n",
        part: "AND b\n",
        closing: "",
        after: "; END_PROGRAM",
        rows: &[(256, "", ""), (257, "", "258:5 7 TooDeep")],
    },
    Nesting {
        before: "PROGRAM P n := a\n",
        part: "OR b\n",
        closing: "",
        after: "; END_PROGRAM",
        rows: &[(256, "", ""), (257, "", "258:4 7 TooDeep")],
    },
    Nesting {
        before: "PROGRAM P n := a\n",
        part: "XOR b\n",
        closing: "",
        after: "; END_PROGRAM",
        rows: &[(256, "", ""), (257, "", "258:5 7 TooDeep")],
    },
    Nesting {
        before: "PROGRAM P n := a\n",
        part: "= b\n",
        closing: "",
        after: "; END_PROGRAM",
        rows: &[(256, "", ""), (257, "", "258:3 7 TooDeep")],
    },
    Nesting {
        before: "PROGRAM P n := a\n",
        part: "<= b\n",
        closing: "",
        after: "; END_PROGRAM",
        rows: &[(256, "", ""), (257, "", "258:4 7 TooDeep")],
    },
    // A minus directly before a number is no operator.
    Nesting {
        before: "PROGRAM P n := a\n",
        part: "- - 1\n",
        closing: "",
        after: "; END_PROGRAM",
        rows: &[(256, "", ""), (257, "", "258:3 7 TooDeep")],
    },
    Nesting {
        before: "PROGRAM P n := a\n",
        part: "- - b\n",
        closing: "",
        after: "; END_PROGRAM",
        rows: &[(128, "", ""), (129, "", "130:3 7 TooDeep")],
    },
    Nesting {
        before: "PROGRAM P n := a\n",
        part: "AND NOT b\n",
        closing: "",
        after: "; END_PROGRAM",
        rows: &[(128, "", ""), (129, "", "130:5 7 TooDeep")],
    },
    Nesting {
        before: "PROGRAM P n := a\n",
        part: "* b + c\n",
        closing: "",
        after: "; END_PROGRAM",
        rows: &[(128, "", ""), (129, "", "130:3 7 TooDeep")],
    },
    Nesting {
        before: "PROGRAM P n := NOT a\n",
        part: "+ b\n",
        closing: "",
        after: "; END_PROGRAM",
        rows: &[(255, "", ""), (256, "", "257:3 7 TooDeep")],
    },
    Nesting {
        before: "PROGRAM P n := - a\n",
        part: "+ b\n",
        closing: "",
        after: "; END_PROGRAM",
        rows: &[(255, "", ""), (256, "", "257:3 7 TooDeep")],
    },
    Nesting {
        before: "PROGRAM P n := - 5\n",
        part: "+ b\n",
        closing: "",
        after: "; END_PROGRAM",
        rows: &[(256, "", ""), (257, "", "258:3 7 TooDeep")],
    },
    Nesting {
        before: "PROGRAM P n := - INT#5\n",
        part: "+ b\n",
        closing: "",
        after: "; END_PROGRAM",
        rows: &[(255, "", ""), (256, "", "257:3 7 TooDeep")],
    },
    // Operators of a closed bracket don't count.
    Nesting {
        before: "PROGRAM P n :=\n",
        part: "(b + c) +\n",
        closing: "",
        after: "; END_PROGRAM",
        rows: &[(255, "d", ""), (256, "d", "257:6 7 TooDeep")],
    },
    Nesting {
        before: "PROGRAM P n :=\n",
        part: "b[c + d] +\n",
        closing: "",
        after: "; END_PROGRAM",
        rows: &[(255, "d", ""), (256, "d", "257:7 7 TooDeep")],
    },
    Nesting {
        before: "PROGRAM P n := f(\n",
        part: "b + c,\n",
        closing: "",
        after: "); END_PROGRAM",
        rows: &[(300, "d", "")],
    },
    Nesting {
        before: "PROGRAM P m[\n",
        part: "b + c,\n",
        closing: "",
        after: "] := 1; END_PROGRAM",
        rows: &[(300, "d", "")],
    },
    // Brackets of expressions.
    Nesting {
        before: "PROGRAM P n :=\n",
        part: "(\n",
        closing: ")",
        after: "; END_PROGRAM",
        rows: &[
            (256, "b", ""),
            (257, "b", "258:1 7 TooDeep"),
            (256, "- 5", ""),
            (256, "- b", "258:3 7 TooDeep"),
            (256, "b + c", "258:5 7 TooDeep"),
            (256, "NOT b", "258:5 7 TooDeep"),
            (256, ")", "258:1 6 Grammar"),
            (256, "[", "258:1 6 Grammar"),
            (256, "b[1]", "258:2 7 TooDeep"),
            (256, "f()", "258:2 7 TooDeep"),
        ],
    },
    Nesting {
        before: "PROGRAM P n :=\n",
        part: "b[\n",
        closing: "]",
        after: "; END_PROGRAM",
        rows: &[(256, "1", ""), (257, "1", "258:2 7 TooDeep")],
    },
    Nesting {
        before: "PROGRAM P n :=\n",
        part: "f(\n",
        closing: ")",
        after: "; END_PROGRAM",
        rows: &[(256, "1", ""), (257, "1", "258:2 7 TooDeep")],
    },
    Nesting {
        before: "PROGRAM P n :=\n",
        part: "f(x :=\n",
        closing: ")",
        after: "; END_PROGRAM",
        rows: &[(256, "1", ""), (257, "1", "258:2 7 TooDeep")],
    },
    Nesting {
        before: "PROGRAM P n :=\n",
        part: "b + (\n",
        closing: ")",
        after: "; END_PROGRAM",
        rows: &[(128, "c", ""), (129, "c", "130:5 7 TooDeep")],
    },
    Nesting {
        before: "PROGRAM P n :=\n",
        part: "NOT (\n",
        closing: ")",
        after: "; END_PROGRAM",
        rows: &[(128, "c", ""), (129, "c", "130:5 7 TooDeep")],
    },
    Nesting {
        before: "PROGRAM P n :=\n",
        part: "- (\n",
        closing: ")",
        after: "; END_PROGRAM",
        rows: &[(128, "c", ""), (129, "c", "130:3 7 TooDeep")],
    },
    // Brackets within those of statements, subranges and tasks.
    Nesting {
        before: "PROGRAM P f(x :=\n",
        part: "(\n",
        closing: ")",
        after: "); END_PROGRAM",
        rows: &[(255, "1", ""), (256, "1", "257:1 7 TooDeep")],
    },
    Nesting {
        before: "PROGRAM P f(x => a[\n",
        part: "(\n",
        closing: ")",
        after: "]); END_PROGRAM",
        rows: &[(254, "1", ""), (255, "1", "256:1 7 TooDeep")],
    },
    Nesting {
        before: "PROGRAM P a[\n",
        part: "(\n",
        closing: ")",
        after: "] := 1; END_PROGRAM",
        rows: &[(255, "1", ""), (256, "1", "257:1 7 TooDeep")],
    },
    Nesting {
        before: "PROGRAM P VAR a : INT (\n",
        part: "(\n",
        closing: ")",
        after: "..2); END_VAR END_PROGRAM",
        rows: &[(255, "1", ""), (256, "1", "257:1 7 TooDeep")],
    },
    Nesting {
        before: "CONFIGURATION C TASK t (a :=\n",
        part: "(\n",
        closing: ")",
        after: "); END_CONFIGURATION",
        rows: &[(255, "1", ""), (256, "1", "257:1 7 TooDeep")],
    },
    // Initial values.
    Nesting {
        before: "PROGRAM P VAR a : T :=\n",
        part: "(\n",
        closing: ")",
        after: "; END_VAR END_PROGRAM",
        rows: &[(256, "1", ""), (257, "1", "258:1 7 TooDeep")],
    },
    Nesting {
        before: "PROGRAM P VAR a : T :=\n",
        part: "[\n",
        closing: "]",
        after: "; END_VAR END_PROGRAM",
        rows: &[
            (256, "1", ""),
            (257, "1", "258:1 7 TooDeep"),
            (255, "2(3)", ""),
            (256, "2(3)", "258:2 7 TooDeep"),
            (255, "(b := 1)", ""),
            (256, "(b := 1)", "258:1 7 TooDeep"),
            (256, "]", "258:1 6 Grammar"),
        ],
    },
    Nesting {
        before: "PROGRAM P VAR a : T :=\n",
        part: "[2(\n",
        closing: ")]",
        after: "; END_VAR END_PROGRAM",
        rows: &[(128, "1", ""), (129, "1", "130:1 7 TooDeep")],
    },
    Nesting {
        before: "PROGRAM P VAR a : T :=\n",
        part: "(b :=\n",
        closing: ")",
        after: "; END_VAR END_PROGRAM",
        rows: &[(256, "1", ""), (257, "1", "258:1 7 TooDeep")],
    },
    // Specifications of arrays.
    Nesting {
        before: "PROGRAM P VAR a :\n",
        part: "ARRAY [1..2] OF\n",
        closing: "",
        after: "; END_VAR END_PROGRAM",
        rows: &[
            (255, "INT", ""),
            (256, "INT", "257:7 7 TooDeep"),
            (255, "INT (1..2)", ""),
            (255, "INT (1..b + 1)", "257:13 7 TooDeep"),
            (255, "INT (-1..-b)", "257:11 7 TooDeep"),
            (255, "(red)", ""),
            (254, "ARRAY [1..b + 1] OF INT", "256:15 7 TooDeep"),
            (255, "INT := [[1]]", ""),
            (255, "INT; b : ARRAY [1..c + 1] OF INT", ""),
            (256, "ARRAY", "257:7 7 TooDeep"),
        ],
    },
    Nesting {
        before: "TYPE T : STRUCT a :\n",
        part: "ARRAY [1..2] OF\n",
        closing: "",
        after: "; END_STRUCT; END_TYPE",
        rows: &[(255, "INT", ""), (256, "INT", "257:7 7 TooDeep")],
    },
    // Structured statements.
    Nesting {
        before: "PROGRAM P\n",
        part: "IF a THEN\n",
        closing: " END_IF",
        after: " END_PROGRAM",
        rows: &[
            (256, "", ""),
            (257, "", "258:1 7 TooDeep"),
            (256, "b := - 5; RETURN;", ""),
            (256, "b := c + d;", "258:10 7 TooDeep"),
            (256, "b[1] := c;", "258:2 7 TooDeep"),
            (256, "f();", "258:2 7 TooDeep"),
            (255, "IF a + b THEN END_IF", "257:8 7 TooDeep"),
            (255, "IF NOT a THEN END_IF", "257:8 7 TooDeep"),
            (255, "IF - 5 THEN END_IF", ""),
            (256, "ELSIF b THEN ELSE", ""),
            (256, "ELSIF (b) THEN", "258:7 7 TooDeep"),
            (256, "THEN", "258:1 6 Grammar"),
            (256, "CASE", "258:1 7 TooDeep"),
            (256, "FOR", "258:1 7 TooDeep"),
            (256, "WHILE", "258:1 7 TooDeep"),
            (256, "REPEAT", "258:1 7 TooDeep"),
            (256, "END_IF IF b THEN END_IF IF b THEN", ""),
        ],
    },
    Nesting {
        before: "PROGRAM P\n",
        part: "IF a THEN\n",
        closing: "",
        after: "",
        rows: &[(256, "", "258:1 6 Grammar"), (257, "", "258:1 7 TooDeep")],
    },
    Nesting {
        before: "PROGRAM P\n",
        part: "IF a THEN ELSE\n",
        closing: " END_IF",
        after: " END_PROGRAM",
        rows: &[(256, "", ""), (257, "", "258:1 7 TooDeep")],
    },
    Nesting {
        before: "PROGRAM P\n",
        part: "IF a THEN ELSIF b THEN\n",
        closing: " END_IF",
        after: " END_PROGRAM",
        rows: &[(256, "", ""), (257, "", "258:1 7 TooDeep")],
    },
    Nesting {
        before: "PROGRAM P\n",
        part: "CASE a OF 1 :\n",
        closing: " END_CASE",
        after: " END_PROGRAM",
        rows: &[
            (256, "", ""),
            (257, "", "258:1 7 TooDeep"),
            (256, "- 2 : b := 1; red :", ""),
        ],
    },
    Nesting {
        before: "PROGRAM P\n",
        part: "FOR i := 1 TO 2 DO\n",
        closing: " END_FOR",
        after: " END_PROGRAM",
        rows: &[(256, "", ""), (257, "", "258:1 7 TooDeep")],
    },
    Nesting {
        before: "PROGRAM P\n",
        part: "WHILE a DO\n",
        closing: " END_WHILE",
        after: " END_PROGRAM",
        rows: &[(256, "", ""), (257, "", "258:1 7 TooDeep")],
    },
    Nesting {
        before: "PROGRAM P\n",
        part: "REPEAT\n",
        closing: " UNTIL a END_REPEAT",
        after: " END_PROGRAM",
        rows: &[
            (256, "", ""),
            (257, "", "258:1 7 TooDeep"),
            (256, "UNTIL (a)", "258:7 7 TooDeep"),
            (256, "UNTIL NOT a", "258:11 7 TooDeep"),
            (256, "UNTIL - 5 END_REPEAT REPEAT", ""),
        ],
    },
    Nesting {
        before: "PROGRAM P\n",
        part: "IF a THEN WHILE b DO\n",
        closing: " END_WHILE END_IF",
        after: " END_PROGRAM",
        rows: &[(128, "", ""), (129, "", "130:1 7 TooDeep")],
    },
    // What doesn't nest, however long it is.
    Nesting {
        before: "PROGRAM P\n",
        part: "IF (a) THEN ; END_IF\n",
        closing: "",
        after: " END_PROGRAM",
        rows: &[(300, "", "")],
    },
    Nesting {
        before: "PROGRAM P IF a THEN\n",
        part: "ELSIF b + c THEN\n",
        closing: "",
        after: "END_IF END_PROGRAM",
        rows: &[(300, "", "")],
    },
    Nesting {
        before: "PROGRAM P CASE a OF\n",
        part: "1 : red :\n",
        closing: "",
        after: "END_CASE END_PROGRAM",
        rows: &[(300, "", "")],
    },
    Nesting {
        before: "PROGRAM P VAR\n",
        part: "a,\n",
        closing: "",
        after: " : T; END_VAR END_PROGRAM",
        rows: &[(300, "b", "")],
    },
    Nesting {
        before: "PROGRAM P n := a\n",
        part: ".b[1]\n",
        closing: "",
        after: "; END_PROGRAM",
        rows: &[(300, "", "")],
    },
    Nesting {
        before: "PROGRAM P VAR a : T := [\n",
        part: "[1], 2(3),\n",
        closing: "",
        after: "]; END_VAR END_PROGRAM",
        rows: &[(300, "1", "")],
    },
    // Charts: an action and a transition count nothing themselves.
    Nesting {
        before: "PROGRAM P INITIAL_STEP S: END_STEP ACTION A:\n",
        part: "IF a THEN\n",
        closing: "END_IF\n",
        after: " END_ACTION END_PROGRAM",
        rows: &[
            (256, "", ""),
            (255, "b := f(c);", ""),
            (256, "b := f(c);", "258:7 7 TooDeep"),
            (257, "", "258:1 7 TooDeep"),
        ],
    },
    Nesting {
        before: "PROGRAM P INITIAL_STEP S: END_STEP TRANSITION FROM (S) TO (S) := a\n",
        part: "AND b\n",
        closing: "",
        after: "; END_TRANSITION END_PROGRAM",
        rows: &[(256, "", ""), (257, "", "258:5 7 TooDeep")],
    },
    Nesting {
        before: "PROGRAM P INITIAL_STEP S: END_STEP TRANSITION FROM (S,\n",
        part: "S,\n",
        closing: "",
        after: " S) TO S := a; END_TRANSITION END_PROGRAM",
        rows: &[(300, "", "")],
    },
    Nesting {
        before: "PROGRAM P INITIAL_STEP S: A(N);\n",
        part: "A(R);\n",
        closing: "",
        after: " END_STEP STEP T: END_STEP END_PROGRAM",
        rows: &[(300, "", "")],
    },
];

/// The text of a row.
fn text_of(
    alloc: Global,
    nesting: &Nesting,
    turns: usize,
    middle: &str,
) -> Result<String, AllocError> {
    let mut text = String::from_str(alloc, nesting.before)?;
    for _turn in 0..turns {
        text.push_str(nesting.part)?;
    }
    text.push_str(middle)?;
    for _turn in 0..turns {
        text.push_str(nesting.closing)?;
    }
    text.push_str(nesting.after)?;
    Ok(text)
}

/// The number of the first row whose text isn't taken as it says.
fn wrong_row(rt: &HostRuntime, nesting: &Nesting) -> Result<Option<usize>, AllocError> {
    for (number, row) in nesting.rows.iter().enumerate() {
        let text = text_of(rt.alloc(), nesting, row.0, row.1)?;
        if !is_taken_as(rt, &text, row.2)? {
            return Ok(Some(number));
        }
    }
    Ok(None)
}

#[test]
fn depths(rt: HostRuntime) -> Result<(), Fail> {
    for nesting in &NESTINGS {
        let wrong = wrong_row(&rt, nesting)?;
        assert!(rt; wrong.is_none(), "{} {wrong:?}", nesting.part);
    }
    Ok(())
}
