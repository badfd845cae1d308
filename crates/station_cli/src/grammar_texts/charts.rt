// Texts of sequential function charts.
use crate::grammar_texts::Table;

pub(crate) const TABLES: [Table; 1] = [
    // Sequential function charts.
    Table {
        before: "PROGRAM P\n",
        after: "\nEND_PROGRAM",
        texts: &[
            ("INITIAL_STEP S: END_STEP", ""),
            ("INITIAL_STEP S: A(N); END_STEP", ""),
            ("INITIAL_STEP S: A(); B(x); A(); END_STEP", ""),
            ("INITIAL_STEP S: END_STEP STEP T: END_STEP", ""),
            (
                "INITIAL_STEP S: END_STEP STEP T: A(R); END_STEP STEP U: END_STEP",
                "",
            ),
            (
                "INITIAL_STEP S: END_STEP TRANSITION FROM S TO S := x; END_TRANSITION",
                "",
            ),
            (
                "INITIAL_STEP S: END_STEP TRANSITION t FROM S TO S := a < b AND NOT c; END_TRANSITION",
                "",
            ),
            (
                "INITIAL_STEP S: END_STEP TRANSITION FROM (S) TO (S, T) := x; END_TRANSITION",
                "",
            ),
            (
                "INITIAL_STEP S: END_STEP TRANSITION FROM (S, T, U) TO S := f(x); END_TRANSITION",
                "",
            ),
            ("INITIAL_STEP S: END_STEP ACTION A: END_ACTION", ""),
            ("INITIAL_STEP S: END_STEP ACTION A: ; END_ACTION", ""),
            (
                "INITIAL_STEP S: END_STEP ACTION A: a := 1; IF b THEN RETURN; END_IF END_ACTION",
                "",
            ),
            (
                "INITIAL_STEP S: END_STEP ACTION A: END_ACTION STEP T: END_STEP TRANSITION FROM S TO T := x; END_TRANSITION ACTION B: END_ACTION",
                "",
            ),
            ("(* a *) INITIAL_STEP S: {b} END_STEP // c", ""),
            ("INITIAL_STEP : END_STEP", "2:14 6 Grammar"),
            ("INITIAL_STEP S END_STEP", "2:16 6 Grammar"),
            ("INITIAL_STEP S: A; END_STEP", "2:18 6 Grammar"),
            ("INITIAL_STEP S: A((N)); END_STEP", "2:19 6 Grammar"),
            ("INITIAL_STEP S: A(N, M); END_STEP", "2:20 6 Grammar"),
            ("INITIAL_STEP S: A(N) END_STEP", "2:22 6 Grammar"),
            ("INITIAL_STEP S: A(1); END_STEP", "2:19 6 Grammar"),
            ("INITIAL_STEP S: A(N);; END_STEP", "2:22 6 Grammar"),
            ("INITIAL_STEP S: A := 1; END_STEP", "2:19 6 Grammar"),
            ("INITIAL_STEP S: %QX0 END_STEP", "2:17 6 Grammar"),
            ("INITIAL_STEP INT: END_STEP", "2:14 6 Grammar"),
            (
                "INITIAL_STEP S: END_STEP INITIAL_STEP T: END_STEP",
                "2:26 6 Grammar",
            ),
            ("INITIAL_STEP S: END_STEP ;", "2:26 6 Grammar"),
            ("INITIAL_STEP S: END_STEP a := 1;", "2:26 6 Grammar"),
            ("STEP S: END_STEP", "2:1 6 Grammar"),
            (
                "TRANSITION FROM S TO T := x; END_TRANSITION",
                "2:1 6 Grammar",
            ),
            ("ACTION A: END_ACTION", "2:1 6 Grammar"),
            ("a := 1; INITIAL_STEP S: END_STEP", "2:9 6 Grammar"),
            ("; INITIAL_STEP S: END_STEP", "2:3 6 Grammar"),
            ("INITIAL_STEP S: END_STEP STEP : END_STEP", "2:31 6 Grammar"),
            (
                "INITIAL_STEP S: END_STEP STEP T A(N); END_STEP",
                "2:33 6 Grammar",
            ),
            (
                "INITIAL_STEP S: END_STEP STEP T: A(N); END_ACTION",
                "2:40 6 Grammar",
            ),
            (
                "INITIAL_STEP S: END_STEP TRANSITION t u FROM S TO S := x; END_TRANSITION",
                "2:39 6 Grammar",
            ),
            (
                "INITIAL_STEP S: END_STEP TRANSITION S TO S := x; END_TRANSITION",
                "2:39 6 Grammar",
            ),
            (
                "INITIAL_STEP S: END_STEP TRANSITION FROM TO S := x; END_TRANSITION",
                "2:42 6 Grammar",
            ),
            (
                "INITIAL_STEP S: END_STEP TRANSITION FROM S := x; END_TRANSITION",
                "2:44 6 Grammar",
            ),
            (
                "INITIAL_STEP S: END_STEP TRANSITION FROM () TO S := x; END_TRANSITION",
                "2:43 6 Grammar",
            ),
            (
                "INITIAL_STEP S: END_STEP TRANSITION FROM (S T) TO S := x; END_TRANSITION",
                "2:45 6 Grammar",
            ),
            (
                "INITIAL_STEP S: END_STEP TRANSITION FROM (S,) TO S := x; END_TRANSITION",
                "2:45 6 Grammar",
            ),
            (
                "INITIAL_STEP S: END_STEP TRANSITION FROM S, T TO S := x; END_TRANSITION",
                "2:43 6 Grammar",
            ),
            (
                "INITIAL_STEP S: END_STEP TRANSITION FROM S TO S x; END_TRANSITION",
                "2:49 6 Grammar",
            ),
            (
                "INITIAL_STEP S: END_STEP TRANSITION FROM S TO S := ; END_TRANSITION",
                "2:52 6 Grammar",
            ),
            (
                "INITIAL_STEP S: END_STEP TRANSITION FROM S TO S := x END_TRANSITION",
                "2:54 6 Grammar",
            ),
            (
                "INITIAL_STEP S: END_STEP TRANSITION FROM S TO S := x; ; END_TRANSITION",
                "2:55 6 Grammar",
            ),
            (
                "INITIAL_STEP S: END_STEP TRANSITION FROM S TO S := x; END_STEP",
                "2:55 6 Grammar",
            ),
            (
                "INITIAL_STEP S: END_STEP TRANSITION FROM S TO S := x.1; END_TRANSITION",
                "2:54 6 Grammar",
            ),
            (
                "INITIAL_STEP S: END_STEP ACTION : END_ACTION",
                "2:33 6 Grammar",
            ),
            (
                "INITIAL_STEP S: END_STEP ACTION A a := 1; END_ACTION",
                "2:35 6 Grammar",
            ),
            (
                "INITIAL_STEP S: END_STEP ACTION A: a := 1 END_ACTION",
                "2:43 6 Grammar",
            ),
            (
                "INITIAL_STEP S: END_STEP ACTION A: STEP S: END_STEP END_ACTION",
                "2:36 6 Grammar",
            ),
            (
                "INITIAL_STEP S: END_STEP ACTION A: ; INITIAL_STEP S: END_STEP END_ACTION",
                "2:38 6 Grammar",
            ),
            (
                "INITIAL_STEP S: END_STEP ACTION A: ; END_STEP",
                "2:38 6 Grammar",
            ),
            ("INITIAL_STEP S: A(N);", "3:1 6 Grammar"),
            ("INITIAL_STEP S: END_STEP STEP T: A(", "3:1 6 Grammar"),
            (
                "INITIAL_STEP S: END_STEP TRANSITION FROM S TO",
                "3:1 6 Grammar",
            ),
            (
                "INITIAL_STEP S: END_STEP TRANSITION FROM S TO S := x;",
                "3:1 6 Grammar",
            ),
            (
                "INITIAL_STEP S: END_STEP ACTION A: IF a THEN",
                "3:1 6 Grammar",
            ),
            ("INITIAL_STEP", "3:1 6 Grammar"),
        ],
    },
];
