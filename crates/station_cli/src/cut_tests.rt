// A plant's text cut off at each of its bytes: it is a file, or it is refused for a token that was cut through or at the end.
use crate::status::Status;
use crate::tests::{CHECK, Outcome, result_over};
use std::test::Fail;

const PLANT: &str = "VAR_GLOBAL
  level AT %IW0 : INT (0..27648);
  start AT %IX2.0 : BOOL;
  valve AT %QX0.0 : BOOL;
  percent, target, ratio : INT;
END_VAR
PROGRAM Scale
  percent := level / 277;
END_PROGRAM
PROGRAM Batch
  VAR presses : CTU; wait : TON; END_VAR
  INITIAL_STEP Idle: Count(N); END_STEP
  STEP Fill: Count(N); Feed(N); END_STEP
  TRANSITION FROM Idle TO Fill := start; END_TRANSITION
  TRANSITION FROM Fill TO Idle := percent >= target AND wait.Q; END_TRANSITION
  ACTION Count:
    presses(CU := start, R := FALSE, PV := 10);
    target := presses.CV * 70;
  END_ACTION
  ACTION Feed:
    wait(IN := Fill.X, PT := T#5s);
    valve := percent < target;
  END_ACTION
END_PROGRAM
PROGRAM Show
  ratio := percent * 100 / target;
END_PROGRAM
CONFIGURATION Plant
  RESOURCE Cpu ON Plc
    TASK t_fast (INTERVAL := T#10ms, PRIORITY := 1);
    TASK t_batch (INTERVAL := T#100ms, PRIORITY := 2);
    TASK t_slow (INTERVAL := T#1s, PRIORITY := 3);
    PROGRAM p_scale WITH t_fast : Scale;
    PROGRAM p_batch WITH t_batch : Batch;
    PROGRAM p_show WITH t_slow : Show;
  END_RESOURCE
END_CONFIGURATION
";

const FAULTS: [&str; 4] = [
    " 2 BadByte\nEND open 0 waived 0\n",
    " 4 BadNumber\nEND open 0 waived 0\n",
    " 5 BadName\nEND open 0 waived 0\n",
    " 6 Grammar\nEND open 0 waived 0\n",
];

/// Whether a cut ended as it may.
fn is_of_cut(found: &Outcome) -> bool {
    match found.status {
        Status::NotAnalysed => true,
        Status::Refused => FAULTS.iter().any(|fault| found
            .output
            .as_slice()
            .ends_with(fault.as_bytes())),
        _ => false,
    }
}

#[test]
fn cuts(rt: HostRuntime) -> Result<(), Fail> {
    let text = PLANT.as_bytes();
    for length in 0..text.len() {
        let found = result_over(&rt, &CHECK, &text[..length], &[], &[])?;
        assert!(rt; is_of_cut(&found), "{length}");
    }
    let whole = result_over(&rt, &CHECK, text, &[], &[])?;
    assert!(rt; whole.status == Status::NotAnalysed);
    Ok(())
}
