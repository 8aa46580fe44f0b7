//! Derivations that are searched: each is written, read back and checked, or the search says where it is stuck.
ghost use Rattle.brisk_syntax.specs.WellTyped.{IsProgramWellTyped};

use crate::programs::{
    ASK_ALL, ASK_ALL_LOOSE, COLLECT, COLLECT_LOOSE, CROSSED, ENDLESS_SENDER, LATE_BOX, NESTED_FOR,
    OVERTAKING, PING_PONG, PING_PONG_LOOSE, TASK_SERVER, TWO_MESSAGES, TWO_MESSAGES_LOOSE,
    TWO_PHASE_COMMIT,
};
use brisk_check::{Verdict, check};
use brisk_derivation::{Report, SideFault, Steps};
use brisk_derivtext::write;
use brisk_loops::{Walk, Why};
use brisk_print::print_seq;
use brisk_search::{Outcome, search};
use brisk_seq::SeqProgram;
use brisk_syntax::Program;
use brisk_test_texts::program_of;
use std::alloc::Global;
use std::test::Fail;

const BUDGET: u64 = 40;

// The text of the derivation, where its check finds it valid.
fn written(
    alloc: Global,
    program: &Program,
    steps: &Steps,
    sequential: &SeqProgram,
) -> Result<Vec<u8>, Fail>
    requires { IsProgramWellTyped program.now }
{
    let _fault: Option<SideFault> = None;
    let _why: Option<Why> = None;
    let text = write(alloc, steps)?;
    let layout = print_seq(alloc, sequential)?;
    let verdict = check(alloc, program, &layout, &text)?;
    if verdict == Verdict::Valid {
        Ok(text)
    } else {
        Ok(format!(in alloc; "{verdict:?}")?.into_bytes())
    }
}

// The text of the steps at which the search is stuck.
fn stuck(alloc: Global, report: &Report) -> Result<Vec<u8>, Fail> {
    let mut text = Vec::from_slice(alloc, b"stuck after ")?;
    let steps = write(alloc, &report.steps)?;
    text.extend_from_slice(&steps)?;
    Ok(text)
}

// The number of rules that were applied.
fn spent(alloc: Global, walk: &Walk) -> Result<Vec<u8>, Fail> {
    let applied = walk.applied();
    Ok(format!(in alloc; "budget {applied}")?.into_bytes())
}

// What an outcome of the search tells.
fn told(alloc: Global, program: &Program, outcome: Outcome) -> Result<Vec<u8>, Fail>
    requires { IsProgramWellTyped program.now }
{
    let _fault: Option<SideFault> = None;
    let _why: Option<Why> = None;
    match outcome {
        Outcome::Sequenced(steps, sequential) => written(alloc, program, &steps, &sequential),
        Outcome::Stuck(report) => stuck(alloc, &report),
        Outcome::Budget(walk) => spent(alloc, &walk),
    }
}

// The text of the derivation that is found, or where the search ends without one.
fn found(alloc: Global, source: &[u8]) -> Result<Vec<u8>, Fail> {
    let _fault: Option<SideFault> = None;
    let program = program_of(alloc, source)?;
    let outcome = search(alloc, &program, BUDGET)?;
    told(alloc, &program, outcome)
}

const FOUND: [(&[u8], &[u8]); 15] = [
    (
        PING_PONG,
        b"brisk derivation 1
pass A B Ping
pass B A Pong
end
",
    ),
    (
        LATE_BOX,
        b"brisk derivation 1
fill A B T 1
assign A
pass A B G
take A B T
end
",
    ),
    (
        ASK_ALL,
        b"brisk derivation 1
for Ws by H drop
pass H Ws Ask
close
gather H drop H.s H.x
pass Ws H Reply
assign H
close
end
",
    ),
    (
        TWO_PHASE_COMMIT,
        b"brisk derivation 1
for Ps by C drop
pass C Ps Prepare
close
gather C drop C.v C.ok
pass Ps C Cast
branch C
assign C
else
join
close
branch C
assign C
else
join
for Ps by C drop
pass C Ps Decide
close
gather C drop
branch Ps
assign Ps
else
join
pass Ps C Ack
close
end
",
    ),
    (
        TASK_SERVER,
        b"brisk derivation 1
while M drop M.k Ws.t
pick M drop
known Ws
pass Ws M Ready
pass M Ws Task
assign M
close
close
gather M drop
known Ws
pass Ws M Ready
pass M Ws Task
known Ws
close
end
",
    ),
    (
        PING_PONG_LOOSE,
        b"brisk derivation 1
pass A B Ping
pass B A Pong
end
",
    ),
    (
        ASK_ALL_LOOSE,
        b"brisk derivation 1
for Ws by H drop
pass H Ws Ask
close
gather H drop H.s H.x
pass Ws H Reply
assign H
close
end
",
    ),
    (
        COLLECT,
        b"brisk derivation 1
gather M drop M.x M.last
pass Ws M T
assign M
close
end
",
    ),
    (
        COLLECT_LOOSE,
        b"brisk derivation 1
gather M drop M.x M.last
pass Ws M T
assign M
close
end
",
    ),
    (
        TWO_MESSAGES,
        b"brisk derivation 1
pass A B T
pass A B T
end
",
    ),
    (CROSSED, b"stuck after brisk derivation 1\nend\n"),
    (
        OVERTAKING,
        b"stuck after brisk derivation 1
for Ws by drop
fill Ws M T 1
fill Ws M T 2
close
end
",
    ),
    (
        TWO_MESSAGES_LOOSE,
        b"stuck after brisk derivation 1
fill A B T 1
fill A B T 2
end
",
    ),
    (NESTED_FOR, b"stuck after brisk derivation 1\nend\n"),
    (ENDLESS_SENDER, b"budget 40"),
];

#[test]
fn derivations_are_found(rt: HostRuntime) -> Result<(), Fail> {
    for (source, want) in FOUND {
        let answer = found(rt.alloc(), source)?;
        assert_eq!(rt; answer.as_slice(), want);
    }
    Ok(())
}
