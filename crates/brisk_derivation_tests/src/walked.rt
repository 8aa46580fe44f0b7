//! Walks, call by call: rules that are taken back, calls that are refused, and what comes after.
ghost use Rattle.brisk_syntax.specs.WellTyped.{IsProgramWellTyped};

use crate::programs::{ASK_ALL, LATE_BOX, ONE_SIDED};
use brisk_derivation::{SideFault, Step};
use brisk_derivtext::{Line, around, no_steps, read_line};
use brisk_loops::{AcceptFault, Walk, Why};
use brisk_print::print_seq;
use brisk_test_texts::program_of;
use std::alloc::Global;
use std::test::Fail;

// Makes the call of a line of a derivation's text; other lines make none.
fn call(alloc: Global, walk: &mut Walk, line: Line) -> Result<(), AcceptFault> {
    let _fault: Option<SideFault> = None;
    let _why: Option<Why> = None;
    match line {
        Line::Plain(step) => walk.basic(&step),
        Line::Fork(owner) => walk.enter(&Step::Branch(owner, no_steps(alloc), no_steps(alloc))),
        Line::Enter(rule) => walk.enter(&around(rule, no_steps(alloc))),
        Line::Else => walk.other(),
        Line::Join | Line::Close => walk.leave(),
        _ => Ok(()),
    }
}

// The text of the sequential program at which the walk has come to its end, or why it hasn't.
fn ended(alloc: Global, walk: &Walk) -> Result<Vec<u8>, Fail> {
    let _fault: Option<SideFault> = None;
    let _why: Option<Why> = None;
    if walk.depth() > 0 {
        return Ok(Vec::from_slice(alloc, b"in a rule")?);
    }
    match walk.finish() {
        Ok(sequential) => Ok(print_seq(alloc, &sequential)?),
        Err(fault) => Ok(format!(in alloc; "{fault:?}")?.into_bytes()),
    }
}

// What is answered at a line: a call of the walk, or `back`, `rewind` or `end`.
fn answered(alloc: Global, walk: &mut Walk, line: &[u8]) -> Result<Vec<u8>, Fail> {
    let _fault: Option<SideFault> = None;
    let _why: Option<Why> = None;
    if line == b"end".as_slice() {
        return ended(alloc, walk);
    }
    if line == b"rewind".as_slice() {
        walk.rewind()?;
        return Ok(Vec::new(alloc));
    }
    if line == b"back".as_slice() {
        if walk.depth() > 0 {
            walk.back();
        }
        return Ok(Vec::new(alloc));
    }
    let Some(line) = read_line(alloc, line)? else {
        return Ok(Vec::from_slice(alloc, b"no line")?);
    };
    match call(alloc, walk, line) {
        Ok(()) => Ok(Vec::new(alloc)),
        Err(fault) => Ok(format!(in alloc; "{fault:?}")?.into_bytes()),
    }
}

// The lines, each with its answer, which is empty where the call succeeds. A refused call leaves the walk as it was, so
// that the lines behind it are answered as if it hadn't been made.
const TAKEN_BACK: [(&[u8], &[u8]); 19] = [
    (b"for Ws by drop", b""),
    (b"pass H Ws Ask", b"Bad(3, Rule(WrongHead))"),
    (b"back", b""),
    (b"for Ws by H drop", b""),
    (b"pass H Ws Ask", b""),
    (b"close", b""),
    (b"gather H drop H.x", b""),
    (b"pass Ws H Reply", b""),
    (b"close", b"Bad(7, Side(OwnerUnfinished(H)))"),
    (b"assign H", b""),
    (b"close", b"Bad(8, Side(FactLost))"),
    (b"close", b"Bad(8, Side(FactLost))"),
    (b"back", b""),
    (b"end", b"Bad(5, Side(Unfinished(H)))"),
    (b"gather H drop H.s H.x", b""),
    (b"pass Ws H Reply", b""),
    (b"assign H", b""),
    (b"close", b""),
    (
        b"end",
        b"one H {
  var s : int = 0;
  var x : int = 0;
}
many Ws {
  var q : int = 0;
}
begin
  for Ws {
    Ws.(q) := H.(1);
  }
  for any Ws {
    H.(x) := Ws.(q + 1);
    H.(s) := H.(s + x);
  }
end
",
    ),
];

const REWOUND: [(&[u8], &[u8]); 16] = [
    (b"fill A B T 1", b""),
    (b"assign C", b"Bad(3, Rule(NoThread))"),
    (b"assign B", b"Bad(3, Rule(WrongHead))"),
    (b"fill A B T 1", b"Bad(3, Rule(WrongHead))"),
    (b"branch A", b"Bad(3, Rule(WrongHead))"),
    (b"assign A", b""),
    (b"take A B G", b"Bad(4, Rule(NothingPending))"),
    (b"end", b"Bad(4, Side(Unfinished(A)))"),
    (b"rewind", b""),
    (b"end", b"Bad(2, Side(Unfinished(A)))"),
    (b"assign A", b"Bad(2, Rule(WrongHead))"),
    (b"fill A B T 2", b""),
    (b"assign A", b""),
    (b"pass A B G", b""),
    (b"take A B T", b""),
    (
        b"end",
        b"one A {
  input n : int;
}
one B {
  var x : int = 0;
}
begin
  box 2 (A to B) := A.(n);
  A.(n) := A.(5);
  B.() := A.();
  B.(x) := box 2 (A to B);
end
",
    ),
];

const ACROSS: [(&[u8], &[u8]); 12] = [
    (b"branch A", b""),
    (b"fill A B T 1", b""),
    (b"else", b""),
    (b"fill A B T 1", b"Bad(5, Rule(WrongHead))"),
    (b"join", b"Bad(5, Side(BranchesDiffer))"),
    (b"end", b"in a rule"),
    (b"back", b""),
    (b"end", b"Bad(2, Side(Unfinished(A)))"),
    (b"known A", b"Bad(2, Rule(NotKnown))"),
    (b"branch A", b""),
    (b"rewind", b""),
    (b"end", b"Bad(2, Side(Unfinished(A)))"),
];

// The program, the lines with their answers, and the number of rules applied, those that were taken back too.
const WALKED: [(&[u8], &[(&[u8], &[u8])], u64); 3] = [
    (ASK_ALL, &TAKEN_BACK, 7),
    (LATE_BOX, &REWOUND, 6),
    (ONE_SIDED, &ACROSS, 1),
];

#[test]
fn walks_are_taken_back_and_go_on(rt: HostRuntime) -> Result<(), Fail> {
    let alloc = rt.alloc();
    for (source, lines, applied) in WALKED {
        let program = program_of(alloc, source)?;
        let mut walk = Walk::start(alloc, &program)?;
        for (line, want) in lines {
            let answer = answered(alloc, &mut walk, line)?;
            assert_eq!(rt; answer.as_slice(), *want, "at {line:?}");
        }
        assert_eq!(rt; walk.applied(), applied);
    }
    Ok(())
}
