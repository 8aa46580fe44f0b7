//! Derivations that are unfolded: the events are played, and halt with the store of the sequential program.
ghost use Rattle.std.specs.Prelude.{◌≡◌};
ghost use Rattle.brisk_syntax.specs.WellTyped.{IsProgramWellTyped};
ghost use Rattle.brisk_rules.specs.Derives.{Valid};
ghost use Rattle.brisk_seq.specs.WellTyped.{IsSeqWellTyped};

use crate::programs::{TASK_SERVER, TWO_PHASE_COMMIT};
use brisk_derivation::Steps;
use brisk_print::print_seq;
use brisk_schedule::{Choices, Schedule, play, print_played, print_store, read_choices};
use brisk_search::{Outcome, search};
use brisk_seq::{SeqProgram, run};
use brisk_syntax::Program;
use brisk_test_texts::{program_of, sequence_of};
use brisk_unfold::unfold;
use std::alloc::Global;
use std::test::Fail;

const BUDGET: u64 = 40;

// How the schedule of the derivation on these choices ends, and the number of its events.
fn played(
    alloc: Global,
    program: &Program,
    steps: &Steps,
    sequential: &SeqProgram,
    choices: Choices,
) -> Result<(Vec<u8>, usize), Fail>
    requires typed { IsProgramWellTyped program.now }
    requires valid { Valid program.now steps.now sequential.now }
{
    let events = unfold(
        alloc,
        program,
        steps,
        &choices.instance,
        &choices.picks.items,
        choices.turns,
    )?;
    let count = events.items.len();
    let schedule = Schedule {
        instance: choices.instance,
        events,
    };
    let played = play(alloc, program, &schedule)?;
    Ok((print_played(alloc, program, &played)?, count))
}

// The store with which the sequential program halts on these choices.
fn ordered(alloc: Global, sequential: &SeqProgram, choices: &Choices) -> Result<Vec<u8>, Fail>
    requires { IsSeqWellTyped sequential.now }
{
    let store = run(
        alloc,
        sequential,
        &choices.instance,
        &choices.picks.items,
        choices.turns,
    )?;
    Ok(print_store(alloc, sequential, &choices.instance, &store)?)
}

// How the program's unfolding ends, the store of its sequential program, and the number of events; none where the search
// finds no derivation.
fn both(
    alloc: Global,
    source: &[u8],
    choices: &[u8],
) -> Result<Option<(Vec<u8>, Vec<u8>, usize)>, Fail> {
    let program = program_of(alloc, source)?;
    match search(alloc, &program, BUDGET)? {
        Outcome::Sequenced(steps, found) => {
            // The text's program is known to be well typed.
            let sequential = sequence_of(alloc, &print_seq(alloc, &found)?)?;
            let choices = read_choices(alloc, &sequential, choices)?;
            let store = ordered(alloc, &sequential, &choices)?;
            let (end, events) = played(alloc, &program, &steps, &found, choices)?;
            Ok(Some((end, store, events)))
        }
        Outcome::Stuck(_) | Outcome::Budget(_) => Ok(None),
    }
}

// The program, the choices, the store and the number of events.
const UNFOLDED: [(&[u8], &[u8], &[u8], usize); 3] = [
    // one no is an abort
    (
        TWO_PHASE_COMMIT,
        b"brisk choices 1
size Ps 3
input Ps[0].vote = Vote.Yes
input Ps[1].vote = Vote.No
input Ps[2].vote = Vote.Yes
turns 0
choose 2
choose 0
choose 1
choose 1
choose 0
choose 2
end
",
        b"halted
C.v = Vote.No
C.ok = false
C.d = Decision.Abort
Ps[0].vote = Vote.Yes
Ps[0].got = Decision.Abort
Ps[0].done = false
Ps[1].vote = Vote.No
Ps[1].got = Decision.Abort
Ps[1].done = false
Ps[2].vote = Vote.Yes
Ps[2].got = Decision.Abort
Ps[2].done = false
",
        48,
    ),
    // all vote yes
    (
        TWO_PHASE_COMMIT,
        b"brisk choices 1
size Ps 3
input Ps[0].vote = Vote.Yes
input Ps[1].vote = Vote.Yes
input Ps[2].vote = Vote.Yes
turns 0
choose 2
choose 1
choose 0
choose 0
choose 1
choose 2
end
",
        b"halted
C.v = Vote.Yes
C.ok = true
C.d = Decision.Commit
Ps[0].vote = Vote.Yes
Ps[0].got = Decision.Commit
Ps[0].done = true
Ps[1].vote = Vote.Yes
Ps[1].got = Decision.Commit
Ps[1].done = true
Ps[2].vote = Vote.Yes
Ps[2].got = Decision.Commit
Ps[2].done = true
",
        51,
    ),
    // two tasks for one worker, none for the other
    (
        TASK_SERVER,
        b"brisk choices 1
size Ws 2
input M.n = 2
turns 2
choose 1
choose 1
choose 0
choose 1
end
",
        b"halted
M.n = 2
M.k = 2
Ws[0].go = false
Ws[0].t = 0
Ws[1].go = false
Ws[1].t = 0
",
        30,
    ),
];

#[test]
fn unfoldings_halt_with_the_store(rt: HostRuntime) -> Result<(), Fail> {
    for (source, choices, want, count) in UNFOLDED {
        let Some((end, store, events)) = both(rt.alloc(), source, choices)? else {
            panic!(rt; "no derivation is found of {source:?}");
        };
        assert_eq!(rt; store.as_slice(), want);
        assert_eq!(rt; end.as_slice(), want);
        assert_eq!(rt; events, count);
    }
    Ok(())
}
