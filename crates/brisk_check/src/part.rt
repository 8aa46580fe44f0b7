//! The calls of steps, made on a walk.
ghost use Rattle.std.specs.Prelude.{◌≡◌, IfOk, IfErr, Ok as okay};
ghost use Rattle.brisk_derivation.specs.Seen.{step_of};
ghost use Rattle.brisk_loops.specs.Walk.{calls, calls_of};
ghost use Rattle.brisk_loops.specs.WalkKept.{kept_all};
ghost use Rattle.brisk_loops.specs.WalkSeen.{Tells};

use brisk_derivation::{SideFault, Step, Steps};
use brisk_loops::{AcceptFault, Walk, Why};

/// Makes the calls of the steps.
#[cycle(take)]
pub fn take_all(walk: &mut Walk, steps: &Steps) -> Result<(), AcceptFault>
    ensures ok { IfOk result (λ _. kept_all (calls_of steps.now) walk.old ≡ okay walk.new) }
    ensures cause { IfErr result (λ f. Tells (kept_all (calls_of steps.now) walk.old) f) }
{
    let _fault: Option<SideFault> = None;
    let _why: Option<Why> = None;
    for step in &steps.items {
        take(walk, step)?;
    }
    Ok(())
}

// Makes the calls of a step.
#[cycle(take)]
fn take(walk: &mut Walk, step: &Step) -> Result<(), AcceptFault>
    ensures ok { IfOk result (λ _. kept_all (calls (step_of step.now)) walk.old ≡ okay walk.new) }
    ensures cause { IfErr result (λ f. Tells (kept_all (calls (step_of step.now)) walk.old) f) }
{
    let _fault: Option<SideFault> = None;
    let _why: Option<Why> = None;
    match step {
        Step::Basic(rule) => walk.basic(rule),
        Step::Branch(_, first, second) => {
            walk.enter(step)?;
            take_all(walk, first)?;
            walk.other()?;
            take_all(walk, second)?;
            walk.leave()
        }
        Step::While(_, _, premise)
        | Step::For(_, _, _, premise)
        | Step::Repeat(_, _, premise)
        | Step::Gather(_, _, premise)
        | Step::Pick(_, _, premise) => {
            walk.enter(step)?;
            take_all(walk, premise)?;
            walk.leave()
        }
    }
}
