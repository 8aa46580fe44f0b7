//! The walk's calls, as the search makes them.
ghost use Rattle.std.specs.Prelude.{◌≡◌, ◌≢◌, ◌∷◌, [], IfOk, OnOk};
ghost use Rattle.brisk_derivation.specs.Reports.{Tried};
ghost use Rattle.brisk_derivation.specs.Seen.{step_of};
ghost use Rattle.brisk_derivation.specs.TriesSeen.{end_of};
ghost use Rattle.brisk_loops.specs.Walk.{back, enter as entered_by, leave as left_by, other as other_of};
ghost use Rattle.brisk_loops.specs.WalkSeen.{Gives};
ghost use Rattle.brisk_rules.specs.Rules.{Entered};
ghost use Rattle.brisk_search.specs.declared.closing.Premise.{Premise as Premised};
ghost use Rattle.brisk_search.specs.declared.drive.Drive.TheVariants.{Premise as of_premise};
ghost use Rattle.brisk_search.specs.Advance.{basically, filled};
ghost use Rattle.brisk_search.specs.Met.{CameBy, JoinedBy, LeftBy, MadeOr, MeetsAttempt};
ghost use Rattle.brisk_search.specs.Views.{IsPremiseOf, IsWithin, at_walk, failures_of, first_rule, last_rule, with_premise};
ghost use Rattle.brisk_derivation.specs.Steps.{Branch};
ghost use Rattle.brisk_rules.specs.Standing.{least_free};
ghost use Rattle.brisk_search.specs.Tries.{with_lost};
ghost use Rattle.brisk_search.specs.declared.standing.Head.TheVariants.{Send as SendTo};

use crate::compound::with_steps;
use crate::drive::Drive;
use crate::failing::{fails, is_refused};
use crate::limits::Limits;
use crate::loss::with_lost;
use crate::standing::Head;
use crate::turn::{Came, Failed, Left, Turn};
use brisk_derivation::{BasicStep, Drops, SideFault, Step, Steps, TryEnd};
use brisk_loops::{AcceptFault, Walk, Why};
use brisk_values::{Name, NoMemory};

/// Enters a rule; or tells why it can't be entered.
pub(crate) fn enters(walk: &mut Walk, step: &Step) -> Result<Option<Why>, NoMemory>
    ensures { IfOk result (λ o. MadeOr o (entered_by walk.old (step_of step.now)) walk.old walk.new) }
{
    match walk.enter(step) {
        Ok(()) => Ok(None),
        Err(AcceptFault::Bad(_, why)) => Ok(Some(why)),
        Err(AcceptFault::NoMemory) => Err(NoMemory),
    }
}

// Closes the innermost rule, where its tests hold; the rule is due then.
fn leaves(limits: &Limits, walk: &mut Walk) -> Result<Left, NoMemory>
    ensures { IfOk result (λ o. LeftBy limits.now.budget o (left_by walk.old) walk.old walk.new) }
{
    if limits.is_spent(walk) {
        return match walk.close_refusal()? {
            None => Ok(Left::Due),
            Some(why) => Ok(Left::Refused(why)),
        };
    }
    match walk.leave() {
        Ok(()) => Ok(Left::Closed),
        Err(AcceptFault::Bad(_, why)) => Ok(Left::Refused(why)),
        Err(AcceptFault::NoMemory) => Err(NoMemory),
    }
}

/// Passes to the second side of a branch. In a first side this fails for want of memory alone.
pub(crate) fn crosses(walk: &mut Walk) -> Result<(), NoMemory>
    ensures { OnOk result (Gives (other_of walk.old) walk.new) }
{
    match walk.other() {
        Ok(()) => Ok(()),
        Err(_) => Err(NoMemory),
    }
}

// Applies a basic rule, which is due where its tests hold.
fn basically(limits: &Limits, walk: &mut Walk, step: BasicStep) -> Result<Turn, NoMemory>
    requires { IsWithin limits.now.budget walk.old.applied }
    ensures { IfOk result (λ t. MeetsAttempt limits.now.budget (basically (at_walk walk.old) walk.old.state step) t walk.old walk.new) }
{
    if limits.is_spent(walk) {
        return match walk.refusal(&step)? {
            None => Ok(Turn::Spent),
            Some(_) => Ok(Turn::Stays),
        };
    }
    match walk.basic(&step) {
        Ok(()) => Ok(Turn::Goes(Step::Basic(step))),
        Err(AcceptFault::Bad(_, _)) => Ok(Turn::Stays),
        Err(AcceptFault::NoMemory) => Err(NoMemory),
    }
}

// A send: the message is passed on, or else it is filled into the box of the least number that is free.
fn sends(
    limits: &Limits,
    walk: &mut Walk,
    from: Name,
    to: Name,
    channel: Name,
) -> Result<Turn, NoMemory>
    requires { IsWithin limits.now.budget walk.old.applied }
    ensures { IfOk result (λ t. MeetsAttempt limits.now.budget (first_rule (at_walk walk.old) walk.old.state from (SendTo to channel)) t walk.old walk.new) }
{
    match basically(limits, walk, BasicStep::Pass(from, to, channel))? {
        Turn::Stays => fills(limits, walk, from, to, channel),
        turn => Ok(turn),
    }
}

fn fills(
    limits: &Limits,
    walk: &mut Walk,
    from: Name,
    to: Name,
    channel: Name,
) -> Result<Turn, NoMemory>
    requires { IsWithin limits.now.budget walk.old.applied }
    ensures { IfOk result (λ t. MeetsAttempt limits.now.budget (filled (at_walk walk.old) walk.old.state from to channel (least_free walk.old.state.pending)) t walk.old walk.new) }
{
    match walk.state().least_free() {
        None => Ok(Turn::Stays),
        Some(number) => basically(limits, walk, BasicStep::Fill(from, to, channel, number)),
    }
}

/// The basic rule that comes first at a head, if there is one.
pub(crate) fn at_first(
    limits: &Limits,
    walk: &mut Walk,
    name: Name,
    head: &Head,
) -> Result<Turn, NoMemory>
    requires { IsWithin limits.now.budget walk.old.applied }
    ensures { IfOk result (λ t. MeetsAttempt limits.now.budget (first_rule (at_walk walk.old) walk.old.state name head.now) t walk.old walk.new) }
{
    match head {
        Head::Assign => basically(limits, walk, BasicStep::Assign(name)),
        Head::Send(to, channel) => sends(limits, walk, name, *to, *channel),
        Head::Receive(from, channel) => {
            basically(limits, walk, BasicStep::Take(*from, name, *channel))
        }
        Head::If => basically(limits, walk, BasicStep::Known(name)),
        Head::While(is_false) => {
            if *is_false {
                basically(limits, walk, BasicStep::Known(name))
            } else {
                Ok(Turn::Stays)
            }
        }
        _ => Ok(Turn::Stays),
    }
}

/// The basic rule that comes last at a head, if there is one.
pub(crate) fn at_last(
    limits: &Limits,
    walk: &mut Walk,
    name: Name,
    head: &Head,
) -> Result<Turn, NoMemory>
    requires { IsWithin limits.now.budget walk.old.applied }
    ensures { IfOk result (λ t. MeetsAttempt limits.now.budget (last_rule (at_walk walk.old) walk.old.state name head.now) t walk.old walk.new) }
{
    match head {
        Head::While(is_false) => {
            if *is_false {
                Ok(Turn::Stays)
            } else {
                basically(limits, walk, BasicStep::Known(name))
            }
        }
        _ => Ok(Turn::Stays),
    }
}

/// Gives up the innermost rule: its try has failed so.
pub(crate) fn gives_up(
    walk: &mut Walk,
    at: Name,
    rule: Step,
    end: TryEnd,
    failures: &mut Vec<Failed>,
) -> Result<(), NoMemory>
    requires { walk.old.entered ≢ [] }
    ensures walk { OnOk result (walk.new ≡ back walk.old) }
    ensures told { OnOk result (failures_of failures.new.items ≡ (at, Tried (step_of rule) (end_of end)) ∷ failures_of failures.old.items) }
{
    fails(failures, at, rule, end)?;
    walk.back();
    Ok(())
}

/// Closes a rule whose premise was driven to its goal; where facts were lost, there is another try.
pub(crate) fn closes(
    limits: &Limits,
    walk: &mut Walk,
    asked: &Drive,
    step: Step,
    steps: Steps,
) -> Result<Came, NoMemory>
    requires { walk.old.entered ≢ [] }
    ensures { (p : Premised) (r : Entered) → asked.now ≡ of_premise p → IsPremiseOf r p walk.old.entered → IfOk result (λ o. CameBy limits.now.budget r p.drops o (with_premise (step_of step) steps) walk.old walk.new) }
{
    let _fault: Option<SideFault> = None;
    let _why: Option<Why> = None;
    match leaves(limits, walk)? {
        Left::Closed => Ok(Came::To(Turn::Goes(with_steps(step, steps)))),
        Left::Due => Ok(Came::To(Turn::Spent)),
        Left::Refused(_) => {
            let more = lost_in(limits, walk, asked)?;
            walk.back();
            Ok(Came::Losing(more))
        }
    }
}

// The facts to drop in the next try of a premise.
fn lost_in(limits: &Limits, walk: &Walk, asked: &Drive) -> Result<Drops, NoMemory>
    ensures { (p : Premised) (r : Entered) → asked.now ≡ of_premise p → IsPremiseOf r p walk.now.entered → IfOk result (λ d. d ≡ with_lost walk.now.program r walk.now.state p.drops) }
{
    match asked {
        Drive::Premise(premise) => with_lost(limits.alloc, walk, premise),
        _ => Err(NoMemory),
    }
}

/// Joins the two sides of a branch.
pub(crate) fn joins(
    limits: &Limits,
    walk: &mut Walk,
    name: Name,
    first: Steps,
    second: Steps,
    failures: &mut Vec<Failed>,
) -> Result<Turn, NoMemory>
    requires { walk.old.entered ≢ [] }
    ensures { IfOk result (λ t. JoinedBy limits.now.budget name (Branch name first second) t (failures_of failures.old.items) (failures_of failures.new.items) walk.old walk.new) }
{
    let _fault: Option<SideFault> = None;
    let step = Step::Branch(name, first, second);
    match leaves(limits, walk)? {
        Left::Closed => Ok(Turn::Goes(step)),
        Left::Due => Ok(Turn::Spent),
        Left::Refused(why) => {
            is_refused(failures, name, step, why)?;
            walk.back();
            Ok(Turn::Stays)
        }
    }
}
