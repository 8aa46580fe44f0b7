//! A drive, its rounds, and the tries inside, all on one walk.
ghost use Rattle.std.specs.Prelude.{◌+◌, List, IfOk};
ghost use Rattle.brisk_loops.specs.Walk.{Open};
ghost use Rattle.brisk_rules.specs.Rules.{Parted};
ghost use Rattle.brisk_search.specs.declared.drive.Drive.TheVariants.{Top};
ghost use Rattle.brisk_search.specs.Met.{IsInFirst, IsReady, MeetsDrive, MeetsSides, MeetsTry, MeetsTurn, around_at, drive_at, sides_at, tries_at, try_at};
ghost use Rattle.brisk_search.specs.Passes.{round};
ghost use Rattle.brisk_search.specs.Views.{attempt_of, branch_at, drive_seen, failures_of, later_rules, left_of, sides_in};
ghost use Rattle.brisk_values.specs.Names.{Name as Named};

use crate::calls::{at_first, at_last, closes, crosses, enters, gives_up, joins};
use crate::closing::Premise;
use crate::compound::{Compound, branch_of, rules_of, with_steps};
use crate::drive::{Comer, Drive, comers, is_at_goal, premise_of};
use crate::failing::{end_of, is_refused, last_tries};
use crate::limits::{Limits, Pass};
use crate::loss::at_risk;
use crate::standing::{Head, after_head, asks};
use crate::turn::{Came, Driven, Failed, Sided, Turn};
use brisk_derivation::{Drops, SideFault, Step, Steps, TryEnd};
use brisk_loops::{Walk, Why};
use brisk_syntax::Code;
use brisk_values::{Name, NoMemory};

/// Drives on from where the walk stands; as many more rules may be entered one in another.
#[cycle(drive)]
pub(crate) fn drive(
    limits: &Limits,
    walk: &mut Walk,
    asked: &Drive,
    room: u16,
) -> Result<Driven, NoMemory>
    requires { IsReady limits.now.budget room asked.now walk.old }
    ensures { IfOk result (λ o. MeetsDrive limits.now.budget (drive_at limits.now.budget limits.now.pass room asked.now walk.old) o walk.old walk.new) }
{
    let mut made: Vec<Step> = Vec::new(limits.alloc);
    let count = limits.rounds(walk);
    for _round in 0..count {
        if is_at_goal(walk, asked)? {
            return Ok(Driven::Reached(Steps { items: made }));
        }
        let mut failures: Vec<Failed> = Vec::new(limits.alloc);
        match round(limits, walk, asked, room, &mut failures)? {
            Turn::Goes(step) => made.push(step)?,
            Turn::Stays => {
                let tries = last_tries(limits.alloc, walk.state(), failures)?;
                return Ok(Driven::Stuck(Steps { items: made }, tries));
            }
            Turn::Spent => return Ok(Driven::Spent),
        }
    }
    // The rounds are enough, so no drive comes here.
    Err(NoMemory)
}

// A round: the first that can go does.
#[cycle(drive)]
fn round(
    limits: &Limits,
    walk: &mut Walk,
    asked: &Drive,
    room: u16,
    failures: &mut Vec<Failed>,
) -> Result<Turn, NoMemory>
    requires { IsReady limits.now.budget room asked.now walk.old }
    ensures { IfOk result (λ t. MeetsTurn limits.now.budget (round (around_at limits.now.pass room asked.now walk.old) (drive_seen walk.old.entered asked.now) walk.old.state (failures_of failures.old.items) (left_of limits.now.budget walk.old.applied)) t (failures_of failures.new.items) walk.old walk.new) }
{
    let comers = comers(limits.alloc, walk, asked)?;
    for comer in &comers {
        match acts(limits, walk, asked, comer, room, failures)? {
            Turn::Stays => {}
            turn => return Ok(turn),
        }
    }
    Ok(Turn::Stays)
}

// What is done by who comes in turn: a basic rule; or a branch, or another compound rule; or else a basic rule that comes
// last.
#[cycle(drive)]
fn acts(
    limits: &Limits,
    walk: &mut Walk,
    asked: &Drive,
    comer: &Comer,
    room: u16,
    failures: &mut Vec<Failed>,
) -> Result<Turn, NoMemory>
    requires { IsReady limits.now.budget room asked.now walk.old }
    ensures { IfOk result (λ t. MeetsTurn limits.now.budget (attempt_of (around_at limits.now.pass room asked.now walk.old) walk.old.state comer.now (failures_of failures.old.items) (left_of limits.now.budget walk.old.applied)) t (failures_of failures.new.items) walk.old walk.new) }
{
    let (name, head) = asks(limits.alloc, walk, comer)?;
    let forks = head.is_if();
    match at_first(limits, walk, name, &head)? {
        Turn::Stays if forks => branch(limits, walk, asked, name, room, failures),
        Turn::Stays => rules(limits, walk, name, &head, room, failures),
        turn => Ok(turn),
    }
}

// The compound rules with one premise, in order, and the basic rule that comes last.
#[cycle(drive)]
fn rules(
    limits: &Limits,
    walk: &mut Walk,
    name: Name,
    head: &Head,
    room: u16,
    failures: &mut Vec<Failed>,
) -> Result<Turn, NoMemory>
    requires { IsReady limits.now.budget room Top walk.old }
    ensures { IfOk result (λ t. MeetsTurn limits.now.budget (later_rules (around_at limits.now.pass room Top walk.old) walk.old.state name head.now (failures_of failures.old.items) (left_of limits.now.budget walk.old.applied)) t (failures_of failures.new.items) walk.old walk.new) }
{
    let rules = rules_of(limits.alloc, walk.state(), name, head)?;
    for rule in &rules {
        match nine_tries(limits, walk, rule, room, failures)? {
            Turn::Stays => {}
            turn => return Ok(turn),
        }
    }
    at_last(limits, walk, name, head)
}

// The tries of a rule: eight, each also without the facts that the one before lost, and a last one without all that may
// be lost.
#[cycle(drive)]
fn nine_tries(
    limits: &Limits,
    walk: &mut Walk,
    rule: &Compound,
    room: u16,
    failures: &mut Vec<Failed>,
) -> Result<Turn, NoMemory>
    requires { IsReady limits.now.budget room Top walk.old }
    ensures { IfOk result (λ t. MeetsTurn limits.now.budget (tries_at limits.now.pass room rule.now walk.old (failures_of failures.old.items) (left_of limits.now.budget walk.old.applied)) t (failures_of failures.new.items) walk.old walk.new) }
{
    let mut drops = Drops {
        items: Vec::new(limits.alloc),
    };
    let Some(below) = room.checked_sub(1) else {
        let step = rule.step(limits.alloc, &drops)?;
        is_refused(failures, rule.at, step, Why::Side(SideFault::TooDeep))?;
        return Ok(Turn::Stays);
    };
    for _try in 0..8u8 {
        match one_try(limits, walk, rule, drops, below, failures)? {
            Came::To(turn) => return Ok(turn),
            Came::Losing(more) => drops = more,
        }
    }
    let last = at_risk(limits.alloc, walk)?;
    match one_try(limits, walk, rule, last, below, failures)? {
        Came::To(turn) => Ok(turn),
        Came::Losing(_) => Ok(Turn::Stays),
    }
}

// One try of a rule, with these facts to drop.
#[cycle(drive)]
fn one_try(
    limits: &Limits,
    walk: &mut Walk,
    rule: &Compound,
    drops: Drops,
    below: u16,
    failures: &mut Vec<Failed>,
) -> Result<Came, NoMemory>
    requires { IsReady limits.now.budget (below + 1) Top walk.old }
    ensures { IfOk result (λ o. MeetsTry limits.now.budget walk.old.program drops (try_at limits.now.budget limits.now.pass below rule.now drops (failures_of failures.old.items) walk.old) o (failures_of failures.new.items) walk.old walk.new) }
{
    let _code: Option<Code> = None;
    let _fault: Option<SideFault> = None;
    let _why: Option<Why> = None;
    let step = rule.step(limits.alloc, &drops)?;
    let around = walk.depth();
    if let Some(why) = enters(walk, &step)? {
        is_refused(failures, rule.at, step, why)?;
        return Ok(Came::To(Turn::Stays));
    }
    let asked = premise_of(walk, around, drops)?;
    match drive(limits, walk, &asked, below)? {
        Driven::Spent => Ok(Came::To(Turn::Spent)),
        Driven::Reached(steps) => closes(limits, walk, &asked, step, steps),
        Driven::Stuck(steps, tries) => {
            let end = end_of(walk, &asked, tries)?;
            gives_up(walk, rule.at, with_steps(step, steps), end, failures)?;
            Ok(Came::To(Turn::Stays))
        }
    }
}

// A branch, both of whose sides are driven.
#[cycle(drive)]
fn branch(
    limits: &Limits,
    walk: &mut Walk,
    asked: &Drive,
    name: Name,
    room: u16,
    failures: &mut Vec<Failed>,
) -> Result<Turn, NoMemory>
    requires { IsReady limits.now.budget room asked.now walk.old }
    ensures { IfOk result (λ t. MeetsTurn limits.now.budget (branch_at (around_at limits.now.pass room asked.now walk.old) walk.old.state name (failures_of failures.old.items) (left_of limits.now.budget walk.old.applied)) t (failures_of failures.new.items) walk.old walk.new) }
{
    let step = branch_of(limits.alloc, name);
    let Some(below) = room.checked_sub(1) else {
        is_refused(failures, name, step, Why::Side(SideFault::TooDeep))?;
        return Ok(Turn::Stays);
    };
    let rest = after_head(limits.alloc, walk.state(), name)?;
    if let Some(why) = enters(walk, &step)? {
        is_refused(failures, name, step, why)?;
        return Ok(Turn::Stays);
    }
    match sides(limits, walk, asked, name, rest, below)? {
        Sided::Spent => Ok(Turn::Spent),
        Sided::Both(first, second) => joins(limits, walk, name, first, second, failures),
        Sided::Stuck(first, second, end) => {
            gives_up(walk, name, Step::Branch(name, first, second), end, failures)?;
            Ok(Turn::Stays)
        }
    }
}

// The sides: in pass one the branch's owner is to come to the code after it, and in pass two they are driven as what is
// around.
#[cycle(drive)]
fn sides(
    limits: &Limits,
    walk: &mut Walk,
    asked: &Drive,
    name: Name,
    rest: Code,
    below: u16,
) -> Result<Sided, NoMemory>
    requires { IsReady limits.now.budget below asked.now walk.old }
    ensures { (p : Parted) (o : Open) (more : List Open) → IsInFirst p o more walk.old → IfOk result (λ s. MeetsSides limits.now.budget (sides_at limits.now.budget limits.now.pass below (sides_in limits.now.pass (drive_seen walk.old.entered asked.now) name rest) name p walk.old) name p o more s walk.old walk.new) }
{
    let _premise: Option<Premise> = None;
    match limits.pass {
        Pass::First => both_sides(limits, walk, &Drive::Side(name, rest), below),
        Pass::Second => both_sides(limits, walk, asked, below),
    }
}

// Both sides of a branch that was entered, one after the other.
#[cycle(drive)]
fn both_sides(
    limits: &Limits,
    walk: &mut Walk,
    asked: &Drive,
    below: u16,
) -> Result<Sided, NoMemory>
    requires { IsReady limits.now.budget below asked.now walk.old }
    ensures { (t : Named) (p : Parted) (o : Open) (more : List Open) → IsInFirst p o more walk.old → IfOk result (λ s. MeetsSides limits.now.budget (sides_at limits.now.budget limits.now.pass below (drive_seen walk.old.entered asked.now) t p walk.old) t p o more s walk.old walk.new) }
{
    match drive(limits, walk, asked, below)? {
        Driven::Spent => Ok(Sided::Spent),
        Driven::Stuck(first, tries) => {
            let second = Steps {
                items: Vec::new(limits.alloc),
            };
            Ok(Sided::Stuck(first, second, TryEnd::StuckFirst(tries)))
        }
        Driven::Reached(first) => {
            crosses(walk)?;
            match drive(limits, walk, asked, below)? {
                Driven::Spent => Ok(Sided::Spent),
                Driven::Stuck(second, tries) => {
                    Ok(Sided::Stuck(first, second, TryEnd::StuckSecond(tries)))
                }
                Driven::Reached(second) => Ok(Sided::Both(first, second)),
            }
        }
    }
}
