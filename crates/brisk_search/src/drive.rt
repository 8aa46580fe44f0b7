//! What a drive asks for, and who comes in turn.
ghost use Rattle.std.specs.Prelude.{◌≡◌, ◌&&◌, ◌++◌, Some as some, filter, is_none, map, not, IfOk, OnOk};
ghost use Rattle.brisk_rules.specs.Derives.{first_unfinished};
ghost use Rattle.brisk_rules.specs.Rules.{Entered};
ghost use Rattle.brisk_rules.specs.Standing.{fault_aside, is_candidate, is_not_quiet, resting, stands_at};
ghost use Rattle.brisk_state.specs.Same.{same_code as same_tree};
ghost use Rattle.brisk_syntax.specs.Typing.{is_among};
ghost use Rattle.brisk_search.specs.declared.drive.Comer.TheVariants.{Set};
ghost use Rattle.brisk_search.specs.Drives.{in_turn, others, premise_of as driven_in};
ghost use Rattle.brisk_state.specs.Symbolic.{is_active as is_active_in};
ghost use Rattle.brisk_search.specs.Views.{Fits, IsBefore, IsDriveOf, IsPremiseOf, comers_in, drive_seen};
ghost use Rattle.brisk_loops.specs.Walk.{premise_at};

use crate::closing::{Premise, focus_of, goes_on};
use crate::standing::{has_name, is_active};
use brisk_derivation::{Drops, SideFault};
use brisk_loops::{Owner, Walk};
use brisk_state::{State, Thread};
use brisk_syntax::{Code, same_code};
use brisk_values::{Name, NoMemory};
use std::alloc::Global;

/// What is driven.
#[derive(Drop)]
pub(crate) enum Drive {
    /// All code is to come to its end.
    Top,
    /// A branch's side: its owner is to come to the code after the branch.
    Side(Name, Code),
    /// The premise of a rule: the rule may be closed, facts aside.
    Premise(Premise),
}

/// The premise of the rule that was entered last, with these facts dropped.
pub(crate) fn premise_of(walk: &Walk, around: usize, drops: Drops) -> Result<Drive, NoMemory>
    ensures { (r : Entered) → premise_at walk.now.entered around ≡ some r → IfOk result (λ d. IsDriveOf around drops r d) }
{
    match walk.closing(around)? {
        None => Err(NoMemory),
        Some(closing) => Ok(Drive::Premise(Premise {
            around,
            closing,
            drops,
        })),
    }
}

/// The drive is at its goal.
pub(crate) fn is_at_goal(walk: &Walk, drive: &Drive) -> Result<bool, NoMemory>
    requires { Fits drive.now walk.now.entered }
    ensures { IfOk result (λ b. b ≡ (drive_seen walk.now.entered drive.now).goal walk.now.state) }
{
    match drive {
        Drive::Top => Ok(all_ended(walk.state().threads())),
        Drive::Side(owner, rest) => Ok(stands_before(walk.state(), *owner, rest)),
        Drive::Premise(premise) => {
            if premise.has_to_end(walk.state()) {
                return Ok(false);
            }
            Ok(
                walk.fault_aside(premise.around, &premise.closing)?
                    .is_none(),
            )
        }
    }
}

// No thread has code left.
fn all_ended(threads: &[Thread]) -> bool
    ensures { result ≡ is_none (first_unfinished threads.now) }
{
    for thread in threads {
        if thread.code.first().is_some() {
            return false;
        }
    }
    true
}

// The thread has this code left.
fn stands_before(state: &State, name: Name, rest: &Code) -> bool
    ensures { result ≡ same_tree (stands_at state.now name) rest.now }
{
    match state.code_of(name) {
        None => rest.first().is_none(),
        Some(code) => same_code(code, rest),
    }
}

/// Who comes in turn: a thread; or at the top a set.
#[derive(Clone, Copy)]
pub(crate) enum Comer {
    Thread(Name),
    Set(Name),
}

/// Who comes in turn in a round: threads, and after them at the top the sets with code.
pub(crate) fn comers(alloc: Global, walk: &Walk, drive: &Drive) -> Result<Vec<Comer>, NoMemory>
    requires { Fits drive.now walk.now.entered }
    ensures { IfOk result (λ v. v.items ≡ comers_in (drive_seen walk.now.entered drive.now) walk.now.state) }
{
    let mut comers = Vec::new(alloc);
    for name in &in_turn(alloc, walk, drive)? {
        comers.push(Comer::Thread(*name))?;
    }
    if let Drive::Top = drive {
        add_sets(walk.state(), &mut comers)?;
    }
    Ok(comers)
}

// Adds the sets that aren't in focus and have code.
fn add_sets(state: &State, comers: &mut Vec<Comer>) -> Result<(), NoMemory>
    ensures { OnOk result (comers.new.items ≡ comers.old.items ++ map (λ s. Set s) (resting state.now)) }
{
    for thread in state.threads() {
        if !is_active(thread) && thread.code.first().is_some() {
            comers.push(Comer::Set(thread.name))?;
        }
    }
    Ok(())
}

// The threads whose turn it may be: the owners, and then, while one of them has code, all others.
fn in_turn(alloc: Global, walk: &Walk, drive: &Drive) -> Result<Vec<Name>, NoMemory>
    requires { Fits drive.now walk.now.entered }
    ensures { IfOk result (λ v. v.items ≡ in_turn (drive_seen walk.now.entered drive.now) walk.now.state) }
{
    match drive {
        Drive::Top => with_others(alloc, walk.state(), &[]),
        Drive::Side(owner, _) => with_others(alloc, walk.state(), &[*owner]),
        Drive::Premise(premise) => in_turn_inside(alloc, walk, premise),
    }
}

// The same in a premise. Where it has no owners, the member in focus comes first.
fn in_turn_inside(alloc: Global, walk: &Walk, premise: &Premise) -> Result<Vec<Name>, NoMemory>
    ensures { (r : Entered) → IsPremiseOf r premise.now walk.now.entered → IfOk result (λ v. v.items ≡ in_turn (driven_in r) walk.now.state) }
{
    if premise.closing.owners.is_empty() {
        return match focus_of(&premise.closing.kind) {
            None => with_others(alloc, walk.state(), &[]),
            Some(set) => with_others(alloc, walk.state(), &[set]),
        };
    }
    let owners = names_of(alloc, &premise.closing.owners)?;
    if premise.is_at_work(walk.state()) {
        with_others(alloc, walk.state(), &owners)
    } else {
        with_candidates(alloc, walk, premise, &owners)
    }
}

// The names of the owners.
fn names_of(alloc: Global, owners: &[Owner]) -> Result<Vec<Name>, NoMemory>
    ensures { IfOk result (λ v. v.items ≡ map (λ o. o.name) owners.now) }
{
    let mut names = Vec::new(alloc);
    for owner in owners {
        names.push(owner.name)?;
    }
    Ok(names)
}

// These, and then the others that rules move, in role order.
fn with_others(alloc: Global, state: &State, these: &[Name]) -> Result<Vec<Name>, NoMemory>
    ensures { IfOk result (λ v. v.items ≡ these.now ++ others these.now state.now) }
{
    let mut names = Vec::from_slice(alloc, these)?;
    for thread in state.threads() {
        if is_active(thread) && !has_name(these, thread.name) {
            names.push(thread.name)?;
        }
    }
    Ok(names)
}

// These, and then of the others those that go on where all owners are at their end.
fn with_candidates(
    alloc: Global,
    walk: &Walk,
    premise: &Premise,
    owners: &[Name],
) -> Result<Vec<Name>, NoMemory>
    ensures { (r : Entered) → IsPremiseOf r premise.now walk.now.entered → IfOk result (λ v. v.items ≡ owners.now ++ filter (is_candidate r walk.now.state) (others owners.now walk.now.state)) }
{
    let Some(before) = walk.before(premise.around) else {
        return Err(NoMemory);
    };
    let fault = walk.fault_aside(premise.around, &premise.closing)?;
    let may_send = is_not_quiet(fault);
    let mut names = Vec::from_slice(alloc, owners)?;
    for thread in walk.state().threads() {
        if comes(walk, premise, before, may_send, owners, thread) {
            names.push(thread.name)?;
        }
    }
    Ok(names)
}

// Rules move the thread, which is no owner, and it goes on where all owners are at their end.
fn comes(
    walk: &Walk,
    premise: &Premise,
    before: &State,
    may_send: bool,
    owners: &[Name],
    thread: &Thread,
) -> bool
    ensures { (r : Entered) → IsPremiseOf r premise.now walk.now.entered → may_send ≡ is_not_quiet (fault_aside r walk.now.state) → IsBefore before.now premise.now walk.now.entered → result ≡ (is_active_in thread.now.mode && not (is_among owners.now thread.now.name) && is_candidate r walk.now.state thread.now.name) }
{
    is_active(thread)
        && !has_name(owners, thread.name)
        && goes_on(walk, premise, before, may_send, thread.name)
}

// The fault is that the member in focus may send.
fn is_not_quiet(fault: Option<SideFault>) -> bool
    ensures { result ≡ is_not_quiet fault }
{
    matches!(fault, Some(SideFault::NotQuiet))
}
