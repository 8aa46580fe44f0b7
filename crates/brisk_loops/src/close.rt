//! How a rule with one premise is closed: its tests, and the facts behind it.
ghost use Rattle.std.specs.Prelude.{◌≡◌, [], not, false, map, if◌then◌else◌, IfErr, IfOk, None, OnOk};
ghost use Rattle.brisk_derivation.specs.declared.fault.SideFault.TheVariants.{NotRestored};
ghost use Rattle.brisk_state.specs.Same.{same_code as same_tree};
ghost use Rattle.brisk_loops.specs.EnterSeen.{Refuses};
ghost use Rattle.std.specs.List.{list_any};
ghost use Rattle.brisk_values.specs.Names.{same_name};
ghost use Rattle.brisk_facts.specs.Facts.{facts_where};
ghost use Rattle.brisk_state.specs.Symbolic.{pending_where, same_pending};
ghost use Rattle.brisk_loops.specs.CloseSeen.{closing, either_fault, drops_in, has_left, is_looked_at, kind_of};
ghost use Rattle.brisk_rules.specs.Rules.{after_close, close as close_of, first_fault, learnt, unless, gather_tests, last_tests, looks, close_tests, looks_at as looks_at_role, looks_at_key, not_restored as not_restored_in, unfinished as unfinished_in, without_drops};
ghost use Rattle.brisk_rules.specs.Standing.{fault_aside};

use crate::enter::drop_facts;
use crate::fault::Refusal;
use crate::rest::{has_code, same_codes};
use brisk_derivation::{SideFault, Step};
use brisk_facts::Facts;
use brisk_quiet::{Stillness, quiet};
use brisk_rules::Why;
use brisk_state::{State, Thread};
use brisk_syntax::{Code, Expr};
use brisk_values::{Name, NoMemory};
use std::alloc::Global;
use std::marker::Model;

/// What a rule with one premise is, with what its close needs.
#[derive(Drop)]
pub enum Loop {
    /// The owner and the guard.
    While(Name, Expr),
    Repeat(Name),
    For(Name),
    /// The owner, the set and the channel.
    Gather(Name, Name, Name),
    Pick(Name),
}

/// An owner, and the code at which it stands after the rule.
#[derive(Drop)]
pub struct Owner {
    pub name: Name,
    pub rest: Code,
}

impl Model for Owner {
    ghost use Rattle.brisk_rules.specs.Rules.{Owner};
    ghost use Rattle.brisk_loops.specs.WalkStored.{coded_owner};

    ghost Value = { Owner };

    ghost coded = { coded_owner };

    ghost view = { λ o. record { name = o.name; rest = o.rest } };
}

/// Whether the close looks at the role.
pub fn looks_at(kind: &Loop, role: Name) -> bool
    ensures { result ≡ looks_at_role (looks (kind_of kind.now)) role }
{
    match kind {
        Loop::While(_, _) | Loop::Repeat(_) => true,
        Loop::For(set) | Loop::Gather(_, set, _) => *set != role,
        Loop::Pick(set) => *set == role,
    }
}

// The first owner that has code left.
fn unfinished(end: &State, owners: &[Owner]) -> Option<SideFault>
    ensures { result ≡ first_fault (map (unfinished_in end.now) owners.now) }
{
    for owner in owners {
        if is_unfinished(end, owner.name) {
            return Some(SideFault::OwnerUnfinished(owner.name));
        }
    }
    None
}

// Whether the thread has code left.
fn is_unfinished(end: &State, name: Name) -> bool
    ensures { result ≡ has_left end.now name }
{
    match end.thread(name) {
        None => false,
        Some(thread) => has_code(&thread.code),
    }
}

/// Whether one of the owners has the name.
pub fn is_owner(owners: &[Owner], name: Name) -> bool
    ensures { result ≡ list_any (λ o. same_name name o.name) owners.now }
{
    for owner in owners {
        if name == owner.name {
            return true;
        }
    }
    false
}

// The first thread at which the close looks whose code isn't that of before.
fn not_restored(kind: &Loop, owners: &[Owner], before: &State, end: &State) -> Option<SideFault>
    ensures { result ≡ not_restored_in (is_looked_at (kind_of kind.now) owners.now) before.now.threads end.now.threads }
{
    let mut starts = before.threads();
    let mut ends = end.threads();
    while let Some((thread, more)) = starts.split_first() {
        let Some((now, others)) = ends.split_first() else {
            return None;
        };
        if let Some(fault) = changed(kind, owners, thread, now) {
            return Some(fault);
        }
        starts = more;
        ends = others;
    }
    None
}

// A fault where the close looks at the thread, and its code isn't that of before.
fn changed(kind: &Loop, owners: &[Owner], before: &Thread, now: &Thread) -> Option<SideFault>
    ensures { result ≡ (if is_looked_at (kind_of kind.now) owners.now before.now.name then unless (same_tree before.now.code now.now.code) (NotRestored before.now.name) else None) }
{
    if looks_at(kind, before.name) && !is_owner(owners, before.name) {
        if !same_codes(&before.code, &now.code) {
            return Some(SideFault::NotRestored(before.name));
        }
    }
    None
}

// Whether the numbers pend as before, where the close looks.
fn same_mail(kind: &Loop, before: &State, end: &State) -> Result<bool, NoMemory>
    ensures { IfOk result (λ b. b ≡ same_pending (pending_where (looks_at_key (looks (kind_of kind.now))) before.now.pending) (pending_where (looks_at_key (looks (kind_of kind.now))) end.now.pending)) }
{
    match kind {
        Loop::While(_, _) => Ok(before.same_mail(end)),
        Loop::Repeat(_) => Ok(before.same_mail(end)),
        Loop::For(set) | Loop::Gather(_, set, _) => before.same_mail_without(end, *set),
        Loop::Pick(set) => before.same_mail_with(end, *set),
    }
}

/// The facts from before at which the close looks.
pub(crate) fn kept(kind: &Loop, before: &State, step: &Step) -> Result<Facts, NoMemory>
    ensures { IfOk result (λ f. f ≡ facts_where (λ q. looks_at_role (looks (kind_of kind.now)) q.0) (without_drops (drops_in step.now) before.now.facts)) }
{
    let mut facts = before.facts().copy()?;
    drop_facts_of(&mut facts, step);
    keep_looked_at(kind, &mut facts);
    Ok(facts)
}

// Nothing is known of what the step drops.
fn drop_facts_of(facts: &mut Facts, step: &Step)
    ensures { facts.new ≡ without_drops (drops_in step.now) facts.old }
{
    match step {
        Step::Basic(_) => {}
        Step::Branch(_, _, _) => {}
        Step::While(_, drops, _) => drop_facts(facts, drops),
        Step::For(_, _, drops, _) => drop_facts(facts, drops),
        Step::Repeat(_, drops, _) => drop_facts(facts, drops),
        Step::Gather(_, drops, _) => drop_facts(facts, drops),
        Step::Pick(_, drops, _) => drop_facts(facts, drops),
    }
}

// Keeps the facts at which the close looks.
fn keep_looked_at(kind: &Loop, facts: &mut Facts)
    ensures { facts.new ≡ facts_where (λ q. looks_at_role (looks (kind_of kind.now)) q.0) facts.old }
{
    match kind {
        Loop::While(_, _) => {}
        Loop::Repeat(_) => {}
        Loop::For(set) => facts.drop_role(*set),
        Loop::Gather(_, set, _) => facts.drop_role(*set),
        Loop::Pick(set) => facts.keep_role(*set),
    }
}

// The facts of the end at which the close doesn't look.
fn others(alloc: Global, kind: &Loop, end: &State) -> Result<Facts, NoMemory>
    ensures { IfOk result (λ f. f ≡ facts_where (λ q. not (looks_at_role (looks (kind_of kind.now)) q.0)) end.now.facts) }
{
    match kind {
        Loop::While(_, _) => Ok(Facts::new(alloc)),
        Loop::Repeat(_) => Ok(Facts::new(alloc)),
        Loop::For(set) | Loop::Gather(_, set, _) => {
            let mut facts = end.facts().copy()?;
            facts.keep_role(*set);
            Ok(facts)
        }
        Loop::Pick(set) => {
            let mut facts = end.facts().copy()?;
            facts.drop_role(*set);
            Ok(facts)
        }
    }
}

// The first of the last tests that fails.
fn last_fault(alloc: Global, kind: &Loop, end: &State) -> Result<Option<SideFault>, NoMemory>
    ensures { IfOk result (λ f. f ≡ first_fault (last_tests (kind_of kind.now) end.now)) }
{
    match kind {
        Loop::Gather(owner, set, channel) => left_over(alloc, end, *owner, *set, *channel),
        _ => Ok(None),
    }
}

// What the member in focus leaves behind at the close of a gather.
fn left_over(
    alloc: Global,
    end: &State,
    owner: Name,
    set: Name,
    channel: Name,
) -> Result<Option<SideFault>, NoMemory>
    ensures { IfOk result (λ f. f ≡ first_fault (gather_tests owner set channel end.now)) }
{
    if end.count(set, owner, channel) != 0 {
        return Ok(Some(SideFault::MailLeft));
    }
    let Some(code) = end.code_of(set) else {
        return Ok(None);
    };
    match quiet(alloc, code, set, owner, channel, end)? {
        Stillness::Sends => Ok(Some(SideFault::NotQuiet)),
        Stillness::Blocks | Stillness::Ends => Ok(None),
    }
}

// Learns that the guard is false, where there is one.
fn learn(kind: &Loop, facts: &mut Facts) -> Result<(), NoMemory>
    ensures { OnOk result (facts.new ≡ learnt (kind_of kind.now) false facts.old) }
{
    match kind {
        Loop::While(owner, guard) => facts.learn(*owner, guard, false),
        _ => Ok(()),
    }
}

/// The facts after a rule that closes, or the first test of its close that fails.
pub(crate) fn facts_after(
    alloc: Global,
    kind: &Loop,
    owners: &[Owner],
    step: &Step,
    before: &State,
    end: &State,
) -> Result<Facts, Refusal>
    ensures ok { IfOk result (λ f. (first_fault (close_tests (closing (kind_of kind.now) owners.now (drops_in step.now) before.now) end.now) ≡ None) × (f ≡ (after_close (closing (kind_of kind.now) owners.now (drops_in step.now) before.now) end.now).facts)) }
    ensures cause { IfErr result (λ f. Refuses (close_of (closing (kind_of kind.now) owners.now (drops_in step.now) before.now) end.now) f) }
{
    if let Some(fault) = first_open(kind, owners, before, end) {
        return Err(Refusal::Because(Why::Side(fault)));
    }
    if !same_mail(kind, before, end)? {
        return Err(Refusal::Because(Why::Side(SideFault::MailChanged)));
    }
    let kept = kept(kind, before, step)?;
    if !kept.all_in(end.facts()) {
        return Err(Refusal::Because(Why::Side(SideFault::FactLost)));
    }
    if let Some(fault) = last_fault(alloc, kind, end)? {
        return Err(Refusal::Because(Why::Side(fault)));
    }
    let mut facts = others(alloc, kind, end)?;
    facts.add_all(kept)?;
    learn(kind, &mut facts)?;
    Ok(facts)
}

/// The first test of the close that fails, facts aside.
pub(crate) fn aside(
    alloc: Global,
    kind: &Loop,
    owners: &[Owner],
    before: &State,
    end: &State,
) -> Result<Option<SideFault>, NoMemory>
    ensures { IfOk result (λ o. o ≡ fault_aside (closing (kind_of kind.now) owners.now [] before.now) end.now) }
{
    if let Some(fault) = first_open(kind, owners, before, end) {
        return Ok(Some(fault));
    }
    if !same_mail(kind, before, end)? {
        return Ok(Some(SideFault::MailChanged));
    }
    last_fault(alloc, kind, end)
}

// The first owner that has code left, or the first other thread that doesn't stand where it stood.
fn first_open(kind: &Loop, owners: &[Owner], before: &State, end: &State) -> Option<SideFault>
    ensures { result ≡ either_fault (first_fault (map (unfinished_in end.now) owners.now)) (not_restored_in (is_looked_at (kind_of kind.now) owners.now) before.now.threads end.now.threads) }
{
    if let Some(fault) = unfinished(end, owners) {
        return Some(fault);
    }
    not_restored(kind, owners, before, end)
}
