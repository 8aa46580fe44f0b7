//! How a rule is left: what its step and the state before it say of its close.
ghost use Rattle.std.specs.Prelude.{◌≡◌, ◌∷◌, [], map, IfErr, IfOk, IfSome, IsSome, List, None as none, Ok as okay};
ghost use Rattle.brisk_derivation.specs.declared.steps.Fact.{Fact};
ghost use Rattle.brisk_derivation.specs.Seen.{step_of};
ghost use Rattle.brisk_seq.specs.Seen.{item_of};
ghost use Rattle.brisk_syntax.specs.Expressions.{expression_of};
ghost use Rattle.brisk_syntax.specs.Segments.{head_of, rest_of};
ghost use Rattle.brisk_syntax.specs.declared.program.Program.{Program};
ghost use Rattle.brisk_loops.specs.CloseSeen.{drops_in, kind_of};
ghost use Rattle.brisk_loops.specs.EnterSeen.{Refuses, TellsWhy};
ghost use Rattle.brisk_loops.specs.LeaveSeen.{Closes, EndsAs, IsClosedBy, StartsLike, closed_state, ends, in_side, item_after, joined_item, joined_state, lost_by, owner_by, state_after};
ghost use Rattle.brisk_rules.specs.Rules.{Entered, Parted, around as around_of, at_rests, close as close_of, enter_branch, enter_for, enter_gather, enter_pick, enter_repeat, enter_while, looks, unfocused};
ghost use Rattle.brisk_rules.specs.Standing.{fault_aside as fault_aside_of};
ghost use Rattle.brisk_loops.specs.Walk.{Premise, entry};
ghost use Rattle.brisk_loops.specs.WalkSeen.{IsEntered, inside_of};

use crate::close::{Loop, Owner, aside, facts_after, kept};
use crate::fault::Refusal;
use crate::heads::{any_at, for_at, fork_at, gather_at, repeat_at, while_at};
use crate::rule::{Rule, Side};
use brisk_basic::{active, put_code};
use brisk_derivation::{SideFault, Step};
use brisk_facts::Facts;
use brisk_rules::Why;
use brisk_seq::{Body, Seq};
use brisk_state::{Mode, State};
use brisk_syntax::{Code, Expr, Names, copy_code, copy_expr};
use brisk_values::{Name, NoMemory};
use std::alloc::Global;

/// A rule with one premise, as its close needs it: its owners, and what it is.
#[derive(Drop)]
pub struct Closing {
    pub owners: Vec<Owner>,
    pub kind: Loop,
}

/// A rule with one premise that closes, with the facts behind it.
#[derive(Drop)]
pub(crate) struct Closed {
    pub(crate) owners: Vec<Owner>,
    pub(crate) kind: Loop,
    pub(crate) facts: Facts,
}

/// What a rule comes to as it is left.
#[derive(Drop)]
pub(crate) enum Ended {
    /// A rule with one premise closes.
    Closes(Closed),
    /// A branch joins its sides: the owner and the guard.
    Joins(Name, Expr),
}

// A rule with one owner, which stands at the code.
fn one_owner(alloc: Global, owner: Name, code: &Code, kind: Loop) -> Result<Closing, NoMemory>
    requires { IsSome (head_of code.now) }
    ensures { IfOk result (λ k. (k.owners.items ≡ record { name = owner; rest = rest_of code.now } ∷ []) × (kind_of k.kind ≡ kind_of kind)) }
{
    let mut rest = copy_code(alloc, code)?;
    rest.skip();
    let owner = Owner { name: owner, rest };
    Ok(Closing {
        owners: vec![in alloc; owner]?,
        kind,
    })
}

// A `while`.
fn closing_while(alloc: Global, before: &State, owner: Name) -> Result<Option<Closing>, NoMemory>
    ensures { (drops : List Fact) (r : Entered) → enter_while before.now owner drops ≡ okay r → IfOk result (λ k. IfSome k (λ k. Closes k r)) }
{
    let Some(code) = active(before, owner) else {
        return Ok(None);
    };
    let Some((guard, _)) = while_at(code) else {
        return Ok(None);
    };
    let copy = copy_expr(alloc, guard)?;
    let closing = one_owner(alloc, owner, code, Loop::While(owner, copy))?;
    Ok(Some(closing))
}

// A `repeat`.
fn closing_repeat(alloc: Global, before: &State, owner: Name) -> Result<Option<Closing>, NoMemory>
    ensures { (drops : List Fact) (r : Entered) → enter_repeat before.now owner drops ≡ okay r → IfOk result (λ k. IfSome k (λ k. Closes k r)) }
{
    let Some(code) = active(before, owner) else {
        return Ok(None);
    };
    let Some(turns) = repeat_at(code) else {
        return Ok(None);
    };
    let closing = one_owner(alloc, owner, code, Loop::Repeat(turns.set))?;
    Ok(Some(closing))
}

// A gather.
fn closing_gather(alloc: Global, before: &State, owner: Name) -> Result<Option<Closing>, NoMemory>
    ensures { (drops : List Fact) (r : Entered) → enter_gather before.now owner drops ≡ okay r → IfOk result (λ k. IfSome k (λ k. Closes k r)) }
{
    let Some(code) = active(before, owner) else {
        return Ok(None);
    };
    let Some(heard) = gather_at(code) else {
        return Ok(None);
    };
    let kind = Loop::Gather(owner, heard.set, heard.channel);
    let closing = one_owner(alloc, owner, code, kind)?;
    Ok(Some(closing))
}

// A pick.
fn closing_pick(alloc: Global, before: &State, owner: Name) -> Result<Option<Closing>, NoMemory>
    ensures { (P : Program) (drops : List Fact) (r : Entered) → enter_pick P before.now owner drops ≡ okay r → IfOk result (λ k. IfSome k (λ k. Closes k r)) }
{
    let Some(code) = active(before, owner) else {
        return Ok(None);
    };
    let Some(heard) = any_at(code) else {
        return Ok(None);
    };
    let closing = one_owner(alloc, owner, code, Loop::Pick(heard.set))?;
    Ok(Some(closing))
}

// A `for`. Its owners stand at loops over the set, since it was entered.
fn closing_for(
    alloc: Global,
    before: &State,
    set: Name,
    owners: &Names,
) -> Result<Option<Closing>, NoMemory>
    ensures { (drops : List Fact) (r : Entered) → enter_for before.now set owners.now drops ≡ okay r → IfOk result (λ k. IfSome k (λ k. Closes k r)) }
{
    let owners = rests(alloc, before, set, &owners.items)?;
    let kind = Loop::For(set);
    Ok(Some(Closing { owners, kind }))
}

// The owners of a `for` over the set, each with the code behind its loop.
fn rests(alloc: Global, before: &State, set: Name, owners: &[Name]) -> Result<Vec<Owner>, NoMemory>
    ensures { IfOk result (λ os. os.items ≡ map (owner_by before.now) owners.now) }
{
    let mut rests = Vec::new(alloc);
    for owner in owners {
        rests.push(rest_behind(alloc, before, set, *owner)?)?;
    }
    Ok(rests)
}

fn rest_behind(alloc: Global, before: &State, set: Name, owner: Name) -> Result<Owner, NoMemory>
    ensures { IfOk result (λ o. o ≡ owner_by before.now owner) }
{
    let Some(code) = active(before, owner) else {
        return Err(NoMemory);
    };
    let Some(_) = for_at(code, set) else {
        return Err(NoMemory);
    };
    let mut rest = copy_code(alloc, code)?;
    rest.skip();
    Ok(Owner { name: owner, rest })
}

/// The rule with one premise that the step entered in the state before; none for another step.
pub(crate) fn closing_of(
    alloc: Global,
    step: &Step,
    before: &State,
) -> Result<Option<Closing>, NoMemory>
    ensures { (P : Program) (r : Entered) → entry P before.now (step_of step.now) ≡ okay (Premise r) → IfOk result (λ k. IfSome k (λ k. Closes k r)) }
{
    match step {
        Step::Basic(_) => Ok(None),
        Step::Branch(_, _, _) => Ok(None),
        Step::While(owner, _, _) => closing_while(alloc, before, *owner),
        Step::For(set, owners, _, _) => closing_for(alloc, before, *set, owners),
        Step::Repeat(owner, _, _) => closing_repeat(alloc, before, *owner),
        Step::Gather(owner, _, _) => closing_gather(alloc, before, *owner),
        Step::Pick(owner, _, _) => closing_pick(alloc, before, *owner),
    }
}

/// The first test of the close that fails, facts aside.
pub(crate) fn fault_aside(
    alloc: Global,
    closing: &Closing,
    before: &State,
    end: &State,
) -> Result<Option<SideFault>, NoMemory>
    ensures { (r : Entered) (drops : List Fact) → StartsLike r drops before.now → Closes closing.now r → IfOk result (λ o. o ≡ fault_aside_of r end.now) }
{
    aside(alloc, &closing.kind, &closing.owners, before, end)
}

/// The facts that the close of the rule asks for and misses.
pub(crate) fn lost(kind: &Loop, rule: &Rule, end: &State) -> Result<Facts, NoMemory>
    ensures { (r : Entered) → StartsLike r (drops_in rule.now.step) rule.now.state → kind_of kind.now ≡ r.kind → IfOk result (λ f. f ≡ lost_by r end.now) }
{
    let mut facts = kept(kind, &rule.state, &rule.step)?;
    facts.drop_common(end.facts());
    Ok(facts)
}

// The rule, where it closes.
fn tested(
    alloc: Global,
    closing: Closing,
    step: &Step,
    before: &State,
    end: &State,
) -> Result<Closed, Refusal>
    ensures ok { (r : Entered) → StartsLike r (drops_in step.now) before.now → Closes closing r → IfOk result (λ d. IsClosedBy r end.now d) }
    ensures cause { (r : Entered) → StartsLike r (drops_in step.now) before.now → Closes closing r → IfErr result (λ f. Refuses (close_of r end.now) f) }
{
    let facts = match facts_after(alloc, &closing.kind, &closing.owners, step, before, end) {
        Ok(facts) => facts,
        Err(why) => return Err(why),
    };
    Ok(Closed {
        owners: closing.owners,
        kind: closing.kind,
        facts,
    })
}

// A rule with one premise, where it closes.
fn ends_loop(alloc: Global, rule: &Rule, end: &State) -> Result<Closed, Refusal>
    ensures ok { (P : Program) (r : Entered) → entry P rule.now.state (step_of rule.now.step) ≡ okay (Premise r) → IfOk result (λ d. IsClosedBy r end.now d) }
    ensures cause { (P : Program) (r : Entered) → entry P rule.now.state (step_of rule.now.step) ≡ okay (Premise r) → IfErr result (λ f. Refuses (close_of r end.now) f) }
{
    let Some(closing) = closing_of(alloc, &rule.step, &rule.state)? else {
        return Err(Refusal::NoMemory);
    };
    tested(alloc, closing, &rule.step, &rule.state, end)
}

// A branch of this owner, where it joins; none in its first side.
fn ends_branch(
    alloc: Global,
    rule: &Rule,
    owner: Name,
    end: &State,
) -> Result<Option<Ended>, Refusal>
    ensures ok { (r : Parted) → enter_branch rule.now.state owner ≡ okay r → IfOk result (λ e. EndsAs (in_side r rule.now.side) rule.now.side end.now e) }
    ensures cause { (r : Parted) → enter_branch rule.now.state owner ≡ okay r → IfErr result (λ f. Refuses (ends (in_side r rule.now.side) end.now) f) }
{
    let Side::Second(first_end, _) = &rule.side else {
        return Ok(None);
    };
    if !first_end.same(end) {
        return Err(Refusal::Because(Why::Side(SideFault::BranchesDiffer)));
    }
    let Some(code) = active(&rule.state, owner) else {
        return Err(Refusal::NoMemory);
    };
    let Some(guard) = fork_at(code) else {
        return Err(Refusal::NoMemory);
    };
    let copy = copy_expr(alloc, guard)?;
    Ok(Some(Ended::Joins(owner, copy)))
}

/// What the rule comes to at the end, or the first of its tests that fails; none for a branch in its first side.
pub(crate) fn ending(alloc: Global, rule: &Rule, end: &State) -> Result<Option<Ended>, Refusal>
    ensures ok { (P : Program) → IsEntered (entry P rule.now.state (step_of rule.now.step)) rule.now.side → IfOk result (λ e. EndsAs (inside_of (entry P rule.now.state (step_of rule.now.step)) rule.now.side rule.now.state) rule.now.side end.now e) }
    ensures cause { (P : Program) → IsEntered (entry P rule.now.state (step_of rule.now.step)) rule.now.side → IfErr result (λ f. Refuses (ends (inside_of (entry P rule.now.state (step_of rule.now.step)) rule.now.side rule.now.state) end.now) f) }
{
    match &rule.step {
        Step::Branch(owner, _, _) => ends_branch(alloc, rule, *owner, end),
        _ => match ends_loop(alloc, rule, end) {
            Ok(closed) => Ok(Some(Ended::Closes(closed))),
            Err(why) => Err(why),
        },
    }
}

/// Why a rule comes to nothing; none where it comes to something.
pub(crate) fn why_not(ended: Result<Option<Ended>, Refusal>) -> Result<Option<Why>, NoMemory>
    ensures done { IfOk ended (λ e. result ≡ okay none) }
    ensures cause { IfErr ended (λ f. TellsWhy f result) }
{
    match ended {
        Ok(ended) => {
            let _ended = ended;
            Ok(None)
        }
        Err(Refusal::Because(why)) => Ok(Some(why)),
        Err(Refusal::NoMemory) => Err(NoMemory),
    }
}

/// The end becomes the state after the rule, whose item this is. Takes no memory.
pub(crate) fn left(alloc: Global, ended: Ended, side: Side, body: Body, end: &mut State) -> Seq
    ensures state { end.new ≡ state_after ended side end.old }
    ensures item { item_of result ≡ item_after ended side body }
{
    match ended {
        Ended::Closes(closed) => close_with(closed, body, end),
        Ended::Joins(owner, guard) => join(alloc, owner, guard, side, body, end),
    }
}

fn close_with(closed: Closed, body: Body, end: &mut State) -> Seq
    ensures state { end.new ≡ closed_state (kind_of closed.kind) closed.owners.items closed.facts end.old }
    ensures item { item_of result ≡ around_of (kind_of closed.kind) body }
{
    let kind = closed.kind;
    put_closed(&kind, closed.owners, closed.facts, end);
    around(kind, body)
}

fn join(alloc: Global, owner: Name, guard: Expr, side: Side, body: Body, end: &mut State) -> Seq
    ensures state { end.new ≡ joined_state side end.old }
    ensures item { item_of result ≡ joined_item owner (expression_of guard) side body }
{
    match side {
        Side::First => {
            let none = Body {
                items: Vec::new(alloc),
            };
            Seq::If(owner, guard, none, body)
        }
        Side::Second(first_end, first_items) => {
            let mut first_end = first_end;
            first_end.facts_mut().keep_common(end.facts());
            *end = first_end;
            Seq::If(owner, guard, first_items, body)
        }
    }
}

// The loop around the items.
fn around(kind: Loop, body: Body) -> Seq
    ensures { item_of result ≡ around_of (kind_of kind) body }
{
    match kind {
        Loop::While(owner, guard) => Seq::While(owner, guard, body),
        Loop::Repeat(set) => Seq::Repeat(set, body),
        Loop::For(set) => Seq::For(set, body),
        Loop::Gather(_, set, _) => Seq::ForAny(set, body),
        Loop::Pick(set) => Seq::Pick(set, body),
    }
}

// The set that was in focus is closed.
fn unfocus(kind: &Loop, state: &mut State)
    ensures { state.new ≡ record state.old { threads = unfocused (looks (kind_of kind.now)) state.old.threads } }
{
    match kind {
        Loop::While(_, _) => {}
        Loop::Repeat(_) => {}
        Loop::For(set) => state.set_mode(*set, Mode::Each),
        Loop::Gather(_, set, _) => state.set_mode(*set, Mode::Each),
        Loop::Pick(set) => state.set_mode(*set, Mode::Each),
    }
}

// The owners stand at their rests.
fn put_rests(owners: Vec<Owner>, state: &mut State)
    ensures { state.new ≡ record state.old { threads = at_rests owners.items state.old.threads } }
{
    for owner in owners {
        put_code(state, owner.name, owner.rest);
    }
}

// The end becomes the state after the close. Takes no memory.
fn put_closed(kind: &Loop, owners: Vec<Owner>, facts: Facts, end: &mut State)
    ensures { end.new ≡ closed_state (kind_of kind.now) owners.items facts end.old }
{
    unfocus(kind, end);
    put_rests(owners, end);
    *end.facts_mut() = facts;
}
