//! How a rule is entered: the start of its premise.
ghost use Rattle.std.specs.Prelude.{◌≡◌, ◌+◌, [], ◌∷◌, ◌++◌, IfOk, IfErr, OnOk};
ghost use Rattle.brisk_syntax.specs.Substitution.{code_with};
ghost use Rattle.brisk_syntax.specs.Typing.{is_among as is_among_names};
ghost use Rattle.brisk_syntax.specs.declared.tree.Who.TheVariants.{At as focus_of};
ghost use Rattle.brisk_syntax.specs.Texts.{text_of};
ghost use Rattle.brisk_derivation.specs.Seen.{step_of};
ghost use Rattle.brisk_derivation.specs.Steps.{no_steps as none};
ghost use Rattle.brisk_state.specs.declared.thread.Mode.TheVariants.{At};
ghost use Rattle.brisk_state.specs.Symbolic.{thread_named, with_code, with_mode};
ghost use Rattle.brisk_rules.specs.Derives.{nested, told_at};
ghost use Rattle.brisk_loops.specs.EnterSeen.{AreBodies, IsBody, Refuses, SideAt, StartsAt, StartsIn, at_codes, focus_fault, is_at, loop_at, refused_at};
ghost use Rattle.brisk_rules.specs.Heads.{from_focus};
ghost use Rattle.brisk_loops.specs.HeadsSeen.{any_seen};
ghost use Rattle.brisk_rules.specs.Rules.{enter_branch, enter_for, enter_gather, enter_pick, enter_repeat, enter_while, is_nonempty, loops_of, mode_of, without_drops};
ghost use Rattle.brisk_loops.specs.Walk.{alone as alone_of, entry};
ghost use Rattle.brisk_loops.specs.WalkSeen.{Fails, inside_of, second_of, told_by, told_first_by};
ghost use Rattle.brisk_syntax.specs.declared.program.Program.{Program};

use crate::fault::{AcceptFault, Refusal};
use crate::heads::{any_at, for_at, fork_at, gather_at, repeat_at, while_at};
use crate::rule::{Rule, Side};
use brisk_basic::{RuleFault, active, decided, put_code};
use brisk_derivation::{Drops, SideFault, Step, Steps};
use brisk_facts::Facts;
use brisk_rules::Why;
use brisk_state::{Mode, State};
use brisk_syntax::{AnyRecv, Block, Code, Names, Program, Stmt, Who, copy_names, subst};
use brisk_values::{Name, NoMemory};
use std::alloc::Global;
use std::rc::Rc;

// So many rules may stand one in another.
const DEEPEST: usize = 256;

/// The start of a rule's premise, or of the first side of a branch, inside so many rules and after so many counted calls.
pub(crate) fn start_of(
    alloc: Global,
    program: &Program,
    state: &State,
    step: &Step,
    deep: usize,
    counted: u64,
) -> Result<State, AcceptFault>
    ensures ok { IfOk result (λ s. StartsIn (nested deep (entry program.now state.now (step_of step.now))) s) }
    ensures cause { IfErr result (λ f. Fails (told_at (counted + 2) (nested deep (entry program.now state.now (step_of step.now)))) f) }
{
    if deep >= DEEPEST {
        return Err(AcceptFault::Bad(counted.saturating_add(2), Why::Side(SideFault::TooDeep)));
    }
    match entered(alloc, program, state, step) {
        Ok(start) => Ok(start),
        Err(why) => Err(refused(counted, why)),
    }
}

/// Why a test fails, told after so many counted calls.
pub(crate) fn refused(counted: u64, why: Refusal) -> AcceptFault
    ensures { result ≡ refused_at counted why }
{
    match why {
        Refusal::Because(why) => AcceptFault::Bad(counted.saturating_add(2), why),
        Refusal::NoMemory => AcceptFault::NoMemory,
    }
}

/// Why a basic rule isn't applied, after so many counted calls.
pub(crate) fn told(counted: u64, why: RuleFault) -> AcceptFault
    ensures { result ≡ told_by counted why }
{
    match why {
        RuleFault::NoMemory => AcceptFault::NoMemory,
        _ => AcceptFault::Bad(counted.saturating_add(2), Why::Rule(why)),
    }
}

/// Why a basic rule isn't applied, after so many counted calls: its own test that fails, or else the one for loose channels.
pub(crate) fn told_first(counted: u64, own: Option<RuleFault>, fault: SideFault) -> AcceptFault
    ensures { result ≡ told_first_by counted own fault }
{
    match own {
        Some(why) => told(counted, why),
        None => AcceptFault::Bad(counted.saturating_add(2), Why::Side(fault)),
    }
}

// The start of what the step enters.
fn entered(alloc: Global, program: &Program, state: &State, step: &Step) -> Result<State, Refusal>
    ensures ok { IfOk result (λ s. StartsIn (entry program.now state.now (step_of step.now)) s) }
    ensures cause { IfErr result (λ f. Refuses (entry program.now state.now (step_of step.now)) f) }
{
    match step {
        Step::Basic(_) => Err(Refusal::Because(Why::Rule(RuleFault::WrongHead))),
        Step::Branch(owner, _, _) => in_side(alloc, state, *owner, true),
        Step::While(owner, drops, _) => in_while(alloc, state, *owner, drops),
        Step::For(set, owners, drops, _) => in_for(alloc, state, *set, owners, drops),
        Step::Repeat(owner, drops, _) => in_repeat(alloc, state, *owner, drops),
        Step::Gather(owner, drops, _) => in_gather(alloc, state, *owner, drops),
        Step::Pick(owner, drops, _) => in_pick(alloc, program, state, *owner, drops),
    }
}

/// The step without its own steps.
pub(crate) fn alone(alloc: Global, step: &Step) -> Result<Step, NoMemory>
    ensures { IfOk result (λ s. step_of s ≡ alone_of (step_of step.now)) }
{
    match step {
        Step::Basic(rule) => Ok(Step::Basic(*rule)),
        Step::Branch(t, _, _) => Ok(Step::Branch(*t, no_steps(alloc), no_steps(alloc))),
        Step::While(t, drops, _) => {
            Ok(Step::While(*t, copy_drops(alloc, drops)?, no_steps(alloc)))
        }
        Step::For(s, owners, drops, _) => Ok(Step::For(
            *s,
            copy_names(alloc, owners)?,
            copy_drops(alloc, drops)?,
            no_steps(alloc),
        )),
        Step::Repeat(t, drops, _) => {
            Ok(Step::Repeat(*t, copy_drops(alloc, drops)?, no_steps(alloc)))
        }
        Step::Gather(t, drops, _) => {
            Ok(Step::Gather(*t, copy_drops(alloc, drops)?, no_steps(alloc)))
        }
        Step::Pick(t, drops, _) => Ok(Step::Pick(*t, copy_drops(alloc, drops)?, no_steps(alloc))),
    }
}

fn no_steps(alloc: Global) -> Steps
    ensures { result ≡ none }
{
    Steps {
        items: Vec::new(alloc),
    }
}

fn copy_drops(alloc: Global, drops: &Drops) -> Result<Drops, NoMemory>
    ensures { IfOk result (λ d. d ≡ drops.now) }
{
    Ok(Drops {
        items: Vec::from_slice(alloc, &drops.items)?,
    })
}

/// Nothing is known of what is dropped.
pub(crate) fn drop_facts(facts: &mut Facts, drops: &Drops)
    ensures { facts.new ≡ without_drops drops.now facts.old }
{
    for fact in &drops.items {
        facts.kill(fact.at, fact.variable);
    }
}

// The code of a body, which it shares.
fn shared(alloc: Global, body: &Rc<Block>) -> Result<Code, NoMemory>
    ensures { IfOk result (λ c. c ≡ body.now.value) }
{
    let mut code = Code::of(alloc, Vec::new(alloc))?;
    code.put_before(body)?;
    Ok(code)
}

// A copy of the state without the facts that are dropped.
fn dropped(state: &State, drops: &Drops) -> Result<State, NoMemory>
    ensures { IfOk result (λ s. s ≡ record state.now { facts = without_drops drops.now state.now.facts }) }
{
    let mut next = state.copy()?;
    drop_facts(next.facts_mut(), drops);
    Ok(next)
}

//// The start of the second side of a branch that stands in its first, and none for another rule.
pub(crate) fn second_start(alloc: Global, rule: &Rule) -> Result<Option<State>, NoMemory>
    ensures { (P : Program) → IfOk result (λ s. s ≡ second_of (inside_of (entry P rule.now.state (step_of rule.now.step)) rule.now.side rule.now.state)) }
{
    match (&rule.step, &rule.side) {
        (Step::Branch(owner, _, _), Side::First) => {
            match in_side(alloc, &rule.state, *owner, false) {
                Ok(second) => Ok(Some(second)),
                Err(Refusal::Because(_)) => Ok(None),
                Err(Refusal::NoMemory) => Err(NoMemory),
            }
        }
        _ => Ok(None),
    }
}

// The start of a side of a branch: of the first, where the guard is true, and of the second, where it is false.
pub(crate) fn in_side(
    alloc: Global,
    state: &State,
    owner: Name,
    truth: bool,
) -> Result<State, Refusal>
    ensures ok { IfOk result (λ s. SideAt truth (enter_branch state.now owner) s) }
    ensures cause { IfErr result (λ f. Refuses (enter_branch state.now owner) f) }
{
    let Some(code) = active(state, owner) else {
        return Err(Refusal::Because(Why::Rule(RuleFault::NoThread)));
    };
    let Some(guard) = fork_at(code) else {
        return Err(Refusal::Because(Why::Rule(RuleFault::WrongHead)));
    };
    let side = decided(alloc, code, truth)?;
    let mut next = state.copy()?;
    next.facts_mut().learn(owner, guard, truth)?;
    put_code(&mut next, owner, side);
    Ok(next)
}

// The start of the premise of a `while`. It costs one copy of the state, which shares the bodies of its codes.
fn in_while(alloc: Global, state: &State, owner: Name, drops: &Drops) -> Result<State, Refusal>
    ensures ok { IfOk result (λ s. StartsAt (enter_while state.now owner drops.now) s) }
    ensures cause { IfErr result (λ f. Refuses (enter_while state.now owner drops.now) f) }
{
    let Some(code) = active(state, owner) else {
        return Err(Refusal::Because(Why::Rule(RuleFault::NoThread)));
    };
    let Some((guard, body)) = while_at(code) else {
        return Err(Refusal::Because(Why::Rule(RuleFault::WrongHead)));
    };
    let code = shared(alloc, body)?;
    let mut next = dropped(state, drops)?;
    next.facts_mut().learn(owner, guard, true)?;
    put_code(&mut next, owner, code);
    Ok(next)
}

// The start of the premise of a `repeat`.
fn in_repeat(alloc: Global, state: &State, owner: Name, drops: &Drops) -> Result<State, Refusal>
    ensures ok { IfOk result (λ s. StartsAt (enter_repeat state.now owner drops.now) s) }
    ensures cause { IfErr result (λ f. Refuses (enter_repeat state.now owner drops.now) f) }
{
    let Some(code) = active(state, owner) else {
        return Err(Refusal::Because(Why::Rule(RuleFault::NoThread)));
    };
    let Some(turns) = repeat_at(code) else {
        return Err(Refusal::Because(Why::Rule(RuleFault::WrongHead)));
    };
    let code = shared(alloc, &turns.body)?;
    let mut next = dropped(state, drops)?;
    put_code(&mut next, owner, code);
    Ok(next)
}

// The start of the premise of a `for`.
fn in_for(
    alloc: Global,
    state: &State,
    set: Name,
    owners: &Names,
    drops: &Drops,
) -> Result<State, Refusal>
    ensures ok { IfOk result (λ s. StartsAt (enter_for state.now set owners.now drops.now) s) }
    ensures cause { IfErr result (λ f. Refuses (enter_for state.now set owners.now drops.now) f) }
{
    if let Some(why) = no_focus(state, set) {
        return Err(Refusal::Because(why));
    }
    let bodies = match bodies(alloc, state, set, &owners.items) {
        Ok(bodies) => bodies,
        Err(why) => return Err(why),
    };
    let mut next = dropped(state, drops)?;
    next.set_mode(set, Mode::At);
    put_bodies(&owners.items, bodies, &mut next);
    Ok(next)
}

// Why no member of the set can be brought into focus.
fn no_focus(state: &State, set: Name) -> Option<Why>
    ensures { result ≡ focus_fault (mode_of (thread_named state.now.threads set)) }
{
    let Some(thread) = state.thread(set) else {
        return Some(Why::Rule(RuleFault::NoThread));
    };
    match thread.mode {
        Mode::One => Some(Why::Rule(RuleFault::NoThread)),
        Mode::At => Some(Why::Side(SideFault::SetIsFocused)),
        Mode::Each => None,
    }
}

// The bodies of the loops over the set at which the owners stand, with the member in focus for the binder.
fn bodies(alloc: Global, state: &State, set: Name, owners: &[Name]) -> Result<Vec<Code>, Refusal>
    ensures ok { IfOk result (λ b. AreBodies (loops_of state.now set [] owners.now) b.items) }
    ensures cause { IfErr result (λ f. Refuses (loops_of state.now set [] owners.now) f) }
{
    let mut bodies = Vec::new(alloc);
    for (place, owner) in owners.iter().enumerate() {
        let body = match body_at(alloc, state, set, *owner) {
            Ok(body) => body,
            Err(why) => return Err(why),
        };
        if is_among(&owners[..place], *owner) {
            return Err(Refusal::Because(Why::Rule(RuleFault::WrongHead)));
        }
        add_code(&mut bodies, body)?;
    }
    Ok(bodies)
}

fn add_code(codes: &mut Vec<Code>, code: Code) -> Result<(), NoMemory>
    ensures { OnOk result (codes.new.items ≡ codes.old.items ++ code ∷ []) }
{
    codes.push(code)?;
    Ok(())
}

// Whether the name is one of these.
fn is_among(names: &[Name], name: Name) -> bool
    ensures { result ≡ is_among_names names.now name }
{
    for other in names {
        if name == *other {
            return true;
        }
    }
    false
}

// The body of the loop over the set at which the owner stands, with the member in focus for the binder.
fn body_at(alloc: Global, state: &State, set: Name, owner: Name) -> Result<Code, Refusal>
    ensures ok { IfOk result (λ b. IsBody (loop_at state.now set owner) b) }
    ensures cause { IfErr result (λ f. Refuses (loop_at state.now set owner) f) }
{
    let Some(code) = active(state, owner) else {
        return Err(Refusal::Because(Why::Rule(RuleFault::NoThread)));
    };
    let Some(each) = for_at(code, set) else {
        return Err(Refusal::Because(Why::Rule(RuleFault::WrongHead)));
    };
    let code = with_focus(alloc, &each.body, each.binder, set)?;
    Ok(code)
}

// The code of a body, in which the binder is the member in focus.
fn with_focus(alloc: Global, body: &Block, binder: Name, set: Name) -> Result<Code, NoMemory>
    ensures { IfOk result (λ c. c ≡ code_with binder (focus_of set) body.now) }
{
    let body = subst(alloc, body, binder, Who::At(set))?;
    Ok(Code::of(alloc, body.items)?)
}

// Each owner stands at its body.
fn put_bodies(owners: &[Name], bodies: Vec<Code>, state: &mut State)
    ensures { state.new ≡ record state.old { threads = at_codes owners.now bodies.items state.old.threads } }
{
    let mut left = owners;
    for body in bodies {
        let Some((owner, more)) = left.split_first() else {
            return;
        };
        put_code(state, *owner, body);
        left = more;
    }
}

// The start of the premise of a gather.
fn in_gather(alloc: Global, state: &State, owner: Name, drops: &Drops) -> Result<State, Refusal>
    ensures ok { IfOk result (λ s. StartsAt (enter_gather state.now owner drops.now) s) }
    ensures cause { IfErr result (λ f. Refuses (enter_gather state.now owner drops.now) f) }
{
    let Some(code) = active(state, owner) else {
        return Err(Refusal::Because(Why::Rule(RuleFault::NoThread)));
    };
    let Some(heard) = gather_at(code) else {
        return Err(Refusal::Because(Why::Rule(RuleFault::WrongHead)));
    };
    if is_focused(state, heard.set) {
        return Err(Refusal::Because(Why::Side(SideFault::SetIsFocused)));
    }
    let next = hearing(alloc, state, owner, heard, drops)?;
    Ok(next)
}

// The start of the premise of a pick.
fn in_pick(
    alloc: Global,
    program: &Program,
    state: &State,
    owner: Name,
    drops: &Drops,
) -> Result<State, Refusal>
    ensures ok { IfOk result (λ s. StartsAt (enter_pick program.now state.now owner drops.now) s) }
    ensures cause { IfErr result (λ f. Refuses (enter_pick program.now state.now owner drops.now) f) }
{
    let Some(code) = active(state, owner) else {
        return Err(Refusal::Because(Why::Rule(RuleFault::NoThread)));
    };
    let Some(heard) = any_at(code) else {
        return Err(Refusal::Because(Why::Rule(RuleFault::WrongHead)));
    };
    if is_focused(state, heard.set) {
        return Err(Refusal::Because(Why::Side(SideFault::SetIsFocused)));
    }
    if !has_member(program, heard.set) {
        return Err(Refusal::Because(Why::Side(SideFault::MayBeEmpty)));
    }
    let next = hearing(alloc, state, owner, heard, drops)?;
    Ok(next)
}

// Whether a thread of this name is a set in focus.
fn is_focused(state: &State, set: Name) -> bool
    ensures { result ≡ is_at (mode_of (thread_named state.now.threads set)) }
{
    match state.thread(set) {
        None => false,
        Some(thread) => thread.mode == Mode::At,
    }
}

// Whether the set is declared `nonempty`.
fn has_member(program: &Program, set: Name) -> bool
    ensures { result ≡ is_nonempty program.now set }
{
    for role in &program.roles.items {
        if set == role.name && role.many && role.nonempty {
            return true;
        }
    }
    false
}

// The state without the facts that are dropped, in which one member of the set is in focus, and the owner stands at one
// receive from it.
fn hearing(
    alloc: Global,
    state: &State,
    owner: Name,
    heard: &AnyRecv,
    drops: &Drops,
) -> Result<State, NoMemory>
    ensures { IfOk result (λ s. s ≡ record { threads = with_code owner (from_focus (any_seen heard.now)) (with_mode heard.now.set At state.now.threads); pending = state.now.pending; facts = without_drops drops.now state.now.facts }) }
{
    let code = one_receive(alloc, heard)?;
    let mut next = dropped(state, drops)?;
    next.set_mode(heard.set, Mode::At);
    put_code(&mut next, owner, code);
    Ok(next)
}

// One receive from the member in focus, and the body, in which the binder is that member.
fn one_receive(alloc: Global, heard: &AnyRecv) -> Result<Code, NoMemory>
    ensures { IfOk result (λ c. c ≡ from_focus (any_seen heard.now)) }
{
    let member = Who::At(heard.set);
    let body = subst(alloc, &heard.body, heard.binder, member)?;
    let receive = Stmt::Recv(heard.channel, copy_names(alloc, &heard.vars)?, member);
    let first = Block {
        items: vec![in alloc; receive]?,
    };
    let mut code = Code::of(alloc, body.items)?;
    code.put_before(&Rc::new(alloc, first)?)?;
    Ok(code)
}
