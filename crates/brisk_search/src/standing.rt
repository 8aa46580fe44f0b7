//! Where threads stand: what the first statement asks for, and who acts for whom.
ghost use Rattle.std.specs.Prelude.{◌≡◌, [], length, is_some, false, option_map, IfOk};
ghost use Rattle.std.specs.Option.{option_copied};
ghost use Rattle.brisk_syntax.specs.Segments.{head_of as first_statement, rest_of};
ghost use Rattle.brisk_syntax.specs.Statements.{statement_of};
ghost use Rattle.brisk_syntax.specs.Typing.{is_among};
ghost use Rattle.brisk_rules.specs.Standing.{has_code, stands_at, thread_of as role_of};
ghost use Rattle.brisk_rules.specs.Heads.{for_of};
ghost use Rattle.brisk_syntax.specs.Syntax.{Code as code, ◌⨾◌};
ghost use Rattle.brisk_state.specs.Symbolic.{is_active as is_active_in};
ghost use Rattle.brisk_search.specs.Advance.{actor as actor_in, threads_at as threads_in};
ghost use Rattle.brisk_search.specs.Views.{asked_in, at_walk, head_in, is_fork, next_in};
ghost use Rattle.brisk_facts.specs.Facts.{is_known};
ghost use Rattle.brisk_facts.specs.Learning.{folded};
ghost use Rattle.brisk_syntax.specs.Expressions.{expression_of};
ghost use Rattle.brisk_values.specs.declared.value.Value.TheVariants.{Bool};

use crate::drive::Comer;
use brisk_basic::active;
use brisk_derivation::{BasicStep, SideFault};
use brisk_loops::Walk;
use brisk_state::{Mode, State, Thread};
use brisk_syntax::{Code, Expr, Stmt, Who, copy_code};
use brisk_values::{Name, NoMemory, Value};
use std::alloc::Global;

/// What the first statement of a thread's code asks for.
#[derive(Clone, Copy)]
pub(crate) enum Head {
    Done,
    Assign,
    /// To whom, and the channel.
    Send(Name, Name),
    /// From whom, and the channel.
    Receive(Name, Name),
    If,
    /// Whether its guard is known to be false.
    While(bool),
    /// Over this set.
    For(Name),
    Repeat,
    /// From any member of a set.
    ReceiveAny,
    /// No thread, but a set, over which there may be a `for` without owners.
    Alone,
}

impl Head {
    /// An `if`.
    pub(crate) fn is_if(&self) -> bool
        ensures { result ≡ is_fork self.now }
    {
        matches!(self, Head::If)
    }
}

/// The thread stands where rules move it.
pub(crate) fn is_active(thread: &Thread) -> bool
    ensures { result ≡ is_active_in thread.now.mode }
{
    !matches!(thread.mode, Mode::Each)
}

/// The thread that a partner is.
fn thread_of(who: &Who) -> Name
    ensures { result ≡ role_of who.now }
{
    match who {
        Who::Name(name) | Who::At(name) => *name,
        Who::Pid(process) => process.role,
    }
}

/// Who acts where this one comes in turn, and what its code asks for first.
pub(crate) fn asks(alloc: Global, walk: &Walk, comer: &Comer) -> Result<(Name, Head), NoMemory>
    ensures { IfOk result (λ a. (a.0, a.1) ≡ asked_in (at_walk walk.now) walk.now.state comer.now) }
{
    match comer {
        Comer::Set(set) => Ok((*set, Head::Alone)),
        Comer::Thread(name) => match actor(alloc, walk, *name)? {
            None => Ok((*name, Head::Done)),
            Some(thread) => Ok((thread, head_of(walk.state(), thread))),
        },
    }
}

// What the thread's code asks for first.
fn head_of(state: &State, name: Name) -> Head
    ensures { result ≡ head_in state.now.facts name (stands_at state.now name) }
{
    match first_of(state, name) {
        None => Head::Done,
        Some(statement) => asked_by(state, name, statement),
    }
}

// The first statement of a thread's code.
fn first_of(state: &State, name: Name) -> Option<&Stmt>
    ensures { option_map statement_of (option_copied result) ≡ first_statement (stands_at state.now name) }
{
    match state.code_of(name) {
        None => None,
        Some(code) => code.first(),
    }
}

// What a statement asks for.
fn asked_by(state: &State, name: Name, statement: &Stmt) -> Head
    ensures { (rest : code) → result ≡ head_in state.now.facts name (statement_of statement.now ⨾ rest) }
{
    match statement {
        Stmt::Assign(_, _) => Head::Assign,
        Stmt::Send(channel, _, who) => Head::Send(thread_of(who), *channel),
        Stmt::Recv(channel, _, who) => Head::Receive(thread_of(who), *channel),
        Stmt::If(_, _, _) => Head::If,
        Stmt::While(guard, _) => Head::While(is_known_false(state, name, guard)),
        Stmt::For(each) => Head::For(each.set),
        Stmt::Repeat(_) => Head::Repeat,
        Stmt::RecvAny(_) => Head::ReceiveAny,
    }
}

// The guard is known to be false.
fn is_known_false(state: &State, name: Name, guard: &Expr) -> bool
    ensures { result ≡ is_known (folded state.now.facts name (expression_of guard.now)) (Bool false) }
{
    matches!(state.facts().fold(name, guard), Some(Value::Bool(false)))
}

/// The code behind the first statement of a thread's code.
pub(crate) fn after_head(alloc: Global, state: &State, name: Name) -> Result<Code, NoMemory>
    ensures { IfOk result (λ c. c ≡ rest_of (stands_at state.now name)) }
{
    match state.code_of(name) {
        None => Code::of(alloc, Vec::new(alloc)),
        Some(code) => {
            let mut rest = copy_code(alloc, code)?;
            if rest.first().is_some() {
                rest.skip();
            }
            Ok(rest)
        }
    }
}

/// The name is one of these.
pub(crate) fn has_name(names: &[Name], name: Name) -> bool
    ensures { result ≡ is_among names.now name }
{
    names.contains(&name)
}

/// The thread has code.
pub(crate) fn has_code(state: &State, name: Name) -> bool
    ensures { result ≡ has_code state.now name }
{
    first_of(state, name).is_some()
}

/// The threads that stand at a `for` over the set.
pub(crate) fn threads_at(alloc: Global, state: &State, set: Name) -> Result<Vec<Name>, NoMemory>
    ensures { IfOk result (λ v. v.items ≡ threads_in state.now set) }
{
    let mut found = Vec::new(alloc);
    for thread in state.threads() {
        if is_active(thread) && is_for(&thread.code, set) {
            found.push(thread.name)?;
        }
    }
    Ok(found)
}

fn is_for(code: &Code, set: Name) -> bool
    ensures { result ≡ is_some (for_of set code.now) }
{
    match code.first() {
        Some(Stmt::For(each)) => each.turn == 0 && set == each.set,
        _ => false,
    }
}

// Who acts in the turn of a thread: the thread, or who acts for the one that it waits for; none, where threads wait for
// each other, or where there is no code.
fn actor(alloc: Global, walk: &Walk, name: Name) -> Result<Option<Name>, NoMemory>
    ensures { IfOk result (λ o. o ≡ actor_in (at_walk walk.now) (length walk.now.state.threads) walk.now.state [] name) }
{
    let mut waiting: Vec<Name> = Vec::new(alloc);
    let mut thread = name;
    let count = walk.state().threads().len();
    for _turn in 0..count {
        match next_to(walk, thread)? {
            Next::Nobody => return Ok(None),
            Next::Itself => return Ok(Some(thread)),
            Next::Sender(sender) => {
                if has_name(&waiting, sender) {
                    return Ok(None);
                }
                waiting.push(thread)?;
                thread = sender;
            }
        }
    }
    Ok(None)
}

// To whom a turn passes.
#[derive(Clone, Copy)]
enum Next {
    /// The thread has no code that rules move.
    Nobody,
    Itself,
    /// It waits for this one, at a receive that can't be taken.
    Sender(Name),
}

fn next_to(walk: &Walk, name: Name) -> Result<Next, NoMemory>
    ensures { IfOk result (λ n. n ≡ next_in (at_walk walk.now) walk.now.state name) }
{
    let _fault: Option<SideFault> = None;
    match active(walk.state(), name) {
        None => Ok(Next::Nobody),
        Some(code) => match code.first() {
            None => Ok(Next::Nobody),
            Some(Stmt::Recv(channel, _, who)) => {
                let from = thread_of(who);
                match walk.refusal(&BasicStep::Take(from, name, *channel))? {
                    None => Ok(Next::Itself),
                    Some(_) => Ok(Next::Sender(from)),
                }
            }
            Some(_) => Ok(Next::Itself),
        },
    }
}
