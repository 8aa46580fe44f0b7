//! What a thread stands at: the code of a thread that rules move, and its first statement as a send or a receive.
ghost use Rattle.std.specs.Prelude.{◌≡◌, option_and_then, option_map, IfSome, IsSome};
ghost use Rattle.std.specs.Option.{option_copied};
ghost use Rattle.brisk_syntax.specs.Expressions.{expression_of};
ghost use Rattle.brisk_syntax.specs.Segments.{head_of, rest_of};
ghost use Rattle.brisk_syntax.specs.Statements.{statement_of};
ghost use Rattle.brisk_syntax.specs.Syntax.{Code as Tree, ◌⨾◌};
ghost use Rattle.brisk_state.specs.Focus.{code_of};
ghost use Rattle.brisk_state.specs.Symbolic.{code_at, stands_for as stands_for_in, thread_named, with_code};
ghost use Rattle.brisk_basic.specs.Steps.{assignment_of, guard_of};
ghost use Rattle.brisk_basic.specs.Basic.{receives as receives_of, sends as sends_of};

use brisk_state::{Mode, State};
use brisk_syntax::{Code, Expr, Exprs, Names, Stmt, Who};
use brisk_values::Name;

/// The code of a thread that rules move, if this is one.
pub fn active(state: &State, name: Name) -> Option<&Code>
    ensures { option_copied result ≡ code_at state.now name }
{
    let Some(thread) = state.thread(name) else {
        return None;
    };
    match thread.mode {
        Mode::One | Mode::At => Some(&thread.code),
        Mode::Each => None,
    }
}

// Whether the thread is the partner that a statement names.
fn stands_for(state: &State, name: Name, partner: &Who) -> bool
    ensures { result ≡ stands_for_in state.now name partner.now }
{
    let Some(thread) = state.thread(name) else {
        return false;
    };
    match (thread.mode, partner) {
        (Mode::One, Who::Name(other)) => thread.name == *other,
        (Mode::At, Who::At(other)) => thread.name == *other,
        _ => false,
    }
}

/// The expressions, where the code is at a send to the thread on the channel.
pub fn sends<'a>(state: &State, to: Name, channel: Name, code: &'a Code) -> Option<&'a Exprs>
    ensures { option_map (λ es. (es.now, rest_of code.now)) result ≡ sends_of state.now to channel code.now }
{
    match code.first() {
        None => None,
        Some(head) => sent(state, to, channel, head),
    }
}

fn sent<'a>(state: &State, to: Name, channel: Name, head: &'a Stmt) -> Option<&'a Exprs>
    ensures { (rest : Tree) → option_map (λ es. (es.now, rest)) result ≡ sends_of state.now to channel (statement_of head.now ⨾ rest) }
{
    match head {
        Stmt::Send(on, exprs, partner) => {
            if channel == *on && stands_for(state, to, partner) {
                Some(exprs)
            } else {
                None
            }
        }
        _ => None,
    }
}

/// The variables, where the code is at a receive from the thread on the channel.
pub fn receives<'a>(state: &State, from: Name, channel: Name, code: &'a Code) -> Option<&'a Names>
    ensures { option_map (λ xs. (xs.now, rest_of code.now)) result ≡ receives_of state.now from channel code.now }
{
    match code.first() {
        None => None,
        Some(head) => received(state, from, channel, head),
    }
}

fn received<'a>(state: &State, from: Name, channel: Name, head: &'a Stmt) -> Option<&'a Names>
    ensures { (rest : Tree) → option_map (λ xs. (xs.now, rest)) result ≡ receives_of state.now from channel (statement_of head.now ⨾ rest) }
{
    match head {
        Stmt::Recv(on, vars, partner) => {
            if channel == *on && stands_for(state, from, partner) {
                Some(vars)
            } else {
                None
            }
        }
        _ => None,
    }
}

/// The variable and the expression, where the code is at an assignment.
pub fn assigns(code: &Code) -> Option<(Name, &Expr)>
    ensures { option_map (λ p. (p.0, expression_of p.1.now)) result ≡ assignment_of (head_of code.now) }
{
    let Some(head) = code.first() else {
        return None;
    };
    match head {
        Stmt::Assign(x, e) => Some((*x, e)),
        _ => None,
    }
}

/// The guard, where the code is at an `if` or a `while`.
pub fn guard(code: &Code) -> Option<&Expr>
    ensures { option_map (λ e. expression_of e.now) result ≡ guard_of (head_of code.now) }
{
    let Some(head) = code.first() else {
        return None;
    };
    match head {
        Stmt::If(e, _, _) | Stmt::While(e, _) => Some(e),
        _ => None,
    }
}

/// Removes the first statement of a thread.
pub fn skip(state: &mut State, name: Name)
    requires { IsSome (option_and_then head_of (code_of (thread_named state.old.threads name))) }
    ensures { IfSome (code_of (thread_named state.old.threads name)) (λ c. state.new ≡ record state.old { threads = with_code name (rest_of c) state.old.threads }) }
{
    if let Some(code) = state.code_mut(name) {
        code.skip();
    }
}

/// The thread stands at this code.
pub fn put_code(state: &mut State, name: Name, code: Code)
    ensures { state.new ≡ record state.old { threads = with_code name code state.old.threads } }
{
    if let Some(old) = state.code_mut(name) {
        *old = code;
    }
}
