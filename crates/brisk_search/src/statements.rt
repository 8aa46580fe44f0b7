//! How many statements threads have left.
ghost use Rattle.std.specs.Prelude.{◌≡◌, ◌≤◌, ◌-◌, ◌^◌, min, map, sum_by};
ghost use Rattle.brisk_syntax.specs.Counts.{statements, statements_in};
ghost use Rattle.brisk_syntax.specs.Statements.{statement_of};
ghost use Rattle.brisk_rules.specs.Standing.{stands_at, thread_names};

use brisk_state::State;
use brisk_syntax::{Block, Code, Stmt};

/// The statements in the codes of all threads.
pub(crate) fn statements_left(state: &State) -> u64
    ensures { result ≤ sum_by (λ t. statements (stands_at state.now t)) (thread_names state.now) }
{
    let mut count = 0u64;
    for thread in state.threads() {
        count = count.saturating_add(in_code(&thread.code));
    }
    count
}

// The number stays at the greatest `u64` where it would pass it.
fn in_code(code: &Code) -> u64
    ensures { result ≤ statements code.now }
{
    let mut count = 0u64;
    for place in 0..u64::MAX {
        match code.at(place) {
            None => return count,
            Some(statement) => count = count.saturating_add(in_statement(statement)),
        }
    }
    count
}

#[cycle(count)]
fn in_block(body: &Block) -> u64
    ensures { result ≡ min (statements body.now) (2 ^ 64 - 1) }
{
    let mut count = 0u64;
    for s in &body.items {
        count = count.saturating_add(in_statement(s));
    }
    count
}

#[cycle(count)]
fn in_statement(s: &Stmt) -> u64
    ensures { result ≡ min (statements_in (statement_of s.now)) (2 ^ 64 - 1) }
{
    match s {
        Stmt::Assign(_, _) | Stmt::Send(_, _, _) | Stmt::Recv(_, _, _) => 1,
        Stmt::RecvAny(r) => in_block(&r.body).saturating_add(1),
        Stmt::If(_, a, None) | Stmt::While(_, a) => in_block(a).saturating_add(1),
        Stmt::If(_, a, Some(b)) => in_block(a).saturating_add(1).saturating_add(in_block(b)),
        Stmt::For(l) => in_block(&l.body).saturating_add(1),
        Stmt::Repeat(l) => in_block(&l.body).saturating_add(1),
    }
}
