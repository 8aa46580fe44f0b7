//! The number of statements of a program.
ghost use Rattle.std.specs.Prelude.{◌≡◌, ◌-◌, ◌^◌, min};
ghost use Rattle.brisk_syntax.specs.Counts.{program_statements, statements as statements_of, statements_in};
ghost use Rattle.brisk_syntax.specs.Statements.{statement_of};

use crate::program::Program;
use crate::tree::{Block, Stmt};

/// The number of statement nodes, which stays at the greatest `u64` where it would pass it.
pub fn statements(program: &Program) -> u64
    ensures { result ≡ min (program_statements program.now) (2 ^ 64 - 1) }
{
    let mut count = 0u64;
    for role in &program.roles.items {
        count = count.saturating_add(in_block(&role.code));
    }
    count
}

#[cycle(count)]
fn in_block(body: &Block) -> u64
    ensures { result ≡ min (statements_of body.now) (2 ^ 64 - 1) }
{
    let mut count = 0u64;
    for s in &body.items {
        count = count.saturating_add(in_statement(s));
    }
    count
}

#[cycle(count)]
fn in_statement(s: &Stmt) -> u64
    ensures { result ≡ min (statements_in (statement_of s.now)) (2 ^ 64 - 1) }
{
    match s {
        Stmt::Assign(_, _) | Stmt::Send(_, _, _) | Stmt::Recv(_, _, _) => 1,
        Stmt::RecvAny(r) => in_block(&r.body).saturating_add(1),
        Stmt::If(_, a, None) | Stmt::While(_, a) => in_block(a).saturating_add(1),
        Stmt::If(_, a, Some(b)) => in_block(a).saturating_add(1).saturating_add(in_block(b)),
        Stmt::For(l) => in_block(&l.body).saturating_add(1),
        Stmt::Repeat(l) => in_block(&l.body).saturating_add(1),
    }
}
