//! Numbers of tokens.
ghost use Rattle.std.specs.Prelude.{◌≡◌, ◌+◌, ◌*◌, ◌-◌, ◌<◌, ◌^◌};
ghost use Rattle.brisk_syntax.specs.Expressions.{expression_of};
ghost use Rattle.brisk_syntax.specs.Statements.{code_of, statement_of};
ghost use Rattle.brisk_syntax.specs.Tokens as spec;

use brisk_syntax::{Block, Expr, Exprs, Names, Stmt};

pub fn expression_tokens(e: &Expr) -> u32
    requires { spec.expression_tokens (expression_of e.now) < 2 ^ 32 }
    ensures { result ≡ spec.expression_tokens (expression_of e.now) }
{
    match e {
        Expr::Num(_) | Expr::Bool(_) | Expr::Var(_) => 1,
        Expr::Tag(_, _) => 3,
        Expr::Size(_) => 2,
        Expr::Paren(e) => expression_tokens(e) + 2,
        Expr::Un(_, e) => expression_tokens(e) + 1,
        Expr::Bin(_, e, f) => expression_tokens(e) + 1 + expression_tokens(f),
    }
}

/// The tokens of names, with the commas between.
#[tactic(auto, using(crate::proofs::Lists::names_is))]
pub fn names_tokens(names: &Names) -> u32
    requires { spec.name_tokens names.now + 1 < 2 ^ 32 }
    ensures { result ≡ spec.name_tokens names.now }
{
    (2 * names.items.len() as u32).saturating_sub(1)
}

/// The tokens of expressions, with the commas between.
#[tactic(auto, using(crate::proofs::Lists::spaced_is, crate::proofs::Lists::spaced_room))]
pub fn expressions_tokens(exprs: &Exprs) -> u32
    requires { spec.list_tokens exprs.now + 1 < 2 ^ 32 }
    ensures { result ≡ spec.list_tokens exprs.now }
{
    let mut tokens = 0;
    for e in &exprs.items {
        tokens += expression_tokens(e) + 1;
    }
    tokens.saturating_sub(1)
}

#[cycle(code)]
pub fn code_tokens(body: &Block) -> u32
    requires { spec.code_tokens body.now < 2 ^ 32 }
    ensures { result ≡ spec.code_tokens body.now }
{
    let mut tokens = 0;
    for s in &body.items {
        tokens += statement_tokens(s);
    }
    tokens
}

#[cycle(code)]
fn statement_tokens(s: &Stmt) -> u32
    requires { spec.statement_tokens (statement_of s.now) < 2 ^ 32 }
    ensures { result ≡ spec.statement_tokens (statement_of s.now) }
{
    match s {
        Stmt::Assign(_, e) => expression_tokens(e) + 3,
        Stmt::Send(_, exprs, _) => expressions_tokens(exprs) + 7,
        Stmt::Recv(_, vars, _) => names_tokens(vars) + 7,
        Stmt::RecvAny(receive) => { names_tokens(&receive.vars) + 11 + code_tokens(&receive.body) }
        Stmt::If(e, then, None) => expression_tokens(e) + 3 + code_tokens(then),
        Stmt::If(e, then, Some(otherwise)) => {
            expression_tokens(e) + 6 + code_tokens(then) + code_tokens(otherwise)
        }
        Stmt::While(e, body) => expression_tokens(e) + 3 + code_tokens(body),
        Stmt::For(each) => code_tokens(&each.body) + 6,
        Stmt::Repeat(turns) => code_tokens(&turns.body) + 4,
    }
}
