//! Copies, which share their bodies.
ghost use Rattle.std.specs.Prelude.{◌≡◌, IfOk};
ghost use Rattle.brisk_syntax.specs.Expressions.{expression_of};
ghost use Rattle.brisk_syntax.specs.Statements.{statement_of, code_of};

use crate::lists::{Exprs, Names};
use crate::segments::Code;
use crate::tree::{AnyRecv, Block, Expr, Loop, Stmt, Turns};
use brisk_values::NoMemory;
use std::alloc::Global;

/// The same expression.
pub fn copy_expr(alloc: Global, e: &Expr) -> Result<Expr, NoMemory>
    ensures { IfOk result (λ r. expression_of r ≡ expression_of e.now) }
{
    match e {
        Expr::Num(n) => Ok(Expr::Num(*n)),
        Expr::Bool(b) => Ok(Expr::Bool(*b)),
        Expr::Var(x) => Ok(Expr::Var(*x)),
        Expr::Tag(e, t) => Ok(Expr::Tag(*e, *t)),
        Expr::Size(s) => Ok(Expr::Size(*s)),
        Expr::Paren(a) => {
            let a = copy_expr(alloc, a)?;
            Ok(Expr::Paren(Box::new(alloc, a)?))
        }
        Expr::Un(op, a) => {
            let a = copy_expr(alloc, a)?;
            Ok(Expr::Un(*op, Box::new(alloc, a)?))
        }
        Expr::Bin(op, a, b) => {
            let a = copy_expr(alloc, a)?;
            let b = copy_expr(alloc, b)?;
            let a = Box::new(alloc, a)?;
            Ok(Expr::Bin(*op, a, Box::new(alloc, b)?))
        }
    }
}

/// The same expressions.
pub fn copy_exprs(alloc: Global, es: &Exprs) -> Result<Exprs, NoMemory>
    ensures { IfOk result (λ r. r ≡ es.now) }
{
    let mut items = Vec::new(alloc);
    for e in &es.items {
        items.push(copy_expr(alloc, e)?)?;
    }
    Ok(Exprs { items })
}

/// The same names.
pub fn copy_names(alloc: Global, xs: &Names) -> Result<Names, NoMemory>
    ensures { IfOk result (λ r. r ≡ xs.now) }
{
    Ok(Names {
        items: Vec::from_slice(alloc, &xs.items)?,
    })
}

// The same statement, which shares its bodies.
fn copy_stmt(alloc: Global, s: &Stmt) -> Result<Stmt, NoMemory>
    ensures { IfOk result (λ r. statement_of r ≡ statement_of s.now) }
{
    match s {
        Stmt::Assign(x, e) => Ok(Stmt::Assign(*x, copy_expr(alloc, e)?)),
        Stmt::Send(c, es, u) => Ok(Stmt::Send(*c, copy_exprs(alloc, es)?, *u)),
        Stmt::Recv(c, xs, u) => Ok(Stmt::Recv(*c, copy_names(alloc, xs)?, *u)),
        Stmt::RecvAny(r) => Ok(Stmt::RecvAny(AnyRecv {
            channel: r.channel,
            vars: copy_names(alloc, &r.vars)?,
            binder: r.binder,
            set: r.set,
            body: r.body.clone()?,
        })),
        Stmt::If(e, a, b) => {
            let e = copy_expr(alloc, e)?;
            let a = a.clone()?;
            match b {
                None => Ok(Stmt::If(e, a, None)),
                Some(b) => Ok(Stmt::If(e, a, Some(b.clone()?))),
            }
        }
        Stmt::While(e, a) => Ok(Stmt::While(copy_expr(alloc, e)?, a.clone()?)),
        Stmt::For(l) => Ok(Stmt::For(Loop {
            binder: l.binder,
            set: l.set,
            turn: l.turn,
            body: l.body.clone()?,
        })),
        Stmt::Repeat(l) => Ok(Stmt::Repeat(Turns {
            set: l.set,
            turn: l.turn,
            body: l.body.clone()?,
        })),
    }
}

fn copy_all(alloc: Global, ss: &[Stmt]) -> Result<Vec<Stmt>, NoMemory>
    ensures { IfOk result (λ r. code_of r.items ≡ code_of ss.now) }
{
    let mut items = Vec::new(alloc);
    for s in ss {
        items.push(copy_stmt(alloc, s)?)?;
    }
    Ok(items)
}

/// The code with the body's statements.
pub fn code_from(alloc: Global, body: &Block) -> Result<Code, NoMemory>
    ensures { IfOk result (λ c. c ≡ body.now) }
{
    Code::of(alloc, copy_all(alloc, &body.items)?)
}

/// The code with the same statements, which shares its bodies.
pub fn copy_code(alloc: Global, code: &Code) -> Result<Code, NoMemory>
    ensures { IfOk result (λ c. c ≡ code.now) }
{
    code.copy(alloc)
}
