//! A binder replaced by what it stands for.
ghost use Rattle.std.specs.Prelude.{◌≡◌, IfOk};
ghost use Rattle.brisk_syntax.specs.Statements.{statement_of, code_of};
ghost use Rattle.brisk_syntax.specs.Substitution.{who_with, statement_with, code_with};

use crate::copy::{copy_expr, copy_exprs, copy_names};
use crate::tree::{AnyRecv, Block, Loop, Stmt, Turns, Who};
use brisk_values::{Name, NoMemory};
use std::alloc::Global;
use std::rc::Rc;

fn replaced(u: Who, binder: Name, who: Who) -> Who
    ensures { result ≡ who_with binder who u }
{
    match u {
        Who::Name(n) => if binder == n { who } else { u },
        _ => u,
    }
}

/// The body with every `Who::Name(binder)` replaced.
#[cycle(subst)]
pub fn subst(alloc: Global, body: &Block, binder: Name, who: Who) -> Result<Block, NoMemory>
    ensures { IfOk result (λ b. b ≡ code_with binder who body.now) }
{
    Ok(Block {
        items: subst_all(alloc, &body.items, binder, who)?,
    })
}

#[cycle(subst)]
fn subst_all(alloc: Global, ss: &[Stmt], binder: Name, who: Who) -> Result<Vec<Stmt>, NoMemory>
    ensures { IfOk result (λ r. code_of r.items ≡ code_with binder who (code_of ss.now)) }
{
    let mut items = Vec::new(alloc);
    for s in ss {
        items.push(subst_stmt(alloc, s, binder, who)?)?;
    }
    Ok(items)
}

#[cycle(subst)]
fn subst_stmt(alloc: Global, s: &Stmt, binder: Name, who: Who) -> Result<Stmt, NoMemory>
    ensures { IfOk result (λ r. statement_of r ≡ statement_with binder who (statement_of s.now)) }
{
    match s {
        Stmt::Assign(x, e) => Ok(Stmt::Assign(*x, copy_expr(alloc, e)?)),
        Stmt::Send(c, es, u) => Ok(Stmt::Send(
            *c,
            copy_exprs(alloc, es)?,
            replaced(*u, binder, who),
        )),
        Stmt::Recv(c, xs, u) => Ok(Stmt::Recv(
            *c,
            copy_names(alloc, xs)?,
            replaced(*u, binder, who),
        )),
        Stmt::RecvAny(r) => Ok(Stmt::RecvAny(AnyRecv {
            channel: r.channel,
            vars: copy_names(alloc, &r.vars)?,
            binder: r.binder,
            set: r.set,
            body: Rc::new(alloc, subst(alloc, &r.body, binder, who)?)?,
        })),
        Stmt::If(e, a, b) => {
            let e = copy_expr(alloc, e)?;
            let a = Rc::new(alloc, subst(alloc, a, binder, who)?)?;
            match b {
                None => Ok(Stmt::If(e, a, None)),
                Some(b) => {
                    let b = Rc::new(alloc, subst(alloc, b, binder, who)?)?;
                    Ok(Stmt::If(e, a, Some(b)))
                }
            }
        }
        Stmt::While(e, a) => {
            let e = copy_expr(alloc, e)?;
            Ok(Stmt::While(e, Rc::new(alloc, subst(alloc, a, binder, who)?)?))
        }
        Stmt::For(l) => Ok(Stmt::For(Loop {
            binder: l.binder,
            set: l.set,
            turn: l.turn,
            body: Rc::new(alloc, subst(alloc, &l.body, binder, who)?)?,
        })),
        Stmt::Repeat(l) => Ok(Stmt::Repeat(Turns {
            set: l.set,
            turn: l.turn,
            body: Rc::new(alloc, subst(alloc, &l.body, binder, who)?)?,
        })),
    }
}
