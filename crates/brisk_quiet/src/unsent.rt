//! Code without its sends to a binder.
ghost use Rattle.std.specs.Prelude.{◌≡◌, IfOk};
ghost use Rattle.brisk_syntax.specs.Statements.{statement_of, code_of};
ghost use Rattle.brisk_quiet.specs.Sender.{is_binder as is_binder_of, unsent as unsent_in};
ghost use Rattle.brisk_quiet.specs.Unsent.{is_sent_to as is_sent_in, statement_unsent, unsent_under as unsent_beneath};

use brisk_syntax::{AnyRecv, Block, Loop, Stmt, Turns, Who, copy_expr, copy_exprs, copy_names};
use brisk_values::{Name, NoMemory};
use std::alloc::Global;
use std::rc::Rc;

/// The body without its sends to a binder. A loop or a receive whose own binder has the name is left as it is.
#[cycle(unsent)]
pub(crate) fn unsent(alloc: Global, body: &Block, binder: Name) -> Result<Block, NoMemory>
    ensures { IfOk result (λ b. b ≡ unsent_in binder body.now) }
{
    Ok(Block {
        items: unsent_all(alloc, &body.items, binder)?,
    })
}

#[cycle(unsent)]
fn unsent_all(alloc: Global, statements: &[Stmt], binder: Name) -> Result<Vec<Stmt>, NoMemory>
    ensures { IfOk result (λ r. code_of r.items ≡ unsent_in binder (code_of statements.now)) }
{
    let mut items = Vec::new(alloc);
    for statement in statements {
        if !is_sent_to(statement, binder) {
            items.push(unsent_statement(alloc, statement, binder)?)?;
        }
    }
    Ok(items)
}

// Whether the statement is a send to the binder.
fn is_sent_to(statement: &Stmt, binder: Name) -> bool
    ensures { result ≡ is_sent_in binder (statement_of statement.now) }
{
    match statement {
        Stmt::Send(_, _, partner) => is_binder(partner, binder),
        _ => false,
    }
}

fn is_binder(partner: &Who, binder: Name) -> bool
    ensures { result ≡ is_binder_of binder partner.now }
{
    match partner {
        Who::Name(name) => binder == *name,
        _ => false,
    }
}

// A body in which `inner` is a binder.
#[cycle(unsent)]
fn unsent_under(
    alloc: Global,
    body: &Rc<Block>,
    inner: Name,
    binder: Name,
) -> Result<Rc<Block>, NoMemory>
    ensures { IfOk result (λ b. b.value ≡ unsent_beneath binder inner body.now.value) }
{
    if binder == inner {
        return Ok(body.clone()?);
    }
    Ok(Rc::new(alloc, unsent(alloc, body, binder)?)?)
}

#[cycle(unsent)]
fn unsent_statement(alloc: Global, statement: &Stmt, binder: Name) -> Result<Stmt, NoMemory>
    ensures { IfOk result (λ r. statement_of r ≡ statement_unsent binder (statement_of statement.now)) }
{
    match statement {
        Stmt::Assign(x, e) => Ok(Stmt::Assign(*x, copy_expr(alloc, e)?)),
        Stmt::Send(c, es, u) => Ok(Stmt::Send(*c, copy_exprs(alloc, es)?, *u)),
        Stmt::Recv(c, xs, u) => Ok(Stmt::Recv(*c, copy_names(alloc, xs)?, *u)),
        Stmt::RecvAny(r) => Ok(Stmt::RecvAny(AnyRecv {
            channel: r.channel,
            vars: copy_names(alloc, &r.vars)?,
            binder: r.binder,
            set: r.set,
            body: unsent_under(alloc, &r.body, r.binder, binder)?,
        })),
        Stmt::If(e, a, b) => {
            let e = copy_expr(alloc, e)?;
            let a = Rc::new(alloc, unsent(alloc, a, binder)?)?;
            match b {
                None => Ok(Stmt::If(e, a, None)),
                Some(b) => {
                    let b = Rc::new(alloc, unsent(alloc, b, binder)?)?;
                    Ok(Stmt::If(e, a, Some(b)))
                }
            }
        }
        Stmt::While(e, body) => {
            let e = copy_expr(alloc, e)?;
            Ok(Stmt::While(e, Rc::new(alloc, unsent(alloc, body, binder)?)?))
        }
        Stmt::For(l) => Ok(Stmt::For(Loop {
            binder: l.binder,
            set: l.set,
            turn: l.turn,
            body: unsent_under(alloc, &l.body, l.binder, binder)?,
        })),
        Stmt::Repeat(l) => Ok(Stmt::Repeat(Turns {
            set: l.set,
            turn: l.turn,
            body: Rc::new(alloc, unsent(alloc, &l.body, binder)?)?,
        })),
    }
}
