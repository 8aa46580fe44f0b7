//! Copies of what a walk derives, and of a program's declarations.
ghost use Rattle.std.specs.Prelude.{◌≡◌, IfOk, map};
ghost use Rattle.brisk_seq.specs.Seen.{item_of};
ghost use Rattle.brisk_syntax.specs.Texts.{text_of};
ghost use Rattle.brisk_rules.specs.Derives.{without_code};

use brisk_seq::{Body, Fill, Pass, Seq, Take};
use brisk_syntax::{Block, Decls, Role, Roles, copy_expr, copy_exprs, copy_names};
use brisk_values::NoMemory;
use std::alloc::Global;
use std::rc::Rc;

/// The roles without their code.
pub(crate) fn declared(alloc: Global, roles: &Roles) -> Result<Roles, NoMemory>
    ensures { IfOk result (λ r. r ≡ map without_code roles.now) }
{
    let mut items = Vec::new(alloc);
    for role in &roles.items {
        items.push(declared_role(alloc, role)?)?;
    }
    Ok(Roles { items })
}

fn declared_role(alloc: Global, role: &Role) -> Result<Role, NoMemory>
    ensures { IfOk result (λ r. text_of r ≡ without_code (text_of role.now)) }
{
    let code = Block {
        items: Vec::new(alloc),
    };
    Ok(Role {
        name: role.name,
        many: role.many,
        nonempty: role.nonempty,
        decls: Decls {
            items: Vec::from_slice(alloc, &role.decls.items)?,
        },
        code: Rc::new(alloc, code)?,
    })
}

/// The same items.
#[cycle(copy)]
pub(crate) fn copy_body(alloc: Global, body: &Body) -> Result<Body, NoMemory>
    ensures { IfOk result (λ b. b ≡ body.now) }
{
    let mut items = Vec::new(alloc);
    for item in &body.items {
        items.push(copy_item(alloc, item)?)?;
    }
    Ok(Body { items })
}

#[cycle(copy)]
fn copy_item(alloc: Global, item: &Seq) -> Result<Seq, NoMemory>
    ensures { IfOk result (λ q. item_of q ≡ item_of item.now) }
{
    Ok(match item {
        Seq::Pass(p) => Seq::Pass(Pass {
            to: p.to,
            vars: copy_names(alloc, &p.vars)?,
            from: p.from,
            exprs: copy_exprs(alloc, &p.exprs)?,
        }),
        Seq::Fill(f) => Seq::Fill(Fill {
            number: f.number,
            from: f.from,
            to: f.to,
            exprs: copy_exprs(alloc, &f.exprs)?,
        }),
        Seq::Take(t) => Seq::Take(Take {
            to: t.to,
            vars: copy_names(alloc, &t.vars)?,
            number: t.number,
            from: t.from,
        }),
        Seq::If(t, e, first, second) => Seq::If(
            *t,
            copy_expr(alloc, e)?,
            copy_body(alloc, first)?,
            copy_body(alloc, second)?,
        ),
        Seq::While(t, e, body) => { Seq::While(*t, copy_expr(alloc, e)?, copy_body(alloc, body)?) }
        Seq::For(s, body) => Seq::For(*s, copy_body(alloc, body)?),
        Seq::ForAny(s, body) => Seq::ForAny(*s, copy_body(alloc, body)?),
        Seq::Pick(s, body) => Seq::Pick(*s, copy_body(alloc, body)?),
        Seq::Repeat(s, body) => Seq::Repeat(*s, copy_body(alloc, body)?),
    })
}
