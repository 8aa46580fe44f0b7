//! How much an instance weighs: the tokens of the text of each process, added up. All counts stay at the greatest `u64`
//! where they would pass it.
ghost use Rattle.std.specs.Prelude.{◌≡◌, ◌*◌, ◌-◌, ◌^◌, min, sum_by};
ghost use Rattle.brisk_syntax.specs.Expressions.{expression_of};
ghost use Rattle.brisk_syntax.specs.Statements.{statement_of};
ghost use Rattle.brisk_syntax.specs.Texts.{text_of};
ghost use Rattle.brisk_syntax.specs.Tokens as spec;
ghost use Rattle.brisk_instance.specs.Begun.{members_of as number_of_members};
ghost use Rattle.brisk_instance.specs.Given.{instance_with};
ghost use Rattle.brisk_syntax.specs.Value.{size_in};

use crate::start::members_of;
use brisk_syntax::{Block, Const, Decl, Decls, Expr, Exprs, Names, Role, Roles, Stmt};
use brisk_values::Sizes;

fn expression_tokens(e: &Expr) -> u64
    ensures { result ≡ min (spec.expression_tokens (expression_of e.now)) (2 ^ 64 - 1) }
{
    match e {
        Expr::Num(_) | Expr::Bool(_) | Expr::Var(_) => 1,
        Expr::Tag(_, _) => 3,
        Expr::Size(_) => 2,
        Expr::Paren(e) => expression_tokens(e).saturating_add(2),
        Expr::Un(_, e) => expression_tokens(e).saturating_add(1),
        Expr::Bin(_, e, f) => expression_tokens(e)
            .saturating_add(1)
            .saturating_add(expression_tokens(f)),
    }
}

// The tokens of names, with the commas between.
#[tactic(auto, using(crate::proofs::Lists::names_tokens_is))]
fn names_tokens(names: &Names) -> u64
    ensures { result ≡ min (spec.name_tokens names.now) (2 ^ 64 - 1) }
{
    (names.items.len() as u64)
        .saturating_mul(2)
        .saturating_sub(1)
}

// The tokens of expressions, with the commas between.
fn expressions_tokens(exprs: &Exprs) -> u64
    ensures { result ≡ min (spec.list_tokens exprs.now) (2 ^ 64 - 1) }
{
    let mut count = (exprs.items.len() as u64).saturating_sub(1);
    for e in &exprs.items {
        count = count.saturating_add(expression_tokens(e));
    }
    count
}

#[cycle(code)]
fn code_tokens(body: &Block) -> u64
    ensures { result ≡ min (spec.code_tokens body.now) (2 ^ 64 - 1) }
{
    let mut count = 0u64;
    for s in &body.items {
        count = count.saturating_add(statement_tokens(s));
    }
    count
}

#[cycle(code)]
fn statement_tokens(s: &Stmt) -> u64
    ensures { result ≡ min (spec.statement_tokens (statement_of s.now)) (2 ^ 64 - 1) }
{
    match s {
        Stmt::Assign(_, e) => expression_tokens(e).saturating_add(3),
        Stmt::Send(_, exprs, _) => expressions_tokens(exprs).saturating_add(7),
        Stmt::Recv(_, vars, _) => names_tokens(vars).saturating_add(7),
        Stmt::RecvAny(receive) => names_tokens(&receive.vars)
            .saturating_add(11)
            .saturating_add(code_tokens(&receive.body)),
        Stmt::If(e, then, None) => expression_tokens(e)
            .saturating_add(3)
            .saturating_add(code_tokens(then)),
        Stmt::If(e, then, Some(otherwise)) => expression_tokens(e)
            .saturating_add(6)
            .saturating_add(code_tokens(then))
            .saturating_add(code_tokens(otherwise)),
        Stmt::While(e, body) => expression_tokens(e)
            .saturating_add(3)
            .saturating_add(code_tokens(body)),
        Stmt::For(each) => code_tokens(&each.body).saturating_add(6),
        Stmt::Repeat(turns) => code_tokens(&turns.body).saturating_add(4),
    }
}

fn decl_tokens(decl: &Decl) -> u64
    ensures { result ≡ spec.decl_tokens decl.now }
{
    match decl {
        Decl::Var(_, _, Const::Num(true, _)) => 8,
        Decl::Var(_, _, Const::Num(false, _)) | Decl::Var(_, _, Const::Bool(_)) => 7,
        Decl::Var(_, _, Const::Tag(_, _)) => 9,
        Decl::Input(_, _) => 5,
    }
}

fn decls_tokens(decls: &Decls) -> u64
    ensures { result ≡ min (sum_by spec.decl_tokens decls.now) (2 ^ 64 - 1) }
{
    let mut count = 0u64;
    for decl in &decls.items {
        count = count.saturating_add(decl_tokens(decl));
    }
    count
}

fn role_tokens(role: &Role) -> u64
    ensures { result ≡ min (spec.role_tokens (text_of role.now)) (2 ^ 64 - 1) }
{
    let heading = if role.many && role.nonempty { 5u64 } else { 4 };
    heading
        .saturating_add(decls_tokens(&role.decls))
        .saturating_add(code_tokens(&role.code))
}

// The tokens of all processes of a role.
#[tactic(auto, using(crate::proofs::Lists::capped_product))]
fn role_weight(role: &Role, sizes: &Sizes) -> u64
    ensures { result ≡ min (number_of_members (size_in sizes.now) (text_of role.now) * spec.role_tokens (text_of role.now)) (2 ^ 64 - 1) }
{
    u64::from(members_of(role, sizes)).saturating_mul(role_tokens(role))
}

/// The weight of the instance with these sizes.
pub fn weight(roles: &Roles, sizes: &Sizes) -> u64
    ensures { result ≡ min (spec.weight roles.now (instance_with sizes.now)) (2 ^ 64 - 1) }
{
    let mut weight = 0u64;
    for role in &roles.items {
        weight = weight.saturating_add(role_weight(role, sizes));
    }
    weight
}
