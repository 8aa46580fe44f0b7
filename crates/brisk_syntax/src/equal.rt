//! Whether two trees are equal.
ghost use Rattle.std.specs.Prelude.{◌≡◌, ◌↔◌, IsTrue};
ghost use Rattle.brisk_syntax.specs.Expressions.{expression_of};
ghost use Rattle.brisk_syntax.specs.Statements.{statement_of, code_of};

use crate::lists::{Exprs, Names};
use crate::segments::Code;
use crate::tree::{Block, Expr, Stmt};
use brisk_values::same_name;

/// Whether two expressions are equal.
pub fn same_expr(a: &Expr, b: &Expr) -> bool
    ensures { IsTrue result ↔ (expression_of a.now ≡ expression_of b.now) }
{
    match (a, b) {
        (Expr::Num(m), Expr::Num(n)) => m == n,
        (Expr::Bool(m), Expr::Bool(n)) => m == n,
        (Expr::Var(m), Expr::Var(n)) => m == n,
        (Expr::Tag(e, t), Expr::Tag(f, u)) => e == f && t == u,
        (Expr::Size(m), Expr::Size(n)) => m == n,
        (Expr::Paren(a), Expr::Paren(b)) => same_expr(a, b),
        (Expr::Un(o, a), Expr::Un(p, b)) => o == p && same_expr(a, b),
        (Expr::Bin(o, a, c), Expr::Bin(p, b, d)) => o == p && same_expr(a, b) && same_expr(c, d),
        _ => false,
    }
}

// Whether two lists of names are equal.
fn same_names(a: &Names, b: &Names) -> bool
    ensures { IsTrue result ↔ (a.now ≡ b.now) }
{
    let xs = a.items.as_slice();
    let ys = b.items.as_slice();
    if xs.len() != ys.len() {
        return false;
    }
    for i in 0..xs.len() {
        if !same_name(&xs[i], &ys[i]) {
            return false;
        }
    }
    true
}

// Whether two lists of expressions are equal.
fn same_exprs(a: &Exprs, b: &Exprs) -> bool
    ensures { IsTrue result ↔ (a.now ≡ b.now) }
{
    let xs = a.items.as_slice();
    let ys = b.items.as_slice();
    if xs.len() != ys.len() {
        return false;
    }
    for i in 0..xs.len() {
        if !same_expr(&xs[i], &ys[i]) {
            return false;
        }
    }
    true
}

/// Whether two codes are equal.
pub fn same_code(a: &Code, b: &Code) -> bool
    ensures { IsTrue result ↔ (a.now ≡ b.now) }
{
    let mut left = a.walk();
    let mut right = b.walk();
    while let Some(s) = left.next() {
        match right.next() {
            None => return false,
            Some(t) => {
                if !same_stmt(s, t) {
                    return false;
                }
            }
        }
    }
    right.next().is_none()
}

#[cycle(same)]
fn same_block(a: &Block, b: &Block) -> bool
    ensures { IsTrue result ↔ (a.now ≡ b.now) }
{
    same_all(a.items.as_slice(), b.items.as_slice())
}

#[cycle(same)]
fn same_all(xs: &[Stmt], ys: &[Stmt]) -> bool
    ensures { IsTrue result ↔ (code_of xs.now ≡ code_of ys.now) }
{
    if xs.len() != ys.len() {
        return false;
    }
    for i in 0..xs.len() {
        if !same_stmt(&xs[i], &ys[i]) {
            return false;
        }
    }
    true
}

#[cycle(same)]
fn same_stmt(s: &Stmt, t: &Stmt) -> bool
    ensures { IsTrue result ↔ (statement_of s.now ≡ statement_of t.now) }
{
    match (s, t) {
        (Stmt::Assign(x, e), Stmt::Assign(y, f)) => x == y && same_expr(e, f),
        (Stmt::Send(c, es, u), Stmt::Send(d, fs, v)) => c == d && same_exprs(es, fs) && u == v,
        (Stmt::Recv(c, xs, u), Stmt::Recv(d, ys, v)) => { c == d && same_names(xs, ys) && u == v }
        (Stmt::RecvAny(p), Stmt::RecvAny(q)) => {
            p.channel == q.channel
                && same_names(&p.vars, &q.vars)
                && p.binder == q.binder
                && p.set == q.set
                && same_block(&p.body, &q.body)
        }
        (Stmt::If(e, a, None), Stmt::If(f, b, None)) => same_expr(e, f) && same_block(a, b),
        (Stmt::If(e, a, Some(c)), Stmt::If(f, b, Some(d))) => {
            same_expr(e, f) && same_block(a, b) && same_block(c, d)
        }
        (Stmt::While(e, a), Stmt::While(f, b)) => same_expr(e, f) && same_block(a, b),
        (Stmt::For(l), Stmt::For(m)) => {
            l.binder == m.binder
                && l.set == m.set
                && l.turn == m.turn
                && same_block(&l.body, &m.body)
        }
        (Stmt::Repeat(l), Stmt::Repeat(m)) => {
            l.set == m.set && l.turn == m.turn && same_block(&l.body, &m.body)
        }
        _ => false,
    }
}
