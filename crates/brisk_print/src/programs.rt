//! Statements, and programs of processes.
ghost use Rattle.std.specs.Prelude.{◌≡◌, ◌++◌, IfOk, OnOk, codes, map};
ghost use Rattle.brisk_syntax.specs.Expressions.{expression_of};
ghost use Rattle.brisk_syntax.specs.Statements.{code_of, statement_of};
ghost use Rattle.brisk_syntax.specs.Texts.{text_of};
ghost use Rattle.brisk_print.specs.Layout as layout;

use crate::declarations::put_role_heading;
use crate::expressions::{put_expression, put_expressions, put_names};
use crate::lines::{deeper, put_line};
use crate::pieces::put_all;
use brisk_syntax::{Block, Expr, Names, Program, Role, Stmt, Who};
use brisk_text::{put, put_number};
use brisk_values::{Name, NoMemory};
use std::alloc::Global;

fn put_partner(out: &mut Vec<u8>, partner: &Who) -> Result<(), NoMemory>
    ensures { OnOk result (out.new.items ≡ out.old.items ++ layout.partner partner.now) }
{
    match partner {
        Who::Name(name) | Who::At(name) => put(out, name.bytes()),
        Who::Pid(process) => {
            put(out, process.role.bytes())?;
            put(out, b"[")?;
            put_number(out, u64::from(process.member))?;
            put(out, b"]")
        }
    }
}

// A word, an expression and an open bracket.
fn put_guarded(out: &mut Vec<u8>, word: &[u8], guard: &Expr) -> Result<(), NoMemory>
    ensures { OnOk result (out.new.items ≡ out.old.items ++ (word.now ++ layout.expression (expression_of guard.now) ++ codes " {")) }
{
    put(out, word)?;
    put_expression(out, guard)?;
    put(out, b" {")
}

// A binder, its set and an open bracket.
fn put_bound(out: &mut Vec<u8>, binder: &Name, set: &Name) -> Result<(), NoMemory>
    ensures { OnOk result (out.new.items ≡ out.old.items ++ (binder.now ++ codes " in " ++ set.now ++ codes " {")) }
{
    put(out, binder.bytes())?;
    put(out, b" in ")?;
    put(out, set.bytes())?;
    put(out, b" {")
}

// The front of a receive, up to its variables.
fn put_received(out: &mut Vec<u8>, channel: &Name, vars: &Names) -> Result<(), NoMemory>
    ensures { OnOk result (out.new.items ≡ out.old.items ++ (codes "recv " ++ channel.now ++ codes "(" ++ layout.names vars.now)) }
{
    put(out, b"recv ")?;
    put(out, channel.bytes())?;
    put(out, b"(")?;
    put_names(out, vars)
}

// The first line of a statement.
fn put_head(out: &mut Vec<u8>, statement: &Stmt) -> Result<(), NoMemory>
    ensures { OnOk result (out.new.items ≡ out.old.items ++ layout.head (statement_of statement.now)) }
{
    match statement {
        Stmt::Assign(variable, value) => {
            put(out, variable.bytes())?;
            put(out, b" := ")?;
            put_expression(out, value)?;
            put(out, b";")
        }
        Stmt::Send(channel, values, partner) => {
            put(out, b"send ")?;
            put(out, channel.bytes())?;
            put(out, b"(")?;
            put_expressions(out, values)?;
            put(out, b") to ")?;
            put_partner(out, partner)?;
            put(out, b";")
        }
        Stmt::Recv(channel, vars, partner) => {
            put_received(out, channel, vars)?;
            put(out, b") from ")?;
            put_partner(out, partner)?;
            put(out, b";")
        }
        Stmt::RecvAny(receive) => {
            put_received(out, &receive.channel, &receive.vars)?;
            put(out, b") from any ")?;
            put_bound(out, &receive.binder, &receive.set)
        }
        Stmt::If(guard, _, _) => put_guarded(out, b"if ", guard),
        Stmt::While(guard, _) => put_guarded(out, b"while ", guard),
        Stmt::For(each) => {
            put(out, b"for ")?;
            put_bound(out, &each.binder, &each.set)
        }
        Stmt::Repeat(turns) => {
            put(out, b"repeat ")?;
            put(out, turns.set.bytes())?;
            put(out, b" {")
        }
    }
}

// A block one level deeper, and its closing bracket.
#[cycle(code)]
fn put_block(
    alloc: Global,
    out: &mut Vec<u8>,
    margin: &[u8],
    block: &Block,
    closing: &[u8],
) -> Result<(), NoMemory>
    ensures { OnOk result (out.new.items ≡ out.old.items ++ (layout.code (layout.deeper margin.now) block.now ++ layout.line margin.now closing.now)) }
{
    let inner = deeper(alloc, margin)?;
    put_statements(alloc, out, &inner, &block.items)?;
    put_line(out, margin, closing)
}

// What stands below the first line of a statement.
#[cycle(code)]
fn put_below(
    alloc: Global,
    out: &mut Vec<u8>,
    margin: &[u8],
    statement: &Stmt,
) -> Result<(), NoMemory>
    ensures { OnOk result (out.new.items ≡ out.old.items ++ layout.below margin.now (statement_of statement.now)) }
{
    match statement {
        Stmt::Assign(_, _) | Stmt::Send(_, _, _) | Stmt::Recv(_, _, _) => Ok(()),
        Stmt::RecvAny(receive) => put_block(alloc, out, margin, &receive.body, b"}"),
        Stmt::If(_, then, None) => put_block(alloc, out, margin, then, b"}"),
        Stmt::If(_, then, Some(otherwise)) => {
            put_block(alloc, out, margin, then, b"} else {")?;
            put_block(alloc, out, margin, otherwise, b"}")
        }
        Stmt::While(_, body) => put_block(alloc, out, margin, body, b"}"),
        Stmt::For(each) => put_block(alloc, out, margin, &each.body, b"}"),
        Stmt::Repeat(turns) => put_block(alloc, out, margin, &turns.body, b"}"),
    }
}

#[cycle(code)]
fn put_statements(
    alloc: Global,
    out: &mut Vec<u8>,
    margin: &[u8],
    statements: &[Stmt],
) -> Result<(), NoMemory>
    ensures { OnOk result (out.new.items ≡ out.old.items ++ layout.code margin.now (code_of statements.now)) }
{
    for statement in statements {
        put(out, margin)?;
        put_head(out, statement)?;
        put(out, b"\n")?;
        put_below(alloc, out, margin, statement)?;
    }
    Ok(())
}

fn put_role(alloc: Global, out: &mut Vec<u8>, role: &Role) -> Result<(), NoMemory>
    ensures { OnOk result (out.new.items ≡ out.old.items ++ layout.role (text_of role.now)) }
{
    put_role_heading(out, role)?;
    put_all(out, &role.decls.items)?;
    put_statements(alloc, out, b"  ", &role.code.items)?;
    put(out, b"}\n")
}

fn put_roles(alloc: Global, out: &mut Vec<u8>, roles: &[Role]) -> Result<(), NoMemory>
    ensures { OnOk result (out.new.items ≡ out.old.items ++ layout.roles (map text_of roles.now)) }
{
    for role in roles {
        put_role(alloc, out, role)?;
    }
    Ok(())
}

/// The first line of the statement, without indentation.
pub fn print_head(alloc: Global, statement: &Stmt) -> Result<Vec<u8>, NoMemory>
    ensures { IfOk result (λ v. v.items ≡ layout.head (statement_of statement.now)) }
{
    let mut out = Vec::new(alloc);
    put_head(&mut out, statement)?;
    Ok(out)
}

/// The layout of the program, which determines it.
pub fn print_program(alloc: Global, program: &Program) -> Result<Vec<u8>, NoMemory>
    ensures { IfOk result (λ v. v.items ≡ layout.program program.now) }
{
    let mut out = Vec::new(alloc);
    put_all(&mut out, &program.enums.items)?;
    put_all(&mut out, &program.channels.items)?;
    put_roles(alloc, &mut out, &program.roles.items)?;
    Ok(out)
}
