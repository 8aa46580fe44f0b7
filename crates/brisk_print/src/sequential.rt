//! Sequential programs.
ghost use Rattle.std.specs.Prelude.{◌≡◌, ◌++◌, codes, IfOk, OnOk};
ghost use Rattle.brisk_syntax.specs.Expressions.{expression_of};
ghost use Rattle.brisk_seq.specs.Seen.{item_of, items_of};
ghost use Rattle.brisk_print.specs.Layout as layout;

use crate::expressions::{put_expression, put_expressions, put_names};
use crate::lines::{deeper, put_line};
use crate::pieces::put_all;
use brisk_seq::{Body, Fill, Pass, Seq, SeqProgram, Take};
use brisk_syntax::{Expr, Exprs, Names, Roles};
use brisk_text::{put, put_number};
use brisk_values::{Name, NoMemory};
use std::alloc::Global;

// Roles without their code.
fn put_roles(out: &mut Vec<u8>, roles: &Roles) -> Result<(), NoMemory>
    ensures { OnOk result (out.new.items ≡ out.old.items ++ layout.declared_roles roles.now) }
{
    put_all(out, &roles.items)
}

// The variables of a process.
fn put_variables(out: &mut Vec<u8>, process: &Name, vars: &Names) -> Result<(), NoMemory>
    ensures { OnOk result (out.new.items ≡ out.old.items ++ layout.at process.now (layout.names vars.now)) }
{
    put(out, process.bytes())?;
    put(out, b".(")?;
    put_names(out, vars)?;
    put(out, b")")
}

// The expressions of a process.
fn put_values(out: &mut Vec<u8>, process: &Name, exprs: &Exprs) -> Result<(), NoMemory>
    ensures { OnOk result (out.new.items ≡ out.old.items ++ layout.at process.now (layout.expressions exprs.now)) }
{
    put(out, process.bytes())?;
    put(out, b".(")?;
    put_expressions(out, exprs)?;
    put(out, b")")
}

// The guard of a process.
fn put_guard(out: &mut Vec<u8>, process: &Name, guard: &Expr) -> Result<(), NoMemory>
    ensures { OnOk result (out.new.items ≡ out.old.items ++ layout.at process.now (layout.expression (expression_of guard.now))) }
{
    put(out, process.bytes())?;
    put(out, b".(")?;
    put_expression(out, guard)?;
    put(out, b")")
}

fn put_box(out: &mut Vec<u8>, number: u32, from: &Name, to: &Name) -> Result<(), NoMemory>
    ensures { OnOk result (out.new.items ≡ out.old.items ++ layout.box number from.now to.now) }
{
    put(out, b"box ")?;
    put_number(out, u64::from(number))?;
    put(out, b" (")?;
    put(out, from.bytes())?;
    put(out, b" to ")?;
    put(out, to.bytes())?;
    put(out, b")")
}

// A word, a set and an open bracket.
fn put_loop(out: &mut Vec<u8>, word: &[u8], set: &Name) -> Result<(), NoMemory>
    ensures { OnOk result (out.new.items ≡ out.old.items ++ (word.now ++ set.now ++ codes " {")) }
{
    put(out, word)?;
    put(out, set.bytes())?;
    put(out, b" {")
}

fn put_pass(out: &mut Vec<u8>, pass: &Pass) -> Result<(), NoMemory>
    ensures { OnOk result (out.new.items ≡ out.old.items ++ (layout.at pass.now.to (layout.names pass.now.vars) ++ codes " := " ++ layout.at pass.now.from (layout.expressions pass.now.exprs) ++ codes ";")) }
{
    put_variables(out, &pass.to, &pass.vars)?;
    put(out, b" := ")?;
    put_values(out, &pass.from, &pass.exprs)?;
    put(out, b";")
}

fn put_fill(out: &mut Vec<u8>, fill: &Fill) -> Result<(), NoMemory>
    ensures { OnOk result (out.new.items ≡ out.old.items ++ (layout.box fill.now.number fill.now.from fill.now.to ++ codes " := " ++ layout.at fill.now.from (layout.expressions fill.now.exprs) ++ codes ";")) }
{
    put_box(out, fill.number, &fill.from, &fill.to)?;
    put(out, b" := ")?;
    put_values(out, &fill.from, &fill.exprs)?;
    put(out, b";")
}

fn put_take(out: &mut Vec<u8>, take: &Take) -> Result<(), NoMemory>
    ensures { OnOk result (out.new.items ≡ out.old.items ++ (layout.at take.now.to (layout.names take.now.vars) ++ codes " := " ++ layout.box take.now.number take.now.from take.now.to ++ codes ";")) }
{
    put_variables(out, &take.to, &take.vars)?;
    put(out, b" := ")?;
    put_box(out, take.number, &take.from, &take.to)?;
    put(out, b";")
}

// The first line of an item.
fn put_head(out: &mut Vec<u8>, item: &Seq) -> Result<(), NoMemory>
    ensures { OnOk result (out.new.items ≡ out.old.items ++ layout.item_head (item_of item.now)) }
{
    match item {
        Seq::Pass(pass) => put_pass(out, pass),
        Seq::Fill(fill) => put_fill(out, fill),
        Seq::Take(take) => put_take(out, take),
        Seq::If(process, guard, _, _) => {
            put(out, b"if ")?;
            put_guard(out, process, guard)?;
            put(out, b" {")
        }
        Seq::While(process, guard, _) => {
            put(out, b"while ")?;
            put_guard(out, process, guard)?;
            put(out, b" {")
        }
        Seq::For(set, _) => put_loop(out, b"for ", set),
        Seq::ForAny(set, _) => put_loop(out, b"for any ", set),
        Seq::Pick(set, _) => put_loop(out, b"pick ", set),
        Seq::Repeat(set, _) => put_loop(out, b"repeat ", set),
    }
}

// A body one level deeper, and its closing bracket.
#[cycle(body)]
fn put_inner(
    alloc: Global,
    out: &mut Vec<u8>,
    margin: &[u8],
    body: &Body,
    closing: &[u8],
) -> Result<(), NoMemory>
    ensures { OnOk result (out.new.items ≡ out.old.items ++ (layout.body (layout.deeper margin.now) body.now ++ layout.line margin.now closing.now)) }
{
    let inner = deeper(alloc, margin)?;
    put_items(alloc, out, &inner, &body.items)?;
    put_line(out, margin, closing)
}

// What stands below the first line of an item.
#[cycle(body)]
fn put_below(alloc: Global, out: &mut Vec<u8>, margin: &[u8], item: &Seq) -> Result<(), NoMemory>
    ensures { OnOk result (out.new.items ≡ out.old.items ++ layout.item_below margin.now (item_of item.now)) }
{
    match item {
        Seq::Pass(_) | Seq::Fill(_) | Seq::Take(_) => Ok(()),
        Seq::If(_, _, then, otherwise) => {
            put_inner(alloc, out, margin, then, b"} else {")?;
            put_inner(alloc, out, margin, otherwise, b"}")
        }
        Seq::While(_, _, body)
        | Seq::For(_, body)
        | Seq::ForAny(_, body)
        | Seq::Pick(_, body)
        | Seq::Repeat(_, body) => put_inner(alloc, out, margin, body, b"}"),
    }
}

#[cycle(body)]
fn put_items(alloc: Global, out: &mut Vec<u8>, margin: &[u8], items: &[Seq]) -> Result<(), NoMemory>
    ensures { OnOk result (out.new.items ≡ out.old.items ++ layout.body margin.now (items_of items.now)) }
{
    for item in items {
        put(out, margin)?;
        put_head(out, item)?;
        put(out, b"\n")?;
        put_below(alloc, out, margin, item)?;
    }
    Ok(())
}

/// The layout of the sequential program, which determines it.
pub fn print_seq(alloc: Global, program: &SeqProgram) -> Result<Vec<u8>, NoMemory>
    ensures { IfOk result (λ v. v.items ≡ layout.sequential program.now) }
{
    let mut out = Vec::new(alloc);
    put_all(&mut out, &program.enums.items)?;
    put_roles(&mut out, &program.roles)?;
    put(&mut out, b"begin\n")?;
    put_items(alloc, &mut out, b"  ", &program.body.items)?;
    put(&mut out, b"end\n")?;
    Ok(out)
}
