//! Expressions and lists of places.
ghost use Rattle.std.specs.Prelude.{◌≡◌, ◌++◌, OnOk};
ghost use Rattle.brisk_syntax.specs.Expressions.{expression_of};
ghost use Rattle.brisk_print.specs.Layout as layout;

use crate::pieces::{Piece, put_with_commas};
use brisk_syntax::{Expr, Exprs, Names};
use brisk_text::{put, put_number, put_tag, put_truth};
use brisk_values::{NoMemory, Op1, Op2};

impl Piece for Expr {
    ghost use Rattle.brisk_syntax.specs.Expressions.{expression_of};
    ghost use Rattle.brisk_print.specs.Layout.{expression};

    ghost text = { λ e. expression (expression_of e) };

    fn write(&self, out: &mut Vec<u8>) -> Result<(), NoMemory> {
        put_expression(out, self)
    }
}

fn operator1(op: Op1) -> &'static [u8]
    ensures { result.now ≡ layout.operator1 op }
{
    match op {
        Op1::Neg => b"-",
        Op1::Not => b"!",
    }
}

fn operator2(op: Op2) -> &'static [u8]
    ensures { result.now ≡ layout.operator2 op }
{
    match op {
        Op2::Add => b" + ",
        Op2::Sub => b" - ",
        Op2::Mul => b" * ",
        Op2::Eq => b" == ",
        Op2::Ne => b" != ",
        Op2::Lt => b" < ",
        Op2::Le => b" <= ",
        Op2::Gt => b" > ",
        Op2::Ge => b" >= ",
        Op2::And => b" && ",
        Op2::Or => b" || ",
    }
}

pub fn put_expression(out: &mut Vec<u8>, e: &Expr) -> Result<(), NoMemory>
    ensures { OnOk result (out.new.items ≡ out.old.items ++ layout.expression (expression_of e.now)) }
{
    match e {
        Expr::Num(n) => put_number(out, *n),
        Expr::Bool(b) => put_truth(out, *b),
        Expr::Var(x) => put(out, x.bytes()),
        Expr::Tag(enumeration, tag) => put_tag(out, enumeration, tag),
        Expr::Size(set) => {
            put(out, b"#")?;
            put(out, set.bytes())
        }
        Expr::Paren(e) => {
            put(out, b"(")?;
            put_expression(out, e)?;
            put(out, b")")
        }
        Expr::Un(op, e) => {
            put(out, operator1(*op))?;
            put_expression(out, e)
        }
        Expr::Bin(op, e, f) => {
            put_expression(out, e)?;
            put(out, operator2(*op))?;
            put_expression(out, f)
        }
    }
}

pub fn put_expressions(out: &mut Vec<u8>, exprs: &Exprs) -> Result<(), NoMemory>
    ensures { OnOk result (out.new.items ≡ out.old.items ++ layout.expressions exprs.now) }
{
    put_with_commas(out, &exprs.items)
}

pub fn put_names(out: &mut Vec<u8>, names: &Names) -> Result<(), NoMemory>
    ensures { OnOk result (out.new.items ≡ out.old.items ++ layout.names names.now) }
{
    put_with_commas(out, &names.items)
}
