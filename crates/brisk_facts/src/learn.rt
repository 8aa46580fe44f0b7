//! What an expression tells whose truth is known.
ghost use Rattle.std.specs.Prelude.{◌≡◌, OnOk, OnErr};
ghost use Rattle.brisk_syntax.specs.Expressions.{expression_of};
ghost use Rattle.brisk_facts.specs.Learning.{folded, learn, learn_equal as equal_sides, variable_in};

use crate::facts::Facts;
use brisk_syntax::Expr;
use brisk_values::{Name, NoMemory, Op1, Op2, Value};

impl Facts {
    /// Adds what it tells that the expression has this truth at a role, in place of what was known. A variable
    /// tells of itself, brackets and `!` are looked through, a true `&&` and a false `||` tell both their sides, the
    /// left one first, and a true `==` or a false `!=` gives the variable on one side the value of the other, the
    /// left variable first. Where there is no memory, nothing changes.
    pub fn learn(&mut self, at: Name, expr: &Expr, truth: bool) -> Result<(), NoMemory>
        ensures ok { OnOk result (self.new ≡ learn at self.old (expression_of expr.now) truth) }
        ensures err { OnErr result (self.new ≡ self.old) }
    {
        let mut learnt = self.copy()?;
        learn_into(&mut learnt, at, expr, truth)?;
        *self = learnt;
        Ok(())
    }
}

fn learn_into(facts: &mut Facts, at: Name, expr: &Expr, truth: bool) -> Result<(), NoMemory>
    ensures { OnOk result (facts.new ≡ learn at facts.old (expression_of expr.now) truth) }
{
    match expr {
        Expr::Var(x) => facts.add(at, *x, Value::Bool(truth)),
        Expr::Paren(e) => learn_into(facts, at, e, truth),
        Expr::Un(Op1::Not, e) => learn_into(facts, at, e, !truth),
        Expr::Bin(op, e, f) => match (op, truth) {
            (Op2::And, true) | (Op2::Or, false) => {
                learn_into(facts, at, e, truth)?;
                learn_into(facts, at, f, truth)
            }
            (Op2::Eq, true) | (Op2::Ne, false) => learn_equal(facts, at, e, f),
            _ => Ok(()),
        },
        _ => Ok(()),
    }
}

// The two sides are equal.
fn learn_equal(facts: &mut Facts, at: Name, left: &Expr, right: &Expr) -> Result<(), NoMemory>
    ensures { OnOk result (facts.new ≡ equal_sides at facts.old (variable_in (expression_of left.now)) (folded facts.old at (expression_of right.now)) (variable_in (expression_of right.now)) (folded facts.old at (expression_of left.now))) }
{
    if let (Some(x), Some(value)) = (variable_of(left), facts.fold(at, right)) {
        return facts.add(at, x, value);
    }
    if let (Some(x), Some(value)) = (variable_of(right), facts.fold(at, left)) {
        return facts.add(at, x, value);
    }
    Ok(())
}

// The variable that the expression is, brackets aside.
fn variable_of(expr: &Expr) -> Option<Name>
    ensures { result ≡ variable_in (expression_of expr.now) }
{
    match expr {
        Expr::Var(x) => Some(*x),
        Expr::Paren(e) => variable_of(e),
        _ => None,
    }
}
