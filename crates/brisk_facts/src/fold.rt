//! The value of an expression under facts.
ghost use Rattle.std.specs.Prelude.{◌≡◌};
ghost use Rattle.brisk_syntax.specs.Expressions.{expression_of};
ghost use Rattle.brisk_facts.specs.Learning.{folded};

use crate::facts::Facts;
use brisk_syntax::Expr;
use brisk_values::{Name, Value, apply1, apply2, wrap};

impl Facts {
    /// The value of an expression at a role. None where the size of a set stands in it, or a variable of which
    /// no value is known; no part is left out, as in `false && x`.
    pub fn fold(&self, at: Name, expr: &Expr) -> Option<Value>
        ensures { result ≡ folded self.now at (expression_of expr.now) }
    {
        match expr {
            Expr::Num(n) => Some(Value::Int(wrap(i128::from(*n)))),
            Expr::Bool(b) => Some(Value::Bool(*b)),
            Expr::Var(x) => self.get(at, *x),
            Expr::Tag(e, t) => Some(Value::Tag(*e, *t)),
            Expr::Size(_) => None,
            Expr::Paren(e) => self.fold(at, e),
            Expr::Un(op, e) => {
                let a = self.fold(at, e)?;
                Some(apply1(*op, &a))
            }
            Expr::Bin(op, e, f) => {
                let a = self.fold(at, e)?;
                let b = self.fold(at, f)?;
                Some(apply2(*op, &a, &b))
            }
        }
    }
}
