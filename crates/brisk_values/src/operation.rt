//! Operators, and what they give.
ghost use Rattle.std.specs.Prelude.{◌≡◌};
ghost use Rattle.brisk_values.specs.Values.{wrapped};
ghost use Rattle.brisk_values.specs.Operations.{applied1, applied2};

use crate::value::{Value, kind_of};

/// An operator of one operand.
#[derive(Clone, Copy, Debug, PartialEq, Eq)]
pub enum Op1 {
    Neg,
    Not,
}

/// An operator of two operands.
#[derive(Clone, Copy, Debug, PartialEq, Eq)]
pub enum Op2 {
    Add,
    Sub,
    Mul,
    Eq,
    Ne,
    Lt,
    Le,
    Gt,
    Ge,
    And,
    Or,
}

/// The number of 64 bits that is congruent modulo 2^64.
pub fn wrap(n: i128) -> i64
    ensures { result ≡ wrapped n }
{
    let low = n.rem_euclid(1 << 64) as u64;
    low.cast_signed()
}

/// What an operator gives. An operand of the wrong kind gives `Bool(false)`.
pub fn apply1(op: Op1, a: &Value) -> Value
    ensures { result ≡ applied1 op a.now }
{
    match (op, a) {
        (Op1::Neg, Value::Int(n)) => Value::Int(wrap(-i128::from(*n))),
        (Op1::Not, Value::Bool(b)) => Value::Bool(!b),
        _ => Value::Bool(false),
    }
}

/// What an operator gives. Arithmetic wraps. An operand of the wrong kind gives `Bool(false)`.
pub fn apply2(op: Op2, a: &Value, b: &Value) -> Value
    ensures { result ≡ applied2 op a.now b.now }
{
    match (op, a, b) {
        (Op2::Add, Value::Int(m), Value::Int(n)) => Value::Int(wrap(
            i128::from(*m) + i128::from(*n),
        )),
        (Op2::Sub, Value::Int(m), Value::Int(n)) => Value::Int(wrap(
            i128::from(*m) - i128::from(*n),
        )),
        (Op2::Mul, Value::Int(m), Value::Int(n)) => Value::Int(wrap(
            i128::from(*m) * i128::from(*n),
        )),
        (Op2::Lt, Value::Int(m), Value::Int(n)) => Value::Bool(m < n),
        (Op2::Le, Value::Int(m), Value::Int(n)) => Value::Bool(m <= n),
        (Op2::Gt, Value::Int(m), Value::Int(n)) => Value::Bool(m > n),
        (Op2::Ge, Value::Int(m), Value::Int(n)) => Value::Bool(m >= n),
        (Op2::And, Value::Bool(p), Value::Bool(q)) => Value::Bool(*p && *q),
        (Op2::Or, Value::Bool(p), Value::Bool(q)) => Value::Bool(*p || *q),
        (Op2::Eq, a, b) => Value::Bool(a == b),
        (Op2::Ne, a, b) => Value::Bool(kind_of(a) == kind_of(b) && a != b),
        _ => Value::Bool(false),
    }
}
