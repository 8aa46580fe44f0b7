//! The values of expressions.
ghost use Rattle.std.specs.Prelude.{◌≡◌, map, IfOk};
ghost use Rattle.brisk_values.specs.Places.{value_in};
ghost use Rattle.brisk_syntax.specs.Expressions.{expression_of};
ghost use Rattle.brisk_syntax.specs.Stores.{is_true as is_true_value};
ghost use Rattle.brisk_syntax.specs.Value.{value_of, size_in};

use crate::lists::Exprs;
use crate::tree::Expr;
use brisk_values::{Name, NoMemory, Pid, Sizes, Store, Value, Values, apply1, apply2, wrap};
use std::alloc::Global;

/// The value of an expression, where a variable without an entry is false and a set without a size has none.
pub fn eval(expr: &Expr, process: Pid, store: &Store, sizes: &Sizes) -> Value
    ensures { result ≡ value_of (size_in sizes.now) (value_in store.now process) (expression_of expr.now) }
{
    eval_at(expr, &process, store, sizes)
}

fn eval_at(expr: &Expr, process: &Pid, store: &Store, sizes: &Sizes) -> Value
    ensures { result ≡ value_of (size_in sizes.now) (value_in store.now process.now) (expression_of expr.now) }
{
    match expr {
        Expr::Num(n) => Value::Int(wrap(i128::from(*n))),
        Expr::Bool(b) => Value::Bool(*b),
        Expr::Var(x) => match store.get(*process, *x) {
            Some(v) => v,
            None => Value::Bool(false),
        },
        Expr::Tag(e, t) => Value::Tag(*e, *t),
        Expr::Size(s) => {
            let size = size_of_set(sizes, s);
            Value::Int(wrap(i128::from(size)))
        }
        Expr::Paren(e) => eval_at(e, process, store, sizes),
        Expr::Un(op, e) => {
            let a = eval_at(e, process, store, sizes);
            apply1(*op, &a)
        }
        Expr::Bin(op, e, f) => {
            let a = eval_at(e, process, store, sizes);
            let b = eval_at(f, process, store, sizes);
            apply2(*op, &a, &b)
        }
    }
}

/// The values of several expressions, in order.
pub fn eval_all(
    alloc: Global,
    exprs: &Exprs,
    process: &Pid,
    store: &Store,
    sizes: &Sizes,
) -> Result<Values, NoMemory>
    ensures { IfOk result (λ vs. vs ≡ map (value_of (size_in sizes.now) (value_in store.now process.now)) exprs.now) }
{
    let mut items = Vec::new(alloc);
    for e in &exprs.items {
        items.push(eval_at(e, process, store, sizes))?;
    }
    Ok(Values { items })
}

/// Whether a value is true. A value that is no truth isn't.
pub fn is_true(value: Value) -> bool
    ensures { result ≡ is_true_value value }
{
    match value {
        Value::Bool(truth) => truth,
        _ => false,
    }
}

/// The size of a set, and 0 where it has none.
pub fn size_of_set(sizes: &Sizes, set: &Name) -> u32
    ensures { result ≡ size_in sizes.now set.now }
{
    for (name, size) in &sizes.items {
        if name == set {
            return *size;
        }
    }
    0
}
