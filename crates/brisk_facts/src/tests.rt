//! Facts added, removed, folded, learnt and compared.
use crate::Facts;
use brisk_syntax::Expr;
use brisk_values::{Name, NoMemory, Op1, Op2, Value};
use std::alloc::Global;
use std::test::Fail;

fn x() -> Expr {
    Expr::Var(Name::of(b"x"))
}

fn y() -> Expr {
    Expr::Var(Name::of(b"y"))
}

fn one(alloc: Global, op: Op1, e: Expr) -> Result<Expr, NoMemory> {
    Ok(Expr::Un(op, Box::new(alloc, e)?))
}

fn two(alloc: Global, e: Expr, op: Op2, f: Expr) -> Result<Expr, NoMemory> {
    let e = Box::new(alloc, e)?;
    Ok(Expr::Bin(op, e, Box::new(alloc, f)?))
}

// The values of `x` and `y` of `H`.
fn known(facts: &Facts) -> (Option<Value>, Option<Value>) {
    (
        facts.get(Name::of(b"H"), Name::of(b"x")),
        facts.get(Name::of(b"H"), Name::of(b"y")),
    )
}

// What is known of `x` and `y` of `H` where nothing was known and the expression has this truth.
fn told(
    alloc: Global,
    expr: &Expr,
    truth: bool,
) -> Result<(Option<Value>, Option<Value>), NoMemory> {
    let mut facts = Facts::new(alloc);
    facts.learn(Name::of(b"H"), expr, truth)?;
    Ok(known(&facts))
}

#[test]
fn a_fact_is_added_replaced_and_removed(rt: HostRuntime) -> Result<(), Fail> {
    let mut facts = Facts::new(rt.alloc());
    facts.add(Name::of(b"H"), Name::of(b"x"), Value::Int(1))?;
    facts.add(Name::of(b"Ws"), Name::of(b"x"), Value::Int(2))?;
    facts.add(Name::of(b"H"), Name::of(b"y"), Value::Int(3))?;
    facts.add(Name::of(b"H"), Name::of(b"x"), Value::Bool(true))?;
    assert_eq!(rt;
        known(&facts),
        (Some(Value::Bool(true)), Some(Value::Int(3)))
    );
    let copy = facts.copy()?;
    facts.kill(Name::of(b"H"), Name::of(b"x"));
    assert_eq!(rt; known(&facts), (None, Some(Value::Int(3))));
    assert_eq!(rt;
        facts.get(Name::of(b"Ws"), Name::of(b"x")),
        Some(Value::Int(2))
    );
    assert_eq!(rt;
        known(&copy),
        (Some(Value::Bool(true)), Some(Value::Int(3)))
    );
    Ok(())
}

#[test]
fn an_expression_folds_where_all_is_known(rt: HostRuntime) -> Result<(), Fail> {
    let alloc = rt.alloc();
    let mut facts = Facts::new(alloc);
    facts.add(Name::of(b"H"), Name::of(b"x"), Value::Int(2))?;
    let negative = one(alloc, Op1::Neg, Expr::Paren(Box::new(alloc, x())?))?;
    let sum = two(alloc, negative, Op2::Add, Expr::Num(7))?;
    assert_eq!(rt; facts.fold(Name::of(b"H"), &sum), Some(Value::Int(5)));
    assert_eq!(rt; facts.fold(Name::of(b"Ws"), &sum), None);
    let short = two(alloc, Expr::Bool(false), Op2::And, y())?;
    assert_eq!(rt; facts.fold(Name::of(b"H"), &short), None);
    let product = two(alloc, Expr::Num(0), Op2::Mul, Expr::Size(Name::of(b"Ws")))?;
    assert_eq!(rt; facts.fold(Name::of(b"H"), &product), None);
    let red = Expr::Tag(Name::of(b"Colour"), Name::of(b"Red"));
    let tag = Value::Tag(Name::of(b"Colour"), Name::of(b"Red"));
    assert_eq!(rt; facts.fold(Name::of(b"H"), &red), Some(tag));
    Ok(())
}

#[test]
fn facts_with_one_value_are_common(rt: HostRuntime) -> Result<(), Fail> {
    let mut facts = Facts::new(rt.alloc());
    facts.add(Name::of(b"H"), Name::of(b"x"), Value::Int(1))?;
    facts.add(Name::of(b"H"), Name::of(b"y"), Value::Int(2))?;
    facts.add(Name::of(b"Ws"), Name::of(b"x"), Value::Int(1))?;
    let mut other = Facts::new(rt.alloc());
    other.add(Name::of(b"H"), Name::of(b"x"), Value::Int(1))?;
    other.add(Name::of(b"H"), Name::of(b"y"), Value::Int(3))?;
    facts.keep_common(&other);
    assert_eq!(rt; known(&facts), (Some(Value::Int(1)), None));
    assert_eq!(rt; facts.get(Name::of(b"Ws"), Name::of(b"x")), None);
    Ok(())
}

#[test]
fn truths_tell_of_their_parts(rt: HostRuntime) -> Result<(), Fail> {
    let alloc = rt.alloc();
    let yes = Some(Value::Bool(true));
    let no = Some(Value::Bool(false));
    let both = two(alloc, x(), Op2::And, one(alloc, Op1::Not, y())?)?;
    assert_eq!(rt; told(alloc, &both, true)?, (yes, no));
    assert_eq!(rt; told(alloc, &both, false)?, (None, None));
    let some = two(alloc, x(), Op2::Or, Expr::Paren(Box::new(alloc, y())?))?;
    assert_eq!(rt; told(alloc, &some, false)?, (no, no));
    assert_eq!(rt; told(alloc, &some, true)?, (None, None));
    Ok(())
}

#[test]
fn equal_sides_tell_of_a_variable(rt: HostRuntime) -> Result<(), Fail> {
    let alloc = rt.alloc();
    let three = Some(Value::Int(3));
    let equal = two(alloc, x(), Op2::Eq, Expr::Num(3))?;
    assert_eq!(rt; told(alloc, &equal, true)?, (three, None));
    assert_eq!(rt; told(alloc, &equal, false)?, (None, None));
    let unequal = two(alloc, Expr::Num(3), Op2::Ne, y())?;
    assert_eq!(rt; told(alloc, &unequal, false)?, (None, three));
    let chain = two(alloc, equal, Op2::And, two(alloc, y(), Op2::Eq, x())?)?;
    assert_eq!(rt; told(alloc, &chain, true)?, (three, three));
    Ok(())
}

#[test]
fn a_learnt_fact_replaces_another(rt: HostRuntime) -> Result<(), Fail> {
    let alloc = rt.alloc();
    let mut facts = Facts::new(alloc);
    facts.add(Name::of(b"H"), Name::of(b"x"), Value::Bool(true))?;
    facts.add(Name::of(b"H"), Name::of(b"y"), Value::Int(1))?;
    facts.learn(Name::of(b"H"), &x(), false)?;
    facts.learn(
        Name::of(b"H"),
        &two(alloc, y(), Op2::Eq, Expr::Num(2))?,
        true,
    )?;
    assert_eq!(rt;
        known(&facts),
        (Some(Value::Bool(false)), Some(Value::Int(2)))
    );
    Ok(())
}
