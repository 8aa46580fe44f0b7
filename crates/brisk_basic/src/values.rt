//! What is known after a rule.
ghost use Rattle.std.specs.Prelude.{◌≡◌, map, IfOk, OnOk};
ghost use Rattle.brisk_facts.specs.Facts.{with_value, with_values, without_facts};
ghost use Rattle.brisk_facts.specs.Learning.{folded};

use brisk_facts::Facts;
use brisk_syntax::{Exprs, Names};
use brisk_values::{Name, NoMemory, Value};

/// The value is known of the variable, or nothing is.
pub fn put_value(
    facts: &mut Facts,
    at: Name,
    variable: Name,
    value: Option<Value>,
) -> Result<(), NoMemory>
    ensures { OnOk result (facts.new ≡ with_value at variable value facts.old) }
{
    match value {
        Some(value) => facts.add(at, variable, value),
        None => {
            facts.kill(at, variable);
            Ok(())
        }
    }
}

/// The facts, where the variables of one thread have the values that expressions have at another.
pub fn passed(
    facts: &Facts,
    to: Name,
    vars: &Names,
    from: Name,
    exprs: &Exprs,
) -> Result<Facts, NoMemory>
    ensures { IfOk result (λ f. f ≡ with_values to vars.now (map (folded facts.now from) exprs.now) facts.now) }
{
    let vars = vars.items.as_slice();
    let exprs = exprs.items.as_slice();
    let mut known = facts.copy()?;
    for i in 0..vars.len().min(exprs.len()) {
        let value = facts.fold(from, &exprs[i]);
        put_value(&mut known, to, vars[i], value)?;
    }
    Ok(known)
}

/// Nothing is known of the variables.
pub fn forget(facts: &mut Facts, at: Name, vars: &Names)
    ensures { facts.new ≡ without_facts at vars.now facts.old }
{
    for variable in &vars.items {
        facts.kill(at, *variable);
    }
}
