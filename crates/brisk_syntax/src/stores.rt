//! Values stored at several variables.
ghost use Rattle.std.specs.Prelude.{◌≡◌, OnOk, OnErr, true};
ghost use Rattle.brisk_values.specs.Places.{value_in};
ghost use Rattle.brisk_syntax.specs.Stores.{stored};
ghost use Rattle.brisk_syntax.specs.There.{AreThere};

use crate::lists::Names;
use brisk_values::{NoMemory, Pid, Store, Values};

// Whether each of the variables has a value.
fn are_there(store: &Store, process: &Pid, vars: &Names) -> bool
    ensures { result ≡ true → AreThere store.now process.now vars.now }
{
    let xs = vars.items.as_slice();
    for i in 0..xs.len() {
        if store.get(*process, xs[i]).is_none() {
            return false;
        }
    }
    true
}

// Stores the values, which takes no memory where the variables have values.
fn store_there(
    store: &mut Store,
    process: &Pid,
    vars: &Names,
    values: &Values,
) -> Result<(), NoMemory>
    requires { AreThere store.old process.now vars.now }
    ensures ok { OnOk result (value_in store.new ≡ stored (value_in store.old) process.now vars.now values.now) }
    ensures err { OnErr result (store.new ≡ store.old) }
{
    let xs = vars.items.as_slice();
    let vs = values.items.as_slice();
    for i in 0..xs.len().min(vs.len()) {
        store.set(*process, xs[i], vs[i])?;
    }
    Ok(())
}

// The same on a copy of the store, which takes its place.
fn store_new(
    store: &mut Store,
    process: &Pid,
    vars: &Names,
    values: &Values,
) -> Result<(), NoMemory>
    ensures ok { OnOk result (value_in store.new ≡ stored (value_in store.old) process.now vars.now values.now) }
    ensures err { OnErr result (store.new ≡ store.old) }
{
    let mut next = store.copy()?;
    let xs = vars.items.as_slice();
    let vs = values.items.as_slice();
    for i in 0..xs.len().min(vs.len()) {
        next.set(*process, xs[i], vs[i])?;
    }
    *store = next;
    Ok(())
}

/// Stores the values at these variables of the process, one after another, as far as both lists go. Only where a
/// variable has no value yet is the store copied. Where there is no memory, nothing changes.
pub fn store_all(
    store: &mut Store,
    process: &Pid,
    vars: &Names,
    values: &Values,
) -> Result<(), NoMemory>
    ensures ok { OnOk result (value_in store.new ≡ stored (value_in store.old) process.now vars.now values.now) }
    ensures err { OnErr result (store.new ≡ store.old) }
{
    if are_there(store, process, vars) {
        store_there(store, process, vars, values)
    } else {
        store_new(store, process, vars, values)
    }
}
