//! Stores: the value of each variable of each process.
ghost use Rattle.std.specs.Prelude.{◌≡◌, IfOk, OnOk, OnErr, IsOk, IsSome};
ghost use Rattle.std.specs.FinMap as map;

use crate::memory::NoMemory;
use crate::name::Name;
use crate::value::{Pid, Value};
use std::alloc::Global;
use std::collections::BTreeMap;
use std::marker::Model;

/// A finite map from a process and a variable to a value.
#[derive(Drop)]
pub struct Store {
    entries: BTreeMap<(Pid, Name), Value>,
}

impl Model for Store {
    ghost use Rattle.std.specs.FinMap as map;
    ghost use Rattle.brisk_values.specs.Places.{place_cmp, coded_place, coded_value};
    ghost use Rattle.brisk_values.specs.declared.value.Value.{Value as Val};

    ghost Value = { map.FinMap place_cmp Val };

    ghost coded = { map.code coded_place coded_value };

    ghost view = { λ s. map.from_entries s.entries.entries };
}

impl Store {
    /// The empty store.
    pub fn new(alloc: Global) -> Store
        ensures { result ≡ map.empty }
    {
        Store {
            entries: BTreeMap::new(alloc),
        }
    }

    /// The value of a variable of a process.
    pub fn get(&self, process: Pid, variable: Name) -> Option<Value>
        ensures { result ≡ map.get self.now (process, variable) }
    {
        self.entries.get(&(process, variable)).copied()
    }

    /// Stores the value. Takes no memory where the variable has a value already.
    pub fn set(&mut self, process: Pid, variable: Name, value: Value) -> Result<(), NoMemory>
        ensures ok { OnOk result (self.new ≡ map.insert self.old (process, variable) value) }
        ensures err { OnErr result (self.new ≡ self.old) }
        ensures there { IsSome (map.get self.old (process, variable)) → IsOk result }
    {
        self.entries.insert((process, variable), value)?;
        Ok(())
    }

    /// The same store.
    pub fn copy(&self) -> Result<Store, NoMemory>
        ensures { IfOk result (λ s. s ≡ self.now) }
    {
        Ok(Store {
            entries: self.entries.clone()?,
        })
    }
}

#[cfg(test)]
mod tests {
    use super::*;
    use std::test::Fail;

    fn process() -> Pid {
        Pid {
            role: Name::of(b"Ws"),
            member: 3,
        }
    }

    fn variable() -> Name {
        Name::of(b"x")
    }

    #[test]
    fn a_copy_keeps_its_values(rt: HostRuntime) -> Result<(), Fail> {
        let mut store = Store::new(rt.alloc());
        store.set(process(), variable(), Value::Int(7))?;
        let copy = store.copy()?;
        store.set(process(), variable(), Value::Bool(true))?;
        assert_eq!(rt; copy.get(process(), variable()), Some(Value::Int(7)));
        assert_eq!(rt; store.get(process(), variable()), Some(Value::Bool(true)));
        assert_eq!(rt; copy.get(process(), process().role), None);
        Ok(())
    }
}
