//! Senders: for some processes the one from which the next receive takes.
ghost use Rattle.std.specs.Prelude.{◌≡◌, OnOk};
ghost use Rattle.std.specs.FinMap as map;

use brisk_values::{NoMemory, Pid};
use std::alloc::Global;
use std::collections::BTreeMap;
use std::marker::Model;

/// For some processes the sender that the next receive carries.
#[derive(Drop)]
pub(crate) struct Senders {
    next: BTreeMap<Pid, Pid>,
}

impl Model for Senders {
    ghost use Rattle.std.specs.FinMap as map;
    ghost use Rattle.brisk_unfold.specs.Carried.{Carried, coded_carried};

    ghost Value = { Carried };

    ghost coded = { coded_carried };

    ghost view = { λ m. map.from_entries m.next.entries };
}

impl Senders {
    /// No process has one.
    pub(crate) fn new(alloc: Global) -> Senders
        ensures { result ≡ map.empty }
    {
        Senders {
            next: BTreeMap::new(alloc),
        }
    }

    /// The next receive of this process carries this sender.
    pub(crate) fn put(&mut self, process: Pid, sender: Pid) -> Result<(), NoMemory>
        ensures { OnOk result (self.new ≡ map.insert self.old process sender) }
    {
        self.next.insert(process, sender)?;
        Ok(())
    }

    /// Takes the sender of this process, which has none then.
    pub(crate) fn take(&mut self, process: &Pid) -> Option<Pid>
        ensures sender { result ≡ map.get self.old process.now }
        ensures none { self.new ≡ map.remove self.old process.now }
    {
        self.next.remove(process)
    }
}
