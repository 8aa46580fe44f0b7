//! Runs of gathers, and the members that were taken in each.
ghost use Rattle.std.specs.Prelude.{◌≡◌, [], ◌∷◌, OnOk};
ghost use Rattle.brisk_trace.specs.Standings.{in_first, tail, taking};

use brisk_values::{NoMemory, Pid};
use std::alloc::Global;
use std::marker::Model;

// The members that were taken in a run of a gather.
#[derive(Drop)]
struct Members {
    items: Vec<Pid>,
}

impl Model for Members {
    ghost use Rattle.std.specs.Prelude.{List};
    ghost use Rattle.std.specs.Coded.{coded_list};
    ghost use Rattle.brisk_values.specs.Places.{coded_process};
    ghost use Rattle.brisk_values.specs.declared.value.Pid.{Pid};

    ghost Value = { List Pid };

    ghost coded = { coded_list coded_process };

    ghost view = { λ a. a.items.items };
}

/// The runs of gathers that a process is in, one in another.
#[derive(Drop)]
pub struct Runs {
    alloc: Global,
    // The innermost one is the last.
    items: Vec<Members>,
}

impl Model for Runs {
    ghost use Rattle.std.specs.Prelude.{List, reverse};
    ghost use Rattle.std.specs.Coded.{coded_list};
    ghost use Rattle.brisk_values.specs.Places.{coded_process};
    ghost use Rattle.brisk_values.specs.declared.value.Pid.{Pid};

    ghost Value = { List (List Pid) };

    ghost coded = { coded_list (coded_list coded_process) };

    ghost view = { λ a. reverse a.items.items };
}

impl Runs {
    /// No run.
    pub fn new(alloc: Global) -> Runs
        ensures { result ≡ [] }
    {
        Runs {
            alloc,
            items: Vec::new(alloc),
        }
    }

    /// Begins a run, in which no member is taken yet.
    pub fn open(&mut self) -> Result<(), NoMemory>
        ensures { OnOk result (self.new ≡ [] ∷ self.old) }
    {
        let items = Vec::new(self.alloc);
        self.items.push(Members { items })?;
        Ok(())
    }

    /// Ends the innermost run.
    pub fn close(&mut self)
        ensures { self.new ≡ tail self.old }
    {
        let _ended = self.items.pop();
    }

    /// Whether the member was taken in the innermost run.
    pub fn has_taken(&self, member: &Pid) -> bool
        ensures { result ≡ in_first self.now member.now }
    {
        match self.items.last() {
            None => false,
            Some(taken) => taken.items.contains(member),
        }
    }

    /// Takes the member in the innermost run.
    pub fn take(&mut self, member: &Pid) -> Result<(), NoMemory>
        ensures { OnOk result (self.new ≡ taking member.now self.old) }
    {
        if let Some(mut taken) = self.items.pop() {
            taken.items.push(*member)?;
            self.items.push(taken)?;
        }
        Ok(())
    }
}
