//! A watch over the processes of a run: how each stands to the gathers of its code.
ghost use Rattle.std.specs.Prelude.{◌≡◌, OnOk, IsSome};
ghost use Rattle.brisk_values.specs.Functions.{changed};
ghost use Rattle.brisk_values.specs.Names.{same_process};
ghost use Rattle.brisk_syntax.specs.Statements.{statement_of};
ghost use Rattle.brisk_syntax.specs.Syntax.{Code as Tree, ◌⨾◌};
ghost use Rattle.brisk_syntax.specs.Value.{size_in};
ghost use Rattle.brisk_async.specs.Machine.{step};
ghost use Rattle.brisk_async.specs.States.{state_of};
ghost use Rattle.brisk_trace.specs.Standings.{followed, takes_again};
ghost use Rattle.brisk_trace.specs.Watches.{at_start, standing_in};

use crate::standing::Standing;
use brisk_async::{Event, Machine};
use brisk_syntax::Stmt;
use brisk_values::{NoMemory, Pid, Sizes};
use std::alloc::Global;
use std::collections::BTreeMap;
use std::marker::Model;

/// How each process stands.
#[derive(Drop)]
pub struct Watch {
    alloc: Global,
    // Of the processes that have taken an event.
    standings: BTreeMap<Pid, Standing>,
}

impl Model for Watch {
    ghost use Rattle.std.specs.FinMap as map;
    ghost use Rattle.brisk_trace.specs.Watches.{Standings, coded_standings};

    ghost Value = { Standings };

    ghost coded = { coded_standings };

    ghost view = { λ w. map.from_entries w.standings.entries };
}

impl Watch {
    /// At the start of a program.
    pub fn new(alloc: Global) -> Watch
        ensures { standing_in result ≡ (λ p. at_start) }
    {
        Watch {
            alloc,
            standings: BTreeMap::new(alloc),
        }
    }

    /// Whether an event takes a member that an earlier turn of the same run took.
    pub fn takes_again(&self, event: &Event) -> bool
        ensures { result ≡ takes_again event.now.sender (standing_in self.now event.now.process) }
    {
        match self.standings.get(&event.process) {
            None => false,
            Some(standing) => standing.takes_again(event),
        }
    }

    // Follows the process of an event, which has this head.
    fn follow(&mut self, head: &Stmt, event: &Event, sizes: &Sizes) -> Result<(), NoMemory>
        ensures { (rest : Tree) → OnOk result (let p = event.now.process in standing_in self.new ≡ changed same_process (standing_in self.old) p (followed (size_in sizes.now) (statement_of head.now ⨾ rest) event.now.sender (standing_in self.old p))) }
    {
        let mut standing = match self.standings.remove(&event.process) {
            None => Standing::new(self.alloc),
            Some(standing) => standing,
        };
        standing.follow(head, event, sizes)?;
        self.standings.insert(event.process, standing)?;
        Ok(())
    }

    /// Follows the process of an event that is enabled on the machine.
    pub fn note(&mut self, machine: &Machine, event: &Event) -> Result<(), NoMemory>
        requires { IsSome (step (state_of machine.now) event.now) }
        ensures { OnOk result (let s = state_of machine.now in let p = event.now.process in standing_in self.new ≡ changed same_process (standing_in self.old) p (followed s.sizes (s.code p) event.now.sender (standing_in self.old p))) }
    {
        if let Some(code) = machine.code(event.process) {
            if let Some(head) = code.first() {
                return self.follow(head, event, machine.sizes());
            }
        }
        unreachable!()
    }
}
