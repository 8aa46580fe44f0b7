//! How a process stands to the gathers of its code.
ghost use Rattle.std.specs.Prelude.{◌≡◌, OnOk, is_some, true, false, [], nat_lt, if◌then◌else◌};
ghost use Rattle.brisk_syntax.specs.Statements.{statement_of};
ghost use Rattle.brisk_syntax.specs.Syntax.{Code as Tree, ◌⨾◌};
ghost use Rattle.brisk_syntax.specs.Value.{size_in};
ghost use Rattle.brisk_trace.specs.Gathers.{gather_of};
ghost use Rattle.brisk_trace.specs.Standings.{closed, followed, opened, takes_again};

use crate::runs::Runs;
use brisk_async::Event;
use brisk_syntax::{Stmt, Turns, size_of_set};
use brisk_values::{NoMemory, Sizes, same_name};
use std::alloc::Global;

/// Whether a process has begun a turn of a gather and not received in it, and the runs of gathers that it is in.
#[derive(Drop)]
pub struct Standing {
    at_receive: bool,
    runs: Runs,
}

// Whether each turn is a receive from any member of the set, and nothing else.
fn is_gather(turns: &Turns) -> bool
    ensures { (rest : Tree) → is_some (gather_of turns.now.set turns.now.body.value rest) ≡ result }
{
    match turns.body.items.as_slice() {
        [Stmt::RecvAny(any)] => same_name(&turns.set, &any.set),
        _ => false,
    }
}

impl Standing {
    /// At the start of a program.
    pub fn new(alloc: Global) -> Standing
        ensures receive { result.at_receive ≡ false }
        ensures runs { result.runs ≡ [] }
    {
        Standing {
            at_receive: false,
            runs: Runs::new(alloc),
        }
    }

    /// Whether an event takes a member that an earlier turn of the same run took.
    pub fn takes_again(&self, event: &Event) -> bool
        ensures { result ≡ takes_again event.now.sender self.now }
    {
        match event.sender {
            None => false,
            Some(sender) => self.at_receive && self.runs.has_taken(&sender),
        }
    }

    // Begins a turn of a gather, or ends its run where no turn is left.
    fn begin(&mut self, turn: u32, size: u32) -> Result<(), NoMemory>
        ensures { OnOk result (self.new ≡ (if nat_lt turn size then record { at_receive = true; runs = opened turn self.old.runs } else record { at_receive = false; runs = closed turn self.old.runs })) }
    {
        self.at_receive = turn < size;
        if turn == 0 {
            if self.at_receive {
                self.runs.open()?;
            }
        } else if !self.at_receive {
            self.runs.close();
        }
        Ok(())
    }

    /// Follows the process over an event.
    pub fn follow(&mut self, head: &Stmt, event: &Event, sizes: &Sizes) -> Result<(), NoMemory>
        ensures { (rest : Tree) → OnOk result (self.new ≡ followed (size_in sizes.now) (statement_of head.now ⨾ rest) event.now.sender self.old) }
    {
        if let Stmt::Repeat(turns) = head {
            if is_gather(turns) {
                return self.begin(turns.turn, size_of_set(sizes, &turns.set));
            }
        }
        if !self.at_receive {
            return Ok(());
        }
        self.at_receive = false;
        match event.sender {
            None => Ok(()),
            Some(sender) => self.runs.take(&sender),
        }
    }
}
