//! The schedule that shows why a straight program has no derivation.
#![tactic(auto)]

ghost use Rattle.std.specs.Prelude.{IfOk};
ghost use Rattle.brisk_instance.specs.Given.{instance_of};
ghost use Rattle.brisk_async.specs.PlainRuns.{Deadlocks};
ghost use Rattle.brisk_rules.specs.Derives.{Derivable};
ghost use Rattle.brisk_seq.specs.declared.tree.SeqProgram.{SeqProgram};
ghost use Rattle.brisk_straight.specs.Sources.{IsStraightSource};

use brisk_schedule::Schedule;
use brisk_syntax::Program;
use brisk_trace::to_deadlock;
use brisk_values::NoMemory;
use std::alloc::Global;

/// The deadlock of a straight program that no sequential program stands for.
pub fn why_refused(alloc: Global, program: &Program) -> Result<Schedule, NoMemory>
    requires source { IsStraightSource program.now }
    requires refused { (Q : SeqProgram) → ¬ Derivable program.now Q }
    ensures { IfOk result (λ s. Deadlocks program.now (instance_of s.instance) s.events) }
{
    match to_deadlock(alloc, program)? {
        Some(schedule) => Ok(schedule),
        None => unreachable!(),
    }
}
