//! One derivation, accepted many times: this takes as long as so many acceptances.
ghost use Rattle.brisk_syntax.specs.WellTyped.{IsProgramWellTyped};

use crate::programs::TWO_PHASE_COMMIT;
use brisk_derivation::{SideFault, Steps};
use brisk_loops::{Why, accept};
use brisk_search::{Outcome, search};
use brisk_syntax::Program;
use brisk_test_texts::program_of;
use std::alloc::Global;
use std::test::Fail;

const BUDGET: u64 = 40;

const TIMES: u32 = 10_000;

// How often the derivation is accepted, of so many times.
fn accepted(alloc: Global, program: &Program, steps: &Steps) -> u32
    requires { IsProgramWellTyped program.now }
{
    let _fault: Option<SideFault> = None;
    let _why: Option<Why> = None;
    let mut count = 0u32;
    for _ in 0..TIMES {
        if accept(alloc, program, steps).is_ok() {
            count = count.saturating_add(1);
        }
    }
    count
}

#[test]
fn a_derivation_is_accepted_again_and_again(rt: HostRuntime) -> Result<(), Fail> {
    let program = program_of(rt.alloc(), TWO_PHASE_COMMIT)?;
    let Outcome::Sequenced(steps, _) = search(rt.alloc(), &program, BUDGET)? else {
        panic!(rt; "no derivation is found");
    };
    assert_eq!(rt; accepted(rt.alloc(), &program, &steps), TIMES);
    Ok(())
}
