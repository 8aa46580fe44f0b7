//! The number of steps of a derivation.
ghost use Rattle.std.specs.Prelude.{◌≡◌, ◌-◌, ◌^◌, min};
ghost use Rattle.brisk_derivation.specs.Counts.{steps_in, steps_among};
ghost use Rattle.brisk_derivation.specs.Seen.{step_of};

use crate::steps::{Step, Steps};

/// The number of steps, those of premises counted; it stays at the greatest `u64` where it would pass it.
#[cycle(count)]
pub fn count_steps(derivation: &Steps) -> u64
    ensures { result ≡ min (steps_among derivation.now) (2 ^ 64 - 1) }
{
    let mut count = 0u64;
    for step in &derivation.items {
        count = count.saturating_add(in_step(step));
    }
    count
}

#[cycle(count)]
fn in_step(step: &Step) -> u64
    ensures { result ≡ min (steps_in (step_of step.now)) (2 ^ 64 - 1) }
{
    match step {
        Step::Basic(_) => 1,
        Step::Branch(_, first, second) => count_steps(first)
            .saturating_add(1)
            .saturating_add(count_steps(second)),
        Step::While(_, _, premise)
        | Step::For(_, _, _, premise)
        | Step::Repeat(_, _, premise)
        | Step::Gather(_, _, premise)
        | Step::Pick(_, _, premise) => count_steps(premise).saturating_add(1),
    }
}
