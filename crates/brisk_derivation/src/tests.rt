//! Derivations counted, and a report.
ghost use Rattle.std.specs.Prelude.{◌≡◌, IfOk};
ghost use Rattle.brisk_derivation.specs.Reports.{Tried, StuckFirst, no_tries, ◌▹◌};
ghost use Rattle.brisk_derivation.specs.Seen.{step_of};

use crate::{BasicStep, Drops, Report, SideFault, Step, Steps, Tries, Try, TryEnd, count_steps};
use brisk_syntax::Names;
use brisk_values::Name;
use std::alloc::Global;
use std::test::Fail;

fn assign() -> Step {
    Step::Basic(BasicStep::Assign(Name::of(b"A")))
}

// `assign A`, and then a gather of A with `pass A W C` and `assign A`.
fn side(alloc: Global) -> Result<Steps, Fail> {
    let pass = BasicStep::Pass(Name::of(b"A"), Name::of(b"W"), Name::of(b"C"));
    let premise = Steps {
        items: vec![in alloc; Step::Basic(pass), assign()]?,
    };
    let drops = Drops {
        items: vec![in alloc]?,
    };
    Ok(Steps {
        items: vec![in alloc; assign(), Step::Gather(Name::of(b"A"), drops, premise)]?,
    })
}

#[test]
fn the_steps_of_premises_are_counted(rt: HostRuntime) -> Result<(), Fail> {
    let alloc = rt.alloc();
    let first = side(alloc)?;
    assert_eq!(rt; count_steps(&first), 4);
    let second = Steps {
        items: vec![in alloc; assign()]?,
    };
    let all = Steps {
        items: vec![in alloc; Step::Branch(Name::of(b"A"), first, second), assign()]?,
    };
    assert_eq!(rt; count_steps(&all), 7);
    Ok(())
}

// `for Ws by M drop`, of which no step was taken.
fn begun(alloc: Global) -> Result<Step, Fail> {
    let owners = Names {
        items: vec![in alloc; Name::of(b"M")]?,
    };
    let drops = Drops {
        items: vec![in alloc]?,
    };
    let premise = Steps {
        items: vec![in alloc]?,
    };
    Ok(Step::For(Name::of(b"Ws"), owners, drops, premise))
}

// The rule alone was tried, and these tries after it.
fn stuck_at(alloc: Global, rule: Step, tries: Tries) -> Result<Tries, Fail>
    ensures { IfOk result (λ ts. ts ≡ Tried (step_of rule) (StuckFirst tries) ▹ no_tries) }
{
    let end = TryEnd::StuckFirst(tries);
    Ok(Tries {
        items: vec![in alloc; Try { rule, end }]?,
    })
}

// The fault of the first try, where it fails at once or the first try in it does.
fn told(report: &Report) -> Option<SideFault> {
    match &report.tries.items.first()?.end {
        TryEnd::Fails(why) => Some(*why),
        TryEnd::StuckFirst(tries) | TryEnd::StuckSecond(tries) => match &tries.items.first()?.end {
            TryEnd::Fails(why) => Some(*why),
            _ => None,
        },
    }
}

#[test]
fn a_report_has_tries_in_tries(rt: HostRuntime) -> Result<(), Fail> {
    let alloc = rt.alloc();
    let inner = Try {
        rule: begun(alloc)?,
        end: TryEnd::Fails(SideFault::SetIsFocused),
    };
    let tries = Tries {
        items: vec![in alloc; inner]?,
    };
    let report = Report {
        steps: side(alloc)?,
        tries: stuck_at(alloc, begun(alloc)?, tries)?,
    };
    assert_eq!(rt; told(&report), Some(SideFault::SetIsFocused));
    assert_eq!(rt; count_steps(&report.steps), 4);
    Ok(())
}
