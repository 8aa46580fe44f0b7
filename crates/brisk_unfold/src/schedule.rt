//! The canonical schedule.
ghost use Rattle.std.specs.Prelude.{◌≡◌, IfErr, IfOk, Ok as okay};
ghost use Rattle.brisk_values.specs.Places.{value_in};
ghost use Rattle.brisk_syntax.specs.Declarations.{is_loose as is_loose_in};
ghost use Rattle.brisk_syntax.specs.WellTyped.{IsProgramWellTyped};
ghost use Rattle.brisk_seq.specs.Answers.{Causes as SeqCauses};
ghost use Rattle.brisk_seq.specs.Running.{Tells, given_in};
ghost use Rattle.brisk_seq.specs.declared.tree.SeqProgram.{SeqProgram as Sequential};
ghost use Rattle.brisk_rules.specs.Derives.{Valid};
ghost use Rattle.brisk_unfold.specs.Answers.{Causes, IsSchedule, IsValid};
ghost use Rattle.brisk_unfold.specs.Going.{unfolded_from};

use crate::fault::UnfoldFault;
use crate::progress::Progress;
use crate::senders::Senders;
use crate::unfolder::Unfolder;
use brisk_derivation::Steps;
use brisk_instance::{judge, start_store};
use brisk_loops::accept;
use brisk_schedule::Events;
use brisk_seq::{Body, Boxes, Running, SeqFault, SeqProgram, Setting};
use brisk_syntax::Program;
use brisk_values::{Instance, Store};
use std::alloc::Global;

// The events of the steps, from this store on.
pub(crate) fn events_from(
    unfolder: &Unfolder<'_>,
    derivation: &Steps,
    body: &Body,
    store: Store,
    turns: u64,
) -> Result<Events, SeqFault>
    ensures ok { IfOk result (λ es. unfolded_from (given_in unfolder.now.setting) (is_loose_in unfolder.now.channels.now) unfolder.now.setting.choices.now derivation.now body.now (value_in store) turns ≡ okay es) }
    ensures err { IfErr result (Tells (unfolded_from (given_in unfolder.now.setting) (is_loose_in unfolder.now.channels.now) unfolder.now.setting.choices.now derivation.now body.now (value_in store) turns)) }
{
    let alloc = unfolder.setting.alloc;
    let mut progress = Progress {
        run: Running {
            store,
            boxes: Boxes::new(alloc),
            asked: 0,
            turns,
            moves: 0,
        },
        events: Events {
            items: Vec::new(alloc),
        },
        senders: Senders::new(alloc),
    };
    let mut focus = Vec::new(alloc);
    unfolder.steps(&mut progress, &mut focus, derivation, body)?;
    if progress.run.asked < unfolder.setting.choices.len() {
        return Err(SeqFault::ChoicesLeft);
    }
    Ok(progress.events)
}

// The events of a derivation of this sequential program.
fn events_of(
    alloc: Global,
    program: &Program,
    derivation: &Steps,
    sequential: &SeqProgram,
    instance: &Instance,
    choices: &[u32],
    turns: u64,
) -> Result<Events, SeqFault>
    requires typed { IsProgramWellTyped program.now }
    requires valid { Valid program.now derivation.now sequential.now }
    ensures ok { IfOk result (IsSchedule program.now derivation.now instance.now choices.now turns sequential.now) }
    ensures err { IfErr result (SeqCauses sequential.now instance.now choices.now turns) }
{
    judge(alloc, &sequential.enums, &sequential.roles, instance)?;
    let store = start_store(alloc, &sequential.roles, instance)?;
    let unfolder = Unfolder {
        setting: Setting {
            alloc,
            roles: &sequential.roles,
            sizes: &instance.sizes,
            choices,
        },
        channels: &program.channels,
    };
    events_from(&unfolder, derivation, &sequential.body, store, turns)
}

/// The canonical schedule of a valid derivation: the events that its steps stand for, along the run of its sequential
/// program on these choices and at most so many turns of `while`.
pub fn unfold(
    alloc: Global,
    program: &Program,
    derivation: &Steps,
    instance: &Instance,
    choices: &[u32],
    turns: u64,
) -> Result<Events, UnfoldFault>
    requires typed { IsProgramWellTyped program.now }
    requires valid { IsValid program.now derivation.now }
    ensures ok { IfOk result (λ es. (Q : Sequential) → Valid program.now derivation.now Q → IsSchedule program.now derivation.now instance.now choices.now turns Q es) }
    ensures err { IfErr result (λ f. (Q : Sequential) → Valid program.now derivation.now Q → Causes instance.now choices.now turns Q f) }
{
    // A valid derivation is refused only for want of memory.
    let Ok(sequential) = accept(alloc, program, derivation) else {
        return Err(UnfoldFault::NoMemory);
    };
    Ok(events_of(
        alloc,
        program,
        derivation,
        &sequential,
        instance,
        choices,
        turns,
    )?)
}
