//! Steps with their items, along a run.
ghost use Rattle.std.specs.Prelude.{◌≡◌, [], IfErr, OnOk, None as none, Some as some, map, option_map};
ghost use Rattle.brisk_syntax.specs.Declarations.{is_loose as is_loose_in};
ghost use Rattle.brisk_syntax.specs.Expressions.{expression_of};
ghost use Rattle.brisk_seq.specs.Items as item;
ghost use Rattle.brisk_seq.specs.Running.{focus_on, given_in};
ghost use Rattle.brisk_seq.specs.Seen.{item_of, items_of};
ghost use Rattle.brisk_seq.specs.Sequential.{in_focus};
ghost use Rattle.brisk_async.specs.PlainRuns.{plain_place};
ghost use Rattle.brisk_derivation.specs.Seen.{step_of};
ghost use Rattle.brisk_derivation.specs.Steps as tree;
ghost use Rattle.brisk_rules.specs.Unfolding.{all_move, carries, events_of, item_for as spec_item_for, items_after as spec_items_after, moves, runs};
ghost use Rattle.brisk_unfold.specs.Going.{Goes, Marks, Stops, step_in, steps_in};

use crate::progress::Progress;
use brisk_derivation::{BasicStep, Step, Steps};
use brisk_seq::{Body, Seq, SeqFault, Setting, process, unmarked};
use brisk_syntax::{Channels, Expr, Names, size_of_set};
use brisk_values::{Name, NoMemory, Pid};

/// What stays the same in an unfolding.
#[derive(Drop)]
pub(crate) struct Unfolder<'a> {
    pub(crate) setting: Setting<'a>,
    pub(crate) channels: &'a Channels,
}

// The item of a step, of those that come next.
fn item_for<'a>(step: &Step, items: &'a [Seq]) -> Option<&'a Seq>
    ensures { option_map (λ q. item_of q.now) result ≡ spec_item_for (step_of step.now) (items_of items.now) }
{
    match step {
        Step::Basic(BasicStep::Known(_)) => None,
        _ => items.first(),
    }
}

// The items after that of a step.
fn items_after<'a>(step: &Step, items: &'a [Seq]) -> &'a [Seq]
    ensures { items_of result.now ≡ spec_items_after (step_of step.now) (items_of items.now) }
{
    match step {
        Step::Basic(BasicStep::Known(_)) => items,
        _ => match items.split_first() {
            Some((_, rest)) => rest,
            None => items,
        },
    }
}

impl Unfolder<'_> {
    // The place that a receive on the channel has.
    fn place_on(&self, channel: &Name) -> Option<u32>
        ensures { result ≡ plain_place (is_loose_in self.now.channels.now channel.now) }
    {
        if self.channels.is_loose(channel) {
            Some(0)
        } else {
            None
        }
    }

    // Each of the owners takes an event, in order.
    fn step_each(
        &self,
        progress: &mut Progress,
        focus: &[Pid],
        owners: &Names,
    ) -> Result<(), NoMemory>
        ensures { OnOk result (Marks progress.old progress.new (all_move (map (focus_on focus.now) owners.now))) }
    {
        for owner in &owners.items {
            progress.step(process(focus, *owner))?;
        }
        Ok(())
    }

    // The events of a basic step.
    fn events(
        &self,
        progress: &mut Progress,
        focus: &[Pid],
        basic: &BasicStep,
    ) -> Result<(), NoMemory>
        ensures { OnOk result (Marks progress.old progress.new (events_of (is_loose_in self.now.channels.now) (focus_on focus.now) basic.now)) }
    {
        match basic {
            BasicStep::Assign(thread) | BasicStep::Known(thread) => {
                progress.step(process(focus, *thread))
            }
            BasicStep::Fill(from, _, _, _) => progress.step(process(focus, *from)),
            BasicStep::Pass(from, to, channel) => {
                progress.step(process(focus, *from))?;
                progress.receive(process(focus, *to), self.place_on(channel))
            }
            BasicStep::Take(_, to, channel) => {
                progress.receive(process(focus, *to), self.place_on(channel))
            }
        }
    }

    // The run does the item, if there is one.
    fn run(
        &self,
        progress: &mut Progress,
        focus: &mut Vec<Pid>,
        item: Option<&Seq>,
    ) -> Result<(), SeqFault>
        ensures goes { OnOk result (Goes self.now.setting.choices.now progress.old progress.new (runs (given_in self.now.setting) (option_map (λ q. item_of q.now) item.entry) (focus_on focus.old.items))) }
        ensures stops { IfErr result (λ f. Stops self.now.setting.choices.now progress.old (runs (given_in self.now.setting) (option_map (λ q. item_of q.now) item.entry) (focus_on focus.old.items)) f) }
        ensures focus { OnOk result (focus.new.items ≡ focus.old.items) }
    {
        match item {
            Some(item) => self.setting.item(&mut progress.run, focus, item),
            None => Ok(()),
        }
    }

    // A basic step: its item, and then its events.
    fn basic(
        &self,
        progress: &mut Progress,
        focus: &mut Vec<Pid>,
        basic: &BasicStep,
        item: Option<&Seq>,
    ) -> Result<(), SeqFault>
        ensures goes { OnOk result (Goes self.now.setting.choices.now progress.old progress.new (step_in self.now (tree.Basic basic.now) (option_map (λ q. item_of q.now) item.entry) (focus_on focus.old.items))) }
        ensures stops { IfErr result (λ f. Stops self.now.setting.choices.now progress.old (step_in self.now (tree.Basic basic.now) (option_map (λ q. item_of q.now) item.entry) (focus_on focus.old.items)) f) }
        ensures focus { OnOk result (focus.new.items ≡ focus.old.items) }
    {
        self.run(progress, focus, item)?;
        self.events(progress, focus, basic)?;
        Ok(())
    }

    // A step with its item, if there is one.
    #[cycle(unfold)]
    fn step(
        &self,
        progress: &mut Progress,
        focus: &mut Vec<Pid>,
        step: &Step,
        item: Option<&Seq>,
    ) -> Result<(), SeqFault>
        ensures goes { OnOk result (Goes self.now.setting.choices.now progress.old progress.new (step_in self.now (step_of step.now) (option_map (λ q. item_of q.now) item.entry) (focus_on focus.old.items))) }
        ensures stops { IfErr result (λ f. Stops self.now.setting.choices.now progress.old (step_in self.now (step_of step.now) (option_map (λ q. item_of q.now) item.entry) (focus_on focus.old.items)) f) }
        ensures focus { OnOk result (focus.new.items ≡ focus.old.items) }
    {
        match item {
            Some(item) => self.with_item(progress, focus, step, item),
            None => self.without_item(progress, focus, step),
        }
    }

    // A step for which there is no item.
    fn without_item(
        &self,
        progress: &mut Progress,
        focus: &mut Vec<Pid>,
        step: &Step,
    ) -> Result<(), SeqFault>
        ensures goes { OnOk result (Goes self.now.setting.choices.now progress.old progress.new (step_in self.now (step_of step.now) none (focus_on focus.old.items))) }
        ensures stops { IfErr result (λ f. Stops self.now.setting.choices.now progress.old (step_in self.now (step_of step.now) none (focus_on focus.old.items)) f) }
        ensures focus { OnOk result (focus.new.items ≡ focus.old.items) }
    {
        match step {
            Step::Basic(basic) => self.basic(progress, focus, basic, None),
            // No valid derivation has an item too few.
            _ => Ok(()),
        }
    }

    // A step with its item.
    #[cycle(unfold)]
    fn with_item(
        &self,
        progress: &mut Progress,
        focus: &mut Vec<Pid>,
        step: &Step,
        item: &Seq,
    ) -> Result<(), SeqFault>
        ensures goes { OnOk result (Goes self.now.setting.choices.now progress.old progress.new (step_in self.now (step_of step.now) (some (item_of item.now)) (focus_on focus.old.items))) }
        ensures stops { IfErr result (λ f. Stops self.now.setting.choices.now progress.old (step_in self.now (step_of step.now) (some (item_of item.now)) (focus_on focus.old.items)) f) }
        ensures focus { OnOk result (focus.new.items ≡ focus.old.items) }
    {
        match (step, item) {
            (Step::Basic(basic), _) => self.basic(progress, focus, basic, Some(item)),
            (Step::Branch(owner, first, second), Seq::If(name, e, then, otherwise)) => {
                let holds = self.setting.guard(&progress.run, focus, name, e);
                progress.step(process(focus, *owner))?;
                if holds {
                    self.steps(progress, focus, first, then)
                } else {
                    self.steps(progress, focus, second, otherwise)
                }
            }
            (Step::While(owner, _, premise), Seq::While(name, e, body)) => {
                self.turns(progress, focus, owner, premise, name, e, body)
            }
            (Step::For(set, owners, _, premise), Seq::For(_, body)) => {
                self.members(progress, focus, set, owners, premise, body)
            }
            (Step::Repeat(owner, _, premise), Seq::Repeat(set, body)) => {
                self.repeat(progress, focus, set, owner, premise, body)
            }
            (Step::Gather(owner, _, premise), Seq::ForAny(set, body)) => {
                self.choices(progress, focus, set, owner, premise, body)
            }
            (Step::Pick(owner, _, premise), Seq::Pick(set, body)) => {
                let size = size_of_set(self.setting.sizes, set);
                let member = self.setting.choose(&mut progress.run, size, &[])?;
                self.from_member(
                    progress,
                    focus,
                    &Pid { role: *set, member },
                    owner,
                    premise,
                    body,
                )
            }
            // No valid derivation has such an item for such a step.
            _ => Ok(()),
        }
    }

    // Turns while the guard holds, with the owner's event before each and after the last.
    #[cycle(unfold)]
    fn turns(
        &self,
        progress: &mut Progress,
        focus: &mut Vec<Pid>,
        owner: &Name,
        premise: &Steps,
        name: &Name,
        e: &Expr,
        body: &Body,
    ) -> Result<(), SeqFault>
        ensures goes { OnOk result (Goes self.now.setting.choices.now progress.old progress.new (step_in self.now (tree.While owner.now [] premise.now) (some (item.While name.now (expression_of e.now) body.now)) (focus_on focus.old.items))) }
        ensures stops { IfErr result (λ f. Stops self.now.setting.choices.now progress.old (step_in self.now (tree.While owner.now [] premise.now) (some (item.While name.now (expression_of e.now) body.now)) (focus_on focus.old.items)) f) }
        ensures focus { OnOk result (focus.new.items ≡ focus.old.items) }
    {
        // The body takes of the turns too, so there may be fewer than are left here.
        for _turn in 0..progress.run.turns {
            if !self.setting.guard(&progress.run, focus, name, e) {
                progress.step(process(focus, *owner))?;
                return Ok(());
            }
            if progress.run.turns == 0 {
                return Err(SeqFault::Turns);
            }
            progress.run.turns -= 1;
            progress.step(process(focus, *owner))?;
            self.steps(progress, focus, premise, body)?;
        }
        if self.setting.guard(&progress.run, focus, name, e) {
            return Err(SeqFault::Turns);
        }
        progress.step(process(focus, *owner))?;
        Ok(())
    }

    // A turn for each member of the set, in number order, with the owners' events before each and after the last.
    #[cycle(unfold)]
    fn members(
        &self,
        progress: &mut Progress,
        focus: &mut Vec<Pid>,
        set: &Name,
        owners: &Names,
        premise: &Steps,
        body: &Body,
    ) -> Result<(), SeqFault>
        ensures goes { OnOk result (Goes self.now.setting.choices.now progress.old progress.new (step_in self.now (tree.For set.now owners.now [] premise.now) (some (item.For set.now body.now)) (focus_on focus.old.items))) }
        ensures stops { IfErr result (λ f. Stops self.now.setting.choices.now progress.old (step_in self.now (tree.For set.now owners.now [] premise.now) (some (item.For set.now body.now)) (focus_on focus.old.items)) f) }
        ensures focus { OnOk result (focus.new.items ≡ focus.old.items) }
    {
        for member in 0..size_of_set(self.setting.sizes, set) {
            self.step_each(progress, focus, owners)?;
            self.with_member(progress, focus, &Pid { role: *set, member }, premise, body)?;
        }
        self.step_each(progress, focus, owners)?;
        Ok(())
    }

    // As many turns as the set has members, with the owner's event before each and after the last.
    #[cycle(unfold)]
    fn repeat(
        &self,
        progress: &mut Progress,
        focus: &mut Vec<Pid>,
        set: &Name,
        owner: &Name,
        premise: &Steps,
        body: &Body,
    ) -> Result<(), SeqFault>
        ensures goes { OnOk result (Goes self.now.setting.choices.now progress.old progress.new (step_in self.now (tree.Repeat owner.now [] premise.now) (some (item.Repeat set.now body.now)) (focus_on focus.old.items))) }
        ensures stops { IfErr result (λ f. Stops self.now.setting.choices.now progress.old (step_in self.now (tree.Repeat owner.now [] premise.now) (some (item.Repeat set.now body.now)) (focus_on focus.old.items)) f) }
        ensures focus { OnOk result (focus.new.items ≡ focus.old.items) }
    {
        for _turn in 0..size_of_set(self.setting.sizes, set) {
            progress.step(process(focus, *owner))?;
            self.steps(progress, focus, premise, body)?;
        }
        progress.step(process(focus, *owner))?;
        Ok(())
    }

    // A turn for each member of the set, which a choice names, with the owner's event before each and after the last.
    #[cycle(unfold)]
    fn choices(
        &self,
        progress: &mut Progress,
        focus: &mut Vec<Pid>,
        set: &Name,
        owner: &Name,
        premise: &Steps,
        body: &Body,
    ) -> Result<(), SeqFault>
        ensures goes { OnOk result (Goes self.now.setting.choices.now progress.old progress.new (step_in self.now (tree.Gather owner.now [] premise.now) (some (item.ForAny set.now body.now)) (focus_on focus.old.items))) }
        ensures stops { IfErr result (λ f. Stops self.now.setting.choices.now progress.old (step_in self.now (tree.Gather owner.now [] premise.now) (some (item.ForAny set.now body.now)) (focus_on focus.old.items)) f) }
        ensures focus { OnOk result (focus.new.items ≡ focus.old.items) }
    {
        let size = size_of_set(self.setting.sizes, set);
        let mut used = unmarked(self.setting.alloc, size)?;
        for _turn in 0..size {
            let member = self.setting.choose(&mut progress.run, size, &used)?;
            used[member as usize] = true;
            progress.step(process(focus, *owner))?;
            self.from_member(
                progress,
                focus,
                &Pid { role: *set, member },
                owner,
                premise,
                body,
            )?;
        }
        progress.step(process(focus, *owner))?;
        Ok(())
    }

    // The steps with this member in focus, from which the owner's next receive takes.
    #[cycle(unfold)]
    fn from_member(
        &self,
        progress: &mut Progress,
        focus: &mut Vec<Pid>,
        member: &Pid,
        owner: &Name,
        premise: &Steps,
        body: &Body,
    ) -> Result<(), SeqFault>
        ensures goes { OnOk result (Goes self.now.setting.choices.now progress.old progress.new (λ u. steps_in self.now premise.now body.now (in_focus member.now.role member.now.member (focus_on focus.old.items)) (carries (focus_on focus.old.items owner.now) member.now u))) }
        ensures stops { IfErr result (λ f. Stops self.now.setting.choices.now progress.old (λ u. steps_in self.now premise.now body.now (in_focus member.now.role member.now.member (focus_on focus.old.items)) (carries (focus_on focus.old.items owner.now) member.now u)) f) }
        ensures focus { OnOk result (focus.new.items ≡ focus.old.items) }
    {
        progress.carry(process(focus, *owner), *member)?;
        self.with_member(progress, focus, member, premise, body)
    }

    // The steps with this member in focus.
    #[cycle(unfold)]
    fn with_member(
        &self,
        progress: &mut Progress,
        focus: &mut Vec<Pid>,
        member: &Pid,
        premise: &Steps,
        body: &Body,
    ) -> Result<(), SeqFault>
        ensures goes { OnOk result (Goes self.now.setting.choices.now progress.old progress.new (steps_in self.now premise.now body.now (in_focus member.now.role member.now.member (focus_on focus.old.items)))) }
        ensures stops { IfErr result (λ f. Stops self.now.setting.choices.now progress.old (steps_in self.now premise.now body.now (in_focus member.now.role member.now.member (focus_on focus.old.items))) f) }
        ensures focus { OnOk result (focus.new.items ≡ focus.old.items) }
    {
        focus.push(*member)?;
        self.steps(progress, focus, premise, body)?;
        focus.pop();
        Ok(())
    }

    /// Unfolds the steps with their items, where these members are in focus, the innermost last.
    #[cycle(unfold)]
    pub(crate) fn steps(
        &self,
        progress: &mut Progress,
        focus: &mut Vec<Pid>,
        steps: &Steps,
        body: &Body,
    ) -> Result<(), SeqFault>
        ensures goes { OnOk result (Goes self.now.setting.choices.now progress.old progress.new (steps_in self.now steps.now body.now (focus_on focus.old.items))) }
        ensures stops { IfErr result (λ f. Stops self.now.setting.choices.now progress.old (steps_in self.now steps.now body.now (focus_on focus.old.items)) f) }
        ensures focus { OnOk result (focus.new.items ≡ focus.old.items) }
    {
        let mut rest = body.items.as_slice();
        for step in &steps.items {
            self.step(progress, focus, step, item_for(step, rest))?;
            rest = items_after(step, rest);
        }
        Ok(())
    }
}
