//! The evaluator of items.
ghost use Rattle.std.specs.Prelude.{◌≡◌, ℕ, ◌<◌, List, [], ◌&&◌, false, get_or, length, nat_lt, not, replicate, IfOk, IfErr, OnOk};
ghost use Rattle.brisk_values.specs.Places.{value_in};
ghost use Rattle.brisk_syntax.specs.Expressions.{expression_of};
ghost use Rattle.brisk_syntax.specs.Stores.{is_true as is_true_value};
ghost use Rattle.brisk_syntax.specs.Value.{value_of, size_in};
ghost use Rattle.brisk_seq.specs.Items as tree;
ghost use Rattle.brisk_seq.specs.Running.{focus_on, given_in, Goes, Leads, Marks, Stops};
ghost use Rattle.brisk_seq.specs.Seen.{item_of};
ghost use Rattle.brisk_seq.specs.Sequential.{Ended, Run, choose as spec_choose, do_all, does, in_focus};

use crate::boxes::{Boxes, Cell};
use crate::fault::SeqFault;
use crate::kinds::are_of_kinds;
use crate::tree::{Body, Fill, Pass, Seq, Take};
use brisk_syntax::{Expr, Roles, eval, eval_all, is_true, size_of_set, store_all};
use brisk_values::{Name, NoMemory, Pid, Sizes, Store};
use std::alloc::Global;

/// What stays the same in a run.
#[derive(Drop)]
pub struct Setting<'a> {
    pub alloc: Global,
    pub roles: &'a Roles,
    pub sizes: &'a Sizes,
    pub choices: &'a [u32],
}

/// A run so far.
#[derive(Drop)]
pub struct Running {
    pub store: Store,
    pub boxes: Boxes,
    /// How many choices were taken.
    pub asked: usize,
    /// How many turns of `while` are left.
    pub turns: u64,
    /// How many passes, fills and takes were made. It stays at the greatest number.
    pub moves: u64,
}

/// The process for which a name stands, where these members were chosen, the innermost last.
pub fn process(focus: &[Pid], name: Name) -> Pid
    ensures { result ≡ focus_on focus.now name }
{
    let mut found = Pid {
        role: name,
        member: 0,
    };
    for p in focus {
        if p.role == name {
            found = *p;
        }
    }
    found
}

/// A mark for each member of a set of this size, of which none is set.
pub fn unmarked(alloc: Global, size: u32) -> Result<Vec<bool>, NoMemory>
    ensures none { IfOk result (λ v. v.items ≡ replicate size false) }
    ensures len { IfOk result (λ v. length v.items ≡ size) }
{
    Ok(vec![in alloc; false; size as usize]?)
}

// Whether a member of a set of this size isn't marked as used.
fn is_open(size: u32, used: &[bool], member: u32) -> bool
    ensures { result ≡ (nat_lt member size && not (get_or used.now member false)) }
{
    if member >= size {
        return false;
    }
    match used.get(member as usize) {
        Some(mark) => !*mark,
        None => true,
    }
}

impl Setting<'_> {
    /// Whether the guard holds of the process for which the name stands.
    pub fn guard(&self, run: &Running, focus: &[Pid], name: &Name, e: &Expr) -> bool
        ensures { result ≡ is_true_value (value_of (size_in self.now.sizes.now) (value_in run.now.store (focus_on focus.now name.now)) (expression_of e.now)) }
    {
        is_true(eval(e, process(focus, *name), &run.store, self.sizes))
    }

    fn pass(&self, run: &mut Running, focus: &[Pid], pass: &Pass) -> Result<(), NoMemory>
        ensures { OnOk result (Goes self.now.choices.now run.old run.new (does (given_in self.now) (tree.Pass pass.now.to pass.now.vars pass.now.from pass.now.exprs) (focus_on focus.now))) }
    {
        let from = process(focus, pass.from);
        let to = process(focus, pass.to);
        let values = eval_all(self.alloc, &pass.exprs, &from, &run.store, self.sizes)?;
        store_all(&mut run.store, &to, &pass.vars, &values)?;
        run.moves = run.moves.saturating_add(1);
        Ok(())
    }

    fn fill(&self, run: &mut Running, focus: &[Pid], fill: &Fill) -> Result<(), SeqFault>
        ensures goes { OnOk result (Goes self.now.choices.now run.old run.new (does (given_in self.now) (tree.Fill fill.now.number fill.now.from fill.now.to fill.now.exprs) (focus_on focus.now))) }
        ensures stops { IfErr result (λ f. Stops self.now.choices.now run.old (does (given_in self.now) (tree.Fill fill.now.number fill.now.from fill.now.to fill.now.exprs) (focus_on focus.now)) f) }
    {
        let cell = Cell {
            number: fill.number,
            from: process(focus, fill.from),
            to: process(focus, fill.to),
        };
        run.moves = run.moves.saturating_add(1);
        if run.boxes.is_full(&cell) {
            return Err(SeqFault::BadBox(run.moves));
        }
        let values = eval_all(self.alloc, &fill.exprs, &cell.from, &run.store, self.sizes)?;
        run.boxes.put(cell, values)?;
        Ok(())
    }

    fn take(&self, run: &mut Running, focus: &[Pid], take: &Take) -> Result<(), SeqFault>
        ensures goes { OnOk result (Goes self.now.choices.now run.old run.new (does (given_in self.now) (tree.Take take.now.to take.now.vars take.now.number take.now.from) (focus_on focus.now))) }
        ensures stops { IfErr result (λ f. Stops self.now.choices.now run.old (does (given_in self.now) (tree.Take take.now.to take.now.vars take.now.number take.now.from) (focus_on focus.now)) f) }
    {
        let cell = Cell {
            number: take.number,
            from: process(focus, take.from),
            to: process(focus, take.to),
        };
        run.moves = run.moves.saturating_add(1);
        let Some(values) = run.boxes.take(&cell) else {
            return Err(SeqFault::BadBox(run.moves));
        };
        if !are_of_kinds(self.roles, &cell.to.role, &take.vars, &values) {
            return Err(SeqFault::BadBox(run.moves));
        }
        store_all(&mut run.store, &cell.to, &take.vars, &values)?;
        Ok(())
    }

    /// The next choice, which must be a member of a set of this size that isn't marked as used.
    pub fn choose(&self, run: &mut Running, size: u32, used: &[bool]) -> Result<u32, SeqFault>
        ensures below { IfOk result (λ k. k < size) }
        ensures goes { IfOk result (λ k. (us : List ℕ) (go : ℕ → Run → Ended) → Marks used.now us → Leads self.now.choices.now run.old run.new (λ r. spec_choose size us r r.choices go) (go k)) }
        ensures stops { IfErr result (λ f. (us : List ℕ) (go : ℕ → Run → Ended) → Marks used.now us → Stops self.now.choices.now run.old (λ r. spec_choose size us r r.choices go) f) }
    {
        let number = (run.asked as u64).saturating_add(1);
        if run.asked >= self.choices.len() {
            return Err(SeqFault::BadChoice(number));
        }
        let member = self.choices[run.asked];
        if !is_open(size, used, member) {
            return Err(SeqFault::BadChoice(number));
        }
        run.asked += 1;
        Ok(member)
    }

    /// Does the item, where these members are in focus, the innermost last.
    #[cycle(body)]
    pub fn item(&self, run: &mut Running, focus: &mut Vec<Pid>, q: &Seq) -> Result<(), SeqFault>
        ensures goes { OnOk result (Goes self.now.choices.now run.old run.new (does (given_in self.now) (item_of q.now) (focus_on focus.old.items))) }
        ensures stops { IfErr result (λ f. Stops self.now.choices.now run.old (does (given_in self.now) (item_of q.now) (focus_on focus.old.items)) f) }
        ensures focus { OnOk result (focus.new.items ≡ focus.old.items) }
    {
        match q {
            Seq::Pass(pass) => {
                self.pass(run, focus, pass)?;
                Ok(())
            }
            Seq::Fill(fill) => self.fill(run, focus, fill),
            Seq::Take(take) => self.take(run, focus, take),
            Seq::If(name, e, then, otherwise) => {
                if self.guard(run, focus, name, e) {
                    self.items(run, focus, then)
                } else {
                    self.items(run, focus, otherwise)
                }
            }
            Seq::While(name, e, body) => self.turns(run, focus, body, name, e),
            Seq::For(set, body) => self.members(run, focus, *set, body),
            Seq::ForAny(set, body) => self.choices(run, focus, *set, body),
            Seq::Pick(set, body) => {
                let member = self.choose(run, size_of_set(self.sizes, set), &[])?;
                self.with_member(run, focus, *set, member, body)
            }
            Seq::Repeat(set, body) => self.repeat(run, focus, set, body),
        }
    }

    // Turns while the guard holds.
    #[cycle(body)]
    fn turns(
        &self,
        run: &mut Running,
        focus: &mut Vec<Pid>,
        body: &Body,
        name: &Name,
        e: &Expr,
    ) -> Result<(), SeqFault>
        ensures goes { OnOk result (Goes self.now.choices.now run.old run.new (does (given_in self.now) (tree.While name.now (expression_of e.now) body.now) (focus_on focus.old.items))) }
        ensures stops { IfErr result (λ f. Stops self.now.choices.now run.old (does (given_in self.now) (tree.While name.now (expression_of e.now) body.now) (focus_on focus.old.items)) f) }
        ensures focus { OnOk result (focus.new.items ≡ focus.old.items) }
    {
        // The body takes of the turns too, so there may be fewer than are left here.
        for _turn in 0..run.turns {
            if !self.guard(run, focus, name, e) {
                return Ok(());
            }
            if run.turns == 0 {
                return Err(SeqFault::Turns);
            }
            run.turns -= 1;
            self.items(run, focus, body)?;
        }
        if self.guard(run, focus, name, e) {
            Err(SeqFault::Turns)
        } else {
            Ok(())
        }
    }

    // A turn for each member of the set, in number order.
    #[cycle(body)]
    fn members(
        &self,
        run: &mut Running,
        focus: &mut Vec<Pid>,
        set: Name,
        body: &Body,
    ) -> Result<(), SeqFault>
        ensures goes { OnOk result (Goes self.now.choices.now run.old run.new (does (given_in self.now) (tree.For set body.now) (focus_on focus.old.items))) }
        ensures stops { IfErr result (λ f. Stops self.now.choices.now run.old (does (given_in self.now) (tree.For set body.now) (focus_on focus.old.items)) f) }
        ensures focus { OnOk result (focus.new.items ≡ focus.old.items) }
    {
        for member in 0..size_of_set(self.sizes, &set) {
            self.with_member(run, focus, set, member, body)?;
        }
        Ok(())
    }

    // A turn for each member of the set, which a choice names.
    #[cycle(body)]
    fn choices(
        &self,
        run: &mut Running,
        focus: &mut Vec<Pid>,
        set: Name,
        body: &Body,
    ) -> Result<(), SeqFault>
        ensures goes { OnOk result (Goes self.now.choices.now run.old run.new (does (given_in self.now) (tree.ForAny set body.now) (focus_on focus.old.items))) }
        ensures stops { IfErr result (λ f. Stops self.now.choices.now run.old (does (given_in self.now) (tree.ForAny set body.now) (focus_on focus.old.items)) f) }
        ensures focus { OnOk result (focus.new.items ≡ focus.old.items) }
    {
        let size = size_of_set(self.sizes, &set);
        let mut used = unmarked(self.alloc, size)?;
        for _turn in 0..size {
            let member = self.choose(run, size, &used)?;
            used[member as usize] = true;
            self.with_member(run, focus, set, member, body)?;
        }
        Ok(())
    }

    // As many turns as the set has members.
    #[cycle(body)]
    fn repeat(
        &self,
        run: &mut Running,
        focus: &mut Vec<Pid>,
        set: &Name,
        body: &Body,
    ) -> Result<(), SeqFault>
        ensures goes { OnOk result (Goes self.now.choices.now run.old run.new (does (given_in self.now) (tree.Repeat set.now body.now) (focus_on focus.old.items))) }
        ensures stops { IfErr result (λ f. Stops self.now.choices.now run.old (does (given_in self.now) (tree.Repeat set.now body.now) (focus_on focus.old.items)) f) }
        ensures focus { OnOk result (focus.new.items ≡ focus.old.items) }
    {
        for _turn in 0..size_of_set(self.sizes, set) {
            self.items(run, focus, body)?;
        }
        Ok(())
    }

    // The items with this member of the set in focus.
    #[cycle(body)]
    fn with_member(
        &self,
        run: &mut Running,
        focus: &mut Vec<Pid>,
        set: Name,
        member: u32,
        body: &Body,
    ) -> Result<(), SeqFault>
        ensures goes { OnOk result (Goes self.now.choices.now run.old run.new (do_all (given_in self.now) body.now (in_focus set member (focus_on focus.old.items)))) }
        ensures stops { IfErr result (λ f. Stops self.now.choices.now run.old (do_all (given_in self.now) body.now (in_focus set member (focus_on focus.old.items))) f) }
        ensures focus { OnOk result (focus.new.items ≡ focus.old.items) }
    {
        focus.push(Pid { role: set, member })?;
        self.items(run, focus, body)?;
        focus.pop();
        Ok(())
    }

    /// Does the items one after another, where these members are in focus, the innermost last.
    #[cycle(body)]
    pub fn items(
        &self,
        run: &mut Running,
        focus: &mut Vec<Pid>,
        body: &Body,
    ) -> Result<(), SeqFault>
        ensures goes { OnOk result (Goes self.now.choices.now run.old run.new (do_all (given_in self.now) body.now (focus_on focus.old.items))) }
        ensures stops { IfErr result (λ f. Stops self.now.choices.now run.old (do_all (given_in self.now) body.now (focus_on focus.old.items)) f) }
        ensures focus { OnOk result (focus.new.items ≡ focus.old.items) }
    {
        for q in &body.items {
            self.item(run, focus, q)?;
        }
        Ok(())
    }
}
