//! The premise of a rule that was entered, and who goes on in it where its owners are at their end.
ghost use Rattle.std.specs.Prelude.{◌≡◌};
ghost use Rattle.std.specs.List.{list_any};
ghost use Rattle.brisk_loops.specs.CloseSeen.{kind_of};
ghost use Rattle.brisk_rules.specs.Rules.{Entered, looks};
ghost use Rattle.brisk_rules.specs.Standing.{fault_aside, focus_of as focus_in, has_code as has_code_in, is_candidate, is_moved, is_not_quiet, stands_at};
ghost use Rattle.brisk_state.specs.Same.{same_code as same_tree};
ghost use Rattle.brisk_search.specs.Drives.{must_end};
ghost use Rattle.brisk_search.specs.Views.{IsBefore, IsPremiseOf, StandsLike, focus_names, seen};
ghost use Rattle.brisk_loops.specs.LeaveSeen.{Closes};

use crate::standing::has_code;
use brisk_derivation::Drops;
use brisk_loops::{Closing, Loop, Owner, Walk, is_owner, looks_at};
use brisk_state::State;
use brisk_syntax::same_code;
use brisk_values::Name;

/// The premise of a rule: how many rules stand around its rule; what its close needs; and the facts that were dropped at its
/// entry.
#[derive(Drop)]
pub(crate) struct Premise {
    pub(crate) around: usize,
    pub(crate) closing: Closing,
    pub(crate) drops: Drops,
}

/// The set in focus, where a rule has one.
pub(crate) fn focus_of(kind: &Loop) -> Option<Name>
    ensures { focus_names result ≡ focus_in (looks (kind_of kind.now)) }
{
    match kind {
        Loop::While(_, _) | Loop::Repeat(_) => None,
        Loop::For(set) | Loop::Gather(_, set, _) | Loop::Pick(set) => Some(*set),
    }
}

// One of the owners has code.
fn some_has_code(state: &State, owners: &[Owner]) -> bool
    ensures { result ≡ list_any (λ o. has_code_in state.now o.name) owners.now }
{
    for owner in owners {
        if has_code(state, owner.name) {
            return true;
        }
    }
    false
}

impl Premise {
    /// One of its owners has code.
    pub(crate) fn is_at_work(&self, state: &State) -> bool
        ensures { result ≡ list_any (λ o. has_code_in state.now o.name) self.now.closing.owners.items }
    {
        some_has_code(state, &self.closing.owners)
    }

    /// Code has to come to its end yet: that of an owner, or where there is none that of the member in focus.
    pub(crate) fn has_to_end(&self, state: &State) -> bool
        ensures { result ≡ list_any (has_code_in state.now) (must_end (seen self.now.closing)) }
    {
        if !self.closing.owners.is_empty() {
            return self.is_at_work(state);
        }
        match focus_of(&self.closing.kind) {
            None => false,
            Some(set) => has_code(state, set),
        }
    }
}

/// The thread goes on where all owners are at their end: a message pends for it that didn't pend before the rule; or it has
/// moved where the close looks at it; or it is in focus and may still send.
pub(crate) fn goes_on(
    walk: &Walk,
    premise: &Premise,
    before: &State,
    may_send: bool,
    name: Name,
) -> bool
    ensures { (r : Entered) → IsPremiseOf r premise.now walk.now.entered → may_send ≡ is_not_quiet (fault_aside r walk.now.state) → IsBefore before.now premise.now walk.now.entered → result ≡ is_candidate r walk.now.state name }
{
    let state = walk.state();
    if state.has_new_for(before, name) || has_moved(premise, before, state, name) {
        return true;
    }
    may_send && focus_of(&premise.closing.kind) == Some(name)
}

// The thread isn't where it was before, and the close looks at it.
fn has_moved(premise: &Premise, before: &State, state: &State, name: Name) -> bool
    ensures { (r : Entered) → Closes premise.now.closing r → StandsLike r before.now → result ≡ is_moved r state.now name }
{
    looks_at(&premise.closing.kind, name)
        && !is_owner(&premise.closing.owners, name)
        && !is_where_it_was(before, state, name)
}

// The thread has the same code in both states.
fn is_where_it_was(before: &State, state: &State, name: Name) -> bool
    ensures { result ≡ same_tree (stands_at before.now name) (stands_at state.now name) }
{
    match (before.code_of(name), state.code_of(name)) {
        (Some(old), Some(new)) => same_code(old, new),
        (Some(code), None) | (None, Some(code)) => code.first().is_none(),
        (None, None) => true,
    }
}
