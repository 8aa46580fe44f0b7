//! Whether a basic rule applies, without applying it.
ghost use Rattle.std.specs.Prelude.{◌≡◌};
ghost use Rattle.brisk_basic.specs.Basic.{apply as applied};
ghost use Rattle.brisk_basic.specs.Steps.{fault_of};
ghost use Rattle.brisk_basic.specs.declared.rule.Basic.TheVariants as rule_is;

use crate::heads::{active, assigns, guard, receives, sends};
use crate::rule::{Basic, RuleFault};
use crate::rules::GREATEST;
use brisk_state::State;
use brisk_values::Name;

/// The first of the rule's tests that fails, if one does. Takes no memory.
pub fn refusal(state: &State, rule: &Basic) -> Option<RuleFault>
    ensures { result ≡ fault_of (applied state.now rule.now) }
{
    match rule {
        Basic::Assign(t) => assign(state, *t),
        Basic::Fill(t, u, c, n) => fill(state, *t, *u, *c, *n),
        Basic::Pass(t, u, c) => pass(state, *t, *u, *c),
        Basic::Take(t, u, c) => take(state, *t, *u, *c),
        Basic::Known(t) => known(state, *t),
    }
}

fn assign(state: &State, t: Name) -> Option<RuleFault>
    ensures { result ≡ fault_of (applied state.now (rule_is.Assign t)) }
{
    let Some(code) = active(state, t) else {
        return Some(RuleFault::NoThread);
    };
    match assigns(code) {
        None => Some(RuleFault::WrongHead),
        Some(_) => None,
    }
}

fn fill(state: &State, t: Name, u: Name, c: Name, n: u32) -> Option<RuleFault>
    ensures { result ≡ fault_of (applied state.now (rule_is.Fill t u c n)) }
{
    let Some(code) = active(state, t) else {
        return Some(RuleFault::NoThread);
    };
    let Some(_) = sends(state, u, c, code) else {
        return Some(RuleFault::WrongHead);
    };
    if n == 0 || n > GREATEST || state.in_use(n) {
        return Some(RuleFault::BoxInUse);
    }
    None
}

fn pass(state: &State, t: Name, u: Name, c: Name) -> Option<RuleFault>
    ensures { result ≡ fault_of (applied state.now (rule_is.Pass t u c)) }
{
    let Some(code) = active(state, t) else {
        return Some(RuleFault::NoThread);
    };
    let Some(other) = active(state, u) else {
        return Some(RuleFault::NoThread);
    };
    let Some(_) = sends(state, u, c, code) else {
        return Some(RuleFault::WrongHead);
    };
    let Some(_) = receives(state, t, c, other) else {
        return Some(RuleFault::WrongHead);
    };
    match state.oldest(t, u, c) {
        None => None,
        Some(_) => Some(RuleFault::AlreadyPending),
    }
}

fn take(state: &State, t: Name, u: Name, c: Name) -> Option<RuleFault>
    ensures { result ≡ fault_of (applied state.now (rule_is.Take t u c)) }
{
    let Some(code) = active(state, u) else {
        return Some(RuleFault::NoThread);
    };
    let Some(_) = receives(state, t, c, code) else {
        return Some(RuleFault::WrongHead);
    };
    match state.oldest(t, u, c) {
        None => Some(RuleFault::NothingPending),
        Some(_) => None,
    }
}

fn known(state: &State, t: Name) -> Option<RuleFault>
    ensures { result ≡ fault_of (applied state.now (rule_is.Known t)) }
{
    let Some(code) = active(state, t) else {
        return Some(RuleFault::NoThread);
    };
    let Some(e) = guard(code) else {
        return Some(RuleFault::WrongHead);
    };
    match state.facts().fold(t, e) {
        None => Some(RuleFault::NotKnown),
        Some(_) => None,
    }
}
