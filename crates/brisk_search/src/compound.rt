//! The compound rules with one premise that are tried at a thread's head.
ghost use Rattle.std.specs.Prelude.{◌≡◌, ◌∷◌, [], map, IfOk};
ghost use Rattle.brisk_derivation.specs.Seen.{step_of};
ghost use Rattle.brisk_derivation.specs.Steps.{Branch, no_steps};
ghost use Rattle.brisk_rules.specs.Following.{Follow};
ghost use Rattle.brisk_state.specs.Symbolic.{Symbolic};
ghost use Rattle.brisk_syntax.specs.declared.program.Program.{Program};
ghost use Rattle.brisk_search.specs.Views.{next_rules, rule_seen, with_premise};

use crate::standing::{Head, threads_at};
use brisk_derivation::{Drops, Step, Steps};
use brisk_state::State;
use brisk_syntax::Names;
use brisk_values::{Name, NoMemory};
use std::alloc::Global;

/// Which rule.
#[derive(Clone, Copy)]
pub(crate) enum Kind {
    While,
    /// Over this set.
    For(Name),
    Repeat,
    Gather,
    Pick,
}

/// A rule that is tried: the thread at whose head, or the set over which; its kind; and its owners.
#[derive(Drop)]
pub(crate) struct Compound {
    pub(crate) at: Name,
    pub(crate) kind: Kind,
    pub(crate) owners: Vec<Name>,
}

/// The compound rules with one premise that a thread or a set tries, in order.
pub(crate) fn rules_of(
    alloc: Global,
    state: &State,
    name: Name,
    head: &Head,
) -> Result<Vec<Compound>, NoMemory>
    ensures { (P : Program) (F : Follow) → IfOk result (λ v. map (rule_seen P F state.now) v.items ≡ next_rules P F state.now name head.now) }
{
    let mut rules = Vec::new(alloc);
    match head {
        Head::While(false) => rules.push(Compound::at(alloc, name, Kind::While)?)?,
        Head::Repeat => {
            rules.push(Compound::at(alloc, name, Kind::Gather)?)?;
            rules.push(Compound::at(alloc, name, Kind::Repeat)?)?;
        }
        Head::ReceiveAny => rules.push(Compound::at(alloc, name, Kind::Pick)?)?,
        Head::Alone => rules.push(Compound {
            at: name,
            kind: Kind::For(name),
            owners: Vec::new(alloc),
        })?,
        Head::For(set) => {
            rules.push(Compound::at(alloc, name, Kind::For(*set))?)?;
            let owners = threads_at(alloc, state, *set)?;
            if owners.len() > 1 {
                rules.push(Compound {
                    at: name,
                    kind: Kind::For(*set),
                    owners,
                })?;
            }
        }
        _ => {}
    }
    Ok(rules)
}

impl Compound {
    // A rule whose owner is the thread at whose head it is tried.
    fn at(alloc: Global, name: Name, kind: Kind) -> Result<Compound, NoMemory>
        ensures { IfOk result (λ c. (c.at ≡ name) × (c.kind ≡ kind) × (c.owners.items ≡ name ∷ [])) }
    {
        Ok(Compound {
            at: name,
            kind,
            owners: Vec::from_slice(alloc, &[name])?,
        })
    }

    /// Its step, without own steps yet.
    pub(crate) fn step(&self, alloc: Global, drops: &Drops) -> Result<Step, NoMemory>
        ensures { (P : Program) (F : Follow) (S : Symbolic) → IfOk result (λ s. step_of s ≡ (rule_seen P F S self.now).step drops.now no_steps) }
    {
        let drops = Drops {
            items: Vec::from_slice(alloc, &drops.items)?,
        };
        let none = Steps {
            items: Vec::new(alloc),
        };
        match self.kind {
            Kind::While => Ok(Step::While(self.at, drops, none)),
            Kind::For(set) => {
                let owners = Names {
                    items: Vec::from_slice(alloc, &self.owners)?,
                };
                Ok(Step::For(set, owners, drops, none))
            }
            Kind::Repeat => Ok(Step::Repeat(self.at, drops, none)),
            Kind::Gather => Ok(Step::Gather(self.at, drops, none)),
            Kind::Pick => Ok(Step::Pick(self.at, drops, none)),
        }
    }
}

/// The step with these own steps in its premise.
pub(crate) fn with_steps(step: Step, premise: Steps) -> Step
    ensures { step_of result ≡ with_premise (step_of step) premise }
{
    match step {
        Step::While(name, drops, _) => Step::While(name, drops, premise),
        Step::For(set, owners, drops, _) => Step::For(set, owners, drops, premise),
        Step::Repeat(name, drops, _) => Step::Repeat(name, drops, premise),
        Step::Gather(name, drops, _) => Step::Gather(name, drops, premise),
        Step::Pick(name, drops, _) => Step::Pick(name, drops, premise),
        step => step,
    }
}

/// The step of a branch, without own steps yet.
pub(crate) fn branch_of(alloc: Global, name: Name) -> Step
    ensures { step_of result ≡ Branch name no_steps no_steps }
{
    let first = Steps {
        items: Vec::new(alloc),
    };
    let second = Steps {
        items: Vec::new(alloc),
    };
    Step::Branch(name, first, second)
}
