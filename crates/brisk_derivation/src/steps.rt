//! Derivations: steps by basic and by compound rules.
use brisk_syntax::Names;
use brisk_values::Name;
use std::marker::Model;

/// What is known of a variable of a role.
#[derive(Clone, Copy, Debug, PartialEq, Eq)]
pub struct Fact {
    pub at: Name,
    pub variable: Name,
}

/// The facts that a rule drops.
#[derive(Drop)]
pub struct Drops {
    pub items: Vec<Fact>,
}

impl Model for Drops {
    ghost use Rattle.std.specs.Prelude.{List};
    ghost use Rattle.brisk_derivation.specs.declared.steps.Fact.{Fact};

    ghost Value = { List Fact };

    ghost view = { λ a. a.items.items };
}

/// A step by a basic rule. Of `Fill`, `Pass` and `Take` the first two names are those of the sender and the receiver, and
/// the third is that of the channel.
#[derive(Clone, Copy, Debug, PartialEq, Eq)]
pub enum BasicStep {
    Assign(Name),
    /// With the number of the box.
    Fill(Name, Name, Name, u32),
    Pass(Name, Name, Name),
    Take(Name, Name, Name),
    Known(Name),
}

/// A derivation, or the steps of a premise: steps one after another.
#[cycle(steps)]
#[derive(Drop)]
pub struct Steps {
    pub items: Vec<Step>,
}

impl Model for Steps {
    ghost use Rattle.brisk_derivation.specs.Steps.{Steps};
    ghost use Rattle.brisk_derivation.specs.Stored.{coded_steps};

    ghost Value = { Steps };

    ghost coded = { coded_steps };

    ghost use Rattle.brisk_derivation.specs.Seen.{steps_of};

    ghost view = { λ a. steps_of a.items.items };

    ghost use Rattle.brisk_derivation.specs.Depths.{steps_depth};

    ghost size = { steps_depth };

    ghost use Rattle.brisk_derivation.specs.Falls.{deep_le-steps_depth};

    ghost size_decreases = { λ a h. deep_le-steps_depth a.items.items };
}

/// One step: a basic rule, or a compound rule with the steps of its premise, or of its two sides.
#[cycle(steps)]
#[derive(Drop)]
pub enum Step {
    Basic(BasicStep),
    Branch(Name, Steps, Steps),
    While(Name, Drops, Steps),
    /// The set, and the owners in the order named.
    For(Name, Names, Drops, Steps),
    Repeat(Name, Drops, Steps),
    Gather(Name, Drops, Steps),
    Pick(Name, Drops, Steps),
}
