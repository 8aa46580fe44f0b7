//! Reports: how far a program was rewritten, and what was tried where that stops.
use crate::fault::SideFault;
use crate::steps::{Step, Steps};
use std::marker::Model;

/// Why a program isn't rewritten further. The steps lead from the start to a state that is stuck: code is left, no
/// basic rule applies there, and each compound rule that might was tried.
#[derive(Drop)]
pub struct Report {
    pub steps: Steps,
    pub tries: Tries,
}

/// What was tried in a stuck state: compound rules, one after another.
#[cycle(tries)]
#[derive(Drop)]
pub struct Tries {
    pub items: Vec<Try>,
}

impl Model for Tries {
    ghost use Rattle.brisk_derivation.specs.Reports.{Tries};
    ghost use Rattle.brisk_derivation.specs.TriesStored.{coded_tries};

    ghost Value = { Tries };

    ghost coded = { coded_tries };

    ghost use Rattle.brisk_derivation.specs.TriesSeen.{tries_of};

    ghost view = { λ a. tries_of a.items.items };

    ghost use Rattle.brisk_derivation.specs.TriesDepths.{tries_depth};

    ghost size = { tries_depth };

    ghost use Rattle.brisk_derivation.specs.TriesFalls.{deep_le-tries_depth};

    ghost size_decreases = { λ a h. deep_le-tries_depth a.items.items };
}

/// One try: a compound rule, and where it came to. The rule's own steps, or those of its sides, are the steps that were
/// taken in the try. A side that wasn't begun has none.
#[cycle(tries)]
#[derive(Drop)]
pub struct Try {
    pub rule: Step,
    pub end: TryEnd,
}

/// How a try ends.
#[cycle(tries)]
#[derive(Drop)]
pub enum TryEnd {
    /// This is the test that fails first: at the entry, and then no step was taken, or at the close, to which the steps
    /// lead.
    Fails(SideFault),
    /// The steps lead from the start of the premise, which of a branch is that of its first side, to a state that is
    /// stuck in its turn; these are the tries there.
    StuckFirst(Tries),
    /// For a branch alone: its first side was done, and the steps of the second lead to a state that is stuck. These are
    /// the tries there.
    StuckSecond(Tries),
}
