//! The laws of walks. The functions do nothing.

ghost use Rattle.brisk_loops.specs.WalkKept.{KeptDerives};
ghost use Rattle.brisk_loops.specs.WalkLaws.{BackUndoes, WalkApplies, WalkDerives, WalkIsValid};

/// The calls of a derivation, made in order on a walk, give its sequential program, or what fails first at the same line.
pub fn walk_derives()
    ensures { WalkDerives }
{}

/// They apply as many rules as the derivation has steps.
pub fn walk_applies()
    ensures { WalkApplies }
{}

/// Giving up a rule that was entered, after steps in it, undoes what was done since.
pub fn back_undoes()
    ensures { BackUndoes }
{}

/// A walk that comes to its end, by whatever calls, has the sequential program of a valid derivation.
pub fn walk_is_valid()
    ensures { WalkIsValid }
{}

/// The same of walks whose numbers stay at the greatest `u64` where they would pass it.
pub fn kept_derives()
    ensures { KeptDerives }
{}
