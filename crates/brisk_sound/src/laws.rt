//! The laws of the rules. The functions do nothing.

ghost use Rattle.brisk_sound.specs.Does.{EndsAreDone};
ghost use Rattle.brisk_sound.specs.Laws.{NoBadBox, UnfoldingReachesTheStore, ValidIsFaithful, ValidIsWellTyped};

/// Soundness: the sequential program of each valid derivation does what the processes do, for every size and all inputs.
pub fn valid_is_faithful()
    ensures { ValidIsFaithful }
{}

/// The sequential program of each valid derivation of a well-typed program is well typed.
pub fn valid_is_well_typed()
    ensures { ValidIsWellTyped }
{}

/// The canonical schedule of a valid derivation leads to a halted state, with the store that the sequential program gives on
/// the same choices. So each store with which the program halts has a schedule that anyone can run.
pub fn unfolding_reaches_the_store()
    ensures { UnfoldingReachesTheStore }
{}

/// The sequential program of a valid derivation never stops at a box.
pub fn no_bad_box()
    ensures { NoBadBox }
{}

/// The stores with which a sequential program halts are those to which its items can lead, whatever the choices.
pub fn ends_are_done()
    ensures { EndsAreDone }
{}
