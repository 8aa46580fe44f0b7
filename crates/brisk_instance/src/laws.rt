//! What holds of instances as they are given.

ghost use Rattle.brisk_instance.specs.Ordered.{FittingIsOrdered, OrderedFits};

/// What is given entry by entry, in order, fits.
pub fn ordered_fits()
    ensures { OrderedFits }
{}

/// What fits is given entry by entry, in order.
pub fn fitting_is_ordered()
    ensures { FittingIsOrdered }
{}
