//! What facts are worth: a law of the definitions. The function does nothing.

ghost use Rattle.brisk_facts.specs.Laws.{FoldIsValue};

/// A folded value is the expression's value in each store that agrees with the facts.
pub fn fold_is_value()
    ensures { FoldIsValue }
{}
