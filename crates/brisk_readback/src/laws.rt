//! What holds of the layouts.
ghost use Rattle.brisk_readback.specs.Laws.{LayoutDenotes, LayoutIsSpelled, LayoutsDiffer, SequenceLayoutDenotes, SequenceLayoutIsSpelled, SequenceLayoutsDiffer};

/// The tokens of a program's layout are its spelling. So a layout denotes its program, and programs that differ have
/// layouts that differ.
pub fn program_layouts()
    ensures spelled { LayoutIsSpelled }
    ensures denotes { LayoutDenotes }
    ensures differ { LayoutsDiffer }
{}

/// So it is with sequential programs.
pub fn sequential_layouts()
    ensures spelled { SequenceLayoutIsSpelled }
    ensures denotes { SequenceLayoutDenotes }
    ensures differ { SequenceLayoutsDiffer }
{}
