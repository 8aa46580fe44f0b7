//! The parts of a text of the second format.
ghost use Rattle.std.specs.Prelude.{◌≡◌, length};
ghost use Rattle.brisk_derivtext.specs.Texts.{lines_of, text_of_lines};

use brisk_derivation::Steps;
use brisk_values::Name;

/// A part that has ended.
#[derive(Drop)]
pub struct Part {
    pub name: Name,
    pub steps: Steps,
    /// The number of bytes of its lines in format 1.
    pub bytes: u64,
    ghost counted: { bytes ≡ length (text_of_lines (lines_of steps)) },
}
