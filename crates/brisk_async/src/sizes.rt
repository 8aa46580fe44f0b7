//! A copy of sizes, for a machine to keep.
ghost use Rattle.std.specs.Prelude.{◌≡◌, IfOk};

use brisk_values::{NoMemory, Sizes};
use std::alloc::Global;

/// The same sizes.
pub fn copy_sizes(alloc: Global, sizes: &Sizes) -> Result<Sizes, NoMemory>
    ensures { IfOk result (λ s. s ≡ sizes.now) }
{
    Ok(Sizes {
        items: Vec::from_slice(alloc, &sizes.items)?,
    })
}
