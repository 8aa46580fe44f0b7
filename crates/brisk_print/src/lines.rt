//! Lines and their indentation.
ghost use Rattle.std.specs.Prelude.{◌≡◌, ◌++◌, IfOk, OnOk};
ghost use Rattle.brisk_print.specs.Layout as layout;

use brisk_text::put;
use brisk_values::NoMemory;
use std::alloc::Global;

pub fn put_line(out: &mut Vec<u8>, margin: &[u8], text: &[u8]) -> Result<(), NoMemory>
    ensures { OnOk result (out.new.items ≡ out.old.items ++ layout.line margin.now text.now) }
{
    put(out, margin)?;
    put(out, text)?;
    put(out, b"\n")
}

/// The indentation of the next level.
pub fn deeper(alloc: Global, margin: &[u8]) -> Result<Vec<u8>, NoMemory>
    ensures { IfOk result (λ v. v.items ≡ layout.deeper margin.now) }
{
    let mut inner = Vec::from_slice(alloc, margin)?;
    put(&mut inner, b"  ")?;
    Ok(inner)
}
