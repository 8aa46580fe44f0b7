//! What the threads have left to do.
ghost use Rattle.std.specs.Prelude.{◌≡◌, ◌++◌, OnOk};
ghost use Rattle.brisk_report.specs.Printing.{left_line, left_text};

use brisk_print::print_head;
use brisk_state::Thread;
use brisk_text::put;
use brisk_values::NoMemory;
use std::alloc::Global;

// The line of a thread, if it has code left.
fn put_thread(alloc: Global, out: &mut Vec<u8>, thread: &Thread) -> Result<(), NoMemory>
    ensures { OnOk result (out.new.items ≡ out.old.items ++ left_line thread.now.name thread.now.code) }
{
    let Some(head) = thread.code.first() else {
        return Ok(());
    };
    put(out, b"left ")?;
    put(out, thread.name.bytes())?;
    put(out, b": ")?;
    put(out, &print_head(alloc, head)?)?;
    put(out, b"\n")
}

/// Writes a line for each thread that has code left.
pub(crate) fn put_left(alloc: Global, out: &mut Vec<u8>, threads: &[Thread]) -> Result<(), NoMemory>
    ensures { OnOk result (out.new.items ≡ out.old.items ++ left_text threads.now) }
{
    for thread in threads {
        put_thread(alloc, out, thread)?;
    }
    Ok(())
}
