//! The tests of compound rules, by their names.
ghost use Rattle.std.specs.Prelude.{◌≡◌, ◌++◌, OnOk};
ghost use Rattle.brisk_report.specs.Printing.{fault_text};

use brisk_derivation::SideFault;
use brisk_text::put;
use brisk_values::{Name, NoMemory};

// A test that names a thread.
fn put_test_of(out: &mut Vec<u8>, test: &[u8], thread: &Name) -> Result<(), NoMemory>
    ensures { OnOk result (out.new.items ≡ out.old.items ++ (test.now ++ thread.now)) }
{
    put(out, test)?;
    put(out, thread.bytes())
}

/// Writes the name of the test that failed, and of the thread that it names.
pub(crate) fn put_fault(out: &mut Vec<u8>, fault: &SideFault) -> Result<(), NoMemory>
    ensures { OnOk result (out.new.items ≡ out.old.items ++ fault_text fault.now) }
{
    match fault {
        SideFault::TooDeep => put(out, b"TooDeep"),
        SideFault::SetIsFocused => put(out, b"SetIsFocused"),
        SideFault::MayBeEmpty => put(out, b"MayBeEmpty"),
        SideFault::OwnerUnfinished(thread) => put_test_of(out, b"OwnerUnfinished ", thread),
        SideFault::NotRestored(thread) => put_test_of(out, b"NotRestored ", thread),
        SideFault::MailChanged => put(out, b"MailChanged"),
        SideFault::FactLost => put(out, b"FactLost"),
        SideFault::MailLeft => put(out, b"MailLeft"),
        SideFault::NotQuiet => put(out, b"NotQuiet"),
        SideFault::BranchesDiffer => put(out, b"BranchesDiffer"),
        SideFault::Unfinished(thread) => put_test_of(out, b"Unfinished ", thread),
        SideFault::ManyPending => put(out, b"ManyPending"),
        SideFault::SenderNotQuiet => put(out, b"SenderNotQuiet"),
    }
}
