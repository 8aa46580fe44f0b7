//! The line of a derivation that isn't valid.
ghost use Rattle.std.specs.Prelude.{◌≡◌, ◌++◌, IfOk, OnOk, Some};
ghost use Rattle.brisk_report.specs.Printing.{fault_text};
ghost use Rattle.brisk_cli.specs.Lines.{invalid_line, rule_text, why_text};

use crate::answer::Answer;
use crate::status::Status;
use brisk_basic::RuleFault;
use brisk_derivation::SideFault;
use brisk_loops::Why;
use brisk_text::{put, put_number};
use brisk_values::{Name, NoMemory};
use std::alloc::Global;

// The name of a test of a basic rule.
fn rule_name(fault: RuleFault) -> Result<&'static str, NoMemory>
    ensures { IfOk result (λ s. rule_text fault ≡ Some s.now) }
{
    match fault {
        RuleFault::NoThread => Ok("NoThread"),
        RuleFault::WrongHead => Ok("WrongHead"),
        RuleFault::BoxInUse => Ok("BoxInUse"),
        RuleFault::AlreadyPending => Ok("AlreadyPending"),
        RuleFault::NothingPending => Ok("NothingPending"),
        RuleFault::NotKnown => Ok("NotKnown"),
        RuleFault::NoMemory => Err(NoMemory),
    }
}

// Writes the name of a test and that of the thread.
fn put_with(out: &mut Vec<u8>, test: &[u8], thread: Name) -> Result<(), NoMemory>
    ensures { OnOk result (out.new.items ≡ out.old.items ++ (test.now ++ thread)) }
{
    put(out, test)?;
    put(out, thread.bytes())
}

// Writes the name of a test that isn't one of a basic rule's own.
fn put_side(out: &mut Vec<u8>, fault: SideFault) -> Result<(), NoMemory>
    ensures { OnOk result (out.new.items ≡ out.old.items ++ fault_text fault) }
{
    match fault {
        SideFault::TooDeep => put(out, b"TooDeep"),
        SideFault::SetIsFocused => put(out, b"SetIsFocused"),
        SideFault::MayBeEmpty => put(out, b"MayBeEmpty"),
        SideFault::OwnerUnfinished(thread) => put_with(out, b"OwnerUnfinished ", thread),
        SideFault::NotRestored(thread) => put_with(out, b"NotRestored ", thread),
        SideFault::MailChanged => put(out, b"MailChanged"),
        SideFault::FactLost => put(out, b"FactLost"),
        SideFault::MailLeft => put(out, b"MailLeft"),
        SideFault::NotQuiet => put(out, b"NotQuiet"),
        SideFault::BranchesDiffer => put(out, b"BranchesDiffer"),
        SideFault::Unfinished(thread) => put_with(out, b"Unfinished ", thread),
        SideFault::ManyPending => put(out, b"ManyPending"),
        SideFault::SenderNotQuiet => put(out, b"SenderNotQuiet"),
    }
}

// The name of the test that failed, and the thread that it names.
fn why_bytes(alloc: Global, why: Why) -> Result<Vec<u8>, NoMemory>
    ensures { IfOk result (λ w. why_text why ≡ Some w.items) }
{
    let mut text = Vec::new(alloc);
    match why {
        Why::Rule(fault) => put(&mut text, rule_name(fault)?.as_bytes())?,
        Why::Side(fault) => put_side(&mut text, fault)?,
    }
    Ok(text)
}

/// The answer for a derivation that isn't valid: this test is the first that fails, at this line.
pub fn invalid(alloc: Global, line: u64, why: Why) -> Result<Answer, NoMemory>
    ensures { IfOk result (λ a. (a.status ≡ Status.Refused) × (invalid_line line why ≡ Some a.text.items)) }
{
    let why = why_bytes(alloc, why)?;
    let mut text = Vec::new(alloc);
    put(&mut text, b"invalid ")?;
    put_number(&mut text, line)?;
    put(&mut text, b" ")?;
    put(&mut text, &why)?;
    put(&mut text, b"\n")?;
    Ok(Answer {
        status: Status::Refused,
        text,
    })
}
