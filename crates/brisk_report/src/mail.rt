//! The messages that pend, in order of declaration.
ghost use Rattle.std.specs.Prelude.{◌≡◌, ◌++◌, IfOk, OnOk, filter};
ghost use Rattle.brisk_values.specs.Names.{same_name};
ghost use Rattle.brisk_report.specs.Printing.{channel_text, channels_text, ends_text, mail_text, message_line, receivers_text};

use brisk_state::Pending;
use brisk_syntax::Program;
use brisk_text::{put, put_number};
use brisk_values::{Name, NoMemory};
use std::alloc::Global;

// From where to where a message goes.
#[tactic(auto, unfolding(crate::specs::Printing::ends_text))]
fn put_ends(out: &mut Vec<u8>, message: &Pending) -> Result<(), NoMemory>
    ensures { OnOk result (out.new.items ≡ out.old.items ++ ends_text message.now) }
{
    put(out, b"mail ")?;
    put(out, message.from.bytes())?;
    put(out, b" to ")?;
    put(out, message.to.bytes())
}

fn put_message(out: &mut Vec<u8>, message: &Pending) -> Result<(), NoMemory>
    ensures { OnOk result (out.new.items ≡ out.old.items ++ message_line message.now) }
{
    put_ends(out, message)?;
    put(out, b" ")?;
    put(out, message.channel.bytes())?;
    put(out, b" box ")?;
    put_number(out, u64::from(message.number))?;
    put(out, b"\n")
}

// Those of the messages that are on this channel.
fn put_channel(out: &mut Vec<u8>, messages: &[Pending], channel: &Name) -> Result<(), NoMemory>
    ensures { OnOk result (out.new.items ≡ out.old.items ++ channel_text messages.now channel.now) }
{
    for message in messages {
        if *channel == message.channel {
            put_message(out, message)?;
        }
    }
    Ok(())
}

// Messages from one thread to another.
fn put_channels(out: &mut Vec<u8>, program: &Program, messages: &[Pending]) -> Result<(), NoMemory>
    ensures { OnOk result (out.new.items ≡ out.old.items ++ channels_text program.now messages.now) }
{
    if messages.is_empty() {
        return Ok(());
    }
    for channel in &program.channels.items {
        put_channel(out, messages, &channel.name)?;
    }
    Ok(())
}

fn sent_to(alloc: Global, messages: &[Pending], to: &Name) -> Result<Vec<Pending>, NoMemory>
    ensures { IfOk result (λ v. v.items ≡ filter (λ m. same_name to.now m.to) messages.now) }
{
    Ok(
        messages
            .iter()
            .filter(|message| *to == message.to)
            .copied()
            .collect(alloc)?,
    )
}

fn sent_from(alloc: Global, messages: &[Pending], from: &Name) -> Result<Vec<Pending>, NoMemory>
    ensures { IfOk result (λ v. v.items ≡ filter (λ m. same_name from.now m.from) messages.now) }
{
    Ok(
        messages
            .iter()
            .filter(|message| *from == message.from)
            .copied()
            .collect(alloc)?,
    )
}

// Messages from one thread.
fn put_receivers(
    alloc: Global,
    out: &mut Vec<u8>,
    program: &Program,
    messages: &[Pending],
) -> Result<(), NoMemory>
    ensures { OnOk result (out.new.items ≡ out.old.items ++ receivers_text program.now messages.now) }
{
    if messages.is_empty() {
        return Ok(());
    }
    for receiver in &program.roles.items {
        let sent = sent_to(alloc, messages, &receiver.name)?;
        put_channels(out, program, &sent)?;
    }
    Ok(())
}

/// Writes a line for each message, by sender, receiver and channel in order of declaration.
pub(crate) fn put_mail(
    alloc: Global,
    out: &mut Vec<u8>,
    program: &Program,
    messages: &[Pending],
) -> Result<(), NoMemory>
    ensures { OnOk result (out.new.items ≡ out.old.items ++ mail_text program.now messages.now) }
{
    for sender in &program.roles.items {
        put_receivers(
            alloc,
            out,
            program,
            &sent_from(alloc, messages, &sender.name)?,
        )?;
    }
    Ok(())
}
