//! Whether a process has an event, without looking for one.
ghost use Rattle.std.specs.Prelude.{◌≡◌, ◌↔◌, ◌<◌, ℕ, [], IsTrue};
ghost use Rattle.brisk_values.specs.Names.{member as member_of};
ghost use Rattle.brisk_syntax.specs.Segments.{head_of};
ghost use Rattle.brisk_syntax.specs.Value.{size_in};
ghost use Rattle.brisk_async.specs.Blocked.{IsBlocked};
ghost use Rattle.brisk_async.specs.Keys.{mail_in};
ghost use Rattle.brisk_async.specs.Machine.{queue};

use crate::effect::partner;
use crate::mail::{Key, Mail};
use brisk_syntax::{Code, Stmt, size_of_set};
use brisk_values::{Name, Pid, Sizes};

// Whether no member of the set has sent the process a payload that waits.
fn none_waits(mail: &Mail, set: &Name, size: u32, process: &Pid, channel: &Name) -> bool
    ensures { IsTrue result ↔ ((k : ℕ) → k < size → mail_in mail.now (queue (member_of set.now k) process.now channel.now) ≡ []) }
{
    for member in 0..size {
        let from = Pid { role: *set, member };
        let key = Key {
            from,
            to: *process,
            channel: *channel,
        };
        if !mail.is_empty(&key) {
            return false;
        }
    }
    true
}

/// Whether a process with this code has no event.
pub fn is_blocked(sizes: &Sizes, mail: &Mail, process: &Pid, code: &Code) -> bool
    ensures { IsTrue result ↔ IsBlocked (size_in sizes.now) (mail_in mail.now) process.now (head_of code.now) }
{
    match code.first() {
        None => true,
        Some(Stmt::Recv(channel, _, from)) => mail.is_empty(&Key {
            from: partner(from),
            to: *process,
            channel: *channel,
        }),
        Some(Stmt::RecvAny(any)) => {
            let size = size_of_set(sizes, &any.set);
            none_waits(mail, &any.set, size, process, &any.channel)
        }
        Some(_) => false,
    }
}
