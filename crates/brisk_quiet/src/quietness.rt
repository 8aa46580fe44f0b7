//! The quiet test.
ghost use Rattle.std.specs.Prelude.{◌≡◌, IfOk};
ghost use Rattle.brisk_quiet.specs.Quiet.{quiet as quietness};

use crate::partner::partner;
use crate::question::Question;
use crate::stillness::Stillness;
use crate::taken::Taken;
use crate::walk::in_code;
use brisk_state::State;
use brisk_syntax::Code;
use brisk_values::{Name, NoMemory};
use std::alloc::Global;

/// Whether a member that stands at this code sends on the channel before it waits for the receiver, where the messages
/// of the state pend. A send to whomever counts. A loop counts where its body sends, and takes no message.
pub fn quiet(
    alloc: Global,
    code: &Code,
    member: Name,
    receiver: Name,
    channel: Name,
    state: &State,
) -> Result<Stillness, NoMemory>
    ensures { IfOk result (λ s. s ≡ quietness state.now code.now member receiver channel) }
{
    let partner = partner(state.threads(), &receiver);
    let asked = Question {
        state,
        member,
        receiver,
        channel,
    };
    let mut taken = Taken::new(alloc);
    in_code(&asked, &partner, code, &mut taken)
}
