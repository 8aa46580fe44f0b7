//! What a walk asks.
ghost use Rattle.std.specs.Prelude.{◌≡◌};
ghost use Rattle.brisk_quiet.specs.Left.{number_in};

use brisk_state::State;
use brisk_values::Name;

// Whether a member sends on a channel before it waits for the receiver.
#[derive(Clone, Copy)]
pub(crate) struct Question<'a> {
    pub(crate) state: &'a State,
    pub(crate) member: Name,
    pub(crate) receiver: Name,
    pub(crate) channel: Name,
}

impl<'a> Question<'a> {
    // How many messages pend from the receiver to the member on a channel.
    pub(crate) fn number(&self, channel: &Name) -> u64
        ensures { result ≡ number_in self.now channel.now }
    {
        self.state.count(self.receiver, self.member, *channel)
    }
}
