//! How the quiet test comes out.

/// What a member's code does first, for a receiver and a channel.
#[derive(Clone, Copy, Debug, PartialEq, Eq)]
pub enum Stillness {
    /// It waits for the receiver before it sends on the channel.
    Blocks,
    /// It comes to its end and doesn't send on the channel.
    Ends,
    /// It may send on the channel before it waits for the receiver.
    Sends,
}
