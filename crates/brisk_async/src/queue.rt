//! Queues as they are told, and the order in which they are.
ghost use Rattle.std.specs.Prelude.{◌≡◌, IfOk, map};
ghost use Rattle.std.specs.BTreeMap.{IsOrdered};
ghost use Rattle.std.specs.List.{position_or_len};
ghost use Rattle.brisk_values.specs.Names.{same_name};
ghost use Rattle.brisk_async.specs.InOrder.{process_place as place_of, rank as rank_of, rank_cmp};
ghost use Rattle.brisk_async.specs.Keys.{queue_of};
ghost use Rattle.brisk_async.specs.Ranks.{told_by};

use crate::mail::Key;
use brisk_syntax::{Channels, Program, Roles};
use brisk_values::{Name, NoMemory, Pid};
use std::alloc::Global;
use std::collections::BTreeMap;

/// A queue, and how many messages wait in it.
#[derive(Clone, Copy, Debug, PartialEq, Eq)]
pub struct Queue {
    pub from: Pid,
    pub to: Pid,
    pub channel: Name,
    pub length: u64,
}

/// What queues are ordered by: the places of the sender, the receiver and the channel, and last the key.
#[derive(Clone, Copy, Debug, PartialEq, Eq, PartialOrd, Ord)]
pub struct Rank {
    pub from: (usize, u32),
    pub to: (usize, u32),
    pub channel: usize,
    pub key: Key,
}

// The place of a role, and behind all of them where there is none of this name.
fn role_place(roles: &Roles, name: &Name) -> usize
    ensures { result ≡ position_or_len (λ r. same_name name.now r.name) roles.now }
{
    for (k, role) in roles.items.iter().enumerate() {
        if *name == role.name {
            return k;
        }
    }
    roles.items.len()
}

// The place of a channel, and behind all of them where there is none of this name.
fn channel_place(channels: &Channels, name: &Name) -> usize
    ensures { result ≡ position_or_len (λ c. same_name name.now c.name) channels.now }
{
    for (k, channel) in channels.items.iter().enumerate() {
        if *name == channel.name {
            return k;
        }
    }
    channels.items.len()
}

fn process_place(program: &Program, process: &Pid) -> (usize, u32)
    ensures { result ≡ place_of program.now process.now }
{
    (role_place(&program.roles, &process.role), process.member)
}

/// The rank of a queue in a program.
pub fn rank_in(program: &Program, key: &Key) -> Rank
    ensures { result ≡ rank_of program.now (queue_of key.now) }
{
    Rank {
        from: process_place(program, &key.from),
        to: process_place(program, &key.to),
        channel: channel_place(&program.channels, &key.channel),
        key: *key,
    }
}

/// The queues of these ranks, in order.
pub fn told(alloc: Global, numbers: &BTreeMap<Rank, u64>) -> Result<Vec<Queue>, NoMemory>
    ensures told { IfOk result (λ qs. qs.items ≡ map told_by numbers.now.entries) }
    ensures ordered { IsOrdered rank_cmp numbers.now }
{
    let mut queues = Vec::new(alloc);
    for (rank, number) in numbers {
        queues.push(Queue {
            from: rank.key.from,
            to: rank.key.to,
            channel: rank.key.channel,
            length: *number,
        })?;
    }
    Ok(queues)
}
