//! The receives that a walk has come over, counted by channel.
ghost use Rattle.std.specs.Prelude.{◌≡◌, ◌+◌, ◌-◌, ◌^◌, ◌<◌, min, IfOk, OnOk};
ghost use Rattle.brisk_values.specs.Functions.{changed};
ghost use Rattle.brisk_values.specs.Names.{same_name};
ghost use Rattle.brisk_quiet.specs.Left.{taken_at};

use brisk_values::{Name, NoMemory};
use std::alloc::Global;
use std::collections::BTreeMap;

// How many messages were taken, by channel: none where the channel isn't there.
#[derive(Drop)]
pub(crate) struct Taken {
    counts: BTreeMap<Name, u64>,
}

impl Taken {
    // Nothing was taken.
    pub(crate) fn new(alloc: Global) -> Taken
        ensures { taken_at result ≡ (λ c. 0) }
    {
        Taken {
            counts: BTreeMap::new(alloc),
        }
    }

    // How many messages of the channel were taken.
    pub(crate) fn at(&self, channel: &Name) -> u64
        ensures { result ≡ taken_at self.now channel.now }
    {
        self.counts.get(channel).copied().unwrap_or(0)
    }

    // One more message of the channel was taken.
    pub(crate) fn add(&mut self, channel: &Name) -> Result<(), NoMemory>
        requires { taken_at self.old channel.now < 2 ^ 64 - 1 }
        ensures { OnOk result (taken_at self.new ≡ changed same_name (taken_at self.old) channel.now (taken_at self.old channel.now + 1)) }
    {
        let count = self.at(channel);
        self.counts.insert(*channel, count + 1)?;
        Ok(())
    }

    // The same counts.
    pub(crate) fn copy(&self) -> Result<Taken, NoMemory>
        ensures { IfOk result (λ t. taken_at t ≡ taken_at self.now) }
    {
        Ok(Taken {
            counts: self.counts.clone()?,
        })
    }

    // Keeps of each channel the lesser of the two counts.
    pub(crate) fn keep_least(&mut self, other: &Taken)
        ensures { taken_at self.new ≡ (λ c. min (taken_at self.old c) (taken_at other.now c)) }
    {
        self.counts.retain(|channel, count| {
            *count = (*count).min(other.at(channel));
            true
        });
    }
}
