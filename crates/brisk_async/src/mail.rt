//! Mail: for each sender, receiver and channel the payloads that wait, the oldest first.
ghost use Rattle.std.specs.Prelude.{◌≡◌, ◌∷◌, [], ◌++◌, OnOk, OnErr, IsTrue, ◌↔◌, IfOk, length};
ghost use Rattle.std.specs.Option.{option_copied};
ghost use Rattle.brisk_values.specs.Functions.{changed};
ghost use Rattle.brisk_async.specs.Machine.{same_queue, payload_at, without};
ghost use Rattle.brisk_async.specs.Keys.{mail_in, queue_of};
ghost use Rattle.brisk_async.specs.Ranks.{AreNumbers};

use crate::queue::{Rank, rank_in};
use brisk_syntax::Program;
use brisk_values::{Name, NoMemory, Pid, Values};
use std::alloc::Global;
use std::collections::{BTreeMap, VecDeque};
use std::marker::Model;

/// The sender, the receiver and the channel of a queue.
#[derive(Clone, Copy, Debug, PartialEq, Eq, PartialOrd, Ord)]
pub struct Key {
    pub from: Pid,
    pub to: Pid,
    pub channel: Name,
}

// The payloads of one queue, the oldest first.
#[derive(Drop)]
struct Waiting {
    payloads: VecDeque<Values>,
}

impl Model for Waiting {
    ghost use Rattle.std.specs.Prelude.{List};
    ghost use Rattle.std.specs.Coded.{coded_list};
    ghost use Rattle.brisk_values.specs.Places.{coded_value};
    ghost use Rattle.brisk_values.specs.declared.value.Value.{Value as Val};

    ghost Value = { List (List Val) };

    ghost coded = { coded_list (coded_list coded_value) };

    ghost view = { λ a. a.payloads.items };
}

impl Waiting {
    fn count(&self) -> u64
        ensures { result ≡ length self.now }
    {
        self.payloads.len() as u64
    }

    fn payload(&self, place: u32) -> Option<&Values>
        ensures { option_copied result ≡ payload_at self.now place }
    {
        let place = place as usize;
        if place < self.payloads.len() {
            Some(&self.payloads[place])
        } else {
            None
        }
    }

    fn push(&mut self, payload: Values) -> Result<(), NoMemory>
        ensures ok { OnOk result (self.new ≡ self.old ++ payload ∷ []) }
        ensures err { OnErr result (self.new ≡ self.old) }
    {
        self.payloads.push_back(payload)?;
        Ok(())
    }

    fn take(&mut self, place: u32)
        ensures { self.new ≡ without self.old place }
    {
        let place = place as usize;
        if place == 0 {
            let _oldest = self.payloads.pop_front();
        } else if place < self.payloads.len() {
            let _taken = self.payloads.remove(place);
        }
    }
}

/// The queues of a machine.
#[derive(Drop)]
pub struct Mail {
    alloc: Global,
    queues: BTreeMap<Key, Waiting>,
}

impl Model for Mail {
    ghost use Rattle.std.specs.FinMap as map;
    ghost use Rattle.brisk_async.specs.Keys.{Queues, coded_queues};

    ghost Value = { Queues };

    ghost coded = { coded_queues };

    ghost view = { λ m. map.from_entries m.queues.entries };
}

impl Mail {
    /// Empty queues.
    pub fn new(alloc: Global) -> Mail
        ensures { mail_in result ≡ (λ q. []) }
    {
        Mail {
            alloc,
            queues: BTreeMap::new(alloc),
        }
    }

    /// The payload at a place of a queue, counted from 0 at the oldest.
    pub fn payload(&self, key: &Key, place: u32) -> Option<&Values>
        ensures { option_copied result ≡ payload_at (mail_in self.now (queue_of key.now)) place }
    {
        match self.queues.get(key) {
            None => None,
            Some(waiting) => waiting.payload(place),
        }
    }

    /// Whether no payload waits in the queue.
    pub fn is_empty(&self, key: &Key) -> bool
        ensures { IsTrue result ↔ (mail_in self.now (queue_of key.now) ≡ []) }
    {
        self.payload(key, 0).is_none()
    }

    /// Puts the payload at the end of the queue.
    pub fn push(&mut self, key: &Key, payload: Values) -> Result<(), NoMemory>
        ensures ok { OnOk result (mail_in self.new ≡ changed same_queue (mail_in self.old) (queue_of key.now) (mail_in self.old (queue_of key.now) ++ payload ∷ [])) }
        ensures err { OnErr result (self.new ≡ self.old) }
    {
        if let Some(waiting) = self.queues.get_mut(key) {
            waiting.push(payload)?;
            return Ok(());
        }
        let mut payloads = VecDeque::new(self.alloc);
        payloads.push_back(payload)?;
        self.queues.insert(*key, Waiting { payloads })?;
        Ok(())
    }

    /// The number of payloads of each queue that isn't empty, by its rank in the program.
    pub fn numbers(&self, program: &Program) -> Result<BTreeMap<Rank, u64>, NoMemory>
        ensures { IfOk result (AreNumbers program.now (mail_in self.now)) }
    {
        let mut numbers = BTreeMap::new(self.alloc);
        for (key, waiting) in &self.queues {
            let number = waiting.count();
            if number > 0 {
                numbers.insert(rank_in(program, key), number)?;
            }
        }
        Ok(numbers)
    }

    /// Takes the payload at the place of the queue.
    pub fn take(&mut self, key: &Key, place: u32)
        ensures { mail_in self.new ≡ changed same_queue (mail_in self.old) (queue_of key.now) (without (mail_in self.old (queue_of key.now)) place) }
    {
        if let Some(waiting) = self.queues.get_mut(key) {
            return waiting.take(place);
        }
    }
}
