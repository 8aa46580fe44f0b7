//! Messages that pend, the keys under which they pend, and the numbers under one key.
ghost use Rattle.std.specs.Prelude.{◌≡◌, ◌∷◌, [], ◌++◌, drop, length, map, not, slice_get, OnOk, OnErr};
ghost use Rattle.std.specs.List.{list_any};
ghost use Rattle.std.specs.Cmp.{partial_equiv_from_equiv};
ghost use Rattle.std.proofs.lemmas.Cmp.{nat_list_eq_equiv};
ghost use Rattle.std.specs.Prelude.{nat_eq};
ghost use lib.Pointwise.{pointwise};
ghost use Rattle.brisk_state.specs.Pending.{message};

use brisk_values::{Name, NoMemory};
use std::alloc::{AllocError, Global};
use std::collections::VecDeque;
use std::marker::Model;

/// A message that pends, with the number of its box.
#[derive(Clone, Copy, Debug, PartialEq, Eq)]
pub struct Pending {
    pub from: Name,
    pub to: Name,
    pub channel: Name,
    pub number: u32,
}

// Under which a message pends.
#[derive(Clone, Copy, PartialEq, Eq, PartialOrd, Ord)]
pub(crate) struct Key {
    pub(crate) from: Name,
    pub(crate) to: Name,
    pub(crate) channel: Name,
}

impl Model for Key {
    ghost use Rattle.brisk_state.specs.Symbolic.{Key};

    ghost Value = { Key };

    ghost view = { λ k. record { from = k.from; to = k.to; channel = k.channel } };

    ghost inverse = { λ k. record { from = k.from; to = k.to; channel = k.channel } };
}

// The numbers that pend under one key, the oldest first.
#[derive(Drop)]
pub(crate) struct Numbers {
    items: VecDeque<u32>,
}

impl Model for Numbers {
    ghost use Rattle.std.specs.Prelude.{List, ℕ};

    ghost Value = { List ℕ };

    ghost view = { λ a. a.items.items };
}

impl PartialEq for Numbers {
    ghost eq = { pointwise nat_eq };

    ghost laws = { partial_equiv_from_equiv nat_list_eq_equiv };

    fn eq(&self, other: &Numbers) -> bool {
        self.items == other.items
    }
}

impl Clone for Numbers {
    ghost is_clone = { λ a b. b ≡ a };

    fn clone(&self) -> Result<Numbers, AllocError> {
        Ok(Numbers {
            items: self.items.clone()?,
        })
    }
}

impl Numbers {
    // No numbers.
    pub(crate) fn new(alloc: Global) -> Numbers
        ensures { result ≡ [] }
    {
        Numbers {
            items: VecDeque::new(alloc),
        }
    }

    pub(crate) fn count(&self) -> u64
        ensures { result ≡ length self.now }
    {
        self.items.len() as u64
    }

    pub(crate) fn oldest(&self) -> Option<u32>
        ensures { result ≡ slice_get self.now 0 }
    {
        self.items.front().copied()
    }

    // One of these numbers isn't among the others.
    pub(crate) fn has_other(&self, others: &Numbers) -> bool
        ensures { result ≡ list_any (λ n. not (list_any (nat_eq n) others.now)) self.now }
    {
        for number in &self.items {
            if !others.has(*number) {
                return true;
            }
        }
        false
    }

    fn has(&self, number: u32) -> bool
        ensures { result ≡ list_any (nat_eq number) self.now }
    {
        for other in &self.items {
            if number == *other {
                return true;
            }
        }
        false
    }

    // Puts the number last.
    pub(crate) fn push(&mut self, number: u32) -> Result<(), NoMemory>
        ensures ok { OnOk result (self.new ≡ self.old ++ number ∷ []) }
        ensures err { OnErr result (self.new ≡ self.old) }
    {
        self.items.push_back(number)?;
        Ok(())
    }

    // Adds the messages with the numbers to the list.
    pub(crate) fn add_to(&self, key: &Key, list: &mut Vec<Pending>) -> Result<(), NoMemory>
        ensures { OnOk result (list.new.items ≡ list.old.items ++ map (message key.now) self.now) }
    {
        for number in &self.items {
            list.push(Pending {
                from: key.from,
                to: key.to,
                channel: key.channel,
                number: *number,
            })?;
        }
        Ok(())
    }

    // Removes the oldest number.
    pub(crate) fn pop(&mut self)
        ensures { self.new ≡ drop 1 self.old }
    {
        let _oldest = self.items.pop_front();
    }
}
