//! Boxes: for each number, sender and receiver the values of a full box.
ghost use Rattle.std.specs.Prelude.{◌≡◌, OnOk, is_some};
ghost use Rattle.std.specs.FinMap as map;
ghost use Rattle.brisk_seq.specs.Cells.{with_full, without_full};

use brisk_values::{NoMemory, Pid, Values};
use std::alloc::Global;
use std::collections::BTreeMap;
use std::marker::Model;

/// The number, the sender and the receiver of a box.
#[derive(Clone, Copy, Debug, PartialEq, Eq, PartialOrd, Ord)]
pub struct Cell {
    pub number: u32,
    pub from: Pid,
    pub to: Pid,
}

/// The boxes that are full.
#[derive(Drop)]
pub struct Boxes {
    full: BTreeMap<Cell, Values>,
}

impl Model for Boxes {
    ghost use Rattle.std.specs.FinMap as map;
    ghost use Rattle.brisk_seq.specs.Cells.{Full, coded_full};

    ghost Value = { Full };

    ghost coded = { coded_full };

    ghost view = { λ m. map.from_entries m.full.entries };
}

impl Boxes {
    /// Empty boxes.
    pub fn new(alloc: Global) -> Boxes
        ensures { result ≡ map.empty }
    {
        Boxes {
            full: BTreeMap::new(alloc),
        }
    }

    /// Whether the box is full.
    pub fn is_full(&self, cell: &Cell) -> bool
        ensures { result ≡ is_some (map.get self.now cell.now) }
    {
        self.full.contains_key(cell)
    }

    /// Puts the values into the box.
    pub fn put(&mut self, cell: Cell, values: Values) -> Result<(), NoMemory>
        ensures { OnOk result (self.new ≡ with_full cell values self.old) }
    {
        self.full.insert(cell, values)?;
        Ok(())
    }

    /// Takes the values out of the box, which is empty then.
    pub fn take(&mut self, cell: &Cell) -> Option<Values>
        ensures values { result ≡ map.get self.old cell.now }
        ensures empty { self.new ≡ without_full cell.now self.old }
    {
        self.full.remove(cell)
    }
}
