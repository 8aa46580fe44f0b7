//! Schedules and choices.
use brisk_async::Event;
use brisk_values::Instance;
use std::marker::Model;

/// A list of events.
#[derive(Drop)]
pub struct Events {
    pub items: Vec<Event>,
}

impl Model for Events {
    ghost use Rattle.std.specs.Prelude.{List};
    ghost use Rattle.brisk_async.specs.declared.event.Event.{Event};

    ghost Value = { List Event };

    ghost view = { λ a. a.items.items };
}

/// The numbers of the members that are chosen, in the order in which they are asked for.
#[derive(Drop)]
pub struct Picks {
    pub items: Vec<u32>,
}

impl Model for Picks {
    ghost use Rattle.std.specs.Prelude.{List, ℕ};

    ghost Value = { List ℕ };

    ghost view = { λ a. a.items.items };
}

/// An instance of a program, and the events that are taken in it.
#[derive(Drop)]
pub struct Schedule {
    pub instance: Instance,
    pub events: Events,
}

/// An instance of a sequential program, the greatest number of turns of `while` in the whole run, and the choices.
#[derive(Drop)]
pub struct Choices {
    pub instance: Instance,
    pub turns: u64,
    pub picks: Picks,
}
