//! Sequential programs.
use brisk_syntax::{Enums, Expr, Exprs, Names, Roles};
use brisk_values::Name;
use std::marker::Model;

/// A list of items, which are done one after another.
#[cycle(body)]
#[derive(Drop)]
pub struct Body {
    pub items: Vec<Seq>,
}

impl Model for Body {
    ghost use Rattle.brisk_seq.specs.Items.{Items};
    ghost use Rattle.brisk_seq.specs.Stored.{coded_items};

    ghost Value = { Items };

    ghost coded = { coded_items };

    ghost use Rattle.brisk_seq.specs.Seen.{items_of};

    ghost view = { λ a. items_of a.items.items };

    ghost use Rattle.brisk_seq.specs.Depths.{items_depth};

    ghost size = { items_depth };

    ghost use Rattle.brisk_seq.specs.Falls.{deep_le-items_depth};

    ghost size_decreases = { λ a h. deep_le-items_depth a.items.items };
}

/// An item of a sequential program. A name in a process's place is a single role, or a set and then the member that
/// the innermost loop over this set has chosen.
#[cycle(body)]
#[derive(Drop)]
pub enum Seq {
    Pass(Pass),
    Fill(Fill),
    Take(Take),
    If(Name, Expr, Body, Body),
    While(Name, Expr, Body),
    /// The members of the set in number order.
    For(Name, Body),
    /// The members of the set, each once, in an order that is chosen turn by turn.
    ForAny(Name, Body),
    /// One chosen member of the set.
    Pick(Name, Body),
    /// As many turns as the set has members.
    Repeat(Name, Body),
}

/// `to.(vars) := from.(exprs);`, where all expressions are computed before the first is stored.
#[derive(Drop)]
pub struct Pass {
    pub to: Name,
    pub vars: Names,
    pub from: Name,
    pub exprs: Exprs,
}

/// `box number (from to to) := from.(exprs);`
#[derive(Drop)]
pub struct Fill {
    pub number: u32,
    pub from: Name,
    pub to: Name,
    pub exprs: Exprs,
}

/// `to.(vars) := box number (from to to);`, which empties the box.
#[derive(Drop)]
pub struct Take {
    pub to: Name,
    pub vars: Names,
    pub number: u32,
    pub from: Name,
}

/// A sequential program. Its roles have declarations and no code.
#[derive(Drop)]
pub struct SeqProgram {
    pub enums: Enums,
    pub roles: Roles,
    pub body: Body,
}
