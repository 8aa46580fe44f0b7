//! Instances: the sizes of sets and the values of inputs.
use crate::name::Name;
use crate::value::{Pid, Value};
use std::marker::Model;

/// The size of each set.
#[derive(Drop)]
pub struct Sizes {
    pub items: Vec<(Name, u32)>,
}

impl Model for Sizes {
    ghost use Rattle.std.specs.Prelude.{List, ℕ};
    ghost use Rattle.std.specs.Coded.{coded_list, coded_ℕ, coded×};

    ghost Value = { List (List ℕ × ℕ) };

    ghost coded = { coded_list (coded× (coded_list coded_ℕ) coded_ℕ) };

    ghost view = { λ a. a.items.items };
}

/// The value with which an input of a process starts.
#[derive(Clone, Copy, Debug, PartialEq, Eq)]
pub struct Input {
    pub process: Pid,
    pub variable: Name,
    pub value: Value,
}

/// The values with which the inputs of all processes start.
#[derive(Drop)]
pub struct Inputs {
    pub items: Vec<Input>,
}

impl Model for Inputs {
    ghost use Rattle.std.specs.Prelude.{List};
    ghost use Rattle.brisk_values.specs.declared.instance.Input.{Input};

    ghost Value = { List Input };

    ghost view = { λ a. a.items.items };
}

/// What a run of a program starts from.
#[derive(Drop)]
pub struct Instance {
    pub sizes: Sizes,
    pub inputs: Inputs,
}
