//! Lists of values.
use crate::value::Value;
use std::marker::Model;

/// Values one after another, as a message carries them.
#[derive(Drop)]
pub struct Values {
    pub items: Vec<Value>,
}

impl Model for Values {
    ghost use Rattle.std.specs.Prelude.{List};
    ghost use Rattle.std.specs.Coded.{coded_list};
    ghost use Rattle.brisk_values.specs.Places.{coded_value};
    ghost use Rattle.brisk_values.specs.declared.value.Value.{Value as Val};

    ghost Value = { List Val };

    ghost coded = { coded_list coded_value };

    ghost view = { λ a. a.items.items };
}
