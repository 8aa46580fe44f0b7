//! Lists of names and of expressions.
use crate::tree::Expr;
use brisk_values::Name;
use std::marker::Model;

/// A list of names.
#[derive(Drop)]
pub struct Names {
    pub items: Vec<Name>,
}

impl Model for Names {
    ghost use Rattle.std.specs.Prelude.{List, ℕ};
    ghost use Rattle.std.specs.Coded.{coded_list, coded_ℕ};

    ghost Value = { List (List ℕ) };

    ghost coded = { coded_list (coded_list coded_ℕ) };

    ghost view = { λ a. a.items.items };
}

/// A list of expressions.
#[derive(Drop)]
pub struct Exprs {
    pub items: Vec<Expr>,
}

impl Model for Exprs {
    ghost use Rattle.std.specs.Prelude.{List, map};
    ghost use Rattle.std.specs.Coded.{coded_list};
    ghost use Rattle.brisk_syntax.specs.Syntax.{Expression};
    ghost use Rattle.brisk_syntax.specs.Stored.{coded_expression};

    ghost Value = { List Expression };

    ghost coded = { coded_list coded_expression };

    ghost use Rattle.brisk_syntax.specs.Expressions.{expression_of};

    ghost view = { λ a. map expression_of a.items.items };
}
