//! The text of a program, role by role.
ghost use Rattle.std.specs.Prelude.{◌≡◌};

use crate::lists::Names;
use crate::tree::Block;
use brisk_values::{Kind, Name, Value, wrap};
use std::marker::Model;
use std::rc::Rc;

/// The value with which a variable is declared.
#[derive(Clone, Copy, Debug, PartialEq, Eq)]
pub enum Const {
    /// Whether it is negative, and its magnitude.
    Num(bool, u64),
    Bool(bool),
    Tag(Name, Name),
}

impl Const {
    ghost use Rattle.brisk_syntax.specs.Declarations.{constant_value};

    /// The value of the constant. A number is wrapped to 64 bits.
    pub fn value(&self) -> Value
        ensures { result ≡ constant_value self.now }
    {
        match self {
            Const::Num(true, n) => Value::Int(wrap(-i128::from(*n))),
            Const::Num(false, n) => Value::Int(wrap(i128::from(*n))),
            Const::Bool(b) => Value::Bool(*b),
            Const::Tag(e, t) => Value::Tag(*e, *t),
        }
    }
}

/// The declaration of a variable: with the value at which it starts, or as an input.
#[derive(Clone, Copy, Debug, PartialEq, Eq)]
pub enum Decl {
    Var(Name, Kind, Const),
    Input(Name, Kind),
}

impl Decl {
    ghost use Rattle.brisk_syntax.specs.Declarations.{variable_of};

    /// The variable that is declared.
    pub fn variable(&self) -> Name
        ensures { result ≡ variable_of self.now }
    {
        match self {
            Decl::Var(x, _, _) | Decl::Input(x, _) => *x,
        }
    }
}

/// A list of declarations.
#[derive(Drop)]
pub struct Decls {
    pub items: Vec<Decl>,
}

impl Model for Decls {
    ghost use Rattle.std.specs.Prelude.{List};
    ghost use Rattle.brisk_syntax.specs.declared.program.Decl.{Decl};

    ghost Value = { List Decl };

    ghost view = { λ a. a.items.items };
}

/// A list of kinds.
#[derive(Drop)]
pub struct Kinds {
    pub items: Vec<Kind>,
}

impl Model for Kinds {
    ghost use Rattle.std.specs.Prelude.{List};
    ghost use Rattle.brisk_values.specs.declared.value.Kind.{Kind};

    ghost Value = { List Kind };

    ghost view = { λ a. a.items.items };
}

/// An enumeration and its tags.
#[derive(Drop)]
pub struct EnumDecl {
    pub name: Name,
    pub tags: Names,
}

/// A list of enumerations.
#[derive(Drop)]
pub struct Enums {
    pub items: Vec<EnumDecl>,
}

impl Model for Enums {
    ghost use Rattle.std.specs.Prelude.{List};
    ghost use Rattle.brisk_syntax.specs.declared.program.EnumDecl.{EnumDecl};

    ghost Value = { List EnumDecl };

    ghost view = { λ a. a.items.items };
}

/// A channel, with the kinds of the values that one message carries.
#[derive(Drop)]
pub struct Channel {
    pub name: Name,
    pub kinds: Kinds,
    /// Whether a receive may take any message, and not the oldest alone.
    pub loose: bool,
}

/// A list of channels.
#[derive(Drop)]
pub struct Channels {
    pub items: Vec<Channel>,
}

impl Model for Channels {
    ghost use Rattle.std.specs.Prelude.{List};
    ghost use Rattle.brisk_syntax.specs.declared.program.Channel.{Channel};

    ghost Value = { List Channel };

    ghost view = { λ a. a.items.items };
}

impl Channels {
    ghost use Rattle.brisk_syntax.specs.Declarations.{is_loose as is_loose_in};

    /// Whether a channel is declared loose.
    pub fn is_loose(&self, channel: &Name) -> bool
        ensures { result ≡ is_loose_in self.now channel.now }
    {
        self.items.iter().any(|c| channel == &c.name && c.loose)
    }
}

/// A single process, or a set of processes of unknown size that run the same text.
#[derive(Drop)]
pub struct Role {
    pub name: Name,
    pub many: bool,
    pub nonempty: bool,
    pub decls: Decls,
    pub code: Rc<Block>,
}

/// A list of roles.
#[derive(Drop)]
pub struct Roles {
    pub items: Vec<Role>,
}

impl Model for Roles {
    ghost use Rattle.std.specs.Prelude.{List, map};
    ghost use Rattle.std.specs.Coded.{coded_list};
    ghost use Rattle.brisk_syntax.specs.Roles.{RoleText, coded_role};

    ghost Value = { List RoleText };

    ghost coded = { coded_list coded_role };

    ghost use Rattle.brisk_syntax.specs.Texts.{text_of};

    ghost view = { λ a. map text_of a.items.items };
}

/// A program of processes.
#[derive(Drop)]
pub struct Program {
    pub enums: Enums,
    pub channels: Channels,
    pub roles: Roles,
}
