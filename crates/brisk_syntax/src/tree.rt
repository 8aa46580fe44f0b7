//! Expressions and statements.
use crate::lists::{Exprs, Names};
use brisk_values::{Name, Op1, Op2, Pid};
use std::marker::Model;
use std::rc::Rc;

/// An expression, as it is written: brackets are a node of their own.
#[derive(Drop)]
pub enum Expr {
    Num(u64),
    Bool(bool),
    Var(Name),
    Tag(Name, Name),
    Size(Name),
    Paren(Box<Expr>),
    Un(Op1, Box<Expr>),
    Bin(Op2, Box<Expr>, Box<Expr>),
}

/// The partner of a send or a receive.
#[derive(Clone, Copy, Debug, PartialEq, Eq)]
pub enum Who {
    /// A binder where one of this name is in scope, and otherwise a single role.
    Name(Name),
    /// The member of this set that is in focus. Stands only in rewriting.
    At(Name),
    /// A process. Stands only in running code.
    Pid(Pid),
}

/// The text of a role or of a body. It is never changed once it is made.
#[cycle(code)]
#[derive(Drop)]
pub struct Block {
    pub items: Vec<Stmt>,
}

impl Model for Block {
    ghost use Rattle.brisk_syntax.specs.Syntax.{Code};
    ghost use Rattle.brisk_syntax.specs.Depths.{code_depth};
    ghost use Rattle.brisk_syntax.specs.Stored.{coded_code};

    ghost Value = { Code };

    ghost coded = { coded_code };

    ghost use Rattle.brisk_syntax.specs.Statements.{code_of};

    ghost view = { λ a. code_of a.items.items };

    ghost size = { code_depth };

    ghost use Rattle.brisk_syntax.specs.Falls.{deep_le-code_depth};

    ghost size_decreases = { λ a h. deep_le-code_depth a.items.items };
}

/// A statement. An `if` without `else` and one with an empty `else` are two statements.
#[cycle(code)]
#[derive(Drop)]
pub enum Stmt {
    Assign(Name, Expr),
    Send(Name, Exprs, Who),
    Recv(Name, Names, Who),
    RecvAny(AnyRecv),
    If(Expr, Rc<Block>, Option<Rc<Block>>),
    While(Expr, Rc<Block>),
    For(Loop),
    Repeat(Turns),
}

/// A receive from any member of a set, which the binder names in the body.
#[cycle(code)]
#[derive(Drop)]
pub struct AnyRecv {
    pub channel: Name,
    pub vars: Names,
    pub binder: Name,
    pub set: Name,
    pub body: Rc<Block>,
}

/// A `for` over the members of a set, with the number of turns begun: 0 in every parsed program.
#[cycle(code)]
#[derive(Drop)]
pub struct Loop {
    pub binder: Name,
    pub set: Name,
    pub turn: u32,
    pub body: Rc<Block>,
}

/// A `repeat`, as often as a set has members, with the number of turns begun.
#[cycle(code)]
#[derive(Drop)]
pub struct Turns {
    pub set: Name,
    pub turn: u32,
    pub body: Rc<Block>,
}
