//! Statements and blocks.
ghost use Rattle.std.specs.Prelude.{◌≡◌, ◌+◌, map};
ghost use Rattle.std.specs.Option.{option_copied};
ghost use Rattle.brisk_syntax.specs.Expressions.{expression_of};
ghost use Rattle.brisk_syntax.specs.Statements.{code_of, statement_of};
ghost use Rattle.brisk_parse.specs.Limits.{source};
ghost use Rattle.brisk_parse.specs.Outcomes.{Reads};
ghost use Rattle.brisk_parse.specs.Statements as spec;

use crate::expressions::{begins_expression, expression};
use crate::fault::Stop;
use crate::lists::{Item, listed};
use crate::reader::Reader;
use brisk_lex::{Mark, Token, Word};
use brisk_syntax::{AnyRecv, Block, Expr, Exprs, Loop, Names, Stmt, Turns, Who};
use brisk_values::Name;
use std::rc::Rc;

/// How many expressions or variables may follow the first in one message.
const MORE_PLACES: usize = 15;

/// The greatest number of statements.
pub const STATEMENTS: usize = 20_000;

impl Item for Name {
    ghost use Rattle.brisk_values.specs.Names.{Name};
    ghost use Rattle.brisk_parse.specs.Reading.{begins_name, name};

    ghost View = { Name };

    ghost seen = { λ x. x };

    ghost is_first = { begins_name };

    ghost one = { name };

    fn begins(token: Option<&Token>) -> bool {
        matches!(token, Some(Token::Name(_)))
    }

    fn read(reader: &mut Reader<'_>) -> Result<Name, Stop> {
        reader.name()
    }
}

impl Item for Expr {
    ghost use Rattle.brisk_syntax.specs.Expressions.{expression_of};
    ghost use Rattle.brisk_syntax.specs.Syntax.{Expression};
    ghost use Rattle.brisk_parse.specs.Expressions.{begins_expression, expression};

    ghost View = { Expression };

    ghost seen = { expression_of };

    ghost is_first = { begins_expression };

    ghost one = { expression 256 };

    fn begins(token: Option<&Token>) -> bool {
        begins_expression(token)
    }

    fn read(reader: &mut Reader<'_>) -> Result<Expr, Stop> {
        expression(reader)
    }
}

pub fn names(reader: &mut Reader<'_>) -> Result<Names, Stop>
    ensures { Reads (λ x. x) result reader.new (spec.names source reader.old) }
{
    let items = listed(reader, MORE_PLACES)?;
    Ok(Names { items })
}

pub fn expressions(reader: &mut Reader<'_>) -> Result<Exprs, Stop>
    ensures { Reads (λ x. x) result reader.new (spec.expressions source reader.old) }
{
    let items = listed(reader, MORE_PLACES)?;
    Ok(Exprs { items })
}

fn begins_statement(token: Option<&Token>) -> bool
    ensures { result ≡ spec.begins_statement (option_copied token.entry) }
{
    match token {
        Some(Token::Name(_)) => true,
        Some(
            Token::Word(
                Word::KwSend
                | Word::KwRecv
                | Word::KwIf
                | Word::KwWhile
                | Word::KwFor
                | Word::KwRepeat,
            ),
        ) => true,
        _ => false,
    }
}

#[tactic(auto, unfolding(crate::specs::Statements::assign))]
fn assign(reader: &mut Reader<'_>, x: Name) -> Result<Stmt, Stop>
    ensures { Reads statement_of result reader.new (spec.assign source x reader.old) }
{
    reader.mark(Mark::Assign)?;
    let e = expression(reader)?;
    reader.mark(Mark::Semi)?;
    Ok(Stmt::Assign(x, e))
}

#[tactic(auto, unfolding(crate::specs::Statements::send))]
fn send(reader: &mut Reader<'_>) -> Result<Stmt, Stop>
    ensures { Reads statement_of result reader.new (spec.send source reader.old) }
{
    let channel = reader.name()?;
    reader.mark(Mark::LParen)?;
    let exprs = expressions(reader)?;
    reader.mark(Mark::RParen)?;
    reader.word(Word::KwTo)?;
    let to = reader.name()?;
    reader.mark(Mark::Semi)?;
    Ok(Stmt::Send(channel, exprs, Who::Name(to)))
}

#[tactic(auto, unfolding(crate::specs::Statements::receive_named))]
fn receive_named(reader: &mut Reader<'_>, channel: Name, vars: Names) -> Result<Stmt, Stop>
    ensures { Reads statement_of result reader.new (spec.receive_named channel vars reader.old) }
{
    let from = reader.name()?;
    reader.mark(Mark::Semi)?;
    Ok(Stmt::Recv(channel, vars, Who::Name(from)))
}

#[cycle(statement)]
#[tactic(auto, unfolding(crate::specs::Statements::receive_any))]
fn receive_any(
    reader: &mut Reader<'_>,
    channel: Name,
    vars: Names,
    depth: usize,
) -> Result<Stmt, Stop>
    ensures { Reads statement_of result reader.new (spec.receive_any (spec.block source depth) channel vars reader.old) }
{
    let binder = reader.name()?;
    reader.word(Word::KwIn)?;
    let set = reader.name()?;
    let body = block(reader, depth)?;
    Ok(Stmt::RecvAny(AnyRecv {
        channel,
        vars,
        binder,
        set,
        body: Rc::new(reader.alloc(), body)?,
    }))
}

#[cycle(statement)]
#[tactic(auto, unfolding(crate::specs::Statements::receive))]
fn receive(reader: &mut Reader<'_>, depth: usize) -> Result<Stmt, Stop>
    ensures { Reads statement_of result reader.new (spec.receive source (spec.block source depth) reader.old) }
{
    let channel = reader.name()?;
    reader.mark(Mark::LParen)?;
    let vars = names(reader)?;
    reader.mark(Mark::RParen)?;
    reader.word(Word::KwFrom)?;
    if !reader.sees_word(Word::KwAny) {
        return receive_named(reader, channel, vars);
    }
    reader.advance();
    receive_any(reader, channel, vars, depth)
}

#[cycle(statement)]
#[tactic(auto, unfolding(crate::specs::Statements::choice, crate::specs::Statements::otherwise))]
fn choice(reader: &mut Reader<'_>, depth: usize) -> Result<Stmt, Stop>
    ensures { Reads statement_of result reader.new (spec.choice source (spec.block source depth) reader.old) }
{
    let guard = expression(reader)?;
    let then = block(reader, depth)?;
    let then = Rc::new(reader.alloc(), then)?;
    if !reader.sees_word(Word::KwElse) {
        return Ok(Stmt::If(guard, then, None));
    }
    reader.advance();
    let otherwise = block(reader, depth)?;
    let otherwise = Rc::new(reader.alloc(), otherwise)?;
    Ok(Stmt::If(guard, then, Some(otherwise)))
}

#[cycle(statement)]
#[tactic(auto, unfolding(crate::specs::Statements::while_loop))]
fn while_loop(reader: &mut Reader<'_>, depth: usize) -> Result<Stmt, Stop>
    ensures { Reads statement_of result reader.new (spec.while_loop source (spec.block source depth) reader.old) }
{
    let guard = expression(reader)?;
    let body = block(reader, depth)?;
    Ok(Stmt::While(guard, Rc::new(reader.alloc(), body)?))
}

#[cycle(statement)]
#[tactic(auto, unfolding(crate::specs::Statements::for_loop))]
fn for_loop(reader: &mut Reader<'_>, depth: usize) -> Result<Stmt, Stop>
    ensures { Reads statement_of result reader.new (spec.for_loop (spec.block source depth) reader.old) }
{
    let binder = reader.name()?;
    reader.word(Word::KwIn)?;
    let set = reader.name()?;
    let body = block(reader, depth)?;
    Ok(Stmt::For(Loop {
        binder,
        set,
        turn: 0,
        body: Rc::new(reader.alloc(), body)?,
    }))
}

#[cycle(statement)]
#[tactic(auto, unfolding(crate::specs::Statements::repeat_loop))]
fn repeat_loop(reader: &mut Reader<'_>, depth: usize) -> Result<Stmt, Stop>
    ensures { Reads statement_of result reader.new (spec.repeat_loop (spec.block source depth) reader.old) }
{
    let set = reader.name()?;
    let body = block(reader, depth)?;
    Ok(Stmt::Repeat(Turns {
        set,
        turn: 0,
        body: Rc::new(reader.alloc(), body)?,
    }))
}

#[cycle(statement)]
#[tactic(auto, unfolding(crate::specs::Statements::statement))]
fn statement(reader: &mut Reader<'_>, depth: usize) -> Result<Stmt, Stop>
    ensures { Reads statement_of result reader.new (spec.statement source (spec.block source depth) reader.old) }
{
    let first = reader.peek();
    if !begins_statement(first) {
        return Err(Stop::Syntax(reader.left()));
    }
    reader.count()?;
    reader.advance();
    match first {
        Some(Token::Name(x)) => assign(reader, *x),
        Some(Token::Word(Word::KwSend)) => send(reader),
        Some(Token::Word(Word::KwRecv)) => receive(reader, depth),
        Some(Token::Word(Word::KwIf)) => choice(reader, depth),
        Some(Token::Word(Word::KwWhile)) => while_loop(reader, depth),
        Some(Token::Word(Word::KwFor)) => for_loop(reader, depth),
        Some(Token::Word(Word::KwRepeat)) => repeat_loop(reader, depth),
        _ => Err(Stop::Syntax(reader.left())),
    }
}

/// Statements as long as one begins, in whose blocks `depth` blocks may nest.
#[cycle(statement)]
pub fn statements(reader: &mut Reader<'_>, depth: usize) -> Result<Vec<Stmt>, Stop>
    ensures { Reads (λ v. code_of v.items) result reader.new (spec.statements source (spec.block source depth) reader.old) }
{
    let mut items = Vec::new(reader.alloc());
    for _turn in 0..STATEMENTS {
        if !begins_statement(reader.peek()) {
            return Ok(items);
        }
        items.push(statement(reader, depth)?)?;
    }
    if begins_statement(reader.peek()) {
        return Err(Stop::TooMany(reader.left()));
    }
    Ok(items)
}

#[cycle(statement)]
#[tactic(auto, unfolding(crate::specs::Statements::block))]
fn block(reader: &mut Reader<'_>, depth: usize) -> Result<Block, Stop>
    ensures { Reads (λ b. b) result reader.new (spec.block source depth reader.old) }
{
    if depth == 0 {
        if reader.sees_mark(Mark::LBrace) {
            return Err(Stop::TooDeep(reader.left()));
        }
        return Err(Stop::Syntax(reader.left()));
    }
    reader.mark(Mark::LBrace)?;
    let items = statements(reader, depth - 1)?;
    reader.mark(Mark::RBrace)?;
    Ok(Block { items })
}
