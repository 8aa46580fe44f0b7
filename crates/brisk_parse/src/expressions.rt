//! Expressions.
ghost use Rattle.std.specs.Prelude.{◌≡◌, IfOk};
ghost use Rattle.std.specs.Option.{option_copied};
ghost use Rattle.brisk_lex.specs.declared.token.Token.TheVariants as t;
ghost use Rattle.brisk_syntax.specs.Expressions.{expression_of};
ghost use Rattle.brisk_syntax.specs.Syntax.{Bin};
ghost use Rattle.brisk_parse.specs.Expressions as spec;
ghost use Rattle.brisk_parse.specs.Outcomes.{Reads};

use crate::fault::Stop;
use crate::level::{Level, comparison_operator, operator};
use crate::reader::Reader;
use brisk_lex::{Mark, Token, Word};
use brisk_syntax::Expr;
use brisk_values::{Name, NoMemory, Op1, Op2};
use std::alloc::Global;

/// The greatest number of tokens of one expression.
const TOKENS: usize = 256;

/// Whether an expression begins with the token.
pub fn begins_expression(token: Option<&Token>) -> bool
    ensures { result ≡ spec.begins_expression (option_copied token.entry) }
{
    match token {
        Some(Token::Num(_) | Token::Name(_)) => true,
        Some(Token::Word(Word::KwTrue | Word::KwFalse)) => true,
        Some(Token::Mark(Mark::Hash | Mark::LParen | Mark::Minus | Mark::Bang)) => true,
        _ => false,
    }
}

#[tactic(auto, unfolding(crate::specs::Expressions::take))]
fn take(reader: &mut Reader<'_>, mark: Mark) -> Result<(), Stop>
    ensures { Reads (λ _. tt) result reader.new (spec.take (t.Mark mark) reader.old) }
{
    if !reader.sees_mark(mark) {
        return Err(Stop::Syntax(reader.left()));
    }
    reader.spend()
}

#[tactic(auto, unfolding(crate::specs::Expressions::take_name))]
fn take_name(reader: &mut Reader<'_>) -> Result<Name, Stop>
    ensures { Reads (λ x. x) result reader.new (spec.take_name reader.old) }
{
    match reader.peek() {
        Some(Token::Name(name)) => {
            reader.spend()?;
            Ok(*name)
        }
        _ => Err(Stop::Syntax(reader.left())),
    }
}

fn joined(alloc: Global, op: Op2, e: Expr, f: Expr) -> Result<Expr, NoMemory>
    ensures { IfOk result (λ x. expression_of x ≡ Bin op (expression_of e) (expression_of f)) }
{
    let e = Box::new(alloc, e)?;
    Ok(Expr::Bin(op, e, Box::new(alloc, f)?))
}

#[tactic(auto, unfolding(crate::specs::Expressions::variable_or_tag))]
fn variable_or_tag(reader: &mut Reader<'_>, x: Name) -> Result<Expr, Stop>
    ensures { Reads expression_of result reader.new (spec.variable_or_tag x reader.old) }
{
    if !reader.sees_mark(Mark::Dot) {
        return Ok(Expr::Var(x));
    }
    reader.spend()?;
    Ok(Expr::Tag(x, take_name(reader)?))
}

#[cycle(expression)]
#[tactic(auto, unfolding(crate::specs::Expressions::unary))]
fn unary(reader: &mut Reader<'_>, depth: usize) -> Result<Expr, Stop>
    ensures { Reads expression_of result reader.new (spec.unary depth reader.old) }
{
    let first = reader.peek();
    if depth == 0 {
        if begins_expression(first) {
            return Err(Stop::TooMany(reader.left()));
        }
        return Err(Stop::Syntax(reader.left()));
    }
    match first {
        Some(Token::Num(n)) => {
            reader.spend()?;
            Ok(Expr::Num(*n))
        }
        Some(Token::Word(Word::KwTrue)) => {
            reader.spend()?;
            Ok(Expr::Bool(true))
        }
        Some(Token::Word(Word::KwFalse)) => {
            reader.spend()?;
            Ok(Expr::Bool(false))
        }
        Some(Token::Name(x)) => {
            reader.spend()?;
            variable_or_tag(reader, *x)
        }
        Some(Token::Mark(Mark::Hash)) => {
            reader.spend()?;
            Ok(Expr::Size(take_name(reader)?))
        }
        Some(Token::Mark(Mark::LParen)) => {
            reader.spend()?;
            let e = chain(reader, Level::Or, depth - 1)?;
            take(reader, Mark::RParen)?;
            Ok(Expr::Paren(Box::new(reader.alloc(), e)?))
        }
        Some(Token::Mark(Mark::Minus)) => {
            reader.spend()?;
            let e = unary(reader, depth - 1)?;
            Ok(Expr::Un(Op1::Neg, Box::new(reader.alloc(), e)?))
        }
        Some(Token::Mark(Mark::Bang)) => {
            reader.spend()?;
            let e = unary(reader, depth - 1)?;
            Ok(Expr::Un(Op1::Not, Box::new(reader.alloc(), e)?))
        }
        _ => Err(Stop::Syntax(reader.left())),
    }
}

#[cycle(expression)]
#[tactic(auto, unfolding(crate::specs::Expressions::comparison, crate::specs::Expressions::compared))]
fn comparison(reader: &mut Reader<'_>, depth: usize) -> Result<Expr, Stop>
    ensures { Reads expression_of result reader.new (spec.comparison depth (spec.unary depth) reader.old) }
{
    let e = chain(reader, Level::Sum, depth)?;
    match comparison_operator(reader.peek()) {
        None => Ok(e),
        Some(op) => {
            reader.spend()?;
            let f = chain(reader, Level::Sum, depth)?;
            Ok(joined(reader.alloc(), op, e, f)?)
        }
    }
}

// An operand of the level.
#[cycle(expression)]
fn operand(reader: &mut Reader<'_>, level: Level, depth: usize) -> Result<Expr, Stop>
    ensures { Reads expression_of result reader.new (spec.operand level depth (spec.unary depth) reader.old) }
{
    match level {
        Level::Or => chain(reader, Level::And, depth),
        Level::And => comparison(reader, depth),
        Level::Sum => chain(reader, Level::Product, depth),
        Level::Product => unary(reader, depth),
    }
}

// Operands of the level, with its operators between.
#[cycle(expression)]
fn chain(reader: &mut Reader<'_>, level: Level, depth: usize) -> Result<Expr, Stop>
    ensures { Reads expression_of result reader.new (spec.chain level depth (spec.unary depth) reader.old) }
{
    let mut e = operand(reader, level, depth)?;
    for _turn in 0..depth {
        let op = match operator(level, reader.peek()) {
            Some(op) => op,
            None => return Ok(e),
        };
        reader.spend()?;
        let f = operand(reader, level, depth)?;
        e = joined(reader.alloc(), op, e, f)?;
    }
    match operator(level, reader.peek()) {
        Some(_) => Err(Stop::TooMany(reader.left())),
        None => Ok(e),
    }
}

/// An expression.
#[tactic(auto, unfolding(crate::specs::Expressions::expression))]
pub fn expression(reader: &mut Reader<'_>) -> Result<Expr, Stop>
    ensures { Reads expression_of result reader.new (spec.expression TOKENS reader.old) }
{
    let room = reader.room();
    reader.set_room(TOKENS);
    let e = chain(reader, Level::Or, TOKENS)?;
    reader.set_room(room);
    Ok(e)
}
