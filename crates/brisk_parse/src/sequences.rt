//! Sequential programs.
ghost use Rattle.std.specs.Prelude.{◌≡◌, ◌≤◌, length, map};
ghost use Rattle.std.specs.Option.{option_copied};
ghost use Rattle.brisk_syntax.specs.Expressions.{expression_of};
ghost use Rattle.brisk_syntax.specs.Texts.{text_of};
ghost use Rattle.brisk_seq.specs.Seen.{item_of, items_of};
ghost use Rattle.brisk_seq.specs.Items as tree;
ghost use Rattle.brisk_parse.specs.Answers.{Answers, IsSequence, Read};
ghost use Rattle.brisk_parse.specs.Limits.{sequence};
ghost use Rattle.brisk_parse.specs.Outcomes.{Reads};
ghost use Rattle.brisk_parse.specs.Declarations.{begins_role};
ghost use Rattle.brisk_parse.specs.Reading.{expect, list_of};
ghost use Rattle.brisk_parse.specs.Sequences as spec;
ghost use Rattle.brisk_lex.specs.declared.token.Token.TheVariants as t;

use crate::declarations::flag;
use crate::expressions::expression;
use crate::fault::{ParseFault, Stop};
use crate::lists::{Item, list_of};
use crate::reader::Reader;
use crate::roles::{DECLARATIONS, ENUMS, ROLES};
use crate::statements::{expressions, names};
use brisk_lex::{Mark, Placed, Token, Word};
use brisk_seq::{Body, Fill, Pass, Seq, SeqProgram, Take};
use brisk_syntax::{Block, Decls, Enums, Expr, Exprs, Names, Role, Roles};
use brisk_values::Name;
use std::alloc::Global;
use std::rc::Rc;

/// The greatest number of items.
const ITEMS: usize = 2_000_000;

/// How many blocks may nest.
const NESTING: usize = 320;

/// The greatest number of a box.
const MOST_BOX: u64 = 4_294_967_295;

#[tactic(auto, unfolding(crate::specs::Sequences::box_number))]
fn box_number(reader: &mut Reader<'_>) -> Result<u32, Stop>
    ensures { Reads (λ n. n) result reader.new (spec.box_number reader.old) }
{
    match reader.peek() {
        Some(Token::Num(number)) => {
            if *number > MOST_BOX {
                return Err(Stop::Syntax(reader.left()));
            }
            reader.advance();
            Ok(*number as u32)
        }
        _ => Err(Stop::Syntax(reader.left())),
    }
}

/// The process that is named before, once more.
#[tactic(auto, unfolding(crate::specs::Reading::expect))]
fn same_process(reader: &mut Reader<'_>, process: Name) -> Result<(), Stop>
    ensures { Reads (λ _. tt) result reader.new (expect (t.Name process) reader.old) }
{
    match reader.peek() {
        Some(Token::Name(other)) => {
            if *other != process {
                return Err(Stop::Syntax(reader.left()));
            }
            reader.advance();
            Ok(())
        }
        _ => Err(Stop::Syntax(reader.left())),
    }
}

#[tactic(auto, unfolding(crate::specs::Sequences::variables))]
fn variables(reader: &mut Reader<'_>) -> Result<Names, Stop>
    ensures { Reads (λ x. x) result reader.new (spec.variables sequence reader.old) }
{
    reader.mark(Mark::Dot)?;
    reader.mark(Mark::LParen)?;
    let vars = names(reader)?;
    reader.mark(Mark::RParen)?;
    Ok(vars)
}

#[tactic(auto, unfolding(crate::specs::Sequences::values))]
fn values(reader: &mut Reader<'_>) -> Result<Exprs, Stop>
    ensures { Reads (λ x. x) result reader.new (spec.values sequence reader.old) }
{
    reader.mark(Mark::Dot)?;
    reader.mark(Mark::LParen)?;
    let exprs = expressions(reader)?;
    reader.mark(Mark::RParen)?;
    Ok(exprs)
}

#[tactic(auto, unfolding(crate::specs::Sequences::guard))]
fn guard(reader: &mut Reader<'_>) -> Result<Expr, Stop>
    ensures { Reads expression_of result reader.new (spec.guard sequence reader.old) }
{
    reader.mark(Mark::Dot)?;
    reader.mark(Mark::LParen)?;
    let guard = expression(reader)?;
    reader.mark(Mark::RParen)?;
    Ok(guard)
}

#[tactic(auto, unfolding(crate::specs::Sequences::fill))]
fn fill(reader: &mut Reader<'_>) -> Result<Seq, Stop>
    ensures { Reads item_of result reader.new (spec.fill sequence reader.old) }
{
    let number = box_number(reader)?;
    reader.mark(Mark::LParen)?;
    let from = reader.name()?;
    reader.word(Word::KwTo)?;
    let to = reader.name()?;
    reader.mark(Mark::RParen)?;
    reader.mark(Mark::Assign)?;
    same_process(reader, from)?;
    let exprs = values(reader)?;
    reader.mark(Mark::Semi)?;
    Ok(Seq::Fill(Fill {
        number,
        from,
        to,
        exprs,
    }))
}

#[tactic(auto, unfolding(crate::specs::Sequences::take))]
fn take(reader: &mut Reader<'_>, to: Name, vars: Names) -> Result<Seq, Stop>
    ensures { Reads item_of result reader.new (spec.take to vars reader.old) }
{
    let number = box_number(reader)?;
    reader.mark(Mark::LParen)?;
    let from = reader.name()?;
    reader.word(Word::KwTo)?;
    same_process(reader, to)?;
    reader.mark(Mark::RParen)?;
    reader.mark(Mark::Semi)?;
    Ok(Seq::Take(Take {
        to,
        vars,
        number,
        from,
    }))
}

#[tactic(auto, unfolding(crate::specs::Sequences::pass))]
fn pass(reader: &mut Reader<'_>, to: Name, vars: Names) -> Result<Seq, Stop>
    ensures { Reads item_of result reader.new (spec.pass sequence to vars reader.old) }
{
    let from = reader.name()?;
    let exprs = values(reader)?;
    reader.mark(Mark::Semi)?;
    Ok(Seq::Pass(Pass {
        to,
        vars,
        from,
        exprs,
    }))
}

#[tactic(auto, unfolding(crate::specs::Sequences::stored))]
fn stored(reader: &mut Reader<'_>, to: Name) -> Result<Seq, Stop>
    ensures { Reads item_of result reader.new (spec.stored sequence to reader.old) }
{
    let vars = variables(reader)?;
    reader.mark(Mark::Assign)?;
    if !reader.sees_word(Word::KwBox) {
        return pass(reader, to, vars);
    }
    reader.advance();
    take(reader, to, vars)
}

#[cycle(item)]
#[tactic(auto, unfolding(crate::specs::Sequences::choice))]
fn choice(reader: &mut Reader<'_>, depth: usize) -> Result<Seq, Stop>
    ensures { Reads item_of result reader.new (spec.choice sequence (spec.block sequence depth) reader.old) }
{
    let process = reader.name()?;
    let guard = guard(reader)?;
    let then = block(reader, depth)?;
    reader.word(Word::KwElse)?;
    let otherwise = block(reader, depth)?;
    Ok(Seq::If(process, guard, then, otherwise))
}

#[cycle(item)]
#[tactic(auto, unfolding(crate::specs::Sequences::while_loop))]
fn while_loop(reader: &mut Reader<'_>, depth: usize) -> Result<Seq, Stop>
    ensures { Reads item_of result reader.new (spec.while_loop sequence (spec.block sequence depth) reader.old) }
{
    let process = reader.name()?;
    let guard = guard(reader)?;
    let body = block(reader, depth)?;
    Ok(Seq::While(process, guard, body))
}

#[cycle(item)]
#[tactic(auto, unfolding(crate::specs::Sequences::for_loop, crate::specs::Sequences::over))]
fn for_loop(reader: &mut Reader<'_>, depth: usize) -> Result<Seq, Stop>
    ensures { Reads item_of result reader.new (spec.for_loop (spec.block sequence depth) reader.old) }
{
    if !reader.sees_word(Word::KwAny) {
        let set = reader.name()?;
        let body = block(reader, depth)?;
        return Ok(Seq::For(set, body));
    }
    reader.advance();
    let set = reader.name()?;
    let body = block(reader, depth)?;
    Ok(Seq::ForAny(set, body))
}

#[cycle(item)]
#[tactic(auto, unfolding(crate::specs::Sequences::over))]
fn pick(reader: &mut Reader<'_>, depth: usize) -> Result<Seq, Stop>
    ensures { Reads item_of result reader.new (spec.over tree.Pick (spec.block sequence depth) reader.old) }
{
    let set = reader.name()?;
    let body = block(reader, depth)?;
    Ok(Seq::Pick(set, body))
}

#[cycle(item)]
#[tactic(auto, unfolding(crate::specs::Sequences::over))]
fn repeat_loop(reader: &mut Reader<'_>, depth: usize) -> Result<Seq, Stop>
    ensures { Reads item_of result reader.new (spec.over tree.Repeat (spec.block sequence depth) reader.old) }
{
    let set = reader.name()?;
    let body = block(reader, depth)?;
    Ok(Seq::Repeat(set, body))
}

fn begins_item(token: Option<&Token>) -> bool
    ensures { result ≡ spec.begins_item (option_copied token.entry) }
{
    match token {
        Some(Token::Name(_)) => true,
        Some(
            Token::Word(
                Word::KwBox
                | Word::KwIf
                | Word::KwWhile
                | Word::KwFor
                | Word::KwPick
                | Word::KwRepeat,
            ),
        ) => true,
        _ => false,
    }
}

#[cycle(item)]
#[tactic(auto, unfolding(crate::specs::Sequences::item))]
fn item(reader: &mut Reader<'_>, depth: usize) -> Result<Seq, Stop>
    ensures { Reads item_of result reader.new (spec.item sequence (spec.block sequence depth) reader.old) }
{
    let first = reader.peek();
    if !begins_item(first) {
        return Err(Stop::Syntax(reader.left()));
    }
    reader.count()?;
    reader.advance();
    match first {
        Some(Token::Name(to)) => stored(reader, *to),
        Some(Token::Word(Word::KwBox)) => fill(reader),
        Some(Token::Word(Word::KwIf)) => choice(reader, depth),
        Some(Token::Word(Word::KwWhile)) => while_loop(reader, depth),
        Some(Token::Word(Word::KwFor)) => for_loop(reader, depth),
        Some(Token::Word(Word::KwPick)) => pick(reader, depth),
        Some(Token::Word(Word::KwRepeat)) => repeat_loop(reader, depth),
        _ => Err(Stop::Syntax(reader.left())),
    }
}

/// Items as long as one begins, in which `depth` blocks may nest.
#[cycle(item)]
fn items(reader: &mut Reader<'_>, depth: usize) -> Result<Vec<Seq>, Stop>
    ensures { Reads (λ v. items_of v.items) result reader.new (spec.items sequence (spec.block sequence depth) reader.old) }
{
    let mut items = Vec::new(reader.alloc());
    for _turn in 0..ITEMS {
        if !begins_item(reader.peek()) {
            return Ok(items);
        }
        items.push(item(reader, depth)?)?;
    }
    if begins_item(reader.peek()) {
        return Err(Stop::TooMany(reader.left()));
    }
    Ok(items)
}

#[cycle(item)]
#[tactic(auto, unfolding(crate::specs::Sequences::block))]
fn block(reader: &mut Reader<'_>, depth: usize) -> Result<Body, Stop>
    ensures { Reads (λ b. b) result reader.new (spec.block sequence depth reader.old) }
{
    if depth == 0 {
        if reader.sees_mark(Mark::LBrace) {
            return Err(Stop::TooDeep(reader.left()));
        }
        return Err(Stop::Syntax(reader.left()));
    }
    reader.mark(Mark::LBrace)?;
    let items = items(reader, depth - 1)?;
    reader.mark(Mark::RBrace)?;
    Ok(Body { items })
}

#[tactic(auto, unfolding(crate::specs::Sequences::outline))]
fn outline(reader: &mut Reader<'_>, name: Name, many: bool, nonempty: bool) -> Result<Role, Stop>
    ensures { Reads text_of result reader.new (spec.outline sequence name many nonempty reader.old) }
{
    reader.mark(Mark::LBrace)?;
    let items = list_of(reader, DECLARATIONS)?;
    let decls = Decls { items };
    reader.mark(Mark::RBrace)?;
    let items = Vec::new(reader.alloc());
    let code = Rc::new(reader.alloc(), Block { items })?;
    Ok(Role {
        name,
        many,
        nonempty,
        decls,
        code,
    })
}

#[tactic(auto, unfolding(crate::specs::Sequences::role, crate::specs::Sequences::single_role, crate::specs::Sequences::set_role))]
fn role(reader: &mut Reader<'_>) -> Result<Role, Stop>
    ensures { Reads text_of result reader.new (spec.role sequence reader.old) }
{
    match reader.peek() {
        Some(Token::Word(Word::KwOne)) => {
            reader.advance();
            let name = reader.name()?;
            outline(reader, name, false, false)
        }
        Some(Token::Word(Word::KwMany)) => {
            reader.advance();
            let name = reader.name()?;
            let nonempty = flag(reader, Word::KwNonempty);
            outline(reader, name, true, nonempty)
        }
        _ => Err(Stop::Syntax(reader.left())),
    }
}

fn roles(reader: &mut Reader<'_>) -> Result<Vec<Role>, Stop>
    ensures { Reads (λ v. map text_of v.items) result reader.new (list_of begins_role (spec.role sequence) 256 reader.old) }
{
    let mut roles = Vec::new(reader.alloc());
    for _turn in 0..ROLES {
        if !<Role as Item>::begins(reader.peek()) {
            return Ok(roles);
        }
        roles.push(role(reader)?)?;
    }
    if <Role as Item>::begins(reader.peek()) {
        return Err(Stop::TooMany(reader.left()));
    }
    Ok(roles)
}

#[tactic(auto, unfolding(crate::specs::Sequences::whole, crate::specs::Declarations::enumeration))]
fn whole(reader: &mut Reader<'_>) -> Result<SeqProgram, Stop>
    ensures { Reads (λ p. p) result reader.new (spec.whole sequence reader.old) }
{
    let items = list_of(reader, ENUMS)?;
    let enums = Enums { items };
    let items = roles(reader)?;
    let roles = Roles { items };
    reader.word(Word::KwBegin)?;
    let items = self::items(reader, NESTING)?;
    let body = Body { items };
    reader.word(Word::KwEnd)?;
    Ok(SeqProgram { enums, roles, body })
}

#[tactic(auto, unfolding(crate::specs::Sequences::sequential))]
fn read(alloc: Global, tokens: &[Placed]) -> Result<SeqProgram, Stop>
    requires { length tokens.now ≤ 16777216 }
    ensures { Answers (λ p. p) result (spec.sequential sequence tokens.now) }
{
    let mut reader = Reader::new(alloc, tokens, ITEMS);
    let program = whole(&mut reader)?;
    if reader.peek().is_some() {
        return Err(Stop::Syntax(reader.left()));
    }
    Ok(program)
}

/// The one sequential program whose spelling the tokens are, within the limits of a sequential text. A fault's number
/// is as that of `program`.
pub fn sequential(alloc: Global, tokens: &[Placed]) -> Result<SeqProgram, ParseFault>
    requires { length tokens.now ≤ 16777216 }
    ensures read { Read (length tokens.now) (spec.sequential sequence tokens.now) result }
    ensures answer { IsSequence tokens.now result }
{
    match read(alloc, tokens) {
        Ok(program) => Ok(program),
        Err(stop) => Err(stop.fault(tokens.len() as u32)),
    }
}
