//! Enumerations, channels and declarations.
ghost use Rattle.std.specs.Prelude.{◌≡◌, map};
ghost use Rattle.std.specs.Option.{option_copied};
ghost use Rattle.brisk_lex.specs.declared.token.Token.TheVariants as t;
ghost use Rattle.brisk_parse.specs.Declarations as spec;
ghost use Rattle.brisk_parse.specs.Limits.{source};
ghost use Rattle.brisk_parse.specs.Outcomes.{Reads};

use crate::fault::Stop;
use crate::lists::{Item, listed, separated};
use crate::reader::Reader;
use brisk_lex::{Mark, Token, Word};
use brisk_syntax::{Channel, Const, Decl, EnumDecl, Kinds, Names};
use brisk_values::{Kind, Name};

/// How many tags may follow the first of an enumeration.
const MORE_TAGS: usize = 255;

/// How many kinds may follow the first of a channel.
const MORE_KINDS: usize = 15;

impl Item for Kind {
    ghost use Rattle.brisk_values.specs.declared.value.Kind.{Kind};
    ghost use Rattle.brisk_parse.specs.Declarations.{begins_kind, kind};

    ghost View = { Kind };

    ghost seen = { λ k. k };

    ghost is_first = { begins_kind };

    ghost one = { kind };

    fn begins(token: Option<&Token>) -> bool {
        match token {
            Some(Token::Word(Word::KwInt | Word::KwBool)) => true,
            Some(Token::Name(_)) => true,
            _ => false,
        }
    }

    fn read(reader: &mut Reader<'_>) -> Result<Kind, Stop> {
        kind(reader)
    }
}

#[tactic(auto, unfolding(crate::specs::Declarations::kind))]
fn kind(reader: &mut Reader<'_>) -> Result<Kind, Stop>
    ensures { Reads (λ k. k) result reader.new (spec.kind reader.old) }
{
    let kind = match reader.peek() {
        Some(Token::Word(Word::KwInt)) => Kind::Int,
        Some(Token::Word(Word::KwBool)) => Kind::Bool,
        Some(Token::Name(name)) => Kind::Enum(*name),
        _ => return Err(Stop::Syntax(reader.left())),
    };
    reader.advance();
    Ok(kind)
}

#[tactic(auto, unfolding(crate::specs::Declarations::tag))]
fn tag(reader: &mut Reader<'_>, enumeration: Name) -> Result<Const, Stop>
    ensures { Reads (λ c. c) result reader.new (spec.tag enumeration reader.old) }
{
    reader.mark(Mark::Dot)?;
    let tag = reader.name()?;
    Ok(Const::Tag(enumeration, tag))
}

#[tactic(auto, unfolding(crate::specs::Declarations::constant))]
fn constant(reader: &mut Reader<'_>) -> Result<Const, Stop>
    ensures { Reads (λ c. c) result reader.new (spec.constant reader.old) }
{
    match reader.peek() {
        Some(Token::Num(number)) => {
            reader.advance();
            Ok(Const::Num(false, *number))
        }
        Some(Token::Mark(Mark::Minus)) => {
            reader.advance();
            let number = reader.number()?;
            Ok(Const::Num(true, number))
        }
        Some(Token::Word(Word::KwTrue)) => {
            reader.advance();
            Ok(Const::Bool(true))
        }
        Some(Token::Word(Word::KwFalse)) => {
            reader.advance();
            Ok(Const::Bool(false))
        }
        Some(Token::Name(enumeration)) => {
            reader.advance();
            tag(reader, *enumeration)
        }
        _ => Err(Stop::Syntax(reader.left())),
    }
}

#[tactic(auto, unfolding(crate::specs::Declarations::variable))]
fn variable(reader: &mut Reader<'_>) -> Result<Decl, Stop>
    ensures { Reads (λ d. d) result reader.new (spec.variable reader.old) }
{
    let name = reader.name()?;
    reader.mark(Mark::Colon)?;
    let kind = kind(reader)?;
    reader.mark(Mark::Equals)?;
    let value = constant(reader)?;
    reader.mark(Mark::Semi)?;
    Ok(Decl::Var(name, kind, value))
}

#[tactic(auto, unfolding(crate::specs::Declarations::input))]
fn input(reader: &mut Reader<'_>) -> Result<Decl, Stop>
    ensures { Reads (λ d. d) result reader.new (spec.input reader.old) }
{
    let name = reader.name()?;
    reader.mark(Mark::Colon)?;
    let kind = kind(reader)?;
    reader.mark(Mark::Semi)?;
    Ok(Decl::Input(name, kind))
}

#[tactic(auto, unfolding(crate::specs::Declarations::declaration))]
fn declaration(reader: &mut Reader<'_>) -> Result<Decl, Stop>
    ensures { Reads (λ d. d) result reader.new (spec.declaration reader.old) }
{
    match reader.peek() {
        Some(Token::Word(Word::KwVar)) => {
            reader.advance();
            variable(reader)
        }
        Some(Token::Word(Word::KwInput)) => {
            reader.advance();
            input(reader)
        }
        _ => Err(Stop::Syntax(reader.left())),
    }
}

impl Item for Decl {
    ghost use Rattle.brisk_syntax.specs.declared.program.Decl.{Decl};
    ghost use Rattle.brisk_parse.specs.Declarations.{begins_declaration, declaration};

    ghost View = { Decl };

    ghost seen = { λ d. d };

    ghost is_first = { begins_declaration };

    ghost one = { declaration };

    fn begins(token: Option<&Token>) -> bool {
        matches!(token, Some(Token::Word(Word::KwVar | Word::KwInput)))
    }

    fn read(reader: &mut Reader<'_>) -> Result<Decl, Stop> {
        declaration(reader)
    }
}

#[tactic(auto, unfolding(crate::specs::Declarations::enumeration))]
fn enumeration(reader: &mut Reader<'_>) -> Result<EnumDecl, Stop>
    ensures { Reads (λ e. e) result reader.new (spec.enumeration source reader.old) }
{
    reader.word(Word::KwEnum)?;
    let name = reader.name()?;
    reader.mark(Mark::LBrace)?;
    let items = separated(reader, MORE_TAGS)?;
    reader.mark(Mark::RBrace)?;
    Ok(EnumDecl {
        name,
        tags: Names { items },
    })
}

impl Item for EnumDecl {
    ghost use Rattle.brisk_syntax.specs.declared.program.EnumDecl.{EnumDecl};
    ghost use Rattle.brisk_parse.specs.Declarations.{begins_enumeration, enumeration};
    ghost use Rattle.brisk_parse.specs.Limits.{source};

    ghost View = { EnumDecl };

    ghost seen = { λ e. e };

    ghost is_first = { begins_enumeration };

    ghost one = { enumeration source };

    fn begins(token: Option<&Token>) -> bool {
        matches!(token, Some(Token::Word(Word::KwEnum)))
    }

    fn read(reader: &mut Reader<'_>) -> Result<EnumDecl, Stop> {
        enumeration(reader)
    }
}

/// Whether the word comes, which is then read.
#[tactic(auto, unfolding(crate::specs::Declarations::flag))]
pub fn flag(reader: &mut Reader<'_>, word: Word) -> bool
    ensures { spec.flag (t.Word word) reader.old ≡ Ok (result, reader.new) }
{
    let comes = reader.sees_word(word);
    if comes {
        reader.advance();
    }
    comes
}

#[tactic(auto, unfolding(crate::specs::Declarations::channel))]
fn channel(reader: &mut Reader<'_>) -> Result<Channel, Stop>
    ensures { Reads (λ c. c) result reader.new (spec.channel source reader.old) }
{
    reader.word(Word::KwChannel)?;
    let name = reader.name()?;
    reader.mark(Mark::LParen)?;
    let items = listed(reader, MORE_KINDS)?;
    reader.mark(Mark::RParen)?;
    let loose = flag(reader, Word::KwLoose);
    reader.mark(Mark::Semi)?;
    Ok(Channel {
        name,
        kinds: Kinds { items },
        loose,
    })
}

impl Item for Channel {
    ghost use Rattle.brisk_syntax.specs.declared.program.Channel.{Channel};
    ghost use Rattle.brisk_parse.specs.Declarations.{begins_channel, channel};
    ghost use Rattle.brisk_parse.specs.Limits.{source};

    ghost View = { Channel };

    ghost seen = { λ c. c };

    ghost is_first = { begins_channel };

    ghost one = { channel source };

    fn begins(token: Option<&Token>) -> bool {
        matches!(token, Some(Token::Word(Word::KwChannel)))
    }

    fn read(reader: &mut Reader<'_>) -> Result<Channel, Stop> {
        channel(reader)
    }
}
