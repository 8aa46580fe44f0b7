//! Roles and whole programs.
ghost use Rattle.std.specs.Prelude.{◌≡◌, ◌≤◌, length};
ghost use Rattle.brisk_syntax.specs.Texts.{text_of};
ghost use Rattle.brisk_parse.specs.Declarations as spec;
ghost use Rattle.brisk_parse.specs.Limits.{source};
ghost use Rattle.brisk_parse.specs.Outcomes.{Reads};
ghost use Rattle.brisk_parse.specs.Answers.{Answers, IsAnswer, Read};

use crate::declarations::flag;
use crate::fault::{ParseFault, Stop};
use crate::lists::{Item, list_of};
use crate::reader::Reader;
use crate::statements::{STATEMENTS, statements};
use brisk_lex::{Mark, Placed, Token, Word};
use brisk_syntax::{Block, Channels, Decls, Enums, Program, Role, Roles};
use brisk_values::Name;
use std::alloc::Global;
use std::rc::Rc;

pub const ENUMS: usize = 256;

const CHANNELS: usize = 1024;

pub const ROLES: usize = 256;

pub const DECLARATIONS: usize = 256;

/// How many blocks may nest in a role's block.
const NESTING: usize = 63;

#[tactic(auto, unfolding(crate::specs::Declarations::role_block))]
fn role_block(reader: &mut Reader<'_>, name: Name, many: bool, nonempty: bool) -> Result<Role, Stop>
    ensures { Reads text_of result reader.new (spec.role_block source name many nonempty reader.old) }
{
    reader.mark(Mark::LBrace)?;
    let items = list_of(reader, DECLARATIONS)?;
    let decls = Decls { items };
    let items = statements(reader, NESTING)?;
    reader.mark(Mark::RBrace)?;
    let code = Rc::new(reader.alloc(), Block { items })?;
    Ok(Role {
        name,
        many,
        nonempty,
        decls,
        code,
    })
}

#[tactic(auto, unfolding(crate::specs::Declarations::single_role))]
fn single_role(reader: &mut Reader<'_>) -> Result<Role, Stop>
    ensures { Reads text_of result reader.new (spec.single_role source reader.old) }
{
    let name = reader.name()?;
    role_block(reader, name, false, false)
}

#[tactic(auto, unfolding(crate::specs::Declarations::set_role))]
fn set_role(reader: &mut Reader<'_>) -> Result<Role, Stop>
    ensures { Reads text_of result reader.new (spec.set_role source reader.old) }
{
    let name = reader.name()?;
    let nonempty = flag(reader, Word::KwNonempty);
    role_block(reader, name, true, nonempty)
}

#[tactic(auto, unfolding(crate::specs::Declarations::role))]
fn role(reader: &mut Reader<'_>) -> Result<Role, Stop>
    ensures { Reads text_of result reader.new (spec.role source reader.old) }
{
    match reader.peek() {
        Some(Token::Word(Word::KwOne)) => {
            reader.advance();
            single_role(reader)
        }
        Some(Token::Word(Word::KwMany)) => {
            reader.advance();
            set_role(reader)
        }
        _ => Err(Stop::Syntax(reader.left())),
    }
}

impl Item for Role {
    ghost use Rattle.brisk_syntax.specs.Roles.{RoleText};
    ghost use Rattle.brisk_syntax.specs.Texts.{text_of};
    ghost use Rattle.brisk_parse.specs.Declarations as spec;
    ghost use Rattle.brisk_parse.specs.Limits.{source};

    ghost View = { RoleText };

    ghost seen = { text_of };

    ghost is_first = { spec.begins_role };

    ghost one = { spec.role source };

    fn begins(token: Option<&Token>) -> bool {
        matches!(token, Some(Token::Word(Word::KwOne | Word::KwMany)))
    }

    fn read(reader: &mut Reader<'_>) -> Result<Role, Stop> {
        role(reader)
    }
}

#[tactic(auto, unfolding(crate::specs::Declarations::whole))]
fn whole(reader: &mut Reader<'_>) -> Result<Program, Stop>
    ensures { Reads (λ p. p) result reader.new (spec.whole source reader.old) }
{
    let items = list_of(reader, ENUMS)?;
    let enums = Enums { items };
    let items = list_of(reader, CHANNELS)?;
    let channels = Channels { items };
    let items = list_of(reader, ROLES)?;
    let roles = Roles { items };
    Ok(Program {
        enums,
        channels,
        roles,
    })
}

#[tactic(auto, unfolding(crate::specs::Declarations::program))]
fn read(alloc: Global, tokens: &[Placed]) -> Result<Program, Stop>
    requires { length tokens.now ≤ 16777216 }
    ensures { Answers (λ p. p) result (spec.program source tokens.now) }
{
    let mut reader = Reader::new(alloc, tokens, STATEMENTS);
    let program = whole(&mut reader)?;
    if reader.peek().is_some() {
        return Err(Stop::Syntax(reader.left()));
    }
    Ok(program)
}

/// The one program whose spelling the tokens are, within the limits of a source. A fault's number is the index of the
/// first token at fault, or the number of tokens where they end too early.
pub fn program(alloc: Global, tokens: &[Placed]) -> Result<Program, ParseFault>
    requires { length tokens.now ≤ 16777216 }
    ensures read { Read (length tokens.now) (spec.program source tokens.now) result }
    ensures answer { IsAnswer tokens.now result }
{
    match read(alloc, tokens) {
        Ok(program) => Ok(program),
        Err(stop) => Err(stop.fault(tokens.len() as u32)),
    }
}
