//! The walk through a member's code, in which receives from the receiver take what pends.
ghost use Rattle.std.specs.Prelude.{◌≡◌, IfOk};
ghost use Rattle.brisk_syntax.specs.Statements.{statement_of};
ghost use Rattle.brisk_syntax.specs.Syntax.{done, ◌⨾◌};
ghost use Rattle.brisk_quiet.specs.declared.question.Question.{Question as Asked};
ghost use Rattle.brisk_quiet.specs.Left.{came, left_after};
ghost use Rattle.brisk_quiet.specs.Quiet.{Ends, either as either_of, if_any, one_less, unless_sends, walk};

use crate::partner::{is_partner, under};
use crate::question::Question;
use crate::stillness::Stillness;
use crate::taken::Taken;
use brisk_syntax::{Block, Code, Stmt, Who};
use brisk_values::{Name, NoMemory};

// A receive from the receiver takes a message that pends, or waits for one.
fn receive(asked: &Question, channel: &Name, taken: &mut Taken) -> Result<Stillness, NoMemory>
    ensures { IfOk result (λ r. came r (left_after asked.now taken.new) ≡ if_any (left_after asked.now taken.old channel.now) (Ends (one_less (left_after asked.now taken.old) channel.now))) }
{
    if taken.at(channel) < asked.number(channel) {
        taken.add(channel)?;
        Ok(Stillness::Ends)
    } else {
        Ok(Stillness::Blocks)
    }
}

// What comes of two branches, of which each has taken its own.
fn either(first: Stillness, taken: &mut Taken, second: Stillness, other: Taken) -> Stillness
    ensures { (q : Asked) → came result (left_after q taken.new) ≡ either_of (came first (left_after q taken.old)) (came second (left_after q other)) }
{
    match (first, second) {
        (Stillness::Sends, _) | (_, Stillness::Sends) => Stillness::Sends,
        (Stillness::Blocks, _) => {
            *taken = other;
            second
        }
        (Stillness::Ends, Stillness::Blocks) => Stillness::Ends,
        (Stillness::Ends, Stillness::Ends) => {
            taken.keep_least(&other);
            Stillness::Ends
        }
    }
}

// How the walk through code comes out. Code with more statements than a number tells is more than memory holds.
pub(crate) fn in_code(
    asked: &Question,
    receiver: &Option<Who>,
    code: &Code,
    taken: &mut Taken,
) -> Result<Stillness, NoMemory>
    ensures { IfOk result (λ r. came r (left_after asked.now taken.new) ≡ walk receiver.now asked.now.channel code.now (left_after asked.now taken.old)) }
{
    let mut place = 0u64;
    while let Some(statement) = code.at(place) {
        match in_statement(asked, receiver, statement, taken)? {
            Stillness::Ends => {}
            stillness => return Ok(stillness),
        }
        place = place.checked_add(1).ok_or(NoMemory)?;
    }
    Ok(Stillness::Ends)
}

#[cycle(walk)]
fn in_block(
    asked: &Question,
    receiver: &Option<Who>,
    body: &Block,
    taken: &mut Taken,
) -> Result<Stillness, NoMemory>
    ensures { IfOk result (λ r. came r (left_after asked.now taken.new) ≡ walk receiver.now asked.now.channel body.now (left_after asked.now taken.old)) }
{
    for statement in &body.items {
        match in_statement(asked, receiver, statement, taken)? {
            Stillness::Ends => {}
            stillness => return Ok(stillness),
        }
    }
    Ok(Stillness::Ends)
}

#[cycle(walk)]
fn in_statement(
    asked: &Question,
    receiver: &Option<Who>,
    statement: &Stmt,
    taken: &mut Taken,
) -> Result<Stillness, NoMemory>
    ensures { IfOk result (λ r. came r (left_after asked.now taken.new) ≡ walk receiver.now asked.now.channel (statement_of statement.now ⨾ done) (left_after asked.now taken.old)) }
{
    match statement {
        Stmt::Assign(_, _) => Ok(Stillness::Ends),
        Stmt::Send(channel, _, _) if asked.channel == *channel => Ok(Stillness::Sends),
        Stmt::Send(_, _, _) => Ok(Stillness::Ends),
        Stmt::Recv(channel, _, who) if is_partner(receiver, who) => receive(asked, channel, taken),
        Stmt::Recv(_, _, _) => Ok(Stillness::Ends),
        Stmt::RecvAny(r) => in_block(asked, &under(&r.binder, receiver), &r.body, taken),
        Stmt::If(_, yes, no) => {
            let mut other = taken.copy()?;
            let first = in_block(asked, receiver, yes, taken)?;
            match no {
                None => Ok(either(first, taken, Stillness::Ends, other)),
                Some(no) => {
                    let second = in_block(asked, receiver, no, &mut other)?;
                    Ok(either(first, taken, second, other))
                }
            }
        }
        Stmt::While(_, body) => in_loop(asked, receiver, body, taken),
        Stmt::For(l) => in_loop(asked, &under(&l.binder, receiver), &l.body, taken),
        Stmt::Repeat(l) => in_loop(asked, receiver, &l.body, taken),
    }
}

// A loop may take no turn, so what its body takes isn't counted.
#[cycle(walk)]
pub(crate) fn in_loop(
    asked: &Question,
    receiver: &Option<Who>,
    body: &Block,
    taken: &Taken,
) -> Result<Stillness, NoMemory>
    ensures { IfOk result (λ r. came r (left_after asked.now taken.now) ≡ unless_sends (walk receiver.now asked.now.channel body.now (left_after asked.now taken.now)) (Ends (left_after asked.now taken.now))) }
{
    let mut inside = taken.copy()?;
    match in_block(asked, receiver, body, &mut inside)? {
        Stillness::Sends => Ok(Stillness::Sends),
        _ => Ok(Stillness::Ends),
    }
}
