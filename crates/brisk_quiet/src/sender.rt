//! The quiet test of a sender, over its code and what follows it.
ghost use Rattle.std.specs.Prelude.{◌≡◌, if◌then◌else◌, IfOk};
ghost use Rattle.brisk_quiet.specs.Left.{came, left_after};
ghost use Rattle.brisk_quiet.specs.Quiet.{walk};
ghost use Rattle.brisk_quiet.specs.Sender.{is_marked as is_marked_by, sender_quiet as quietness, walk_later, walk_pieces};

use crate::partner::{partner, under};
use crate::question::Question;
use crate::stillness::Stillness;
use crate::taken::Taken;
use crate::unsent::unsent;
use crate::walk::{in_code, in_loop};
use brisk_state::State;
use brisk_syntax::{Code, Stmt, Who, copy_code};
use brisk_values::{Name, NoMemory};
use std::alloc::Global;
use std::marker::Model;

/// A piece of what follows a thread's code, while a rule is entered: the loop that comes again with what stands behind it, or
/// what stands behind a receive. A marked piece begins with a `for` over the set that is its mark.
#[derive(Drop)]
pub struct Piece {
    pub mark: Option<Name>,
    pub code: Code,
}

impl Model for Piece {
    ghost use Rattle.brisk_quiet.specs.Sender.{Piece};
    ghost use Rattle.brisk_quiet.specs.PieceStored.{coded_piece};

    ghost Value = { Piece };

    ghost coded = { coded_piece };

    ghost view = { λ p. record { mark = p.mark; code = p.code } };
}

/// Whether a sender that stands at this code, with these pieces behind it, sends on the channel before it waits for the
/// receiver, where the messages of the state pend. In a piece that is marked with the receiver's set, sends of the loop's
/// turns to come are passed over: they go to other members.
pub fn sender_quiet(
    alloc: Global,
    state: &State,
    code: &Code,
    pieces: &[Piece],
    sender: Name,
    receiver: Name,
    channel: Name,
) -> Result<Stillness, NoMemory>
    ensures { IfOk result (λ s. s ≡ quietness state.now code.now pieces.now sender receiver channel) }
{
    let partner = partner(state.threads(), &receiver);
    let asked = Question {
        state,
        member: sender,
        receiver,
        channel,
    };
    let mut taken = Taken::new(alloc);
    match in_code(&asked, &partner, code, &mut taken)? {
        Stillness::Ends => {
            let behind = in_pieces(alloc, &asked, &partner, pieces, &mut taken)?;
            Ok(behind)
        }
        stillness => Ok(stillness),
    }
}

fn in_pieces(
    alloc: Global,
    asked: &Question,
    receiver: &Option<Who>,
    pieces: &[Piece],
    taken: &mut Taken,
) -> Result<Stillness, NoMemory>
    ensures { IfOk result (λ r. came r (left_after asked.now taken.new) ≡ walk_pieces receiver.now asked.now.receiver asked.now.channel pieces.now (left_after asked.now taken.old)) }
{
    for piece in pieces {
        match in_piece(alloc, asked, receiver, piece, taken)? {
            Stillness::Ends => {}
            stillness => return Ok(stillness),
        }
    }
    Ok(Stillness::Ends)
}

fn in_piece(
    alloc: Global,
    asked: &Question,
    receiver: &Option<Who>,
    piece: &Piece,
    taken: &mut Taken,
) -> Result<Stillness, NoMemory>
    ensures { IfOk result (λ r. came r (left_after asked.now taken.new) ≡ (if is_marked_by asked.now.receiver piece.now.mark then walk_later receiver.now asked.now.channel piece.now.code (left_after asked.now taken.old) else walk receiver.now asked.now.channel piece.now.code (left_after asked.now taken.old))) }
{
    if is_marked(&piece.mark, asked.receiver) {
        in_later_turns(alloc, asked, receiver, &piece.code, taken)
    } else {
        in_code(asked, receiver, &piece.code, taken)
    }
}

// Whether the mark is this set.
fn is_marked(mark: &Option<Name>, set: Name) -> bool
    ensures { result ≡ is_marked_by set mark.now }
{
    match mark {
        None => false,
        Some(name) => set == *name,
    }
}

// A `for` whose later turns name other members than the receiver, and what stands behind it.
fn in_later_turns(
    alloc: Global,
    asked: &Question,
    receiver: &Option<Who>,
    code: &Code,
    taken: &mut Taken,
) -> Result<Stillness, NoMemory>
    ensures { IfOk result (λ r. came r (left_after asked.now taken.new) ≡ walk_later receiver.now asked.now.channel code.now (left_after asked.now taken.old)) }
{
    let Some(Stmt::For(l)) = code.first() else {
        return in_code(asked, receiver, code, taken);
    };
    let body = unsent(alloc, &l.body, l.binder)?;
    match in_loop(asked, &under(&l.binder, receiver), &body, taken)? {
        Stillness::Sends => Ok(Stillness::Sends),
        _ => {
            let mut rest = copy_code(alloc, code)?;
            rest.skip();
            let stillness = in_code(asked, receiver, &rest, taken)?;
            Ok(stillness)
        }
    }
}
