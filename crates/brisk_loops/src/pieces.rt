//! What follows a thread's code in the rules that are entered, and what basic rules ask of senders on loose channels.
ghost use Rattle.std.specs.Prelude.{◌≡◌, IfOk, None, OnOk, reverse};
ghost use Rattle.brisk_derivation.specs.Seen.{step_of};
ghost use Rattle.brisk_rules.specs.Following.{behind_head, loose_fault as loose_fault_of, piece_of, quiet_from as quiet_from_code};
ghost use Rattle.brisk_rules.specs.Rules.{code_in};
ghost use Rattle.brisk_state.specs.Symbolic.{thread_named};
ghost use Rattle.brisk_loops.specs.CloseSeen.{kind_of};
ghost use Rattle.brisk_loops.specs.PiecesSeen.{before, in_rule};
ghost use Rattle.brisk_loops.specs.Walk.{entry, follows};
ghost use Rattle.brisk_loops.specs.WalkSeen.{AreEntered, IsEntered, inside_of, opened_by};
ghost use Rattle.brisk_syntax.specs.declared.program.Program.{Program as Text};

use crate::close::{Loop, is_owner};
use crate::leave::closing_of;
use crate::rule::Rule;
use brisk_basic::Basic;
use brisk_derivation::{SideFault, Step};
use brisk_quiet::{Piece, Stillness, sender_quiet};
use brisk_state::State;
use brisk_syntax::{Code, Program, copy_code};
use brisk_values::{Name, NoMemory};
use std::alloc::Global;

/// What a basic rule asks besides its own tests: on a loose channel a take asks that one message pends, and it and a pass that
/// the sender is quiet, over its code and what follows in the rules that are entered.
pub(crate) fn loose_fault(
    alloc: Global,
    program: &Program,
    rules: &[Rule],
    state: &State,
    rule: &Basic,
) -> Result<Option<SideFault>, NoMemory>
    ensures { AreEntered program.now rules.now → IfOk result (λ f. f ≡ loose_fault_of program.now (follows (opened_by program.now rules.now)) state.now rule.now) }
{
    match rule {
        Basic::Take(from, to, channel) => {
            if !program.channels.is_loose(channel) {
                return Ok(None);
            }
            if state.count(*from, *to, *channel) > 1 {
                return Ok(Some(SideFault::ManyPending));
            }
            let code = copy_of(alloc, state, *from)?;
            let fault = quiet_from(alloc, rules, state, &code, *from, *to, *channel)?;
            Ok(fault)
        }
        Basic::Pass(from, to, channel) => {
            if !program.channels.is_loose(channel) {
                return Ok(None);
            }
            let code = code_behind(alloc, state, *from)?;
            let fault = quiet_from(alloc, rules, state, &code, *from, *to, *channel)?;
            Ok(fault)
        }
        _ => Ok(None),
    }
}

// The code of a thread; none where there is no thread.
fn copy_of(alloc: Global, state: &State, name: Name) -> Result<Code, NoMemory>
    ensures { IfOk result (λ c. c ≡ code_in (thread_named state.now.threads name)) }
{
    match state.code_of(name) {
        None => Ok(Code::of(alloc, Vec::new(alloc))?),
        Some(code) => copy_code(alloc, code),
    }
}

// The code of a thread behind its first statement.
fn code_behind(alloc: Global, state: &State, name: Name) -> Result<Code, NoMemory>
    ensures { IfOk result (λ c. c ≡ behind_head (code_in (thread_named state.now.threads name))) }
{
    let mut code = copy_of(alloc, state, name)?;
    if code.first().is_some() {
        code.skip();
    }
    Ok(code)
}

// A fault, unless the sender is quiet from this code on.
fn quiet_from(
    alloc: Global,
    rules: &[Rule],
    state: &State,
    code: &Code,
    from: Name,
    to: Name,
    channel: Name,
) -> Result<Option<SideFault>, NoMemory>
    ensures { (P : Text) → AreEntered P rules.now → IfOk result (λ f. f ≡ quiet_from_code (follows (opened_by P rules.now)) state.now code.now from to channel) }
{
    let pieces = pieces(alloc, rules, from)?;
    match sender_quiet(alloc, state, code, &pieces, from, to, channel)? {
        Stillness::Sends => Ok(Some(SideFault::SenderNotQuiet)),
        Stillness::Blocks | Stillness::Ends => Ok(None),
    }
}

// What follows the code of a thread, the innermost piece first.
fn pieces(alloc: Global, rules: &[Rule], name: Name) -> Result<Vec<Piece>, NoMemory>
    ensures { (P : Text) → AreEntered P rules.now → IfOk result (λ p. p.items ≡ follows (opened_by P rules.now) name) }
{
    let mut pieces = Vec::new(alloc);
    for rule in rules {
        let piece = piece(alloc, rule, name)?;
        add(&mut pieces, piece)?;
    }
    pieces.reverse();
    Ok(pieces)
}

// Puts the piece, if there is one, last.
fn add(pieces: &mut Vec<Piece>, piece: Option<Piece>) -> Result<(), NoMemory>
    ensures { OnOk result (reverse pieces.new.items ≡ before piece (reverse pieces.old.items)) }
{
    match piece {
        None => Ok(()),
        Some(piece) => {
            pieces.push(piece)?;
            Ok(())
        }
    }
}

// The piece that a rule puts before what follows a thread, if it puts one.
fn piece(alloc: Global, rule: &Rule, name: Name) -> Result<Option<Piece>, NoMemory>
    ensures { (P : Text) → IsEntered (entry P rule.now.state (step_of rule.now.step)) rule.now.side → IfOk result (λ p. p ≡ in_rule rule.now.state name (inside_of (entry P rule.now.state (step_of rule.now.step)) rule.now.side rule.now.state)) }
{
    match &rule.step {
        Step::Branch(_, _, _) => Ok(None),
        _ => {
            let Some(closing) = closing_of(alloc, &rule.step, &rule.state)? else {
                return Err(NoMemory);
            };
            if !is_owner(&closing.owners, name) {
                return Ok(None);
            }
            let piece = piece_by(alloc, &closing.kind, &rule.state, name)?;
            Ok(Some(piece))
        }
    }
}

// The piece of a rule of this kind for an owner that stood so.
fn piece_by(alloc: Global, kind: &Loop, before: &State, owner: Name) -> Result<Piece, NoMemory>
    ensures { IfOk result (λ p. p ≡ piece_of (kind_of kind.now) (code_in (thread_named before.now.threads owner))) }
{
    match kind {
        Loop::Pick(_) => Ok(Piece {
            mark: None,
            code: code_behind(alloc, before, owner)?,
        }),
        Loop::For(set) => Ok(Piece {
            mark: Some(*set),
            code: copy_of(alloc, before, owner)?,
        }),
        Loop::While(_, _) => unmarked(alloc, before, owner),
        Loop::Repeat(_) => unmarked(alloc, before, owner),
        Loop::Gather(_, _, _) => unmarked(alloc, before, owner),
    }
}

// The whole code of an owner.
fn unmarked(alloc: Global, before: &State, owner: Name) -> Result<Piece, NoMemory>
    ensures { IfOk result (λ p. p ≡ record { mark = None; code = code_in (thread_named before.now.threads owner) }) }
{
    let code = copy_of(alloc, before, owner)?;
    Ok(Piece { mark: None, code })
}
