//! What an event does, found without changing the machine.
ghost use Rattle.std.specs.Prelude.{◌≡◌, IfOk, IsSome, false, ℕ, Bool, Option as Opt, ◌+◌, if◌then◌else◌, nat_lt};
ghost use Rattle.brisk_values.specs.Names.{Name as Bytes, member};
ghost use Rattle.brisk_syntax.specs.Substitution.{code_with};
ghost use Rattle.brisk_values.specs.Places.{value_in};
ghost use Rattle.brisk_syntax.specs.Segments.{head_of, rest_of};
ghost use Rattle.brisk_syntax.specs.Statements.{statement_of};
ghost use Rattle.brisk_syntax.specs.Syntax.{◌⨾◌, ◌then◌, For, Repeat};
ghost use Rattle.brisk_syntax.specs.Value.{size_in};
ghost use Rattle.brisk_async.specs.Machine.{Queue, Payload as Paid, partner as partner_of, is_member as is_member_of, effect};
ghost use Rattle.brisk_async.specs.Effects.{next_of, looks};
ghost use Rattle.brisk_async.specs.Acts.{effect_if, is_receive};

use crate::codes::Next;
use crate::mail::Key;
use brisk_syntax::{
    Block, Code, Loop, Names, Stmt, Turns, Who, copy_code, eval, eval_all, is_true, size_of_set,
    subst,
};
use brisk_values::{Name, NoMemory, Pid, Sizes, Store, Value, Values, same_name};
use std::alloc::Global;
use std::rc::Rc;

/// What an event changes besides the code of its process.
#[derive(Drop)]
pub enum Change {
    Nothing,
    Stores(Name, Value),
    Sends(Key, Values),
    /// The queue, the place, and the variables with the values that they get.
    Takes(Key, u32, Names, Values),
}

/// What an event does.
#[derive(Drop)]
pub struct Act {
    pub next: Next,
    pub change: Change,
}

/// The process for which a partner stands.
pub fn partner(who: &Who) -> Pid
    ensures { result ≡ partner_of who.now }
{
    match who {
        Who::Name(n) | Who::At(n) => Pid {
            role: *n,
            member: 0,
        },
        Who::Pid(p) => *p,
    }
}

/// Whether a process is a member of a set.
pub fn is_member(sizes: &Sizes, set: &Name, process: &Pid) -> bool
    ensures { result ≡ is_member_of (size_in sizes.now) set.now process.now }
{
    same_name(set, &process.role) && process.member < size_of_set(sizes, set)
}

// The body in the place of the first statement.
pub fn replaced(alloc: Global, code: &Code, body: &Rc<Block>) -> Result<Next, NoMemory>
    requires { IsSome (head_of code.now) }
    ensures { IfOk result (λ n. next_of n code.now ≡ body.now.value then rest_of code.now) }
{
    let mut next = copy_code(alloc, code)?;
    next.replace_first(body)?;
    Ok(Next::Code(next))
}

// The body and then this statement in the place of the first statement.
fn turned(alloc: Global, code: &Code, body: &Rc<Block>, again: Stmt) -> Result<Next, NoMemory>
    requires { IsSome (head_of code.now) }
    ensures { IfOk result (λ n. next_of n code.now ≡ body.now.value then (statement_of again ⨾ rest_of code.now)) }
{
    let again = Rc::new(
        alloc,
        Block {
            items: vec![in alloc; again]?,
        },
    )?;
    let mut next = copy_code(alloc, code)?;
    next.unroll(body, &again)?;
    Ok(Next::Code(next))
}

// The code with the body before it.
fn repeated(alloc: Global, code: &Code, body: &Rc<Block>) -> Result<Next, NoMemory>
    ensures { IfOk result (λ n. next_of n code.now ≡ body.now.value then code.now) }
{
    let mut next = copy_code(alloc, code)?;
    next.put_before(body)?;
    Ok(Next::Code(next))
}

// The act that changes nothing but the code.
fn goes(next: Next) -> Act
    ensures { result ≡ record { next = next; change = Change.Nothing } }
{
    Act {
        next,
        change: Change::Nothing,
    }
}

// What a `for` does: where the set has a further member, the body with this member in the place of the binder, and
// the next turn.
fn next_member(alloc: Global, code: &Code, turns: &Loop, sizes: &Sizes) -> Result<Next, NoMemory>
    requires { IsSome (head_of code.now) }
    ensures { IfOk result (λ n. next_of n code.now ≡ (if nat_lt turns.now.turn (size_in sizes.now turns.now.set) then code_with turns.now.binder (Who.Pid (member turns.now.set turns.now.turn)) turns.now.body.value then (For turns.now.binder turns.now.set (turns.now.turn + 1) turns.now.body.value ⨾ rest_of code.now) else rest_of code.now)) }
{
    if turns.turn >= size_of_set(sizes, &turns.set) {
        return Ok(Next::Rest);
    }
    let member = Who::Pid(Pid {
        role: turns.set,
        member: turns.turn,
    });
    let body = Rc::new(alloc, subst(alloc, &turns.body, turns.binder, member)?)?;
    let again = Stmt::For(Loop {
        binder: turns.binder,
        set: turns.set,
        turn: turns.turn + 1,
        body: turns.body.clone()?,
    });
    turned(alloc, code, &body, again)
}

// What a `repeat` does: where a turn is left, the body and the next turn.
fn next_turn(alloc: Global, code: &Code, turns: &Turns, sizes: &Sizes) -> Result<Next, NoMemory>
    requires { IsSome (head_of code.now) }
    ensures { IfOk result (λ n. next_of n code.now ≡ (if nat_lt turns.now.turn (size_in sizes.now turns.now.set) then turns.now.body.value then (Repeat turns.now.set (turns.now.turn + 1) turns.now.body.value ⨾ rest_of code.now) else rest_of code.now)) }
{
    if turns.turn >= size_of_set(sizes, &turns.set) {
        return Ok(Next::Rest);
    }
    let again = Stmt::Repeat(Turns {
        set: turns.set,
        turn: turns.turn + 1,
        body: turns.body.clone()?,
    });
    turned(alloc, code, &turns.body, again)
}

// What a statement that is no receive does, where neither a sender nor a place is given.
pub fn plain(
    alloc: Global,
    code: &Code,
    head: &Stmt,
    process: &Pid,
    store: &Store,
    sizes: &Sizes,
) -> Result<Option<Act>, NoMemory>
    requires some { IsSome (head_of code.now) }
    requires head { code.now ≡ statement_of head.now ⨾ rest_of code.now }
    requires other { is_receive (statement_of head.now) ≡ false }
    ensures { IfOk result (λ a. (loose : Bytes → Bool) (waiting : Queue → ℕ → Opt Paid) → effect_if code.now a ≡ effect (looks (size_in sizes.now) loose (value_in store.now process.now) waiting) process.now (statement_of head.now ⨾ rest_of code.now) None None) }
{
    match head {
        Stmt::Assign(x, e) => Ok(Some(Act {
            next: Next::Rest,
            change: Change::Stores(*x, eval(e, *process, store, sizes)),
        })),
        Stmt::Send(c, es, u) => {
            let key = Key {
                from: *process,
                to: partner(u),
                channel: *c,
            };
            Ok(Some(Act {
                next: Next::Rest,
                change: Change::Sends(key, eval_all(alloc, es, process, store, sizes)?),
            }))
        }
        Stmt::If(e, a, None) => {
            if is_true(eval(e, *process, store, sizes)) {
                Ok(Some(goes(replaced(alloc, code, a)?)))
            } else {
                Ok(Some(goes(Next::Rest)))
            }
        }
        Stmt::If(e, a, Some(b)) => {
            if is_true(eval(e, *process, store, sizes)) {
                Ok(Some(goes(replaced(alloc, code, a)?)))
            } else {
                Ok(Some(goes(replaced(alloc, code, b)?)))
            }
        }
        Stmt::While(e, a) => {
            if is_true(eval(e, *process, store, sizes)) {
                Ok(Some(goes(repeated(alloc, code, a)?)))
            } else {
                Ok(Some(goes(Next::Rest)))
            }
        }
        Stmt::For(l) => Ok(Some(goes(next_member(alloc, code, l, sizes)?))),
        Stmt::Repeat(l) => Ok(Some(goes(next_turn(alloc, code, l, sizes)?))),
        Stmt::Recv(_, _, _) | Stmt::RecvAny(_) => Ok(None),
    }
}
