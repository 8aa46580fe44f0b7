//! A state of a small program: its parts, its messages, and what is compared.
ghost use Rattle.std.specs.Prelude.{◌≡◌, IfOk};
ghost use Rattle.brisk_syntax.specs.Texts.{text_of};
ghost use Rattle.brisk_state.specs.Sample.{sample, set as set_text, single as single_text};

use crate::{FocusFault, Mode, Pending, State};
use brisk_syntax::{
    Block, Channels, Code, Const, Decl, Decls, Enums, Expr, Program, Role, Roles, Stmt, same_code,
};
use brisk_values::{Kind, Name, Value};
use std::alloc::Global;
use std::rc::Rc;
use std::test::Fail;

// `one A { var x : int = 7; input y : int; }`
fn single(alloc: Global) -> Result<Role, Fail>
    ensures { IfOk result (λ r. text_of r ≡ single_text) }
{
    let x = Decl::Var(Name::of(b"x"), Kind::Int, Const::Num(false, 7));
    let y = Decl::Input(Name::of(b"y"), Kind::Int);
    let code = Block {
        items: Vec::new(alloc),
    };
    Ok(Role {
        name: Name::of(b"A"),
        many: false,
        nonempty: false,
        decls: Decls {
            items: vec![in alloc; x, y]?,
        },
        code: Rc::new(alloc, code)?,
    })
}

// `many Ws { }`
fn set(alloc: Global) -> Result<Role, Fail>
    ensures { IfOk result (λ r. text_of r ≡ set_text) }
{
    let code = Block {
        items: Vec::new(alloc),
    };
    Ok(Role {
        name: Name::of(b"Ws"),
        many: true,
        nonempty: false,
        decls: Decls {
            items: Vec::new(alloc),
        },
        code: Rc::new(alloc, code)?,
    })
}

fn program(alloc: Global) -> Result<Program, Fail>
    ensures { IfOk result (λ p. p ≡ sample) }
{
    let first = single(alloc)?;
    let second = set(alloc)?;
    Ok(Program {
        enums: Enums {
            items: Vec::new(alloc),
        },
        channels: Channels {
            items: Vec::new(alloc),
        },
        roles: Roles {
            items: vec![in alloc; first, second]?,
        },
    })
}

fn begun(alloc: Global) -> Result<State, Fail> {
    let program = program(alloc)?;
    let state = State::initial(alloc, &program)?;
    Ok(state)
}

fn message(to: Name, number: u32) -> Pending {
    Pending {
        from: Name::of(b"A"),
        to,
        channel: Name::of(b"T"),
        number,
    }
}

// Puts the message, unless its number is in use.
fn put(state: &mut State, to: Name, number: u32) -> Result<bool, Fail> {
    let message = message(to, number);
    if state.in_use(message.number) {
        return Ok(false);
    }
    state.push(&message)?;
    Ok(true)
}

// Takes the oldest message from `A` to the other on `T`.
fn taken(state: &mut State, to: Name) -> Option<u32> {
    let number = state.oldest(Name::of(b"A"), to, Name::of(b"T"))?;
    state.pop(Name::of(b"A"), to, Name::of(b"T"));
    Some(number)
}

fn mode(state: &State, place: usize) -> Option<Mode> {
    Some(state.threads().get(place)?.mode)
}

#[test]
fn a_state_begins_with_threads_and_facts(rt: HostRuntime) -> Result<(), Fail> {
    let mut state = begun(rt.alloc())?;
    assert_eq!(rt; mode(&state, 0), Some(Mode::One));
    assert_eq!(rt; mode(&state, 1), Some(Mode::Each));
    assert_eq!(rt; mode(&state, 2), None);
    assert!(rt; state.code_of(Name::of(b"B")).is_none());
    let x = state.facts().get(Name::of(b"A"), Name::of(b"x"));
    assert_eq!(rt; x, Some(Value::Int(7)));
    assert_eq!(rt; state.facts().get(Name::of(b"A"), Name::of(b"y")), None);
    assert_eq!(rt; state.focus(Name::of(b"A")), Err(FocusFault::NoThread));
    assert_eq!(rt; state.focus(Name::of(b"B")), Err(FocusFault::NoThread));
    assert_eq!(rt; state.focus(Name::of(b"Ws")), Ok(()));
    assert_eq!(rt; state.focus(Name::of(b"Ws")), Err(FocusFault::SetIsFocused));
    assert_eq!(rt; mode(&state, 1), Some(Mode::At));
    Ok(())
}

#[test]
fn messages_pend_by_key(rt: HostRuntime) -> Result<(), Fail> {
    let mut state = begun(rt.alloc())?;
    let set = Name::of(b"Ws");
    let single = Name::of(b"A");
    assert!(rt; put(&mut state, set, 4)?);
    assert!(rt; put(&mut state, set, 1)?);
    assert!(rt; put(&mut state, single, 2)?);
    assert!(rt; !put(&mut state, single, 4)?);
    assert_eq!(rt; state.least_free(), Some(3));
    assert_eq!(rt; state.count(single, set, Name::of(b"T")), 2);
    assert_eq!(rt; state.count(set, single, Name::of(b"T")), 0);
    let list = state.pending()?;
    let wanted = [message(single, 2), message(set, 4), message(set, 1)];
    assert_eq!(rt; list.as_slice(), wanted.as_slice());
    assert_eq!(rt; taken(&mut state, set), Some(4));
    assert_eq!(rt; taken(&mut state, set), Some(1));
    assert_eq!(rt; taken(&mut state, set), None);
    assert!(rt; !state.in_use(1));
    assert_eq!(rt; state.least_free(), Some(1));
    Ok(())
}

#[test]
fn a_copy_differs_once_one_is_changed(rt: HostRuntime) -> Result<(), Fail> {
    let alloc = rt.alloc();
    let mut state = begun(alloc)?;
    let step = Stmt::Assign(Name::of(b"x"), Expr::Num(1));
    let code = Code::of(alloc, vec![in alloc; step]?)?;
    match state.code_mut(Name::of(b"A")) {
        Some(old) => *old = code,
        None => assert!(rt; false),
    }
    let mut copy = state.copy()?;
    copy.facts_mut().kill(Name::of(b"A"), Name::of(b"x"));
    assert!(rt; state.same(&copy));
    match (state.code_of(Name::of(b"A")), copy.code_of(Name::of(b"A"))) {
        (Some(a), Some(b)) => assert!(rt; same_code(a, b)),
        _ => assert!(rt; false),
    }
    assert!(rt; put(&mut copy, Name::of(b"Ws"), 1)?);
    assert!(rt; !state.same(&copy));
    Ok(())
}
