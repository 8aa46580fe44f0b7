//! The quiet test of a member of Ws, for the receiver H and the channel Up.
ghost use Rattle.std.specs.Prelude.{◌≡◌, IfOk};
ghost use Rattle.brisk_syntax.specs.Texts.{text_of};
ghost use Rattle.brisk_quiet.specs.Sample.{idle, sample};

use crate::{Stillness, quiet};
use brisk_state::{Pending, State};
use brisk_syntax::{
    AnyRecv, Block, Channels, Code, Decls, Enums, Expr, Exprs, Loop, Names, Program, Role, Roles,
    Stmt, Who,
};
use brisk_values::Name;
use std::alloc::Global;
use std::rc::Rc;
use std::test::Fail;

// `{ STATEMENT }`
fn body(alloc: Global, statement: Stmt) -> Result<Rc<Block>, Fail> {
    let items = vec![in alloc; statement]?;
    Ok(Rc::new(alloc, Block { items })?)
}

fn role(alloc: Global, name: Name, many: bool) -> Result<Role, Fail>
    ensures { IfOk result (λ r. text_of r ≡ idle name many) }
{
    let code = Block {
        items: Vec::new(alloc),
    };
    Ok(Role {
        name,
        many,
        nonempty: false,
        decls: Decls {
            items: Vec::new(alloc),
        },
        code: Rc::new(alloc, code)?,
    })
}

fn program(alloc: Global) -> Result<Program, Fail>
    ensures { IfOk result (λ p. p ≡ sample) }
{
    let first = role(alloc, Name::of(b"H"), false)?;
    let second = role(alloc, Name::of(b"Ws"), true)?;
    Ok(Program {
        enums: Enums {
            items: Vec::new(alloc),
        },
        channels: Channels {
            items: Vec::new(alloc),
        },
        roles: Roles {
            items: vec![in alloc; first, second]?,
        },
    })
}

// Nothing pends.
fn empty(alloc: Global) -> Result<State, Fail> {
    let program = program(alloc)?;
    let state = State::initial(alloc, &program)?;
    Ok(state)
}

// A message on Go from H to Ws pends.
fn filled(alloc: Global) -> Result<State, Fail> {
    let program = program(alloc)?;
    let mut state = State::initial(alloc, &program)?;
    state.push(&Pending {
        from: Name::of(b"H"),
        to: Name::of(b"Ws"),
        channel: Name::of(b"Go"),
        number: 1,
    })?;
    Ok(state)
}

// `send CHANNEL() to H;`
fn send(alloc: Global, channel: Name) -> Stmt {
    let exprs = Exprs {
        items: Vec::new(alloc),
    };
    Stmt::Send(channel, exprs, Who::Name(Name::of(b"H")))
}

// `recv Go() from PARTNER;`
fn hear(alloc: Global, from: Name) -> Stmt {
    let vars = Names {
        items: Vec::new(alloc),
    };
    Stmt::Recv(Name::of(b"Go"), vars, Who::Name(from))
}

// `send Up() to H;`
fn up(alloc: Global) -> Stmt {
    send(alloc, Name::of(b"Up"))
}

// `recv Go() from H;`
fn go(alloc: Global) -> Stmt {
    hear(alloc, Name::of(b"H"))
}

// `recv Go() from any BINDER in Vs { recv Go() from H; }`
fn any(alloc: Global, binder: Name) -> Result<Stmt, Fail> {
    let body = body(alloc, go(alloc))?;
    let vars = Names {
        items: Vec::new(alloc),
    };
    Ok(Stmt::RecvAny(AnyRecv {
        channel: Name::of(b"Go"),
        vars,
        binder,
        set: Name::of(b"Vs"),
        body,
    }))
}

// `if true { recv Go() from H; }`
fn when(alloc: Global) -> Result<Stmt, Fail> {
    Ok(Stmt::If(Expr::Bool(true), body(alloc, go(alloc))?, None))
}

// `if true { recv Go() from H; } else { recv Go() from H; }`
fn either(alloc: Global) -> Result<Stmt, Fail> {
    let yes = body(alloc, go(alloc))?;
    let no = body(alloc, go(alloc))?;
    Ok(Stmt::If(Expr::Bool(true), yes, Some(no)))
}

// `while true { STATEMENT }`
fn again(alloc: Global, statement: Stmt) -> Result<Stmt, Fail> {
    Ok(Stmt::While(Expr::Bool(true), body(alloc, statement)?))
}

// `for v in Vs { STATEMENT }`
fn each(alloc: Global, statement: Stmt) -> Result<Stmt, Fail> {
    Ok(Stmt::For(Loop {
        binder: Name::of(b"v"),
        set: Name::of(b"Vs"),
        turn: 0,
        body: body(alloc, statement)?,
    }))
}

// What comes of two statements.
fn two(alloc: Global, state: &State, first: Stmt, second: Stmt) -> Result<Stillness, Fail> {
    let code = Code::of(alloc, vec![in alloc; first, second]?)?;
    let stillness = quiet(
        alloc,
        &code,
        Name::of(b"Ws"),
        Name::of(b"H"),
        Name::of(b"Up"),
        state,
    )?;
    Ok(stillness)
}

// The same where nothing pends.
fn after_none(alloc: Global, first: Stmt, second: Stmt) -> Result<Stillness, Fail> {
    let state = empty(alloc)?;
    two(alloc, &state, first, second)
}

// The same where a message on Go pends.
fn after_one(alloc: Global, first: Stmt, second: Stmt) -> Result<Stillness, Fail> {
    let state = filled(alloc)?;
    two(alloc, &state, first, second)
}

#[test]
fn a_branch_that_ends_goes_on(rt: HostRuntime) -> Result<(), Fail> {
    let alloc = rt.alloc();
    let one = after_none(alloc, when(alloc)?, up(alloc))?;
    assert_eq!(rt; one, Stillness::Sends);
    let both = after_none(alloc, either(alloc)?, up(alloc))?;
    assert_eq!(rt; both, Stillness::Blocks);
    Ok(())
}

#[test]
fn the_greater_number_is_left(rt: HostRuntime) -> Result<(), Fail> {
    let alloc = rt.alloc();
    let one = after_one(alloc, when(alloc)?, go(alloc))?;
    assert_eq!(rt; one, Stillness::Ends);
    let both = after_one(alloc, either(alloc)?, go(alloc))?;
    assert_eq!(rt; both, Stillness::Blocks);
    Ok(())
}

#[test]
fn a_loop_counts_where_its_body_sends(rt: HostRuntime) -> Result<(), Fail> {
    let alloc = rt.alloc();
    let sends = after_none(alloc, again(alloc, up(alloc))?, go(alloc))?;
    assert_eq!(rt; sends, Stillness::Sends);
    let waits = after_one(alloc, each(alloc, go(alloc))?, go(alloc))?;
    assert_eq!(rt; waits, Stillness::Ends);
    Ok(())
}

#[test]
fn a_receive_uses_up_a_message(rt: HostRuntime) -> Result<(), Fail> {
    let alloc = rt.alloc();
    assert_eq!(rt; after_none(alloc, go(alloc), up(alloc))?, Stillness::Blocks);
    assert_eq!(rt; after_one(alloc, go(alloc), up(alloc))?, Stillness::Sends);
    assert_eq!(rt; after_one(alloc, go(alloc), go(alloc))?, Stillness::Blocks);
    Ok(())
}

#[test]
fn other_partners_and_channels_are_passed_over(rt: HostRuntime) -> Result<(), Fail> {
    let alloc = rt.alloc();
    let down = send(alloc, Name::of(b"Down"));
    let passed = after_none(alloc, hear(alloc, Name::of(b"A")), down)?;
    assert_eq!(rt; passed, Stillness::Ends);
    Ok(())
}

#[test]
fn a_receive_from_any_is_walked_in_line(rt: HostRuntime) -> Result<(), Fail> {
    let alloc = rt.alloc();
    let waits = after_none(alloc, any(alloc, Name::of(b"v"))?, up(alloc))?;
    assert_eq!(rt; waits, Stillness::Blocks);
    let hidden = after_none(alloc, any(alloc, Name::of(b"H"))?, up(alloc))?;
    assert_eq!(rt; hidden, Stillness::Sends);
    Ok(())
}

// How H comes out for the receiver Ws at `recv Go() from Ws`, where Ws is the member in focus.
fn of_a_set(alloc: Global, state: &State) -> Result<Stillness, Fail> {
    let vars = Names {
        items: Vec::new(alloc),
    };
    let waits = Stmt::Recv(Name::of(b"Go"), vars, Who::At(Name::of(b"Ws")));
    let code = Code::of(alloc, vec![in alloc; waits]?)?;
    let stillness = quiet(
        alloc,
        &code,
        Name::of(b"H"),
        Name::of(b"Ws"),
        Name::of(b"Up"),
        state,
    )?;
    Ok(stillness)
}

#[test]
fn a_set_has_a_name_in_focus_alone(rt: HostRuntime) -> Result<(), Fail> {
    let alloc = rt.alloc();
    let mut state = empty(alloc)?;
    assert_eq!(rt; of_a_set(alloc, &state)?, Stillness::Ends);
    state.focus(Name::of(b"Ws"))?;
    assert_eq!(rt; of_a_set(alloc, &state)?, Stillness::Blocks);
    Ok(())
}
