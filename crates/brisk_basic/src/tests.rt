//! Each basic rule on a small program.
ghost use Rattle.std.specs.Prelude.{◌≡◌, IfOk};
ghost use Rattle.brisk_syntax.specs.Texts.{text_of};
ghost use Rattle.brisk_state.specs.Sample.{sample, set as set_text, single as single_text};

use crate::{Basic, RuleFault, apply};
use brisk_seq::Seq;
use brisk_state::State;
use brisk_syntax::{
    Block, Channels, Code, Const, Decl, Decls, Enums, Expr, Exprs, Names, Program, Role, Roles,
    Stmt, Who, same_expr,
};
use brisk_values::{Kind, Name, NoMemory, Op2, Value};
use std::alloc::Global;
use std::rc::Rc;
use std::test::Fail;

// `one A { var x : int = 7; input y : int; }`
fn single(alloc: Global) -> Result<Role, Fail>
    ensures { IfOk result (λ r. text_of r ≡ single_text) }
{
    let x = Decl::Var(Name::of(b"x"), Kind::Int, Const::Num(false, 7));
    let y = Decl::Input(Name::of(b"y"), Kind::Int);
    let code = Block {
        items: Vec::new(alloc),
    };
    Ok(Role {
        name: Name::of(b"A"),
        many: false,
        nonempty: false,
        decls: Decls {
            items: vec![in alloc; x, y]?,
        },
        code: Rc::new(alloc, code)?,
    })
}

// `many Ws { }`
fn set(alloc: Global) -> Result<Role, Fail>
    ensures { IfOk result (λ r. text_of r ≡ set_text) }
{
    let code = Block {
        items: Vec::new(alloc),
    };
    Ok(Role {
        name: Name::of(b"Ws"),
        many: true,
        nonempty: false,
        decls: Decls {
            items: Vec::new(alloc),
        },
        code: Rc::new(alloc, code)?,
    })
}

fn program(alloc: Global) -> Result<Program, Fail>
    ensures { IfOk result (λ p. p ≡ sample) }
{
    let first = single(alloc)?;
    let second = set(alloc)?;
    Ok(Program {
        enums: Enums {
            items: Vec::new(alloc),
        },
        channels: Channels {
            items: Vec::new(alloc),
        },
        roles: Roles {
            items: vec![in alloc; first, second]?,
        },
    })
}

// The state of the program, where the set is in focus and the threads stand at these statements.
fn begun(alloc: Global, single: Vec<Stmt>, set: Vec<Stmt>) -> Result<State, Fail> {
    let program = program(alloc)?;
    let mut state = State::initial(alloc, &program)?;
    state.focus(Name::of(b"Ws"))?;
    if let Some(code) = state.code_mut(Name::of(b"A")) {
        *code = Code::of(alloc, single)?;
    }
    if let Some(code) = state.code_mut(Name::of(b"Ws")) {
        *code = Code::of(alloc, set)?;
    }
    Ok(state)
}

// `send T(x) to` the set's member in focus
fn send(alloc: Global) -> Result<Stmt, NoMemory> {
    let exprs = Exprs {
        items: vec![in alloc; Expr::Var(Name::of(b"x"))]?,
    };
    Ok(Stmt::Send(Name::of(b"T"), exprs, Who::At(Name::of(b"Ws"))))
}

// `recv T(v) from A;`
fn receive(alloc: Global) -> Result<Stmt, NoMemory> {
    let vars = Names {
        items: vec![in alloc; Name::of(b"v")]?,
    };
    Ok(Stmt::Recv(Name::of(b"T"), vars, Who::Name(Name::of(b"A"))))
}

// `variable := n;`
fn assignment(variable: Name, n: u64) -> Stmt {
    Stmt::Assign(variable, Expr::Num(n))
}

// `variable := n;` alone
fn body(alloc: Global, variable: Name, n: u64) -> Result<Rc<Block>, NoMemory> {
    let items = vec![in alloc; assignment(variable, n)]?;
    Ok(Rc::new(alloc, Block { items })?)
}

// `x == n`
fn equal(alloc: Global, n: u64) -> Result<Expr, NoMemory> {
    let x = Box::new(alloc, Expr::Var(Name::of(b"x")))?;
    Ok(Expr::Bin(Op2::Eq, x, Box::new(alloc, Expr::Num(n))?))
}

// Whether the thread stands at an assignment to the variable.
fn assigns(state: &State, thread: Name, variable: Name) -> bool {
    let Some(code) = state.code_of(thread) else {
        return false;
    };
    match code.first() {
        Some(Stmt::Assign(x, _)) => *x == variable,
        _ => false,
    }
}

fn is_done(state: &State, thread: Name) -> bool {
    match state.code_of(thread) {
        None => false,
        Some(code) => code.first().is_none(),
    }
}

// Two sends for two receives.
fn mailing(alloc: Global) -> Result<State, Fail> {
    let first = send(alloc)?;
    let single = vec![in alloc; first, send(alloc)?]?;
    let first = receive(alloc)?;
    let set = vec![in alloc; first, receive(alloc)?]?;
    begun(alloc, single, set)
}

// `if x == 7 { x := 8; } else { y := 2; } while x == 8 { y := 3; }`
fn deciding(alloc: Global) -> Result<State, Fail> {
    let other = Some(body(alloc, Name::of(b"y"), 2)?);
    let fork = Stmt::If(equal(alloc, 7)?, body(alloc, Name::of(b"x"), 8)?, other);
    let turns = Stmt::While(equal(alloc, 8)?, body(alloc, Name::of(b"y"), 3)?);
    let single = vec![in alloc; fork, turns]?;
    begun(alloc, single, Vec::new(alloc))
}

// Whether the rule passes `x` of `A` to `v` of the set.
fn passes(alloc: Global, state: &mut State) -> Result<bool, RuleFault> {
    let pass = Basic::Pass(Name::of(b"A"), Name::of(b"Ws"), Name::of(b"T"));
    let statement = apply(alloc, state, &pass)?;
    let Some(Seq::Pass(p)) = &statement else {
        return Ok(false);
    };
    let (Some(v), Some(e)) = (p.vars.items.first(), p.exprs.items.first()) else {
        return Ok(false);
    };
    let named_so = p.to == Name::of(b"Ws") && p.from == Name::of(b"A") && *v == Name::of(b"v");
    Ok(named_so && same_expr(e, &Expr::Var(Name::of(b"x"))))
}

// The box of the statement that the rule gives.
fn box_of(alloc: Global, state: &mut State, rule: &Basic) -> Result<Option<u32>, RuleFault> {
    let statement = apply(alloc, state, rule)?;
    match &statement {
        Some(Seq::Fill(f)) => Ok(Some(f.number)),
        Some(Seq::Take(t)) => Ok(Some(t.number)),
        _ => Ok(None),
    }
}

// Whether the rule gives a statement.
fn gives(alloc: Global, state: &mut State, rule: &Basic) -> Result<bool, RuleFault> {
    let statement = apply(alloc, state, rule)?;
    Ok(statement.is_some())
}

fn refused(alloc: Global, state: &mut State, rule: &Basic) -> Option<RuleFault> {
    apply(alloc, state, rule).err()
}

#[test]
fn a_message_is_passed(rt: HostRuntime) -> Result<(), Fail> {
    let alloc = rt.alloc();
    let mut state = mailing(alloc)?;
    assert!(rt; passes(alloc, &mut state)?);
    let known = state.facts().get(Name::of(b"Ws"), Name::of(b"v"));
    assert_eq!(rt; known, Some(Value::Int(7)));
    assert!(rt; passes(alloc, &mut state)?);
    assert!(rt; is_done(&state, Name::of(b"A")));
    assert!(rt; is_done(&state, Name::of(b"Ws")));
    Ok(())
}

#[test]
fn a_box_is_filled_and_emptied(rt: HostRuntime) -> Result<(), Fail> {
    let alloc = rt.alloc();
    let (a, ws, t) = (Name::of(b"A"), Name::of(b"Ws"), Name::of(b"T"));
    let fill = Basic::Fill(a, ws, t, 3);
    let take = Basic::Take(a, ws, t);
    let mut state = mailing(alloc)?;
    let early = refused(alloc, &mut state, &take);
    assert_eq!(rt; early, Some(RuleFault::NothingPending));
    assert_eq!(rt; box_of(alloc, &mut state, &fill)?, Some(3));
    let twice = refused(alloc, &mut state, &fill);
    assert_eq!(rt; twice, Some(RuleFault::BoxInUse));
    let over = refused(alloc, &mut state, &Basic::Pass(a, ws, t));
    assert_eq!(rt; over, Some(RuleFault::AlreadyPending));
    assert_eq!(rt; box_of(alloc, &mut state, &take)?, Some(3));
    assert_eq!(rt; state.oldest(a, ws, t), None);
    Ok(())
}

#[test]
fn a_known_guard_decides(rt: HostRuntime) -> Result<(), Fail> {
    let alloc = rt.alloc();
    let (a, x, y) = (Name::of(b"A"), Name::of(b"x"), Name::of(b"y"));
    let known = Basic::Known(a);
    let assign = Basic::Assign(a);
    let mut state = deciding(alloc)?;
    assert!(rt; !gives(alloc, &mut state, &known)?);
    assert!(rt; assigns(&state, a, x));
    assert!(rt; gives(alloc, &mut state, &assign)?);
    assert_eq!(rt; state.facts().get(a, x), Some(Value::Int(8)));
    assert!(rt; !gives(alloc, &mut state, &known)?);
    assert!(rt; assigns(&state, a, y));
    assert!(rt; gives(alloc, &mut state, &assign)?);
    state.facts_mut().kill(a, x);
    let unknown = refused(alloc, &mut state, &known);
    assert_eq!(rt; unknown, Some(RuleFault::NotKnown));
    let missing = refused(alloc, &mut state, &Basic::Known(y));
    assert_eq!(rt; missing, Some(RuleFault::NoThread));
    Ok(())
}
