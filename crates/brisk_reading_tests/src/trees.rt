//! Codes made, changed and compared.
use brisk_syntax::{
    Block, Code, Expr, Exprs, Loop, Names, Stmt, Who, code_from, copy_code, copy_expr, copy_exprs,
    copy_names, same_code, same_expr, subst,
};
use brisk_test_texts::parsed_program;
use brisk_values::{Name, Pid};
use std::alloc::Global;
use std::rc::Rc;
use std::test::Fail;

// `for u in Us { send T(1) to v; }`, where v is this partner.
fn turns(alloc: Global, partner: Who) -> Result<Block, Fail> {
    let exprs = Exprs {
        items: vec![in alloc; Expr::Num(1)]?,
    };
    let body = Block {
        items: vec![in alloc; Stmt::Send(Name::of(b"T"), exprs, partner)]?,
    };
    let turns = Loop {
        binder: Name::of(b"u"),
        set: Name::of(b"Us"),
        turn: 0,
        body: Rc::new(alloc, body)?,
    };
    Ok(Block {
        items: vec![in alloc; Stmt::For(turns)]?,
    })
}

#[test]
fn a_binder_is_replaced_in_the_bodies_of_others(rt: HostRuntime) -> Result<(), Fail> {
    let alloc = rt.alloc();
    let member = Who::Pid(Pid {
        role: Name::of(b"Ws"),
        member: 3,
    });
    let named_v = turns(alloc, Who::Name(Name::of(b"v")))?;
    let replaced = code_from(alloc, &subst(alloc, &named_v, Name::of(b"v"), member)?)?;
    let other = code_from(alloc, &subst(alloc, &named_v, Name::of(b"w"), member)?)?;
    let expected = code_from(alloc, &turns(alloc, member)?)?;
    assert!(rt; same_code(&replaced, &expected));
    assert!(rt; same_code(&other, &code_from(alloc, &named_v)?));
    assert!(rt; !same_code(&other, &expected));
    Ok(())
}

#[test]
fn a_copy_is_the_same(rt: HostRuntime) -> Result<(), Fail> {
    let alloc = rt.alloc();
    let code: Code = code_from(alloc, &turns(alloc, Who::At(Name::of(b"Us")))?)?;
    assert!(rt; same_code(&copy_code(alloc, &code)?, &code));
    let size = Expr::Size(Name::of(b"Us"));
    assert!(rt; same_expr(&copy_expr(alloc, &size)?, &size));
    let exprs = Exprs {
        items: vec![in alloc; size]?,
    };
    assert!(rt;
        same_expr(
            &copy_exprs(alloc, &exprs)?.items[0],
            &Expr::Size(Name::of(b"Us"))
        )
    );
    let names = Names {
        items: vec![in alloc; Name::of(b"x"); 2]?,
    };
    assert_eq!(rt;
        copy_names(alloc, &names)?.items.as_slice(),
        names.items.as_slice()
    );
    Ok(())
}

// The statements, as the body of a role.
fn block(alloc: Global, statements: &[u8]) -> Result<Rc<Block>, Fail> {
    let mut source = Vec::from_slice(alloc, b"one A{")?;
    source.extend_from_slice(statements)?;
    source.extend_from_slice(b"}")?;
    let mut program = parsed_program(alloc, &source)?;
    let role = program.roles.items.pop().ok_or("no role")?;
    Ok(role.code)
}

fn code(alloc: Global, statements: &[u8]) -> Result<Code, Fail> {
    Ok(code_from(alloc, &*block(alloc, statements)?)?)
}

// The number that the statement assigns.
fn number(statement: Option<&Stmt>) -> Option<u64> {
    match statement {
        Some(Stmt::Assign(_, Expr::Num(n))) => Some(*n),
        _ => None,
    }
}

// Removes the first statement, and answers the number that it assigns.
fn taken(code: &mut Code) -> Option<u64> {
    let first = code.first()?;
    let number = number(Some(first));
    code.skip();
    number
}

#[test]
fn an_empty_body_is_no_segment(rt: HostRuntime) -> Result<(), Fail> {
    let alloc = rt.alloc();
    let mut code = code(alloc, b"")?;
    assert!(rt; code.first().is_none());
    assert!(rt; code.at(0).is_none());
    code.put_before(&block(alloc, b"")?)?;
    assert!(rt; code.first().is_none());
    Ok(())
}

#[test]
fn two_segments_are_one_list(rt: HostRuntime) -> Result<(), Fail> {
    let alloc = rt.alloc();
    let mut segments = code(alloc, b"x:=2;x:=3;")?;
    assert_eq!(rt; number(segments.first()), Some(2));
    assert_eq!(rt; number(segments.at(1)), Some(3));
    assert!(rt; segments.at(2).is_none());
    segments.put_before(&block(alloc, b"x:=0;x:=1;")?)?;
    let list = code(alloc, b"x:=0;x:=1;x:=2;x:=3;")?;
    assert!(rt; same_code(&segments, &list));
    assert_eq!(rt; number(segments.at(1)), Some(1));
    assert_eq!(rt; number(segments.at(2)), Some(2));
    for n in 0..4 {
        assert_eq!(rt; taken(&mut segments), Some(n));
    }
    assert!(rt; segments.first().is_none());
    Ok(())
}

#[test]
fn a_turn_puts_two_bodies_for_the_first_statement(rt: HostRuntime) -> Result<(), Fail> {
    let alloc = rt.alloc();
    let mut turn = code(alloc, b"x:=9;x:=2;")?;
    let next = block(alloc, b"x:=1;")?;
    assert!(rt; turn.first().is_some());
    turn.unroll(&block(alloc, b"x:=0;")?, &next)?;
    let list = code(alloc, b"x:=0;x:=1;x:=2;")?;
    assert!(rt; same_code(&turn, &list));
    assert!(rt; turn.first().is_some());
    turn.replace_first(&next)?;
    assert_eq!(rt; number(turn.first()), Some(1));
    assert_eq!(rt; number(turn.at(1)), Some(1));
    Ok(())
}
