//! Programs: each construct, and the token at which a text that is nearly one is refused.
use crate::texts::{fault, first_statement};
use brisk_parse::ParseFault;
use brisk_syntax::{Expr, Program, Stmt, same_expr};
use brisk_test_texts::parsed_program;
use brisk_values::{Op1, Op2};
use std::alloc::Global;
use std::test::Fail;

const READ: [&[u8]; 27] = [
    // declarations
    b"",
    b"enum E{A}enum F{A,B}",
    b"channel C();channel D(int,bool,E);",
    b"channel C(int)loose;channel D()loose;",
    b"one A{}many B{}many Cs nonempty{}",
    b"enum E{A}channel C();one A{}",
    b"one A{input x:int;input y:bool;input z:E;}",
    b"one A{var x:int=1;var y:int=-1;var z:bool=true;var w:bool=false;var v:E=E.A;}",
    b"one A{var x:int=1;x:=2;}",
    // statements
    b"one A{x:=1;}",
    b"one A{send C()to B;send C(1)to B;send C(1,x)to B;}",
    b"one A{recv C()from B;recv C(x)from B;recv C(x,y)from B;}",
    b"one A{recv C(x)from any w in Ws{x:=1;}}",
    b"one A{if a{}if a{x:=1;}}",
    b"one A{if a{}else{}if a{x:=1;}else{y:=1;}}",
    b"one A{while a{x:=1;}}",
    b"one A{for w in Ws{send C()to w;}}",
    b"one A{repeat Ws{repeat Vs{}}}",
    // expressions
    b"one A{x:=1;x:=true;x:=false;x:=y;x:=E.T;x:=#Ws;x:=(1);}",
    b"one A{x:=a||b||c;x:=a&&b&&c;x:=a||b&&c;}",
    b"one A{x:=a==b;x:=a!=b;x:=a<b;x:=a<=b;x:=a>b;x:=a>=b;}",
    b"one A{x:=a+b+c;x:=a-b-c;x:=a*b*c;x:=a+b*c-d;}",
    b"one A{x:=!a;x:=!!a;x:=-a;x:=- -a;x:=-!a;x:=!-a;}",
    b"one A{x:=a- -b;x:=a*-b;x:=!a&&!b;}",
    b"one A{x:=(a<b)==(c<d);}",
    b"one A{x:=((1));}",
    b"one A{x:=a+b<c*d&&e;}",
];

#[test]
fn each_construct_is_read(rt: HostRuntime) -> Result<(), Fail> {
    for source in READ {
        assert_eq!(rt; fault(rt.alloc(), source)?, None, "of {source:?}");
    }
    Ok(())
}

const WRONG: [(&[u8], u32); 34] = [
    // declarations
    (b"enum E{}", 3),
    (b"enum E{A,}", 5),
    (b"channel loose();", 1),
    (b"channel C(int,)", 5),
    (b"channel C(int)loose", 6),
    (b"channel C()C;", 4),
    (b"one loose{}", 1),
    (b"one A nonempty{}", 2),
    (b"one A{}channel C();", 4),
    (b"channel C();enum E{A}", 5),
    (b"one A{var x:int=--1;}", 9),
    (b"one A{x:=1;var y:int=1;}", 7),
    // statements
    (b"one A{", 3),
    (b"one A{;}", 3),
    (b"one A{x=1;}", 4),
    (b"one A{loose:=1;}", 3),
    (b"one A{send C(x,)to B;}", 8),
    (b"one A{recv C(1)from B;}", 6),
    (b"one A{recv C()from any w of Ws{}}", 10),
    (b"one A{if a{}else if b{}}", 8),
    (b"one A{else{}}", 3),
    (b"one A{for w Ws{}}", 5),
    (b"one A{repeat{}}", 4),
    (b"one A{}}", 4),
    // expressions
    (b"one A{x:=;}", 5),
    (b"one A{x:=a<b<c;}", 8),
    (b"one A{x:=a==b!=c;}", 8),
    (b"one A{x:=a+*b;}", 7),
    (b"one A{x:=a!b;}", 6),
    (b"one A{x:=a.b.c;}", 8),
    (b"one A{x:=#1;}", 6),
    (b"one A{x:=();}", 6),
    (b"one A{x:=(a;}", 7),
    (b"one A{x:=a)}", 6),
];

#[test]
fn the_first_wrong_token_is_told(rt: HostRuntime) -> Result<(), Fail> {
    for (source, token) in WRONG {
        assert_eq!(rt;
            fault(rt.alloc(), source)?,
            Some(ParseFault::SyntaxFault(token)),
            "of {source:?}"
        );
    }
    Ok(())
}

// The expression that the one statement of a source assigns.
fn assigned(program: &Program) -> Result<&Expr, Fail> {
    match first_statement(program)? {
        Stmt::Assign(_, e) => Ok(e),
        _ => Err("no assignment")?,
    }
}

fn binary(alloc: Global, e: Expr, f: Expr) -> Result<Expr, Fail> {
    Ok(Expr::Bin(Op2::Sub, Box::new(alloc, e)?, Box::new(alloc, f)?))
}

fn is_read_so(alloc: Global, source: &[u8], want: &Expr) -> Result<bool, Fail> {
    let program = parsed_program(alloc, source)?;
    Ok(same_expr(assigned(&program)?, want))
}

#[test]
fn operators_group_to_the_left_and_signs_belong_to_operands(rt: HostRuntime) -> Result<(), Fail> {
    let first = binary(rt.alloc(), Expr::Num(1), Expr::Num(2))?;
    let want = binary(rt.alloc(), first, Expr::Num(3))?;
    assert!(rt; is_read_so(rt.alloc(), b"one A{x:=1-2-3;}", &want)?);
    let negative = Expr::Un(Op1::Neg, Box::new(rt.alloc(), Expr::Num(2))?);
    let want = binary(rt.alloc(), Expr::Num(1), negative)?;
    assert!(rt; is_read_so(rt.alloc(), b"one A{x:=1- -2;}", &want)?);
    Ok(())
}

#[test]
fn brackets_are_kept(rt: HostRuntime) -> Result<(), Fail> {
    let inner = binary(rt.alloc(), Expr::Num(2), Expr::Num(3))?;
    let bracket = Expr::Paren(Box::new(rt.alloc(), inner)?);
    let want = binary(rt.alloc(), Expr::Num(1), bracket)?;
    assert!(rt; is_read_so(rt.alloc(), b"one A{x:=1-(2-3);}", &want)?);
    Ok(())
}
