//! Sequential programs: each construct, and the token at which a text that is nearly one is refused.
use crate::texts::sequence_fault;
use brisk_parse::ParseFault;
use brisk_seq::{Fill, Seq, Take};
use brisk_syntax::{Expr, Exprs, Names, same_expr};
use brisk_test_texts::parsed_sequence;
use brisk_values::Name;
use std::test::Fail;

const READ: [&[u8]; 11] = [
    b"begin end",
    b"enum E{A}one A{var x:int=0;input y:E;}many Ws nonempty{}begin end",
    b"begin A.():=B.();A.(x):=B.(1);A.(x,y):=B.(1,2);end",
    b"begin box 1(A to B):=A.();box 4294967295(A to B):=A.(1,2);end",
    b"begin B.():=box 1(A to B);B.(x,y):=box 0(A to B);end",
    b"begin if A.(a){}else{}if A.(a<b){A.(x):=A.(1);}else{A.(x):=A.(2);}end",
    b"begin while A.(a){A.(a):=A.(!a);}end",
    b"begin for S{for T{}}end",
    b"begin for any S{A.():=S.();}end",
    b"begin pick S{A.():=S.();}end",
    b"begin repeat S{repeat S{}}end",
];

#[test]
fn each_item_is_read(rt: HostRuntime) -> Result<(), Fail> {
    for text in READ {
        assert_eq!(rt; sequence_fault(rt.alloc(), text)?, None, "of {text:?}");
    }
    Ok(())
}

const WRONG: [(&[u8], u32); 18] = [
    // texts
    (b"", 0),
    (b"begin", 1),
    (b"begin end end", 2),
    (b"channel C();begin end", 0),
    (b"one A{x:=1;}begin end", 3),
    (b"begin x:=1;end", 2),
    (b"begin A.(1):=B.(1);end", 4),
    (b"begin A.(x):=B;end", 8),
    (b"begin send C()to B;end", 1),
    // items
    (b"begin box 4294967296(A to B):=A.();end", 2),
    (b"begin box 1(A to B):=B.(1);end", 9),
    (b"begin B.(x):=box 1(A to C);end", 12),
    (b"begin if A.(a){}end", 9),
    (b"begin if A.(a<b<c){}else{}end", 8),
    (b"begin while(a){}end", 2),
    (b"begin for any{}end", 3),
    (b"begin pick any S{}end", 2),
    (b"begin repeat S end", 3),
];

#[test]
fn the_first_wrong_token_of_a_sequential_text_is_told(rt: HostRuntime) -> Result<(), Fail> {
    for (text, token) in WRONG {
        assert_eq!(rt;
            sequence_fault(rt.alloc(), text)?,
            Some(ParseFault::SyntaxFault(token)),
            "of {text:?}"
        );
    }
    Ok(())
}

// The two fill and take boxes alike.
fn same_fill(a: &Fill, b: &Fill) -> bool {
    match (a.exprs.items.first(), b.exprs.items.first()) {
        (Some(e), Some(f)) => {
            a.number == b.number && a.from == b.from && a.to == b.to && same_expr(e, f)
        }
        _ => false,
    }
}

fn same_take(a: &Take, b: &Take) -> bool {
    a.number == b.number
        && a.from == b.from
        && a.to == b.to
        && a.vars.items.first() == b.vars.items.first()
}

#[test]
fn a_filled_box_is_its_tree(rt: HostRuntime) -> Result<(), Fail> {
    let read = parsed_sequence(rt.alloc(), b"begin box 7(A to B):=A.(3);end")?;
    let mut items = Vec::new(rt.alloc());
    items.push(Expr::Num(3))?;
    let want = Fill {
        number: 7,
        from: Name::of(b"A"),
        to: Name::of(b"B"),
        exprs: Exprs { items },
    };
    match read.body.items.first() {
        Some(Seq::Fill(fill)) => assert!(rt; same_fill(fill, &want)),
        _ => Err("no fill")?,
    }
    Ok(())
}

#[test]
fn a_taken_box_is_its_tree(rt: HostRuntime) -> Result<(), Fail> {
    let read = parsed_sequence(rt.alloc(), b"begin B.(x):=box 7(A to B);end")?;
    let mut items = Vec::new(rt.alloc());
    items.push(Name::of(b"x"))?;
    let want = Take {
        to: Name::of(b"B"),
        vars: Names { items },
        number: 7,
        from: Name::of(b"A"),
    };
    match read.body.items.first() {
        Some(Seq::Take(take)) => assert!(rt; same_take(take, &want)),
        _ => Err("no take")?,
    }
    Ok(())
}
