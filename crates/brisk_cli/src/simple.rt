//! How `rewrite` ends on small straight programs and on small stars: never with what is left over, nor with a spent budget.
use crate::status::Status;
use crate::tests::served;
use std::alloc::Global;
use std::test::Fail;

// How these roles end, with two channels: the status, and whether the text begins with this word.
fn ended(alloc: Global, roles: &str, word: &str) -> Result<(Status, bool), Fail> {
    let mut source = String::from_str(alloc, "channel P(int); channel Q(int); ")?;
    source.push_str(roles)?;
    let (status, text) = served(alloc, "rewrite F", source.as_bytes())?;
    Ok((status, text.as_slice().starts_with(word.as_bytes())))
}

// Straight programs: the status, the first word, and the roles.
const STRAIGHT: [(Status, &str, &str); 20] = [
    (Status::Done, "one", "one A { }"),
    (
        Status::Done,
        "one",
        "one A { var x : int = 0; x := x + 1; }",
    ),
    (
        Status::Done,
        "one",
        "one A { input n : int; var x : int = 0; if n < 3 { x := 1; } else { x := 2; } }",
    ),
    (
        Status::Done,
        "one",
        "one A { send P(1) to B; } one B { var x : int = 0; recv P(x) from A; }",
    ),
    (Status::Done, "one", "one A { send P(1) to B; } one B { }"),
    (
        Status::Refused,
        "deadlock",
        "one A { var x : int = 0; recv P(x) from B; } one B { }",
    ),
    (
        Status::Done,
        "one",
        "one A { send P(1) to B; send P(2) to B; } one B { var x : int = 0; recv P(x) from A; }",
    ),
    (
        Status::Refused,
        "deadlock",
        "one A { send P(1) to B; } one B { var x : int = 0; recv P(x) from A; recv P(x) from A; }",
    ),
    (
        Status::Refused,
        "deadlock",
        "one A { send P(1) to B; } one B { var x : int = 0; recv Q(x) from A; }",
    ),
    (
        Status::Done,
        "one",
        "one A { send P(1) to B; send Q(2) to B; } one B { var x : int = 0; recv Q(x) from A; recv P(x) from A; }",
    ),
    (
        Status::Refused,
        "deadlock",
        "one A { var x : int = 0; recv P(x) from B; send Q(1) to B; } one B { var y : int = 0; recv Q(y) from A; send P(1) to A; }",
    ),
    (
        Status::Done,
        "one",
        "one A { var x : int = 0; send Q(1) to B; recv P(x) from B; } one B { var y : int = 0; send P(1) to A; recv Q(y) from A; }",
    ),
    (
        Status::Done,
        "one",
        "one A { var x : int = 0; send Q(1) to B; recv P(x) from B; } one B { var y : int = 0; recv Q(y) from A; send P(y) to A; }",
    ),
    (
        Status::Done,
        "one",
        "one A { send P(1) to B; } one B { var x : int = 0; recv P(x) from A; send P(x) to C; } one C { var x : int = 0; recv P(x) from B; }",
    ),
    (
        Status::Refused,
        "deadlock",
        "one A { var x : int = 0; recv P(x) from C; send P(x) to B; } one B { var x : int = 0; recv P(x) from A; send P(x) to C; } one C { var x : int = 0; recv P(x) from B; send P(x) to A; }",
    ),
    (
        Status::Done,
        "one",
        "one A { var x : int = 0; send P(1) to B; recv P(x) from C; } one B { var x : int = 0; recv P(x) from A; send P(x) to C; } one C { var x : int = 0; recv P(x) from B; send P(x) to A; }",
    ),
    (
        Status::Done,
        "one",
        "one A { send P(1) to C; } one B { send P(2) to C; } one C { var x : int = 0; recv P(x) from B; recv P(x) from A; }",
    ),
    (
        Status::Refused,
        "deadlock",
        "one A { send P(1) to B; } one B { var x : int = 0; recv P(x) from C; } one C { }",
    ),
    (
        Status::Done,
        "one",
        "one A { input n : int; var x : int = 0; if n < 3 { x := 1; } send P(x) to B; } one B { var y : int = 0; recv P(y) from A; if y == 1 { y := 0; } }",
    ),
    (
        Status::Refused,
        "deadlock",
        "one A { var x : int = 0; recv P(x) from B; if x == 1 { x := 2; } send P(x) to B; } one B { var y : int = 0; send P(1) to A; recv P(y) from A; recv Q(y) from A; }",
    ),
];

#[test]
fn straight_programs_end_or_deadlock(rt: HostRuntime) -> Result<(), Fail> {
    let alloc = rt.alloc();
    for (status, word, roles) in STRAIGHT {
        assert_eq!(rt; ended(alloc, roles, word)?, (status, true), "of {roles}");
    }
    Ok(())
}

// Stars, likewise.
const STARS: [(Status, &str, &str); 20] = [
    (Status::Done, "one", "one M { } many Ws { }"),
    (
        Status::Done,
        "one",
        "one M { for w in Ws { send P(1) to w; } } many Ws { var x : int = 0; recv P(x) from M; }",
    ),
    (
        Status::Done,
        "one",
        "one M { for w in Ws { send P(1) to w; } } many Ws { }",
    ),
    (
        Status::Refused,
        "deadlock",
        "one M { } many Ws { var x : int = 0; recv P(x) from M; }",
    ),
    (Status::Done, "one", "one M { } many Ws { send P(1) to M; }"),
    (
        Status::Done,
        "one",
        "one M { var x : int = 0; for w in Ws { recv P(x) from w; } } many Ws { send P(1) to M; }",
    ),
    (
        Status::Refused,
        "deadlock",
        "one M { var x : int = 0; for w in Ws { recv P(x) from w; } } many Ws { }",
    ),
    (
        Status::Done,
        "one",
        "one M { var x : int = 0; repeat Ws { recv P(x) from any w in Ws { } } } many Ws { send P(1) to M; }",
    ),
    (
        Status::Refused,
        "deadlock",
        "one M { var x : int = 0; repeat Ws { recv P(x) from any w in Ws { } } } many Ws { }",
    ),
    (
        Status::Refused,
        "overtaken",
        "one M { var x : int = 0; repeat Ws { recv P(x) from any w in Ws { } } } many Ws { send P(1) to M; send P(2) to M; }",
    ),
    (
        Status::Refused,
        "overtaken",
        "one M { var x : int = 0; repeat Ws { recv P(x) from any w in Ws { } } repeat Ws { recv P(x) from any w in Ws { } } } many Ws { send P(1) to M; send P(2) to M; }",
    ),
    (
        Status::Done,
        "one",
        "one M { var x : int = 0; repeat Ws { recv P(x) from any w in Ws { } } repeat Ws { recv Q(x) from any w in Ws { } } } many Ws { send P(1) to M; send Q(2) to M; }",
    ),
    (
        Status::Done,
        "one",
        "one M { var x : int = 0; for w in Ws { recv P(x) from w; } repeat Ws { recv P(x) from any w in Ws { } } } many Ws { send P(1) to M; send P(2) to M; }",
    ),
    (
        Status::Refused,
        "overtaken",
        "one M { var x : int = 0; repeat Ws { recv P(x) from any w in Ws { } } for w in Ws { recv P(x) from w; } } many Ws { send P(1) to M; send P(2) to M; }",
    ),
    (
        Status::Done,
        "one",
        "one M { var x : int = 0; repeat Ws { recv P(x) from any w in Ws { send Q(x) to w; } } } many Ws { var y : int = 0; send P(1) to M; recv Q(y) from M; }",
    ),
    (
        Status::Refused,
        "overtaken",
        "one M { var x : int = 0; repeat Ws { recv P(x) from any w in Ws { send Q(x) to w; } } } many Ws { var y : int = 0; send P(1) to M; recv Q(y) from M; send P(2) to M; }",
    ),
    (
        Status::Done,
        "one",
        "one M { var x : int = 0; repeat Ws { recv P(x) from any w in Ws { recv P(x) from w; } } } many Ws { send P(1) to M; send P(2) to M; }",
    ),
    (
        Status::Done,
        "one",
        "one M { var x : int = 0; for w in Ws { send Q(1) to w; } repeat Ws { recv P(x) from any w in Ws { } } } many Ws { var y : int = 0; recv Q(y) from M; if y == 1 { y := 2; } send P(y) to M; }",
    ),
    (
        Status::Done,
        "one",
        "one M { var x : int = 0; repeat Ws { recv P(x) from any w in Ws { } } for v in Vs { send P(x) to v; } } many Ws { send P(1) to M; } many Vs { var y : int = 0; recv P(y) from M; }",
    ),
    (
        Status::Refused,
        "overtaken",
        "one M { var x : int = 0; repeat Ws { recv P(x) from any w in Ws { } } repeat Vs { recv P(x) from any v in Vs { } } } many Ws { send P(1) to M; } many Vs { send P(1) to M; send P(2) to M; }",
    ),
];

#[test]
fn stars_end_or_deadlock_or_overtake(rt: HostRuntime) -> Result<(), Fail> {
    let alloc = rt.alloc();
    for (status, word, roles) in STARS {
        assert_eq!(rt; ended(alloc, roles, word)?, (status, true), "of {roles}");
    }
    Ok(())
}
