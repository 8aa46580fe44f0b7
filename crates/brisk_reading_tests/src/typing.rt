//! What is answered for well-typed and ill-typed texts, in which a fault is told at its byte.
use brisk_test_texts::{TextFault, program_of, sequence_of};
use brisk_types::TypeFault;
use std::test::Fail;

// The answer of typing, where the text holds a program.
fn typed<T: Drop>(read: Result<T, TextFault>) -> Result<Result<(), TypeFault>, Fail> {
    match read {
        Ok(_) => Ok(Ok(())),
        Err(TextFault::Typing(fault)) => Ok(Err(fault)),
        Err(fault) => Err(fault)?,
    }
}

const PROGRAMS: [(&str, Result<(), TypeFault>); 70] = [
    // unknown variables
    ("one A { x := 1; }", Err(TypeFault::Unknown(8))),
    (
        "one A { var x : int = 0; x := y; }",
        Err(TypeFault::Unknown(30)),
    ),
    (
        "one A { var x : int = 0; x := (x + -y); }",
        Err(TypeFault::Unknown(36)),
    ),
    (
        "channel C(int); one A { recv C(x) from B; } one B { }",
        Err(TypeFault::Unknown(31)),
    ),
    ("one A { if x { } }", Err(TypeFault::Unknown(11))),
    // unknown enumerations
    ("channel C(int, E);", Err(TypeFault::Unknown(15))),
    ("one A { input x : E; }", Err(TypeFault::Unknown(18))),
    ("one A { var x : E = 0; }", Err(TypeFault::Unknown(16))),
    ("one A { var x : int = E.T; }", Err(TypeFault::Unknown(22))),
    ("one A { if E.T == E.T { } }", Err(TypeFault::Unknown(11))),
    // unknown tags
    (
        "enum E { T } one A { var x : E = E.U; }",
        Err(TypeFault::Unknown(35)),
    ),
    (
        "enum E { T } enum F { U } one A { var x : E = E.U; }",
        Err(TypeFault::Unknown(48)),
    ),
    (
        "enum E { T } one A { if E.T == E.U { } }",
        Err(TypeFault::Unknown(33)),
    ),
    (
        "enum E { T } one A { if 1 == E.U { } }",
        Err(TypeFault::Unknown(31)),
    ),
    // unknown channels and partners
    (
        "one A { send C() to B; } one B { }",
        Err(TypeFault::Unknown(13)),
    ),
    (
        "one A { recv C() from B; } one B { }",
        Err(TypeFault::Unknown(13)),
    ),
    (
        "channel C(); one A { send C() to B; }",
        Err(TypeFault::Unknown(33)),
    ),
    (
        "channel C(); one A { recv C() from C; }",
        Err(TypeFault::Unknown(35)),
    ),
    (
        "channel C(); one A { for w in Ws { } send C() to w; } many Ws { }",
        Err(TypeFault::Unknown(49)),
    ),
    // unknown sets
    ("one A { for v in S { } }", Err(TypeFault::Unknown(17))),
    ("one A { repeat S { } }", Err(TypeFault::Unknown(15))),
    (
        "channel C(); one A { recv C() from any w in C { } }",
        Err(TypeFault::Unknown(44)),
    ),
    ("one A { if #S == 1 { } }", Err(TypeFault::Unknown(12))),
    // names of one kind twice
    ("enum E { T } enum E { T }", Err(TypeFault::Twice(18))),
    ("enum E { T, U, T }", Err(TypeFault::Twice(15))),
    ("channel C(); channel C();", Err(TypeFault::Twice(21))),
    ("one A { } many A { }", Err(TypeFault::Twice(15))),
    (
        "one A { var x : int = 0; input x : int; }",
        Err(TypeFault::Twice(31)),
    ),
    // names of two kinds twice
    ("enum E { T } channel E();", Err(TypeFault::Twice(21))),
    ("channel C(); one C { }", Err(TypeFault::Twice(17))),
    ("one A { var A : int = 0; }", Err(TypeFault::Twice(12))),
    (
        "one A { var B : int = 0; } one B { }",
        Err(TypeFault::Twice(31)),
    ),
    (
        "channel T(); one B { send T() to A; } many A { } one A { }",
        Err(TypeFault::Twice(53)),
    ),
    // binders twice
    (
        "one A { for B in Ws { } } many Ws { } one B { }",
        Err(TypeFault::Twice(42)),
    ),
    (
        "one A { for w in Ws { for w in Ws { } } } many Ws { }",
        Err(TypeFault::Twice(26)),
    ),
    (
        "one A { var w : int = 0; for w in Ws { } } many Ws { }",
        Err(TypeFault::Twice(29)),
    ),
    (
        "channel C(); one A { recv C() from any A in Ws { } } many Ws { }",
        Err(TypeFault::Twice(39)),
    ),
    (
        "channel C(int, int); one A { var x : int = 0; recv C(x, x) from B; } one B { }",
        Err(TypeFault::Twice(56)),
    ),
    // single roles as sets
    (
        "one A { for v in B { } } one B { }",
        Err(TypeFault::NotASet(17)),
    ),
    (
        "one A { repeat B { } } one B { }",
        Err(TypeFault::NotASet(15)),
    ),
    (
        "channel C(); one A { recv C() from any w in B { } } one B { }",
        Err(TypeFault::NotASet(44)),
    ),
    (
        "one A { if #B == 1 { } } one B { }",
        Err(TypeFault::NotASet(12)),
    ),
    // sets as partners
    (
        "channel C(); one A { send C() to Ws; } many Ws { }",
        Err(TypeFault::NotSingle(33)),
    ),
    (
        "channel C(); one A { recv C() from Ws; } many Ws { }",
        Err(TypeFault::NotSingle(35)),
    ),
    // own roles
    (
        "channel C(); one A { send C() to A; }",
        Err(TypeFault::SelfPartner(33)),
    ),
    (
        "channel C(); many A { recv C() from A; }",
        Err(TypeFault::SelfPartner(36)),
    ),
    (
        "many Ws { for v in Ws { } }",
        Err(TypeFault::SelfPartner(19)),
    ),
    ("many Ws { repeat Ws { } }", Err(TypeFault::SelfPartner(17))),
    ("one A { if #A == 1 { } }", Err(TypeFault::SelfPartner(12))),
    // counts
    (
        "channel C(int); one A { send C() to B; } one B { }",
        Err(TypeFault::WrongCount(29)),
    ),
    (
        "channel C(int); one A { send C(1, 2) to B; } one B { }",
        Err(TypeFault::WrongCount(29)),
    ),
    (
        "channel C(); one A { var x : int = 0; recv C(x) from B; } one B { }",
        Err(TypeFault::WrongCount(43)),
    ),
    (
        "channel C(int); one A { recv C() from any w in Ws { } } many Ws { }",
        Err(TypeFault::WrongCount(29)),
    ),
    // kinds of operands
    (
        "one A { var x : int = 0; x := x + true; }",
        Err(TypeFault::WrongKind(34)),
    ),
    (
        "one A { var x : bool = true; x := x && (1 + 1); }",
        Err(TypeFault::WrongKind(39)),
    ),
    (
        "one A { var x : int = 0; x := -true; }",
        Err(TypeFault::WrongKind(31)),
    ),
    ("one A { if 1 == true { } }", Err(TypeFault::WrongKind(16))),
    (
        "enum E { T } enum F { T } one A { if E.T != F.T { } }",
        Err(TypeFault::WrongKind(44)),
    ),
    // kinds of values
    (
        "channel Flag(bool);\none A { send Flag(3) to B; }\none B { var f : bool = true; recv Flag(f) from A; }\n",
        Err(TypeFault::WrongKind(38)),
    ),
    (
        "channel C(int, bool); one A { var x : int = 0; var y : int = 0; recv C(x, y) from B; } one B { }",
        Err(TypeFault::WrongKind(74)),
    ),
    (
        "one A { var x : int = true; }",
        Err(TypeFault::WrongKind(22)),
    ),
    (
        "enum E { T } one A { var x : bool = E.T; }",
        Err(TypeFault::WrongKind(36)),
    ),
    (
        "one A { var x : int = 0; x := 1 < 2; }",
        Err(TypeFault::WrongKind(30)),
    ),
    // kinds of guards
    ("one A { if 1 { } }", Err(TypeFault::WrongKind(11))),
    ("one A { while 1 + 1 { } }", Err(TypeFault::WrongKind(14))),
    ("one A { if #Q { } }", Err(TypeFault::WrongKind(11))),
    ("one A { if #Q == 1 { } }", Err(TypeFault::Unknown(12))),
    // programs without a fault
    (
        "enum E { T, U } channel C(E, int); one A { var e : E = E.U; var n : int = -1; recv C(e, n) from B; } one B { send C(E.T, 2) to A; }",
        Ok(()),
    ),
    (
        "channel C(); one A { for w in Ws { send C() to w; } for w in Ws { recv C() from w; } } many Ws { send C() to A; }",
        Ok(()),
    ),
    (
        "channel C(); one A { recv C() from any w in Ws { send C() to w; } repeat Ws { } } many Ws nonempty { while #Ws == 1 { } }",
        Ok(()),
    ),
];

#[test]
fn programs_are_typed(rt: HostRuntime) -> Result<(), Fail> {
    for (source, want) in PROGRAMS {
        let answer = typed(program_of(rt.alloc(), source.as_bytes()))?;
        assert_eq!(rt; answer, want, "of {source}");
    }
    Ok(())
}

const SEQUENCES: [(&str, Result<(), TypeFault>); 47] = [
    // unknown processes
    ("begin A.() := A.(); end", Err(TypeFault::Unknown(6))),
    (
        "one A { } begin A.() := B.(); end",
        Err(TypeFault::Unknown(24)),
    ),
    (
        "one A { } begin box 1 (A to B) := A.(); end",
        Err(TypeFault::Unknown(28)),
    ),
    (
        "one A { } begin A.() := box 1 (B to A); end",
        Err(TypeFault::Unknown(31)),
    ),
    ("begin while A.(true) { } end", Err(TypeFault::Unknown(12))),
    // sets out of focus
    (
        "many Ws { } begin Ws.() := Ws.(); end",
        Err(TypeFault::Unknown(18)),
    ),
    (
        "many Ws { } begin for Ws { } if Ws.(true) { } else { } end",
        Err(TypeFault::Unknown(32)),
    ),
    (
        "many Ws { } many Vs { } begin pick Vs { Ws.() := Vs.(); } end",
        Err(TypeFault::Unknown(40)),
    ),
    (
        "many Ws { } begin repeat Ws { Ws.() := Ws.(); } end",
        Err(TypeFault::Unknown(30)),
    ),
    // a second loop inside the first
    (
        "many Ws { } begin for Ws { for Ws { } } end",
        Err(TypeFault::Unknown(31)),
    ),
    (
        "many Ws { } begin for any Ws { pick Ws { } } end",
        Err(TypeFault::Unknown(36)),
    ),
    (
        "many Ws { } many Vs { } begin pick Ws { for Vs { for any Ws { } } } end",
        Err(TypeFault::Unknown(57)),
    ),
    // unknown names of loops and sizes
    ("begin for S { } end", Err(TypeFault::Unknown(10))),
    ("begin for any S { } end", Err(TypeFault::Unknown(14))),
    ("begin repeat S { } end", Err(TypeFault::Unknown(13))),
    (
        "one A { } begin if A.(#S == 1) { } else { } end",
        Err(TypeFault::Unknown(23)),
    ),
    // unknown variables of processes
    (
        "one A { } begin A.(x) := A.(1); end",
        Err(TypeFault::Unknown(19)),
    ),
    (
        "one A { var x : int = 0; } one B { } begin A.(x) := B.(x); end",
        Err(TypeFault::Unknown(55)),
    ),
    (
        "one A { } begin A.(x) := box 1 (A to A); end",
        Err(TypeFault::Unknown(19)),
    ),
    (
        "one A { } begin box 1 (A to A) := A.(1, x); end",
        Err(TypeFault::Unknown(40)),
    ),
    (
        "enum E { T } one A { } begin if A.(E.T == E.U) { } else { } end",
        Err(TypeFault::Unknown(44)),
    ),
    // names twice
    (
        "one A { var x : int = 0; } begin A.(x, x) := A.(1, 2); end",
        Err(TypeFault::Twice(39)),
    ),
    (
        "one A { var x : int = 0; } begin A.(x, x) := box 1 (A to A); end",
        Err(TypeFault::Twice(39)),
    ),
    ("one A { } many A { } begin end", Err(TypeFault::Twice(15))),
    (
        "one A { var x : int = 0; var x : int = 0; } begin end",
        Err(TypeFault::Twice(29)),
    ),
    (
        "one A { var B : int = 0; } one B { } begin end",
        Err(TypeFault::Twice(31)),
    ),
    // single roles in loops
    ("one A { } begin for A { } end", Err(TypeFault::NotASet(20))),
    (
        "one A { } begin for any A { } end",
        Err(TypeFault::NotASet(24)),
    ),
    (
        "one A { } begin pick A { } end",
        Err(TypeFault::NotASet(21)),
    ),
    (
        "one A { } begin repeat A { } end",
        Err(TypeFault::NotASet(23)),
    ),
    // sizes of single roles
    (
        "one A { var x : int = 0; } begin A.(x) := A.(#A); end",
        Err(TypeFault::SelfPartner(46)),
    ),
    (
        "one A { var x : int = 0; } one B { } begin A.(x) := B.(#A); end",
        Err(TypeFault::NotASet(56)),
    ),
    (
        "many Ws { var x : int = 0; } begin for Ws { Ws.(x) := Ws.(#Ws); } end",
        Ok(()),
    ),
    // counts of passes
    (
        "one A { var x : int = 0; } begin A.(x) := A.(1, 2); end",
        Err(TypeFault::WrongCount(33)),
    ),
    (
        "one A { var x : int = 0; } begin if A.(true) { A.(x) := A.(); } else { } end",
        Err(TypeFault::WrongCount(47)),
    ),
    (
        "one A { } begin B.(x) := A.(); end",
        Err(TypeFault::Unknown(16)),
    ),
    // kinds at processes
    (
        "one A { var x : int = 0; } begin A.(x) := A.(true); end",
        Err(TypeFault::WrongKind(45)),
    ),
    (
        "one A { var x : int = 0; } one B { var y : bool = true; } begin A.(x) := B.(y); end",
        Err(TypeFault::WrongKind(76)),
    ),
    (
        "one A { } begin if A.(1) { } else { } end",
        Err(TypeFault::WrongKind(22)),
    ),
    (
        "one A { } begin while A.(#Ws) { } end",
        Err(TypeFault::WrongKind(25)),
    ),
    (
        "one A { } begin box 1 (A to A) := A.(1 + true); end",
        Err(TypeFault::WrongKind(41)),
    ),
    // second branches
    (
        "one A { } begin if A.(true) { } else { B.() := A.(); } end",
        Err(TypeFault::Unknown(39)),
    ),
    (
        "many Ws { } begin for Ws { } while Ws.(true) { } end",
        Err(TypeFault::Unknown(35)),
    ),
    (
        "one A { var x : int = true; } begin end",
        Err(TypeFault::WrongKind(22)),
    ),
    // sequential programs without a fault
    (
        "one A { var x : int = 0; } begin A.(x) := A.(x + 1); box 1 (A to A) := A.(true, 2); A.(x) := box 1 (A to A); end",
        Ok(()),
    ),
    (
        "many Ws { } begin for Ws { repeat Ws { Ws.() := Ws.(); } } repeat Ws { for any Ws { } } end",
        Ok(()),
    ),
    (
        "one A { } many Ws { input b : bool; } begin pick Ws { if Ws.(b) { A.() := Ws.(); } else { } } pick Ws { while A.(#Ws < 1) { } } end",
        Ok(()),
    ),
];

#[test]
fn sequential_programs_are_typed(rt: HostRuntime) -> Result<(), Fail> {
    for (text, want) in SEQUENCES {
        let answer = typed(sequence_of(rt.alloc(), text.as_bytes()))?;
        assert_eq!(rt; answer, want, "of {text}");
    }
    Ok(())
}
