//! Small programs, values and the worked programs, and their layouts.
use crate::texts::first_statement;
use brisk_print::{print_head, print_program, print_seq, print_value};
use brisk_syntax::{Exprs, Stmt, Who};
use brisk_test_texts::{parsed_program, parsed_sequence};
use brisk_values::{Name, Pid, Value};
use std::test::Fail;

const PING_PONG: &[u8] = b"channel Ping(int);
channel Pong(int);
one A {
  input n : int;
  var r : int = 0;
  send Ping(n) to B;
  recv Pong(r) from B;
}
one B {
  var x : int = 0;
  recv Ping(x) from A;
  send Pong(x + 1) to A;
}
";

#[test]
fn each_construct_of_a_program_has_its_lines(rt: HostRuntime) -> Result<(), Fail> {
    let cases: [(&[u8], &[u8]); 10] = [
        (b"", b""),
        (PING_PONG, PING_PONG),
        (
            b"enum E{A}enum Vote{Yes,No,\xCE\xA9}",
            b"enum E { A }\nenum Vote { Yes, No, \xCE\xA9 }\n",
        ),
        (
            b"channel C();channel D(int,bool,E);channel L(int)loose;channel M()loose;",
            b"channel C();\nchannel D(int, bool, E);\nchannel L(int) loose;\nchannel M() loose;\n",
        ),
        (
            b"one A{}many B{}many Cs nonempty{var x:int=007;}",
            b"one A {\n}\nmany B {\n}\nmany Cs nonempty {\n  var x : int = 7;\n}\n",
        ),
        (
            b"one A{input a:int;input b:bool;input c:E;var d:int=-9223372036854775808;var e:bool=true;var f:bool=false;var g:E=E.A;}",
            b"one A {
  input a : int;
  input b : bool;
  input c : E;
  var d : int = -9223372036854775808;
  var e : bool = true;
  var f : bool = false;
  var g : E = E.A;
}
",
        ),
        (
            b"one A{x:=((a)+2)-3*b;y:=a==b&&!c||- -d!=#Ws;z:=E.A;}",
            b"one A {\n  x := ((a) + 2) - 3 * b;\n  y := a == b && !c || --d != #Ws;\n  z := E.A;\n}\n",
        ),
        (
            b"one A{x:=a<b;x:=a<=b;x:=a>b;x:=a>=b;x:=true;x:=false;x:=-(1);}",
            b"one A {
  x := a < b;
  x := a <= b;
  x := a > b;
  x := a >= b;
  x := true;
  x := false;
  x := -(1);
}
",
        ),
        (
            b"one A{send C()to B;send C(1,x)to B;recv C()from B;recv C(x,y)from B;recv C()from any w in Ws{recv C(x)from any v in Vs{}}}",
            b"one A {
  send C() to B;
  send C(1, x) to B;
  recv C() from B;
  recv C(x, y) from B;
  recv C() from any w in Ws {
    recv C(x) from any v in Vs {
    }
  }
}
",
        ),
        (
            b"one A{if a{}if a{x:=1;}else{}if a{if b{x:=1;}else{y:=2;}}while c{repeat Ws{for w in Ws{send C()to w;}x:=1;}}}",
            b"one A {
  if a {
  }
  if a {
    x := 1;
  } else {
  }
  if a {
    if b {
      x := 1;
    } else {
      y := 2;
    }
  }
  while c {
    repeat Ws {
      for w in Ws {
        send C() to w;
      }
      x := 1;
    }
  }
}
",
        ),
    ];
    for (source, layout) in cases {
        let program = parsed_program(rt.alloc(), source)?;
        let printed = print_program(rt.alloc(), &program)?;
        assert_eq!(rt; printed.as_slice(), layout);
    }
    Ok(())
}

#[test]
fn a_head_is_one_line(rt: HostRuntime) -> Result<(), Fail> {
    let cases: [(&[u8], &[u8]); 7] = [
        (b"one A{x:=1+y;}", b"x := 1 + y;"),
        (b"one A{recv Pong(r)from B;}", b"recv Pong(r) from B;"),
        (
            b"one M{recv Ready()from any w in Ws{x:=1;}}",
            b"recv Ready() from any w in Ws {",
        ),
        (b"one M{for u in Ws{for v in Ws{}}}", b"for u in Ws {"),
        (b"one M{if a{}else{}}", b"if a {"),
        (b"one M{while k<n{}}", b"while k < n {"),
        (b"one M{repeat Ws{}}", b"repeat Ws {"),
    ];
    for (source, head) in cases {
        let program = parsed_program(rt.alloc(), source)?;
        let statement = first_statement(&program)?;
        assert_eq!(rt; print_head(rt.alloc(), statement)?.as_slice(), head);
    }
    Ok(())
}

#[test]
fn partners_of_running_code(rt: HostRuntime) -> Result<(), Fail> {
    let set = Name::of(b"Ws");
    let cases: [(Who, &[u8]); 3] = [
        (Who::Name(set), b"send C() to Ws;"),
        (Who::At(set), b"send C() to Ws;"),
        (
            Who::Pid(Pid {
                role: set,
                member: 3,
            }),
            b"send C() to Ws[3];",
        ),
    ];
    for (partner, head) in cases {
        let items = Vec::new(rt.alloc());
        let statement = Stmt::Send(Name::of(b"C"), Exprs { items }, partner);
        assert_eq!(rt; print_head(rt.alloc(), &statement)?.as_slice(), head);
    }
    Ok(())
}

#[test]
fn values(rt: HostRuntime) -> Result<(), Fail> {
    let cases: [(Value, &[u8]); 6] = [
        (Value::Int(0), b"0"),
        (
            Value::Int(-9_223_372_036_854_775_808),
            b"-9223372036854775808",
        ),
        (
            Value::Int(9_223_372_036_854_775_807),
            b"9223372036854775807",
        ),
        (Value::Bool(true), b"true"),
        (Value::Bool(false), b"false"),
        (Value::Tag(Name::of(b"Vote"), Name::of(b"No")), b"Vote.No"),
    ];
    for (value, text) in cases {
        assert_eq!(rt; print_value(rt.alloc(), &value)?.as_slice(), text);
    }
    Ok(())
}

// The worked programs, and a `repeat`, which is in none of them.
const WORKED: [(&[u8], &[u8]); 6] = [
    (
        b"one A{input n:int;var r:int=0;}one B{var x:int=0;}begin B.(x):=A.(n);A.(r):=B.(x+1);end",
        b"one A {
  input n : int;
  var r : int = 0;
}
one B {
  var x : int = 0;
}
begin
  B.(x) := A.(n);
  A.(r) := B.(x + 1);
end
",
    ),
    (
        b"one A{input n:int;}one B{var x:int=0;}begin box 1(A to B):=A.(n);A.(n):=A.(5);B.():=A.();B.(x):=box 1(A to B);end",
        b"one A {
  input n : int;
}
one B {
  var x : int = 0;
}
begin
  box 1 (A to B) := A.(n);
  A.(n) := A.(5);
  B.() := A.();
  B.(x) := box 1 (A to B);
end
",
    ),
    (
        b"begin for Ws{Ws.(q):=H.(1);}for any Ws{H.(x):=Ws.(q+1);H.(s):=H.(s+x);}end",
        b"begin
  for Ws {
    Ws.(q) := H.(1);
  }
  for any Ws {
    H.(x) := Ws.(q + 1);
    H.(s) := H.(s + x);
  }
end
",
    ),
    (
        b"many Ws nonempty{var go:bool=true;}begin while M.(k<n){pick Ws{M.():=Ws.();Ws.(go,t):=M.(true,k);M.(k):=M.(k+1);}}for any Ws{M.():=Ws.();Ws.(go,t):=M.(false,0);}end",
        b"many Ws nonempty {
  var go : bool = true;
}
begin
  while M.(k < n) {
    pick Ws {
      M.() := Ws.();
      Ws.(go, t) := M.(true, k);
      M.(k) := M.(k + 1);
    }
  }
  for any Ws {
    M.() := Ws.();
    Ws.(go, t) := M.(false, 0);
  }
end
",
    ),
    (
        b"enum Vote{Yes,No}enum Decision{Commit,Abort}begin for Ps{Ps.():=C.();}for any Ps{C.(v):=Ps.(vote);if C.(v==Vote.No){C.(ok):=C.(false);}else{}}if C.(ok){C.(d):=C.(Decision.Commit);}else{}for Ps{Ps.(got):=C.(d);}for any Ps{if Ps.(got==Decision.Commit){Ps.(done):=Ps.(true);}else{}C.():=Ps.();}end",
        b"enum Vote { Yes, No }
enum Decision { Commit, Abort }
begin
  for Ps {
    Ps.() := C.();
  }
  for any Ps {
    C.(v) := Ps.(vote);
    if C.(v == Vote.No) {
      C.(ok) := C.(false);
    } else {
    }
  }
  if C.(ok) {
    C.(d) := C.(Decision.Commit);
  } else {
  }
  for Ps {
    Ps.(got) := C.(d);
  }
  for any Ps {
    if Ps.(got == Decision.Commit) {
      Ps.(done) := Ps.(true);
    } else {
    }
    C.() := Ps.();
  }
end
",
    ),
    (
        b"begin repeat Ws{M.(k):=M.(k+1);}end",
        b"begin
  repeat Ws {
    M.(k) := M.(k + 1);
  }
end
",
    ),
];

#[test]
fn the_worked_programs_have_their_sequential_texts(rt: HostRuntime) -> Result<(), Fail> {
    for (text, layout) in WORKED {
        let program = parsed_sequence(rt.alloc(), text)?;
        let printed = print_seq(rt.alloc(), &program)?;
        assert_eq!(rt; printed.as_slice(), layout);
    }
    Ok(())
}
