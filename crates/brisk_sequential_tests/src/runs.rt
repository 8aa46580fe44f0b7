//! Sequential programs, run: the store in which they halt, or what stops them.
ghost use Rattle.brisk_seq.specs.WellTyped.{IsSeqWellTyped};

use brisk_schedule::{print_store, read_choices};
use brisk_seq::{SeqProgram, run};
use brisk_test_texts::sequence_of;
use brisk_values::{Input, Inputs, Instance, Name, Pid, Sizes, Value};
use std::alloc::Global;
use std::test::Fail;

// The text of the store in which the program halts, or the name of what stops it.
fn answer(
    alloc: Global,
    program: &SeqProgram,
    instance: &Instance,
    picks: &[u32],
    turns: u64,
) -> Result<Vec<u8>, Fail>
    requires { IsSeqWellTyped program.now }
{
    match run(alloc, program, instance, picks, turns) {
        Ok(store) => Ok(print_store(alloc, program, instance, &store)?),
        Err(fault) => Ok(format!(in alloc; "{fault:?}")?.into_bytes()),
    }
}

// The items, where M, N and the two members of Ws start with these values.
fn text(alloc: Global, items: &str) -> Result<Vec<u8>, Fail> {
    let mut text = Vec::from_slice(
        alloc,
        b"one M{var n:int=1;var k:int=0;}one N{var t:int=0;var go:bool=true;}
        many Ws nonempty{input t:int;var go:bool=true;}begin ",
    )?;
    text.extend_from_slice(items.as_bytes())?;
    text.extend_from_slice(b" end")?;
    Ok(text)
}

const TWO_MEMBERS: &[u8] = b"brisk choices 1
size Ws 2
input Ws[0].t = 3
input Ws[1].t = 4
turns 0
end
";

const SERVER: &str = "while M.(k<n){pick Ws{M.():=Ws.();Ws.(go,t):=M.(true,k);M.(k):=M.(k+1);}}
    for any Ws{M.():=Ws.();Ws.(go,t):=M.(false,0);}";

const LOOPS: &str = "while M.(k<1){M.(k):=M.(k+1);}while M.(k<2){M.(k):=M.(k+1);}";

const DIGITS: &str = "for any Ws{M.(k):=M.(k*10);M.(n):=Ws.(t);M.(k):=M.(k+n);}";

// The items, the choices, the turns and the answer.
const SMALL: [(&str, &[u32], u64, &[u8]); 17] = [
    // a server gives tasks
    (
        SERVER,
        &[1, 0, 1],
        10,
        b"halted
M.n = 1
M.k = 1
N.t = 0
N.go = true
Ws[0].t = 0
Ws[0].go = false
Ws[1].t = 0
Ws[1].go = false
",
    ),
    (SERVER, &[1, 0, 1], 0, b"Turns"),
    (SERVER, &[1, 0], 10, b"BadChoice(3)"),
    (SERVER, &[2, 0, 1], 10, b"BadChoice(1)"),
    // members come in order or as chosen
    (
        "for Ws{M.(k):=M.(k*10);M.(n):=Ws.(t);M.(k):=M.(k+n);}",
        &[],
        0,
        b"halted
M.n = 4
M.k = 34
N.t = 0
N.go = true
Ws[0].t = 3
Ws[0].go = true
Ws[1].t = 4
Ws[1].go = true
",
    ),
    (
        DIGITS,
        &[1, 0],
        0,
        b"halted
M.n = 3
M.k = 43
N.t = 0
N.go = true
Ws[0].t = 3
Ws[0].go = true
Ws[1].t = 4
Ws[1].go = true
",
    ),
    (DIGITS, &[1, 1], 0, b"BadChoice(2)"),
    ("repeat Ws{M.(k):=M.(k+1);}", &[0], 0, b"ChoicesLeft"),
    // all loops share the turns
    (
        LOOPS,
        &[],
        2,
        b"halted
M.n = 1
M.k = 2
N.t = 0
N.go = true
Ws[0].t = 3
Ws[0].go = true
Ws[1].t = 4
Ws[1].go = true
",
    ),
    (LOOPS, &[], 1, b"Turns"),
    // values are computed before they are stored
    (
        "M.(n,k):=M.(k,n);",
        &[],
        0,
        b"halted
M.n = 0
M.k = 1
N.t = 0
N.go = true
Ws[0].t = 3
Ws[0].go = true
Ws[1].t = 4
Ws[1].go = true
",
    ),
    // one side of an if is done
    (
        "if M.(k==n){M.(n):=M.(8);}else{M.(n):=M.(9);}",
        &[],
        0,
        b"halted
M.n = 9
M.k = 0
N.t = 0
N.go = true
Ws[0].t = 3
Ws[0].go = true
Ws[1].t = 4
Ws[1].go = true
",
    ),
    // a box keeps what was sent
    (
        "box 1(M to N):=M.(n);M.(n):=M.(5);N.(t):=box 1(M to N);",
        &[],
        0,
        b"halted
M.n = 5
M.k = 0
N.t = 1
N.go = true
Ws[0].t = 3
Ws[0].go = true
Ws[1].t = 4
Ws[1].go = true
",
    ),
    // a box is full or empty
    ("N.(t):=box 1(M to N);", &[], 0, b"BadBox(1)"),
    (
        "box 1(M to N):=M.(1);box 1(M to N):=M.(2);",
        &[],
        0,
        b"BadBox(2)",
    ),
    (
        "box 1(M to N):=M.(1);N.(go):=box 1(M to N);",
        &[],
        0,
        b"BadBox(2)",
    ),
    (
        "box 1(M to N):=M.(1);N.(t):=box 1(M to N);N.(t):=box 1(M to N);",
        &[],
        0,
        b"BadBox(3)",
    ),
];

#[test]
fn small_programs_are_run(rt: HostRuntime) -> Result<(), Fail> {
    for (items, picks, turns, want) in SMALL {
        let program = sequence_of(rt.alloc(), &text(rt.alloc(), items)?)?;
        let choices = read_choices(rt.alloc(), &program, TWO_MEMBERS)?;
        let answer = answer(rt.alloc(), &program, &choices.instance, picks, turns)?;
        assert_eq!(rt; answer.as_slice(), want, "of {items}");
    }
    Ok(())
}

// M takes a number of each member of Ws, in the order that the choices name.
const COLLECT: &[u8] = b"one M{var x:int=0;var l:int=0;}many Ws{input v:int;}
begin for any Ws{M.(x):=Ws.(v);M.(l):=M.(x);}end";

const COMMIT: &[u8] = b"enum Vote{Yes,No}enum Decision{Commit,Abort}
one C{var v:Vote=Vote.Yes;var ok:bool=true;var d:Decision=Decision.Abort;}
many Ps{input vote:Vote;var got:Decision=Decision.Abort;var done:bool=false;}
begin
  for Ps{Ps.():=C.();}
  for any Ps{C.(v):=Ps.(vote);if C.(v==Vote.No){C.(ok):=C.(false);}else{}}
  if C.(ok){C.(d):=C.(Decision.Commit);}else{}
  for Ps{Ps.(got):=C.(d);}
  for any Ps{if Ps.(got==Decision.Commit){Ps.(done):=Ps.(true);}else{}C.():=Ps.();}
end";

// The program, its choices and the answer.
const WORKED: [(&[u8], &[u8], &[u8]); 7] = [
    // choices name the order
    (
        COLLECT,
        b"brisk choices 1
size Ws 2
input Ws[0].v = 10
input Ws[1].v = 20
turns 0
choose 1
choose 0
end
",
        b"halted
M.x = 10
M.l = 10
Ws[0].v = 10
Ws[1].v = 20
",
    ),
    (
        COLLECT,
        b"brisk choices 1
size Ws 2
input Ws[0].v = 10
input Ws[1].v = 20
turns 0
choose 0
choose 1
end
",
        b"halted
M.x = 20
M.l = 20
Ws[0].v = 10
Ws[1].v = 20
",
    ),
    // a run may have no store
    (
        COLLECT,
        b"brisk choices 1
size Ws 2
input Ws[0].v = 10
input Ws[1].v = 20
turns 0
choose 1
choose 1
end
",
        b"BadChoice(2)",
    ),
    (
        COLLECT,
        b"brisk choices 1
size Ws 2
input Ws[0].v = 10
input Ws[1].v = 20
turns 0
choose 1
end
",
        b"BadChoice(2)",
    ),
    (
        COLLECT,
        b"brisk choices 1
size Ws 2
input Ws[0].v = 10
input Ws[1].v = 20
turns 0
choose 1
choose 0
choose 0
end
",
        b"ChoicesLeft",
    ),
    // one no is an abort
    (
        COMMIT,
        b"brisk choices 1
size Ps 3
input Ps[0].vote = Vote.Yes
input Ps[1].vote = Vote.No
input Ps[2].vote = Vote.Yes
turns 0
choose 2
choose 0
choose 1
choose 1
choose 0
choose 2
end
",
        b"halted
C.v = Vote.No
C.ok = false
C.d = Decision.Abort
Ps[0].vote = Vote.Yes
Ps[0].got = Decision.Abort
Ps[0].done = false
Ps[1].vote = Vote.No
Ps[1].got = Decision.Abort
Ps[1].done = false
Ps[2].vote = Vote.Yes
Ps[2].got = Decision.Abort
Ps[2].done = false
",
    ),
    // nobody is a commit
    (
        COMMIT,
        b"brisk choices 1
size Ps 0
turns 0
end
",
        b"halted
C.v = Vote.Yes
C.ok = true
C.d = Decision.Commit
",
    ),
];

#[test]
fn worked_programs_are_run(rt: HostRuntime) -> Result<(), Fail> {
    for (text, choices, want) in WORKED {
        let program = sequence_of(rt.alloc(), text)?;
        let choices = read_choices(rt.alloc(), &program, choices)?;
        let picks = choices.picks.items.as_slice();
        let answer = answer(
            rt.alloc(),
            &program,
            &choices.instance,
            picks,
            choices.turns,
        )?;
        assert_eq!(rt; answer.as_slice(), want);
    }
    Ok(())
}

fn input(member: u32, n: i64) -> Input {
    Input {
        process: Pid {
            role: Name::of(b"Ws"),
            member,
        },
        variable: Name::of(b"v"),
        value: Value::Int(n),
    }
}

#[test]
fn an_instance_has_no_inputs_of_others(rt: HostRuntime) -> Result<(), Fail> {
    let alloc = rt.alloc();
    let program = sequence_of(alloc, COLLECT)?;
    let instance = Instance {
        sizes: Sizes {
            items: vec![in alloc; (Name::of(b"Ws"), 1)]?,
        },
        inputs: Inputs {
            items: vec![in alloc; input(0, 10), input(1, 20)]?,
        },
    };
    let answer = answer(alloc, &program, &instance, &[0], 0)?;
    assert_eq!(rt; answer.as_slice(), b"BadInstance".as_slice());
    Ok(())
}
