//! What is answered and written, over folders and sinks in memory.
use crate::serve::serve;
use crate::status::Status;
use brisk_io::{File, MemFolder, MemSink};
use std::alloc::Global;
use std::test::Fail;

pub const PING_PONG: &str = "channel Ping(int);
channel Pong(int);
one A {
  input n : int;
  var r : int = 0;
  send Ping(n) to B;
  recv Pong(r) from B;
}
one B {
  var x : int = 0;
  recv Ping(x) from A;
  send Pong(x + 1) to A;
}
";

const PING_PONG_REWRITTEN: &str = "one A {
  input n : int;
  var r : int = 0;
}
one B {
  var x : int = 0;
}
begin
  B.(x) := A.(n);
  A.(r) := B.(x + 1);
end
";

fn folder(alloc: Global, bytes: &[u8], plan: &[bool]) -> Result<MemFolder, Fail> {
    let file = File {
        name: String::from_str(alloc, "F")?,
        bytes: Vec::from_slice(alloc, bytes)?,
    };
    Ok(MemFolder {
        files: vec![in alloc; file]?,
        plan: Vec::from_slice(alloc, plan)?,
        calls: 0,
        misses: 0,
        faults: 0,
    })
}

pub fn words(alloc: Global, text: &str) -> Result<Vec<String>, Fail> {
    let mut words = Vec::new(alloc);
    for word in text.split_whitespace() {
        words.push(String::from_str(alloc, word)?)?;
    }
    Ok(words)
}

// The status and the text for these words, where the file F has these bytes.
pub fn served(alloc: Global, text: &str, bytes: &[u8]) -> Result<(Status, Vec<u8>), Fail> {
    let mut folder = folder(alloc, bytes, &[])?;
    let mut out = MemSink::new(alloc, 4096, 100, Vec::new(alloc))?;
    let status = serve(alloc, &words(alloc, text)?, &mut folder, &mut out);
    Ok((status, Vec::from_slice(alloc, out.written())?))
}

pub const OVERTAKING: &str = "channel T(int);
one M { var x : int = 0; repeat Ws { recv T(x) from any w in Ws { } }
  repeat Ws { recv T(x) from any w in Ws { } } }
many Ws { input v : int; send T(v) to M; send T(v) to M; }";

pub const OVERTAKEN: &str = "overtaken
brisk schedule 1
size Ws 2
input Ws[0].v = 0
input Ws[1].v = 0
event Ws[0]
event Ws[0]
event Ws[1]
event Ws[1]
event M
event M from Ws[0]
event M
event M from Ws[0]
end
";

#[test]
fn each_source_has_its_answer(rt: HostRuntime) -> Result<(), Fail> {
    let alloc = rt.alloc();
    for (source, status, text) in [
        (PING_PONG, Status::Done, PING_PONG_REWRITTEN),
        ("", Status::Done, "begin\nend\n"),
        (
            "channel P(int); channel Q(int);
             one A { var x : int = 0; recv P(x) from B; send Q(1) to B; }
             one B { var y : int = 0; recv Q(y) from A; send P(1) to A; }",
            Status::Refused,
            "deadlock\nbrisk schedule 1\nend\n",
        ),
        (
            "channel T(int); one A { send T(1) to B; } one B { }",
            Status::Done,
            "one A {\n}\none B {\n}\nbegin\n  box 1 (A to B) := A.(1);\nend\n",
        ),
        (OVERTAKING, Status::Refused, OVERTAKEN),
        (
            "channel T(int); one M { for u in Ws { for v in Ws { send T(1) to v; } } } many Ws { }",
            Status::Refused,
            "leftover\nleft M: for u in Ws {\nreport\nstuck\ntry for Ws by M drop\nstuck\ntry for Ws by M drop\nfails SetIsFocused\ndone\ndone\n",
        ),
        ("one A { x := ; $", Status::BadInput, "source BadChar 15\n"),
        ("one A {", Status::BadInput, "source SyntaxFault 7\n"),
        ("one A { x := 1; }", Status::BadInput, "source Unknown 8\n"),
        (
            "channel Flag(bool); one A { send Flag(3) to B; } one B { var f : bool = true; recv Flag(f) from A; }",
            Status::BadInput,
            "source WrongKind 38\n",
        ),
        (
            "one A { while true { } }",
            Status::Done,
            "one A {\n}\nbegin\n  while A.(true) {\n  }\nend\n",
        ),
    ] {
        let (answer, written) = served(alloc, "rewrite F", source.as_bytes())?;
        assert_eq!(rt; answer, status, "of {source}");
        assert_eq!(rt; written.as_slice(), text.as_bytes(), "of {source}");
    }
    Ok(())
}

#[test]
fn a_typing_fault_is_told_at_its_byte(rt: HostRuntime) -> Result<(), Fail> {
    for (source, text) in [
        (
            "one A { var x : int = 0; var x : int = 0; }",
            "source Twice 29\n",
        ),
        ("one A { repeat B { } } one B { }", "source NotASet 15\n"),
        (
            "channel T(); one A { send T() to Ws; } many Ws { }",
            "source NotSingle 33\n",
        ),
        (
            "channel T(); one A { send T() to A; }",
            "source SelfPartner 33\n",
        ),
        (
            "channel T(int); one A { send T() to B; } one B { }",
            "source WrongCount 29\n",
        ),
        (
            "enum V { No } one A { var x : V = V.No; x := x == x; }",
            "source WrongKind 45\n",
        ),
    ] {
        let (answer, written) = served(rt.alloc(), "rewrite F", source.as_bytes())?;
        assert_eq!(rt; answer, Status::BadInput, "of {source}");
        assert_eq!(rt; written.as_slice(), text.as_bytes(), "of {source}");
    }
    Ok(())
}

#[test]
fn a_role_that_waits_makes_its_sender_step(rt: HostRuntime) -> Result<(), Fail> {
    let source = "channel T(int); one C { var z : int = 0; recv T(z) from B; }
                  one A { var x : int = 0; x := 1; } one B { var y : int = 2; y := y * (y + 1); send T(-y) to C; }";
    let (status, written) = served(rt.alloc(), "rewrite F", source.as_bytes())?;
    assert_eq!(rt; status, Status::Done);
    let body = b"begin
  B.(y) := B.(y * (y + 1));
  C.(z) := B.(-y);
  A.(x) := A.(1);
end
";
    assert!(rt; written.as_slice().ends_with(body));
    Ok(())
}

#[test]
fn a_drill_has_its_line(rt: HostRuntime) -> Result<(), Fail> {
    for (text, line) in [
        (
            "drill 1",
            "drill 1: 4 roles, 9 statements, 6 steps, valid\n",
        ),
        (
            "drill 17",
            "drill 17: 20 roles, 153 statements, 102 steps, valid\n",
        ),
    ] {
        let (status, written) = served(rt.alloc(), text, b"")?;
        assert_eq!(rt; status, Status::Done, "of {text}");
        assert_eq!(rt; written.as_slice(), line.as_bytes(), "of {text}");
    }
    Ok(())
}

#[test]
fn other_words_are_usage(rt: HostRuntime) -> Result<(), Fail> {
    for text in [
        "",
        "rewrite",
        "frob x",
        "rewrite F F",
        "derive",
        "derive F F",
        "check F F",
        "check F F F F",
        "drill",
        "drill 0",
        "drill 02",
        "drill 251",
        "drill 2 2",
        "--help",
    ] {
        let (status, written) = served(rt.alloc(), text, b"")?;
        assert_eq!(rt; status, Status::Usage, "of {text}");
        assert_eq!(rt; written.as_slice(), b"usage\n".as_slice());
    }
    Ok(())
}

#[test]
fn a_missing_or_a_failing_file_is_told(rt: HostRuntime) -> Result<(), Fail> {
    let alloc = rt.alloc();
    let (status, written) = served(alloc, "rewrite none", b"")?;
    assert_eq!(rt; status, Status::NoFile);
    assert_eq!(rt; written.as_slice(), b"file none Missing\n".as_slice());
    let mut folder = folder(alloc, PING_PONG.as_bytes(), &[true])?;
    let mut out = MemSink::new(alloc, 100, 100, Vec::new(alloc))?;
    let status = serve(alloc, &words(alloc, "rewrite F")?, &mut folder, &mut out);
    assert_eq!(rt; status, Status::ReadFault);
    assert_eq!(rt; out.written(), b"file F Failed\n".as_slice());
    Ok(())
}

#[test]
fn a_source_has_at_most_1048576_bytes(rt: HostRuntime) -> Result<(), Fail> {
    let alloc = rt.alloc();
    let mut source = vec![in alloc; b' '; 1_048_576]?;
    let (status, written) = served(alloc, "rewrite F", &source)?;
    assert_eq!(rt; status, Status::Done);
    assert_eq!(rt; written.as_slice(), b"begin\nend\n".as_slice());
    source.push(b' ')?;
    let (status, written) = served(alloc, "rewrite F", &source)?;
    assert_eq!(rt; status, Status::BadInput);
    assert_eq!(rt; written.as_slice(), b"file F TooLong\n".as_slice());
    Ok(())
}

#[test]
fn a_failing_sink_has_the_front_of_the_text(rt: HostRuntime) -> Result<(), Fail> {
    let alloc = rt.alloc();
    let mut folder = folder(alloc, PING_PONG.as_bytes(), &[])?;
    let plan = Vec::from_slice(alloc, &[false, false, true])?;
    let mut out = MemSink::new(alloc, 4096, 16, plan)?;
    let status = serve(alloc, &words(alloc, "rewrite F")?, &mut folder, &mut out);
    assert_eq!(rt; status, Status::WriteFault);
    assert_eq!(rt;
        out.written(),
        b"one A {\n  input n : int;\n  var r".as_slice()
    );
    Ok(())
}

const SEVEN: &str = "brisk schedule 1
input A.n = 7
event A
event B
event B
event A
end
";

const HALTED: &str = "halted
A.n = 7
A.r = 8
B.x = 7
";

// The status and the text for these words, where the files F and S have these bytes.
fn served_two(
    alloc: Global,
    text: &str,
    first: &str,
    second: &[u8],
    plan: &[bool],
) -> Result<(Status, Vec<u8>), Fail> {
    let mut folder = folder(alloc, first.as_bytes(), plan)?;
    folder.files.push(File {
        name: String::from_str(alloc, "S")?,
        bytes: Vec::from_slice(alloc, second)?,
    })?;
    let mut out = MemSink::new(alloc, 4096, 100, Vec::new(alloc))?;
    let status = serve(alloc, &words(alloc, text)?, &mut folder, &mut out);
    Ok((status, Vec::from_slice(alloc, out.written())?))
}

#[test]
fn each_schedule_has_its_answer(rt: HostRuntime) -> Result<(), Fail> {
    for (schedule, status, text) in [
        (SEVEN, Status::Done, HALTED),
        (
            "brisk schedule 1\ninput A.n = 7\nevent A\nend\n",
            Status::Done,
            "running\nA.n = 7\nA.r = 0\nB.x = 0\nleft A: recv Pong(r) from B;\nleft B: recv Ping(x) from A;\nmail A to B Ping 1\n",
        ),
        (
            "brisk schedule 1\ninput A.n = 7\nevent A\nevent A\nend\n",
            Status::Refused,
            "refused 2 Blocked\nA.n = 7\nA.r = 0\nB.x = 0\nleft A: recv Pong(r) from B;\nleft B: recv Ping(x) from A;\nmail A to B Ping 1\n",
        ),
        ("brisk schedule 2\n", Status::BadInput, "schedule Text 1\n"),
        (
            "brisk schedule 1\nend\n",
            Status::BadInput,
            "schedule Misfit 2\n",
        ),
    ] {
        let (answer, written) = served_two(
            rt.alloc(),
            "run F S",
            PING_PONG,
            schedule.as_bytes(),
            &[],
        )?;
        assert_eq!(rt; answer, status, "of {schedule}");
        assert_eq!(rt; written.as_slice(), text.as_bytes(), "of {schedule}");
    }
    Ok(())
}

#[test]
fn each_text_of_choices_has_its_answer(rt: HostRuntime) -> Result<(), Fail> {
    let loops = "one A { var x : bool = true; } begin while A.(x) { } end";
    let picks = "many Ws { } begin pick Ws { } end";
    let takes = "one A { var x : int = 0; } begin A.(x) := box 1 (A to A); end";
    for (sequential, choices, status, text) in [
        (
            PING_PONG_REWRITTEN,
            "brisk choices 1\ninput A.n = 7\nturns 0\nend\n",
            Status::Done,
            HALTED,
        ),
        (
            PING_PONG_REWRITTEN,
            "brisk choices 1\ninput A.n = 7\nturns 0\nchoose 0\nend\n",
            Status::Refused,
            "refused ChoicesLeft\n",
        ),
        (
            loops,
            "brisk choices 1\nturns 3\nend\n",
            Status::Refused,
            "refused Turns\n",
        ),
        (
            picks,
            "brisk choices 1\nsize Ws 1\nturns 0\nend\n",
            Status::Refused,
            "refused BadChoice 1\n",
        ),
        (
            takes,
            "brisk choices 1\nturns 0\nend\n",
            Status::Refused,
            "refused BadBox 1\n",
        ),
        (
            takes,
            "brisk choices 1\nend\n",
            Status::BadInput,
            "choices Misfit 2\n",
        ),
    ] {
        let (answer, written) = served_two(
            rt.alloc(),
            "order F S",
            sequential,
            choices.as_bytes(),
            &[],
        )?;
        assert_eq!(rt; answer, status, "of {sequential}");
        assert_eq!(rt; written.as_slice(), text.as_bytes(), "of {sequential}");
    }
    Ok(())
}

#[test]
fn the_first_text_is_judged_before_the_second_is_read(rt: HostRuntime) -> Result<(), Fail> {
    for (text, first, status, expected) in [
        (
            "run F none",
            "one A {",
            Status::BadInput,
            "source SyntaxFault 7\n",
        ),
        (
            "run F none",
            PING_PONG,
            Status::NoFile,
            "file none Missing\n",
        ),
        (
            "run none S",
            PING_PONG,
            Status::NoFile,
            "file none Missing\n",
        ),
        (
            "order F none",
            "begin $",
            Status::BadInput,
            "sequential BadChar 6\n",
        ),
        (
            "order F none",
            "begin A.(x) := A.(1); end",
            Status::BadInput,
            "sequential Unknown 6\n",
        ),
        (
            "order F none",
            "begin end",
            Status::NoFile,
            "file none Missing\n",
        ),
        ("run F", PING_PONG, Status::Usage, "usage\n"),
        ("order F", PING_PONG, Status::Usage, "usage\n"),
        ("rewrite F S", PING_PONG, Status::Usage, "usage\n"),
        ("run F S S", PING_PONG, Status::Usage, "usage\n"),
    ] {
        let (answer, written) = served_two(rt.alloc(), text, first, b"", &[])?;
        assert_eq!(rt; answer, status, "of {text}, {first}");
        assert_eq!(rt;
            written.as_slice(),
            expected.as_bytes(),
            "of {text}, {first}"
        );
    }
    Ok(())
}

#[test]
fn the_file_whose_read_fails_is_told(rt: HostRuntime) -> Result<(), Fail> {
    let plan = [false, false, true];
    let (status, written) = served_two(rt.alloc(), "run F S", PING_PONG, SEVEN.as_bytes(), &plan)?;
    assert_eq!(rt; status, Status::ReadFault);
    assert_eq!(rt; written.as_slice(), b"file S Failed\n".as_slice());
    let plan = [false, true];
    let (status, written) = served_two(rt.alloc(), "run F S", PING_PONG, SEVEN.as_bytes(), &plan)?;
    assert_eq!(rt; status, Status::ReadFault);
    assert_eq!(rt; written.as_slice(), b"file F Failed\n".as_slice());
    Ok(())
}

#[test]
fn a_schedule_has_at_most_4194304_bytes(rt: HostRuntime) -> Result<(), Fail> {
    let alloc = rt.alloc();
    let mut schedule = vec![in alloc; b' '; 4_194_304]?;
    let (status, written) = served_two(alloc, "run F S", "", &schedule, &[])?;
    assert_eq!(rt; status, Status::BadInput);
    assert_eq!(rt; written.as_slice(), b"schedule Text 1\n".as_slice());
    schedule.push(b' ')?;
    let (status, written) = served_two(alloc, "run F S", "", &schedule, &[])?;
    assert_eq!(rt; status, Status::BadInput);
    assert_eq!(rt; written.as_slice(), b"file S TooLong\n".as_slice());
    Ok(())
}

#[test]
fn a_hundred_thousand_events_are_taken_in_seconds(rt: HostRuntime) -> Result<(), Fail> {
    let alloc = rt.alloc();
    let sender = "channel T(int); one A { while true { send T(1) to B; } } one B { }";
    let mut schedule = Vec::from_slice(alloc, b"brisk schedule 1\n")?;
    for _ in 0..100_000 {
        schedule.extend_from_slice(b"event A\n")?;
    }
    schedule.extend_from_slice(b"end\n")?;
    let (status, written) = served_two(alloc, "run F S", sender, &schedule, &[])?;
    assert_eq!(rt; status, Status::Done);
    let expected = b"running\nleft A: while true {\nmail A to B T 50000\n";
    assert_eq!(rt; written.as_slice(), expected.as_slice());
    Ok(())
}
