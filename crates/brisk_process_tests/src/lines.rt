//! Each form of a line, read and written, and lines that are refused.
ghost use Rattle.std.specs.Prelude.{◌<◌, ◌≤◌, length};

use brisk_lines::{Line, Process, put_line, put_process, read_line};
use brisk_values::{Name, Value};
use std::test::Fail;

fn single(role: &[u8]) -> Process
    requires some { 0 < length role.now }
    requires few { length role.now ≤ 64 }
{
    Process {
        role: Name::of(role),
        member: None,
    }
}

fn member(set: &[u8], number: u32) -> Process
    requires some { 0 < length set.now }
    requires few { length set.now ≤ 64 }
{
    Process {
        role: Name::of(set),
        member: Some(number),
    }
}

fn input(process: Process, value: Value) -> Line {
    Line::Input(process, Name::of(b"x"), value)
}

#[test]
fn each_form_is_read_and_written(rt: HostRuntime) -> Result<(), Fail> {
    let yes = Value::Tag(Name::of(b"Vote"), Name::of(b"Yes"));
    let cases: [(&[u8], Line); 19] = [
        (b"brisk schedule 1", Line::Schedule),
        (b"brisk choices 1", Line::Choices),
        (b"size Ws 0", Line::Size(Name::of(b"Ws"), 0)),
        (b"size Ws 1000000", Line::Size(Name::of(b"Ws"), 1_000_000)),
        (b"input A.x = -5", input(single(b"A"), Value::Int(-5))),
        (
            b"input A.x = -9223372036854775808",
            input(single(b"A"), Value::Int(i64::MIN)),
        ),
        (b"input A.x = true", input(single(b"A"), Value::Bool(true))),
        (
            b"input A.x = false",
            input(single(b"A"), Value::Bool(false)),
        ),
        (
            b"input Ws[4294967295].x = Vote.Yes",
            input(member(b"Ws", u32::MAX), yes),
        ),
        (b"event A", Line::Event(single(b"A"), None, None)),
        (b"event A at 0", Line::Event(single(b"A"), None, Some(0))),
        (
            b"event A from Ws[1]",
            Line::Event(single(b"A"), Some(member(b"Ws", 1)), None),
        ),
        (
            b"event Ws[1] from A at 2",
            Line::Event(member(b"Ws", 1), Some(single(b"A")), Some(2)),
        ),
        (b"turns 0", Line::Turns(0)),
        (b"turns 18446744073709551615", Line::Turns(u64::MAX)),
        (b"choose 0", Line::Choose(0)),
        (b"choose 4294967295", Line::Choose(u32::MAX)),
        (b"end", Line::End),
        (
            b"event \xCE\xA9[0]",
            Line::Event(member(b"\xCE\xA9", 0), None, None),
        ),
    ];
    for (text, line) in cases {
        assert_eq!(rt; read_line(text), Some(line), "at {text:?}");
        let mut out = Vec::new(rt.alloc());
        put_line(&mut out, &line)?;
        assert_eq!(rt; out.pop(), Some(b'\n'));
        assert_eq!(rt; out.as_slice(), text);
    }
    Ok(())
}

#[test]
fn words_of_lines_are_names(rt: HostRuntime) {
    let value = Value::Tag(Name::of(b"at"), Name::of(b"size"));
    let cases: [(&[u8], Line); 3] = [
        (b"event at at 1", Line::Event(single(b"at"), None, Some(1))),
        (
            b"event at from at",
            Line::Event(single(b"at"), Some(single(b"at")), None),
        ),
        (
            b"input size.at = at.size",
            Line::Input(single(b"size"), Name::of(b"at"), value),
        ),
    ];
    for (text, line) in cases {
        assert_eq!(rt; read_line(text), Some(line), "at {text:?}");
    }
}

#[test]
fn other_texts_are_no_lines(rt: HostRuntime) {
    let cases: [&[u8]; 40] = [
        b"",
        b"brisk schedule 2",
        b"brisk schedule 1 ",
        b"end ",
        b" end",
        b"end\n",
        b"size Ws",
        b"size Ws ",
        b"size Ws 07",
        b"size Ws 1000001",
        b"size Ws -1",
        b"size for 1",
        b"size 1 1",
        b"size Ws 1 ",
        b"input A.x = +1",
        b"input A.x = -0",
        b"input A.x = 9223372036854775808",
        b"input A.x = ",
        b"input A.x =1",
        b"input A = 1",
        b"input A.x = Vote",
        b"input A.x = Vote.",
        b"input A.x = Vote.true",
        b"input A.x.y = 1",
        b"event",
        b"event ",
        b"event A ",
        b"event  A",
        b"event A at 1 from B",
        b"event A from",
        b"event A at 4294967296",
        b"event from from A",
        b"event Ws[4294967296]",
        b"event Ws[00]",
        b"event Ws[]",
        b"event Ws[1",
        b"event Ws[1]]",
        b"turns 18446744073709551616",
        b"choose -1",
        b"choose 4294967296",
    ];
    for text in cases {
        assert_eq!(rt; read_line(text), None, "at {text:?}");
    }
}

#[test]
fn a_process_is_written_behind_other_text(rt: HostRuntime) -> Result<(), Fail> {
    let mut out = Vec::new(rt.alloc());
    put_process(&mut out, &single(b"A"))?;
    put_process(&mut out, &member(b"Ws", 3))?;
    assert_eq!(rt; out.as_slice(), b"AWs[3]".as_slice());
    Ok(())
}
