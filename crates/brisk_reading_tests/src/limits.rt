//! Each limit: the most that is allowed, and the token at which one more is told.
use crate::texts::{fault, sequence_fault};
use brisk_parse::ParseFault;
use std::alloc::Global;
use std::test::Fail;

// A text with a part that is repeated, and maybe closed as often, and its fault.
#[derive(Clone, Copy)]
struct Repeated {
    before: &'static [u8],
    opening: &'static [u8],
    closing: &'static [u8],
    after: &'static [u8],
    times: usize,
    want: Option<ParseFault>,
}

fn extend(text: &mut Vec<u8>, part: &[u8], times: usize) -> Result<(), Fail> {
    for _time in 0..times {
        text.extend_from_slice(part)?;
    }
    Ok(())
}

impl Repeated {
    fn text(&self, alloc: Global) -> Result<Vec<u8>, Fail> {
        let mut text = Vec::from_slice(alloc, self.before)?;
        extend(&mut text, self.opening, self.times)?;
        extend(&mut text, self.closing, self.times)?;
        text.extend_from_slice(self.after)?;
        Ok(text)
    }
}

const SOURCES: [Repeated; 27] = [
    Repeated {
        before: b"",
        opening: b"enum E{A}",
        closing: b"",
        after: b"",
        times: 256,
        want: None,
    },
    Repeated {
        before: b"",
        opening: b"enum E{A}",
        closing: b"",
        after: b"",
        times: 257,
        want: Some(ParseFault::TooMany(1280)),
    },
    Repeated {
        before: b"enum E{A",
        opening: b",A",
        closing: b"",
        after: b"}",
        times: 255,
        want: None,
    },
    Repeated {
        before: b"enum E{A",
        opening: b",A",
        closing: b"",
        after: b"}",
        times: 256,
        want: Some(ParseFault::TooMany(515)),
    },
    Repeated {
        before: b"",
        opening: b"channel C();",
        closing: b"",
        after: b"",
        times: 1024,
        want: None,
    },
    Repeated {
        before: b"",
        opening: b"channel C();",
        closing: b"",
        after: b"",
        times: 1025,
        want: Some(ParseFault::TooMany(5120)),
    },
    Repeated {
        before: b"channel C(int",
        opening: b",int",
        closing: b"",
        after: b");",
        times: 15,
        want: None,
    },
    Repeated {
        before: b"channel C(int",
        opening: b",int",
        closing: b"",
        after: b");",
        times: 16,
        want: Some(ParseFault::TooMany(35)),
    },
    Repeated {
        before: b"",
        opening: b"many A{}",
        closing: b"",
        after: b"",
        times: 256,
        want: None,
    },
    Repeated {
        before: b"",
        opening: b"many A{}",
        closing: b"",
        after: b"",
        times: 257,
        want: Some(ParseFault::TooMany(1024)),
    },
    Repeated {
        before: b"one A{",
        opening: b"input x:int;",
        closing: b"",
        after: b"}",
        times: 256,
        want: None,
    },
    Repeated {
        before: b"one A{",
        opening: b"input x:int;",
        closing: b"",
        after: b"}",
        times: 257,
        want: Some(ParseFault::TooMany(1283)),
    },
    Repeated {
        before: b"one A{send C(1",
        opening: b",1",
        closing: b"",
        after: b")to B;}",
        times: 15,
        want: None,
    },
    Repeated {
        before: b"one A{send C(1",
        opening: b",1",
        closing: b"",
        after: b")to B;}",
        times: 16,
        want: Some(ParseFault::TooMany(38)),
    },
    Repeated {
        before: b"one A{recv C(x",
        opening: b",x",
        closing: b"",
        after: b")from B;}",
        times: 15,
        want: None,
    },
    Repeated {
        before: b"one A{recv C(x",
        opening: b",x",
        closing: b"",
        after: b")from B;}",
        times: 16,
        want: Some(ParseFault::TooMany(38)),
    },
    Repeated {
        before: b"one A{x:=",
        opening: b"!",
        closing: b"",
        after: b"a;}",
        times: 255,
        want: None,
    },
    Repeated {
        before: b"one A{x:=",
        opening: b"!",
        closing: b"",
        after: b"a;}",
        times: 256,
        want: Some(ParseFault::TooMany(261)),
    },
    Repeated {
        before: b"one A{x:=-1",
        opening: b"+1",
        closing: b"",
        after: b";}",
        times: 127,
        want: None,
    },
    Repeated {
        before: b"one A{x:=-1",
        opening: b"+1",
        closing: b"",
        after: b";}",
        times: 128,
        want: Some(ParseFault::TooMany(261)),
    },
    Repeated {
        before: b"one A{",
        opening: b"x:=1;",
        closing: b"",
        after: b"}",
        times: 20_000,
        want: None,
    },
    Repeated {
        before: b"one A{",
        opening: b"x:=1;",
        closing: b"",
        after: b"}",
        times: 20_001,
        want: Some(ParseFault::TooMany(80_003)),
    },
    Repeated {
        before: b"one A{x:=1;repeat W{",
        opening: b"if a{}",
        closing: b"",
        after: b"}}",
        times: 19_998,
        want: None,
    },
    Repeated {
        before: b"one A{x:=1;repeat W{",
        opening: b"if a{}",
        closing: b"",
        after: b"}}",
        times: 19_999,
        want: Some(ParseFault::TooMany(80_002)),
    },
    // a comma at the limit leads to nothing else
    Repeated {
        before: b"channel C(int",
        opening: b",int",
        closing: b"",
        after: b",);",
        times: 15,
        want: Some(ParseFault::SyntaxFault(35)),
    },
    // blocks
    Repeated {
        before: b"one A {",
        opening: b" if true {",
        closing: b" }",
        after: b" }",
        times: 63,
        want: None,
    },
    Repeated {
        before: b"one A {",
        opening: b" if true {",
        closing: b" }",
        after: b" }",
        times: 64,
        want: Some(ParseFault::TooDeep(194)),
    },
];

#[test]
fn limits_of_sources(rt: HostRuntime) -> Result<(), Fail> {
    for row in &SOURCES {
        let fault = fault(rt.alloc(), &row.text(rt.alloc())?)?;
        assert_eq!(rt; fault, row.want, "at {} of {:?}", row.times, row.opening);
    }
    Ok(())
}

const SEQUENCES: [Repeated; 8] = [
    Repeated {
        before: b"begin A.(x",
        opening: b",x",
        closing: b"",
        after: b"):=B.();end",
        times: 15,
        want: None,
    },
    Repeated {
        before: b"begin A.(x",
        opening: b",x",
        closing: b"",
        after: b"):=B.();end",
        times: 16,
        want: Some(ParseFault::TooMany(36)),
    },
    Repeated {
        before: b"begin A.():=B.(1",
        opening: b",1",
        closing: b"",
        after: b");end",
        times: 15,
        want: None,
    },
    Repeated {
        before: b"begin A.():=B.(1",
        opening: b",1",
        closing: b"",
        after: b");end",
        times: 16,
        want: Some(ParseFault::TooMany(41)),
    },
    Repeated {
        before: b"begin while A.(",
        opening: b"!",
        closing: b"",
        after: b"a){}end",
        times: 255,
        want: None,
    },
    Repeated {
        before: b"begin while A.(",
        opening: b"!",
        closing: b"",
        after: b"a){}end",
        times: 256,
        want: Some(ParseFault::TooMany(261)),
    },
    // blocks
    Repeated {
        before: b"begin",
        opening: b" repeat W {",
        closing: b" }",
        after: b" end",
        times: 320,
        want: None,
    },
    Repeated {
        before: b"begin",
        opening: b" repeat W {",
        closing: b" }",
        after: b" end",
        times: 321,
        want: Some(ParseFault::TooDeep(963)),
    },
];

#[test]
fn limits_of_sequential_texts(rt: HostRuntime) -> Result<(), Fail> {
    for row in &SEQUENCES {
        let fault = sequence_fault(rt.alloc(), &row.text(rt.alloc())?)?;
        assert_eq!(rt; fault, row.want, "at {} of {:?}", row.times, row.opening);
    }
    Ok(())
}
