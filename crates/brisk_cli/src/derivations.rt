//! What is answered for derivations, over folders and sinks in memory.
use crate::serve::serve;
use crate::status::Status;
use crate::tests::{OVERTAKEN, OVERTAKING, PING_PONG, words};
use brisk_io::{File, MemFolder, MemSink};
use std::alloc::Global;
use std::test::Fail;

const CROSSED: &str = "channel P(int); channel Q(int);
one A { var x : int = 0; recv P(x) from B; send Q(1) to B; }
one B { var y : int = 0; recv Q(y) from A; send P(1) to A; }";

const LATE_BOX: &str = "channel T(int); channel G();
one A { input n : int; send T(n) to B; n := 5; send G() to B; }
one B { var x : int = 0; recv G() from A; recv T(x) from A; }";

const LATE_BOX_SEQUENTIAL: &str = "one A {
  input n : int;
}
one B {
  var x : int = 0;
}
begin
  box 1 (A to B) := A.(n);
  A.(n) := A.(5);
  B.() := A.();
  B.(x) := box 1 (A to B);
end
";

const LATE_BOX_OTHER: &str = "one A {
  input n : int;
}
one B {
  var x : int = 0;
}
begin
  box 1 (A to B) := A.(n);
  A.(n) := A.(6);
  B.() := A.();
  B.(x) := box 1 (A to B);
end
";

const LATE_BOX_DERIVATION: &str = "brisk derivation 1
fill A B T 1
assign A
pass A B G
take A B T
end
";

const TWO_MESSAGES: &str = "channel T(int);
one A { send T(1) to B; send T(2) to B; }
one B { var x : int = 0; var y : int = 0; recv T(x) from A; recv T(y) from A; }";

const ASK_ALL: &str = "channel Ask(int); channel Reply(int);
one H { var s : int = 0; var x : int = 0;
  for w in Ws { send Ask(1) to w; }
  repeat Ws { recv Reply(x) from any w in Ws { s := s + x; } } }
many Ws { var q : int = 0; recv Ask(q) from H; send Reply(q + 1) to H; }";

const ASK_ALL_DERIVATION: &str = "brisk derivation 1
for Ws by H drop
pass H Ws Ask
close
gather H drop H.s H.x
pass Ws H Reply
assign H
close
end
";

const TASK_SERVER: &str = "channel Ready(); channel Task(bool, int);
one M { input n : int; var k : int = 0;
  while k < n { recv Ready() from any w in Ws { send Task(true, k) to w; k := k + 1; } }
  repeat Ws { recv Ready() from any w in Ws { send Task(false, 0) to w; } } }
many Ws nonempty { var go : bool = true; var t : int = 0;
  while go { send Ready() to M; recv Task(go, t) from M; } }";

const TASK_SERVER_DERIVATION: &str = "brisk derivation 1
while M drop M.k Ws.t
pick M drop
known Ws
pass Ws M Ready
pass M Ws Task
assign M
close
close
gather M drop
known Ws
pass Ws M Ready
pass M Ws Task
known Ws
close
end
";

const ASKS_TWICE: &str = "channel T(int);
one H { for w in Ws { send T(1) to w; } for w in Ws { send T(1) to w; } }
many Ws { var q : int = 0; recv T(q) from H; recv T(q) from H; }";

const ASKS_TWICE_SEQUENTIAL: &str = "one H {
}
many Ws {
  var q : int = 0;
}
begin
  for Ws {
    Ws.(q) := H.(1);
  }
  for Ws {
    Ws.(q) := H.(1);
  }
end
";

// The status and the text for these words, where the files F, S and D have these bytes.
fn answered(alloc: Global, text: &str, files: [&str; 3]) -> Result<(Status, Vec<u8>), Fail> {
    let mut folder = MemFolder {
        files: Vec::new(alloc),
        plan: Vec::new(alloc),
        calls: 0,
        misses: 0,
        faults: 0,
    };
    for (name, bytes) in ["F", "S", "D"].iter().zip(files.iter()) {
        folder.files.push(File {
            name: String::from_str(alloc, name)?,
            bytes: Vec::from_slice(alloc, bytes.as_bytes())?,
        })?;
    }
    let mut out = MemSink::new(alloc, 4096, 100, Vec::new(alloc))?;
    let status = serve(alloc, &words(alloc, text)?, &mut folder, &mut out);
    Ok((status, Vec::from_slice(alloc, out.written())?))
}

#[test]
fn each_source_has_its_derivation_or_its_refusal(rt: HostRuntime) -> Result<(), Fail> {
    for (source, status, text) in [
        (
            PING_PONG,
            Status::Done,
            "brisk derivation 1\npass A B Ping\npass B A Pong\nend\n",
        ),
        (LATE_BOX, Status::Done, LATE_BOX_DERIVATION),
        (ASK_ALL, Status::Done, ASK_ALL_DERIVATION),
        (TASK_SERVER, Status::Done, TASK_SERVER_DERIVATION),
        ("", Status::Done, "brisk derivation 1\nend\n"),
        (
            CROSSED,
            Status::Refused,
            "deadlock\nbrisk schedule 1\nend\n",
        ),
        (OVERTAKING, Status::Refused, OVERTAKEN),
        ("one A {", Status::BadInput, "source SyntaxFault 7\n"),
    ] {
        let (answer, written) = answered(rt.alloc(), "derive F", [source, "", ""])?;
        assert_eq!(rt; answer, status, "of {source}");
        assert_eq!(rt; written.as_slice(), text.as_bytes(), "of {source}");
    }
    Ok(())
}

#[test]
fn each_derivation_has_its_verdict(rt: HostRuntime) -> Result<(), Fail> {
    for (source, sequential, derivation, status, text) in [
        (
            LATE_BOX,
            LATE_BOX_SEQUENTIAL,
            LATE_BOX_DERIVATION,
            Status::Done,
            "valid\n",
        ),
        (
            LATE_BOX,
            LATE_BOX_OTHER,
            LATE_BOX_DERIVATION,
            Status::Refused,
            "other program 103\n",
        ),
        (
            LATE_BOX,
            "one A {\n",
            LATE_BOX_DERIVATION,
            Status::Refused,
            "other program 8\n",
        ),
        (
            LATE_BOX,
            "",
            LATE_BOX_DERIVATION,
            Status::Refused,
            "other program 0\n",
        ),
        (
            TWO_MESSAGES,
            "",
            "brisk derivation 1\nfill A B T 1\nfill A B T 1\ntake A B T\ntake A B T\nend\n",
            Status::Refused,
            "invalid 3 BoxInUse\n",
        ),
        (
            LATE_BOX,
            LATE_BOX_SEQUENTIAL,
            "brisk derivation 1\nfill A B T 1\nassign A\nend\n",
            Status::Refused,
            "invalid 4 Unfinished A\n",
        ),
        (
            LATE_BOX,
            LATE_BOX_SEQUENTIAL,
            "brisk derivation 1\nfill A B T 1\nassign A\n",
            Status::BadInput,
            "derivation Line 4\n",
        ),
        (
            ASKS_TWICE,
            ASKS_TWICE_SEQUENTIAL,
            "brisk derivation 2\npart p1\nfor Ws by H drop\npass H Ws T\nclose\nendpart\nuse p1\nuse p1\nend\n",
            Status::Done,
            "valid\n",
        ),
        (
            ASKS_TWICE,
            ASKS_TWICE_SEQUENTIAL,
            "brisk derivation 2\npart p1\nfor Ws by H drop\npass H Ws T\nclose\nendpart\nuse p2\nuse p1\nend\n",
            Status::BadInput,
            "derivation Line 7\n",
        ),
    ] {
        let (answer, written) = answered(
            rt.alloc(),
            "check F S D",
            [source, sequential, derivation],
        )?;
        assert_eq!(rt; answer, status, "of {derivation}");
        assert_eq!(rt; written.as_slice(), text.as_bytes(), "of {derivation}");
    }
    Ok(())
}

#[test]
fn a_part_that_is_used_too_often_is_told(rt: HostRuntime) -> Result<(), Fail> {
    let alloc = rt.alloc();
    let mut text = String::from_str(alloc, "brisk derivation 2\npart p1\nassign A\nendpart\n")?;
    for part in 2u32..31 {
        let before = part - 1;
        let lines = format!(in alloc; "part p{part}\nuse p{before}\nuse p{before}\nendpart\n")?;
        text.push_str(&lines)?;
    }
    text.push_str("end\n")?;
    let (status, written) = answered(alloc, "check F S D", ["", "", text.as_str()])?;
    assert_eq!(rt; status, Status::BadInput);
    assert_eq!(rt; written.as_slice(), b"derivation TooLarge 87\n".as_slice());
    Ok(())
}

#[test]
fn all_files_are_read_before_the_derivation_is_judged(rt: HostRuntime) -> Result<(), Fail> {
    for (text, source, expected) in [
        ("check none S D", LATE_BOX, "file none Missing\n"),
        ("check F none D", LATE_BOX, "file none Missing\n"),
        ("check F S none", LATE_BOX, "file none Missing\n"),
        ("check F S none", "one A {", "source SyntaxFault 7\n"),
        ("check F S D", "one A {", "source SyntaxFault 7\n"),
        ("check F S D", LATE_BOX, "derivation Line 1\n"),
    ] {
        let (_, written) = answered(rt.alloc(), text, [source, "", ""])?;
        assert_eq!(rt;
            written.as_slice(),
            expected.as_bytes(),
            "of {text}, {source}"
        );
    }
    Ok(())
}

#[test]
fn a_sequential_text_and_a_derivation_have_at_most_16777216_bytes(
    rt: HostRuntime,
) -> Result<(), Fail> {
    let alloc = rt.alloc();
    let mut text = String::new(alloc);
    for _ in 0..1_048_576 {
        text.push_str("no step, no end\n")?;
    }
    let longest = text.as_str();
    let (status, written) = answered(alloc, "check F S D", ["", longest, longest])?;
    assert_eq!(rt; status, Status::BadInput);
    assert_eq!(rt; written.as_slice(), b"derivation Line 1\n".as_slice());
    text.push_str(" ")?;
    let longer = text.as_str();
    for (sequential, derivation, expected) in [
        (longer, longer, "file S TooLong\n"),
        ("", longer, "file D TooLong\n"),
    ] {
        let (status, written) = answered(alloc, "check F S D", ["", sequential, derivation])?;
        assert_eq!(rt; status, Status::BadInput);
        assert_eq!(rt; written.as_slice(), expected.as_bytes());
    }
    Ok(())
}
