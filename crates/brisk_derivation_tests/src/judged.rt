//! Derivations that are judged: what fails first, and at which line.
use crate::programs::{
    ASK_ALL, LATE_BOX, LEARNT_AGAIN, ONE_SIDED, OVERTAKING, SENDS_IN_A_LOOP, TWO_MESSAGES,
    TWO_MESSAGES_LOOSE,
};
use brisk_check::check;
use brisk_test_texts::program_of;
use std::alloc::Global;
use std::test::Fail;

// The verdict, or the line at which the derivation's text fails.
fn verdict(
    alloc: Global,
    source: &[u8],
    sequential: &[u8],
    derivation: &[u8],
) -> Result<Vec<u8>, Fail> {
    let program = program_of(alloc, source)?;
    match check(alloc, &program, sequential, derivation) {
        Ok(verdict) => Ok(format!(in alloc; "{verdict:?}")?.into_bytes()),
        Err(fault) => Ok(format!(in alloc; "{fault:?}")?.into_bytes()),
    }
}

// The program, the sequential text, the derivation and the verdict.
const JUDGED: [(&[u8], &[u8], &[u8], &[u8]); 21] = [
    // box in use
    (
        TWO_MESSAGES,
        b"",
        b"brisk derivation 1
fill A B T 1
fill A B T 1
take A B T
take A B T
end
",
        b"Invalid(3, Rule(BoxInUse))",
    ),
    // no end
    (
        LATE_BOX,
        b"",
        b"brisk derivation 1
fill A B T 1
assign A
",
        b"Deriv(4)",
    ),
    // other program
    (
        LATE_BOX,
        b"one A {
  input n : int;
}
one B {
  var x : int = 0;
}
begin
  box 1 (A to B) := A.(n);
  A.(n) := A.(6);
  B.() := A.();
  B.(x) := box 1 (A to B);
end
",
        b"brisk derivation 1
fill A B T 1
assign A
pass A B G
take A B T
end
",
        b"OtherProgram(103)",
    ),
    // unfinished
    (
        LATE_BOX,
        b"",
        b"brisk derivation 1
fill A B T 1
assign A
end
",
        b"Invalid(4, Side(Unfinished(A)))",
    ),
    // box too large
    (
        LATE_BOX,
        b"",
        b"brisk derivation 1
fill A B T 1000001
assign A
pass A B G
take A B T
end
",
        b"Deriv(2)",
    ),
    // box zero
    (
        LATE_BOX,
        b"",
        b"brisk derivation 1
fill A B T 0
assign A
pass A B G
take A B T
end
",
        b"Deriv(2)",
    ),
    // branches differ
    (
        ONE_SIDED,
        b"",
        b"brisk derivation 1
branch A
fill A B T 1
else
join
end
",
        b"Invalid(5, Side(BranchesDiffer))",
    ),
    // empty
    (LATE_BOX, b"", b"", b"Deriv(1)"),
    // fact lost
    (
        ASK_ALL,
        b"",
        b"brisk derivation 1
for Ws by H drop
pass H Ws Ask
close
gather H drop H.x
pass Ws H Reply
assign H
close
end
",
        b"Invalid(8, Side(FactLost))",
    ),
    // learnt again
    (
        LEARNT_AGAIN,
        b"",
        b"brisk derivation 1
while A drop
known A
assign A
assign A
close
end
",
        b"Invalid(6, Side(FactLost))",
    ),
    // lost close
    (
        ASK_ALL,
        b"",
        b"brisk derivation 1
for Ws by H drop
pass H Ws Ask
gather H drop H.s H.x
pass Ws H Reply
assign H
close
end
",
        b"Deriv(8)",
    ),
    // no owner
    (
        ASK_ALL,
        b"",
        b"brisk derivation 1
for Ws by drop
pass H Ws Ask
close
gather H drop H.s H.x
pass Ws H Reply
assign H
close
end
",
        b"Invalid(3, Rule(WrongHead))",
    ),
    // no thread
    (
        LATE_BOX,
        b"",
        b"brisk derivation 1
fill A B T 1
assign C
pass A B G
take A B T
end
",
        b"Invalid(3, Rule(NoThread))",
    ),
    // not quiet
    (
        OVERTAKING,
        b"",
        b"brisk derivation 1
gather M drop M.x
pass Ws M T
close
end
",
        b"Invalid(4, Side(NotQuiet))",
    ),
    // nothing pending
    (
        LATE_BOX,
        b"",
        b"brisk derivation 1
fill A B T 1
assign A
take A B G
take A B T
end
",
        b"Invalid(4, Rule(NothingPending))",
    ),
    // owner unfinished
    (
        ASK_ALL,
        b"",
        b"brisk derivation 1
for Ws by H drop
pass H Ws Ask
close
gather H drop H.s H.x
pass Ws H Reply
close
end
",
        b"Invalid(7, Side(OwnerUnfinished(H)))",
    ),
    // stray close
    (
        LATE_BOX,
        b"",
        b"brisk derivation 1
fill A B T 1
assign A
pass A B G
take A B T
close
end
",
        b"Deriv(6)",
    ),
    // wrong head
    (
        LATE_BOX,
        b"",
        b"brisk derivation 1
fill A B T 1
assign B
pass A B G
take A B T
end
",
        b"Invalid(3, Rule(WrongHead))",
    ),
    // ends is not quiet
    (
        SENDS_IN_A_LOOP,
        b"",
        b"brisk derivation 1
while A drop A.k
pass A B T
assign A
close
end
",
        b"Invalid(3, Side(SenderNotQuiet))",
    ),
    // many pending
    (
        TWO_MESSAGES_LOOSE,
        b"",
        b"brisk derivation 1
fill A B T 1
fill A B T 2
take A B T
take A B T
end
",
        b"Invalid(4, Side(ManyPending))",
    ),
    // sender not quiet
    (
        TWO_MESSAGES_LOOSE,
        b"",
        b"brisk derivation 1
pass A B T
pass A B T
end
",
        b"Invalid(2, Side(SenderNotQuiet))",
    ),
];

#[test]
fn derivations_are_judged(rt: HostRuntime) -> Result<(), Fail> {
    for (source, sequential, derivation, want) in JUDGED {
        let answer = verdict(rt.alloc(), source, sequential, derivation)?;
        assert_eq!(rt; answer.as_slice(), want);
    }
    Ok(())
}
