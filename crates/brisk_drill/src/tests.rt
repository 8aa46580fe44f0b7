//! The drill of 2, written.
use crate::drill_text;
use std::test::Fail;

#[test]
fn the_drill_of_two_is_written(rt: HostRuntime) -> Result<(), Fail> {
    let text = drill_text(rt.alloc(), 2)?;
    let expected: &[u8] = b"channel Step(int);
channel Ask(int);
channel Reply(int);
one C0 {
  input v : int;
  send Step(v) to C1;
}
one C1 {
  var v : int = 0;
  recv Step(v) from C0;
  send Step(v + 1) to C2;
}
one C2 {
  var v : int = 0;
  recv Step(v) from C1;
}
one H {
  var s : int = 0;
  var x : int = 0;
  for w in Ws {
    send Ask(1) to w;
  }
  repeat Ws {
    recv Reply(x) from any w in Ws {
      s := s + x;
    }
  }
  for w in Ws {
    send Ask(2) to w;
  }
  repeat Ws {
    recv Reply(x) from any w in Ws {
      s := s + x;
    }
  }
}
many Ws {
  var q : int = 0;
  recv Ask(q) from H;
  send Reply(q + 1) to H;
  recv Ask(q) from H;
  send Reply(q + 1) to H;
}
";
    assert_eq!(rt; text.as_slice(), expected);
    Ok(())
}
