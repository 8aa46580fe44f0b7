//! The programs of the tests.

pub const PING_PONG: &[u8] = b"channel Ping(int);
channel Pong(int);
one A {
  input n : int;
  var r : int = 0;
  send Ping(n) to B;
  recv Pong(r) from B;
}
one B {
  var x : int = 0;
  recv Ping(x) from A;
  send Pong(x + 1) to A;
}
";

pub const LATE_BOX: &[u8] = b"channel T(int); channel G();
one A { input n : int; send T(n) to B; n := 5; send G() to B; }
one B { var x : int = 0; recv G() from A; recv T(x) from A; }
";

pub const ASK_ALL: &[u8] = b"channel Ask(int); channel Reply(int);
one H { var s : int = 0; var x : int = 0;
  for w in Ws { send Ask(1) to w; }
  repeat Ws { recv Reply(x) from any w in Ws { s := s + x; } } }
many Ws { var q : int = 0; recv Ask(q) from H; send Reply(q + 1) to H; }
";

pub const TWO_PHASE_COMMIT: &[u8] = b"enum Vote { Yes, No } enum Decision { Commit, Abort }
channel Prepare(); channel Cast(Vote); channel Decide(Decision); channel Ack();
one C { var v : Vote = Vote.Yes; var ok : bool = true; var d : Decision = Decision.Abort;
  for p in Ps { send Prepare() to p; }
  repeat Ps { recv Cast(v) from any p in Ps { if v == Vote.No { ok := false; } } }
  if ok { d := Decision.Commit; }
  for p in Ps { send Decide(d) to p; }
  repeat Ps { recv Ack() from any p in Ps { } } }
many Ps { input vote : Vote; var got : Decision = Decision.Abort; var done : bool = false;
  recv Prepare() from C; send Cast(vote) to C; recv Decide(got) from C;
  if got == Decision.Commit { done := true; } send Ack() to C; }
";

pub const TASK_SERVER: &[u8] = b"channel Ready(); channel Task(bool, int);
one M { input n : int; var k : int = 0;
  while k < n { recv Ready() from any w in Ws { send Task(true, k) to w; k := k + 1; } }
  repeat Ws { recv Ready() from any w in Ws { send Task(false, 0) to w; } } }
many Ws nonempty { var go : bool = true; var t : int = 0;
  while go { send Ready() to M; recv Task(go, t) from M; } }
";

pub const PING_PONG_LOOSE: &[u8] = b"channel Ping(int) loose;
channel Pong(int) loose;
one A {
  input n : int;
  var r : int = 0;
  send Ping(n) to B;
  recv Pong(r) from B;
}
one B {
  var x : int = 0;
  recv Ping(x) from A;
  send Pong(x + 1) to A;
}
";

pub const ASK_ALL_LOOSE: &[u8] = b"channel Ask(int) loose; channel Reply(int) loose;
one H { var s : int = 0; var x : int = 0;
  for w in Ws { send Ask(1) to w; }
  repeat Ws { recv Reply(x) from any w in Ws { s := s + x; } } }
many Ws { var q : int = 0; recv Ask(q) from H; send Reply(q + 1) to H; }
";

pub const COLLECT: &[u8] = b"channel T(int);
one M { var x : int = 0; var last : int = 0;
  repeat Ws { recv T(x) from any w in Ws { last := x; } } }
many Ws { input v : int; send T(v) to M; }
";

pub const CROSSED: &[u8] = b"channel P(int); channel Q(int);
one A { var x : int = 0; recv P(x) from B; send Q(1) to B; }
one B { var y : int = 0; recv Q(y) from A; send P(1) to A; }
";

pub const COLLECT_LOOSE: &[u8] = b"channel T(int) loose;
one M { var x : int = 0; var last : int = 0;
  repeat Ws { recv T(x) from any w in Ws { last := x; } } }
many Ws { input v : int; send T(v) to M; }
";

pub const TWO_MESSAGES: &[u8] = b"channel T(int);
one A { send T(1) to B; send T(2) to B; }
one B { var x : int = 0; var y : int = 0; recv T(x) from A; recv T(y) from A; }
";

pub const ONE_SIDED: &[u8] =
    b"channel T(int); one A { input b : bool; if b { send T(1) to B; } } one B { }";

pub const LEARNT_AGAIN: &[u8] =
    b"one A { var x : int = 2; var z : int = 2; while x == z && z == x { if z == 2 { x := 5; z := 5; } else { x := 6; } } }";

pub const OVERTAKING: &[u8] = b"channel T(int);
one M { var x : int = 0; repeat Ws { recv T(x) from any w in Ws { } }
  repeat Ws { recv T(x) from any w in Ws { } } }
many Ws { input v : int; send T(v) to M; send T(v) to M; }
";

pub const SENDS_IN_A_LOOP: &[u8] = b"channel T(int) loose;
one A { var k : int = 0; while k < 3 { send T(k) to B; k := k + 1; } }
one B { var x : int = 0; recv T(x) from A; }
";

pub const TWO_MESSAGES_LOOSE: &[u8] = b"channel T(int) loose;
one A { send T(1) to B; send T(2) to B; }
one B { var x : int = 0; var y : int = 0; recv T(x) from A; recv T(y) from A; }
";

pub const NESTED_FOR: &[u8] = b"channel T(int);
one M { for u in Ws { for v in Ws { send T(1) to v; } } }
many Ws { }
";

pub const ENDLESS_SENDER: &[u8] = b"channel T(int);
one A { while true { send T(1) to B; } }
one B { }
";
