//! Plain runs of small programs.
use brisk_schedule::{Schedule, write};
use brisk_test_texts::program_of;
use brisk_trace::{to_deadlock, to_overtaking};
use std::alloc::Global;
use std::test::Fail;

// The text of the schedule, and nothing where there is none.
fn told(alloc: Global, schedule: Option<Schedule>) -> Result<Vec<u8>, Fail> {
    match schedule {
        Some(schedule) => Ok(write(alloc, &schedule)?),
        None => Ok(Vec::new(alloc)),
    }
}

// A and B send each other a number. B waits first, and in the first of the two A too.
const TALKS: [(&[u8], &[u8]); 2] = [
    (
        b"channel P(int);channel Q(int);one A{var x:int=0;recv P(x)from B;send Q(1)to B;}
        one B{var x:int=0;recv Q(x)from A;send P(1)to A;}",
        b"brisk schedule 1\nend\n",
    ),
    (
        b"channel P(int);channel Q(int);one A{var x:int=0;send Q(1)to B;recv P(x)from B;}
        one B{var x:int=0;recv Q(x)from A;send P(1)to A;}",
        b"",
    ),
];

#[test]
fn crossed_roles_deadlock_and_roles_in_turn_halt(rt: HostRuntime) -> Result<(), Fail> {
    let alloc = rt.alloc();
    for (source, text) in TALKS {
        let program = program_of(alloc, source)?;
        let schedule = to_deadlock(alloc, &program)?;
        assert_eq!(rt; told(alloc, schedule)?.as_slice(), text);
    }
    Ok(())
}

// M gathers twice a number of each worker, which sends both before.
const COLLECTING: &[u8] = b"channel T(int);
one M{var x:int=0;repeat Ws{recv T(x)from any w in Ws{}}repeat Ws{recv T(x)from any w in Ws{}}}
many Ws{input v:int;send T(v)to M;send T(v)to M;}";

const TWICE: &[u8] = b"brisk schedule 1
size Ws 2
input Ws[0].v = 0
input Ws[1].v = 0
event Ws[0]
event Ws[0]
event Ws[1]
event Ws[1]
event M
event M from Ws[0]
event M
event M from Ws[0]
end
";

#[test]
fn the_first_worker_is_taken_twice(rt: HostRuntime) -> Result<(), Fail> {
    let program = program_of(rt.alloc(), COLLECTING)?;
    let schedule = to_overtaking(rt.alloc(), &program)?;
    assert_eq!(rt; told(rt.alloc(), schedule)?.as_slice(), TWICE);
    Ok(())
}
