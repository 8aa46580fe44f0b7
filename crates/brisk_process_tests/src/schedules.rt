//! Schedules and choices, read, written and played, and a store that is shown.
use brisk_async::{Event, StepFault};
use brisk_schedule::{
    Ended, Events, Schedule, ScheduleFault, play, print_played, print_store, read, read_choices,
    write,
};
use brisk_test_texts::{program_of, sequence_of};
use brisk_values::{Inputs, Instance, Name, Pid, Sizes, Store, Value};
use std::alloc::Global;
use std::test::Fail;

// Two members, and no inputs.
fn instance(alloc: Global) -> Result<Instance, Fail> {
    Ok(Instance {
        sizes: Sizes {
            items: vec![in alloc; (Name::of(b"Ws"), 2)]?,
        },
        inputs: Inputs {
            items: Vec::new(alloc),
        },
    })
}

fn second() -> Pid {
    Pid {
        role: Name::of(b"Ws"),
        member: 1,
    }
}

#[test]
fn a_store_is_shown_by_role_and_member(rt: HostRuntime) -> Result<(), Fail> {
    let alloc = rt.alloc();
    let program = sequence_of(alloc, b"one A{input v:int;}many Ws{input v:int;}begin end")?;
    let mut store = Store::new(alloc);
    store.set(second(), Name::of(b"v"), Value::Int(-5))?;
    let text = print_store(alloc, &program, &instance(alloc)?, &store)?;
    let expected = b"halted\nA.v = false\nWs[0].v = false\nWs[1].v = -5\n";
    assert_eq!(rt; text.as_slice(), expected.as_slice());
    Ok(())
}

const NOTHING: &[u8] = b"";

// C and A send one message each, and B waits for two of A.
const SENDERS: &[u8] = b"channel T(int);one C{send T(7)to B;}one A{send T(7)to B;}
one B{var x:int=0;recv T(x)from A;recv T(x)from A;}";

// A sends four messages, and B takes them from any place of the queue.
const LOOSE: &[u8] = b"channel T(int)loose;
one A{send T(0)to B;send T(1)to B;send T(2)to B;send T(3)to B;}
one B{var x:int=9;recv T(x)from A;recv T(x)from A;recv T(x)from A;recv T(x)from A;}";

// The source, the schedule, how it ends, and what is told of that.
const PLAYED: [(&[u8], &[u8], Ended, &[u8]); 9] = [
    (
        NOTHING,
        b"brisk schedule 1\nend\n",
        Ended::Halted,
        b"halted\n",
    ),
    (
        NOTHING,
        b"brisk schedule 1\nevent Q\nend\n",
        Ended::Refused(1, StepFault::NoProcess),
        b"refused 1 NoProcess\n",
    ),
    // queues are told as declared
    (
        SENDERS,
        b"brisk schedule 1\nevent A\nevent C\nend\n",
        Ended::Running,
        b"running\nB.x = 0\nleft B: recv T(x) from A;\nmail C to B T 1\nmail A to B T 1\n",
    ),
    (
        SENDERS,
        b"brisk schedule 1\nevent A\nevent C\nevent B\nend\n",
        Ended::Deadlocked,
        b"deadlocked\nB.x = 7\nleft B: recv T(x) from A;\nmail C to B T 1\n",
    ),
    // of a loose queue any place is taken, and the others keep their order
    (
        LOOSE,
        b"brisk schedule 1\nevent A\nevent A\nevent A\nevent A\nevent B at 2\nend\n",
        Ended::Running,
        b"running\nB.x = 2\nleft B: recv T(x) from A;\nmail A to B T 3\n",
    ),
    (
        LOOSE,
        b"brisk schedule 1\nevent A\nevent A\nevent A\nevent A\nevent B at 2\nevent B at 0\nend\n",
        Ended::Running,
        b"running\nB.x = 0\nleft B: recv T(x) from A;\nmail A to B T 2\n",
    ),
    (
        LOOSE,
        b"brisk schedule 1\nevent A\nevent A\nevent A\nevent A\nevent B at 2\nevent B at 0\nevent B at 2\nend\n",
        Ended::Refused(7, StepFault::NoSuchPlace),
        b"refused 7 NoSuchPlace\nB.x = 0\nleft B: recv T(x) from A;\nmail A to B T 2\n",
    ),
    (
        LOOSE,
        b"brisk schedule 1\nevent A\nevent A\nevent A\nevent A\nevent B at 2\nevent B at 0\nevent B at 0\nend\n",
        Ended::Running,
        b"running\nB.x = 1\nleft B: recv T(x) from A;\nmail A to B T 1\n",
    ),
    (
        LOOSE,
        b"brisk schedule 1\nevent A\nevent A\nevent A\nevent A\nevent B at 2\nevent B at 0\nevent B at 0\nevent B at 0\nend\n",
        Ended::Halted,
        b"halted\nB.x = 3\n",
    ),
];

#[test]
fn schedules_are_played(rt: HostRuntime) -> Result<(), Fail> {
    let alloc = rt.alloc();
    for (source, text, ended, told) in PLAYED {
        let program = program_of(alloc, source)?;
        let played = play(alloc, &program, &read(alloc, &program, text)?)?;
        assert_eq!(rt; played.ended, ended, "of {text:?}");
        let printed = print_played(alloc, &program, &played)?;
        assert_eq!(rt; printed.as_slice(), told, "of {text:?}");
    }
    Ok(())
}

#[test]
fn a_schedule_is_written(rt: HostRuntime) -> Result<(), Fail> {
    let alloc = rt.alloc();
    let event = Event {
        process: Pid {
            role: Name::of(b"A"),
            member: 0,
        },
        sender: Some(second()),
        place: Some(3),
    };
    let schedule = Schedule {
        instance: instance(alloc)?,
        events: Events {
            items: vec![in alloc; event]?,
        },
    };
    let text = write(alloc, &schedule)?;
    let expected = b"brisk schedule 1\nsize Ws 2\nevent A from Ws[1] at 3\nend\n";
    assert_eq!(rt; text.as_slice(), expected.as_slice());
    Ok(())
}

#[test]
fn a_schedule_is_read(rt: HostRuntime) -> Result<(), Fail> {
    let alloc = rt.alloc();
    let program = program_of(alloc, b"")?;
    let text = b"brisk schedule 1\nevent Q from R at 3\nend\n";
    let schedule = read(alloc, &program, text)?;
    assert_eq!(rt; schedule.instance.sizes.items.len(), 0);
    assert_eq!(rt; schedule.events.items.len(), 1);
    let event = &schedule.events.items[0];
    assert_eq!(rt; event.process.role, Name::of(b"Q"));
    assert_eq!(rt;
        event.sender.map(|sender| sender.role),
        Some(Name::of(b"R"))
    );
    assert_eq!(rt; event.place, Some(3));
    assert_eq!(rt; write(alloc, &schedule)?.as_slice(), text.as_slice());
    Ok(())
}

const WRONG: [(&[u8], ScheduleFault); 8] = [
    (b"", ScheduleFault::Text(1)),
    (b"brisk schedule 1", ScheduleFault::Text(1)),
    (b"brisk choices 1\n", ScheduleFault::Text(1)),
    (b"end\n", ScheduleFault::Misfit(1)),
    (b"brisk schedule 1\nturns 1\n", ScheduleFault::Text(2)),
    (b"brisk schedule 1\nsize Ws 1\n", ScheduleFault::Misfit(2)),
    (b"brisk schedule 1\nevent Q[0]\n", ScheduleFault::Misfit(2)),
    (b"brisk schedule 1\nend\nx", ScheduleFault::Text(3)),
];

#[test]
fn a_schedule_fails_at_its_first_wrong_line(rt: HostRuntime) -> Result<(), Fail> {
    let program = program_of(rt.alloc(), b"")?;
    for (text, fault) in WRONG {
        let read = read(rt.alloc(), &program, text);
        assert_eq!(rt; read.err(), Some(fault), "at {text:?}");
    }
    Ok(())
}

#[test]
fn choices_are_read(rt: HostRuntime) -> Result<(), Fail> {
    let alloc = rt.alloc();
    let program = sequence_of(alloc, b"begin end")?;
    let text = b"brisk choices 1\nturns 7\nchoose 0\nchoose 2\nend\n";
    let choices = read_choices(alloc, &program, text)?;
    assert_eq!(rt; choices.turns, 7);
    assert_eq!(rt; choices.picks.items.as_slice(), [0, 2].as_slice());
    let late = read_choices(alloc, &program, b"brisk choices 1\nchoose 0\n");
    assert_eq!(rt; late.err(), Some(ScheduleFault::Misfit(2)));
    Ok(())
}
