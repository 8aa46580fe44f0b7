//! A machine on a small program, taken event by event.
use brisk_async::{Event, Machine, StepFault};
use brisk_test_texts::program_of;
use brisk_values::{Inputs, Instance, Name, Pid, Sizes, Value};
use std::alloc::Global;
use std::test::Fail;

// C and A send one message each, and B waits for two of A.
const SENDERS: &[u8] = b"channel T(int);one C{send T(7)to B;}one A{send T(7)to B;}
    one B{var x:int=0;recv T(x)from A;recv T(x)from A;}";

fn begun(alloc: Global) -> Result<Machine, Fail> {
    let program = program_of(alloc, SENDERS)?;
    let instance = Instance {
        sizes: Sizes {
            items: Vec::new(alloc),
        },
        inputs: Inputs {
            items: Vec::new(alloc),
        },
    };
    Ok(Machine::start(alloc, &program, &instance)?)
}

fn process(role: Name) -> Pid {
    Pid { role, member: 0 }
}

fn event(role: Name) -> Event {
    Event {
        process: process(role),
        sender: None,
        place: None,
    }
}

fn received(machine: &Machine) -> Option<Value> {
    machine.store().get(process(Name::of(b"B")), Name::of(b"x"))
}

#[test]
fn a_machine_runs_to_its_deadlock(rt: HostRuntime) -> Result<(), Fail> {
    let mut machine = begun(rt.alloc())?;
    let a = event(Name::of(b"A"));
    let b = event(Name::of(b"B"));
    assert!(rt; machine.code(process(Name::of(b"D"))).is_none());
    machine.step(&event(Name::of(b"C")))?;
    assert!(rt; machine.enabled(&a));
    assert_eq!(rt; machine.step(&b), Err(StepFault::Blocked));
    assert!(rt; !machine.is_deadlocked());
    machine.step(&a)?;
    assert!(rt; !machine.enabled(&a));
    machine.step(&b)?;
    assert!(rt; machine.is_deadlocked());
    assert!(rt; !machine.is_halted());
    assert_eq!(rt; received(&machine), Some(Value::Int(7)));
    Ok(())
}
