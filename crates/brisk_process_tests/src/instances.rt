//! Instances that fit, some that don't, and the store in which one starts.
use brisk_instance::{StartFault, judge, start_store, weight};
use brisk_test_texts::program_of;
use brisk_values::{Input, Inputs, Instance, Name, Pid, Sizes, Value};
use std::alloc::Global;
use std::test::Fail;

fn input(role: Name, member: u32, value: Value) -> Input {
    Input {
        process: Pid { role, member },
        variable: Name::of(b"v"),
        value,
    }
}

// Two members, of which the second has this value.
fn instance(alloc: Global, last: Value) -> Result<Instance, Fail> {
    let first = input(Name::of(b"A"), 0, Value::Int(-3));
    let second = input(Name::of(b"Ws"), 0, Value::Bool(true));
    let third = input(Name::of(b"Ws"), 1, last);
    Ok(Instance {
        sizes: Sizes {
            items: vec![in alloc; (Name::of(b"Ws"), 2)]?,
        },
        inputs: Inputs {
            items: vec![in alloc; first, second, third]?,
        },
    })
}

#[test]
fn an_instance_fits_with_values_of_their_kinds(rt: HostRuntime) -> Result<(), Fail> {
    let alloc = rt.alloc();
    let source = b"one A{input v:int;}many Ws nonempty{input v:bool;}";
    let program = program_of(alloc, source)?;
    for (last, want) in [
        (Value::Bool(false), Ok(())),
        (Value::Int(0), Err(StartFault::BadInstance)),
    ] {
        let instance = instance(alloc, last)?;
        let answer = judge(alloc, &program.enums, &program.roles, &instance);
        assert_eq!(rt; answer, want);
        assert_eq!(rt; weight(&program.roles, &instance.sizes), 9 + 20);
    }
    Ok(())
}

const SET: &[u8] = b"many Ws nonempty{var x:int=-5;}";

// The instance of the set alone, without a size or with this one.
fn of_set(alloc: Global, size: Option<u32>) -> Result<Instance, Fail> {
    let mut sizes = Vec::new(alloc);
    if let Some(size) = size {
        sizes.push((Name::of(b"Ws"), size))?;
    }
    Ok(Instance {
        sizes: Sizes { items: sizes },
        inputs: Inputs {
            items: Vec::new(alloc),
        },
    })
}

#[test]
fn a_size_is_given_and_neither_too_small_nor_too_large(rt: HostRuntime) -> Result<(), Fail> {
    let alloc = rt.alloc();
    let program = program_of(alloc, SET)?;
    for (size, want) in [
        (None, Err(StartFault::BadInstance)),
        (Some(0), Err(StartFault::BadInstance)),
        (Some(153_846), Ok(())),
        (Some(153_847), Err(StartFault::TooLarge)),
    ] {
        let instance = of_set(alloc, size)?;
        let answer = judge(alloc, &program.enums, &program.roles, &instance);
        assert_eq!(rt; answer, want, "at {size:?}");
    }
    Ok(())
}

#[test]
fn each_member_starts_with_its_values(rt: HostRuntime) -> Result<(), Fail> {
    let alloc = rt.alloc();
    let program = program_of(alloc, SET)?;
    let store = start_store(alloc, &program.roles, &of_set(alloc, Some(2))?)?;
    for (member, want) in [(1, Some(Value::Int(-5))), (2, None)] {
        let process = Pid {
            role: Name::of(b"Ws"),
            member,
        };
        assert_eq!(rt; store.get(process, Name::of(b"x")), want);
    }
    Ok(())
}
