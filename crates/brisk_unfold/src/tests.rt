//! The schedule of a small derivation.
use crate::schedule::events_from;
use crate::unfolder::Unfolder;
use brisk_async::Event;
use brisk_derivation::{BasicStep, Drops, Step, Steps};
use brisk_seq::{Body, Pass, Seq, Setting};
use brisk_syntax::{Channels, Expr, Exprs, Names, Roles};
use brisk_values::{Name, Pid, Sizes, Store, Value};
use std::alloc::Global;
use std::test::Fail;

fn single() -> Pid {
    Pid {
        role: Name::of(b"M"),
        member: 0,
    }
}

fn member(member: u32) -> Pid {
    Pid {
        role: Name::of(b"Ws"),
        member,
    }
}

// `gather M drop`, with `pass Ws M T` and `assign M` in it.
fn derivation(alloc: Global) -> Result<Steps, Fail> {
    let pass = BasicStep::Pass(Name::of(b"Ws"), Name::of(b"M"), Name::of(b"T"));
    let assign = BasicStep::Assign(Name::of(b"M"));
    let drops = Drops {
        items: Vec::new(alloc),
    };
    let premise = Steps {
        items: vec![in alloc; Step::Basic(pass), Step::Basic(assign)]?,
    };
    Ok(Steps {
        items: vec![in alloc; Step::Gather(Name::of(b"M"), drops, premise)]?,
    })
}

// `M.(to) := from.(of);`
fn assignment(alloc: Global, to: Name, from: Name, of: Name) -> Result<Seq, Fail> {
    let vars = Names {
        items: vec![in alloc; to]?,
    };
    let exprs = Exprs {
        items: vec![in alloc; Expr::Var(of)]?,
    };
    Ok(Seq::Pass(Pass {
        to: Name::of(b"M"),
        vars,
        from,
        exprs,
    }))
}

// `for any Ws { M.(x) := Ws.(v); M.(last) := M.(x); }`
fn body(alloc: Global) -> Result<Body, Fail> {
    let set = Name::of(b"Ws");
    let given = assignment(alloc, Name::of(b"x"), set, Name::of(b"v"))?;
    let kept = assignment(alloc, Name::of(b"last"), Name::of(b"M"), Name::of(b"x"))?;
    let turn = Body {
        items: vec![in alloc; given, kept]?,
    };
    Ok(Body {
        items: vec![in alloc; Seq::ForAny(set, turn)]?,
    })
}

// The two members start with 10 and 20.
fn store(alloc: Global) -> Result<Store, Fail> {
    let mut store = Store::new(alloc);
    store.set(single(), Name::of(b"x"), Value::Int(0))?;
    store.set(single(), Name::of(b"last"), Value::Int(0))?;
    store.set(member(0), Name::of(b"v"), Value::Int(10))?;
    store.set(member(1), Name::of(b"v"), Value::Int(20))?;
    Ok(store)
}

fn event(process: Pid, sender: Option<Pid>) -> Event {
    Event {
        process,
        sender,
        place: None,
    }
}

#[test]
fn the_second_member_comes_first(rt: HostRuntime) -> Result<(), Fail> {
    let alloc = rt.alloc();
    let channels = Channels {
        items: Vec::new(alloc),
    };
    let roles = Roles {
        items: Vec::new(alloc),
    };
    let sizes = Sizes {
        items: vec![in alloc; (Name::of(b"Ws"), 2)]?,
    };
    let unfolder = Unfolder {
        setting: Setting {
            alloc,
            roles: &roles,
            sizes: &sizes,
            choices: &[1, 0],
        },
        channels: &channels,
    };
    let events = events_from(
        &unfolder,
        &derivation(alloc)?,
        &body(alloc)?,
        store(alloc)?,
        0,
    )?;
    let expected = [
        event(single(), None),
        event(member(1), None),
        event(single(), Some(member(1))),
        event(single(), None),
        event(single(), None),
        event(member(0), None),
        event(single(), Some(member(0))),
        event(single(), None),
        event(single(), None),
    ];
    assert_eq!(rt; events.items.as_slice(), expected.as_slice());
    Ok(())
}
