//! Rules that nest: so deep as is allowed, and one deeper.
use brisk_check::check;
use brisk_derivation::{SideFault, Step, count_steps};
use brisk_derivtext::{no_steps, read};
use brisk_loops::{AcceptFault, Walk, Why, accept};
use brisk_test_texts::program_of;
use brisk_values::Name;
use std::alloc::Global;
use std::test::Fail;

// A role with so many choices, one after another.
fn choices(alloc: Global, count: u32) -> Result<Vec<u8>, Fail> {
    let mut source = Vec::from_slice(alloc, b"one A { input b : bool;")?;
    for _ in 0..count {
        source.extend_from_slice(b" if b { }")?;
    }
    source.extend_from_slice(b" }")?;
    Ok(source)
}

// So many branches, each in the first side of the one before. In the second side of each the choices that are left are
// known, as far as they are done.
fn branches(alloc: Global, deep: u32, is_done: bool) -> Result<Vec<u8>, Fail> {
    let mut text = Vec::from_slice(alloc, b"brisk derivation 1\n")?;
    for _ in 0..deep {
        text.extend_from_slice(b"branch A\n")?;
    }
    for left in 0..deep {
        text.extend_from_slice(b"else\n")?;
        if is_done {
            for _ in 0..left {
                text.extend_from_slice(b"known A\n")?;
            }
        }
        text.extend_from_slice(b"join\n")?;
    }
    text.extend_from_slice(b"end\n")?;
    Ok(text)
}

// What is answered for a program of so many choices and so many branches, whose second sides have no steps.
fn judged(alloc: Global, count: u32, deep: u32) -> Result<Vec<u8>, Fail> {
    let _fault: Option<SideFault> = None;
    let _why: Option<Why> = None;
    let program = program_of(alloc, &choices(alloc, count)?)?;
    let text = branches(alloc, deep, false)?;
    match check(alloc, &program, b"", &text) {
        Ok(verdict) => Ok(format!(in alloc; "{verdict:?}")?.into_bytes()),
        Err(fault) => Ok(format!(in alloc; "{fault:?}")?.into_bytes()),
    }
}

#[test]
fn rules_nest_too_deep(rt: HostRuntime) -> Result<(), Fail> {
    let cases: [(u32, &[u8]); 4] = [
        (256, b"Invalid(261, Side(BranchesDiffer))"),
        (257, b"Invalid(258, Side(TooDeep))"),
        (1024, b"Invalid(258, Side(TooDeep))"),
        (1025, b"Deriv(1026)"),
    ];
    for (deep, want) in cases {
        let answer = judged(rt.alloc(), 257, deep)?;
        assert_eq!(rt; answer.as_slice(), want, "at {deep}");
    }
    Ok(())
}

#[test]
fn rules_nest_256_deep_in_a_valid_derivation(rt: HostRuntime) -> Result<(), Fail> {
    let _fault: Option<SideFault> = None;
    let _why: Option<Why> = None;
    let alloc = rt.alloc();
    let program = program_of(alloc, &choices(alloc, 256)?)?;
    let steps = read(alloc, &branches(alloc, 256, true)?)?;
    assert_eq!(rt; count_steps(&steps), 256 + 32_640);
    assert!(rt; accept(alloc, &program, &steps).is_ok());
    Ok(())
}

#[test]
fn rules_nest_1024_deep_in_a_text(rt: HostRuntime) -> Result<(), Fail> {
    let alloc = rt.alloc();
    let steps = read(alloc, &branches(alloc, 1024, false)?)?;
    assert_eq!(rt; count_steps(&steps), 1024);
    Ok(())
}

#[test]
fn a_walk_refuses_the_rule_at_depth_257(rt: HostRuntime) -> Result<(), Fail> {
    let alloc = rt.alloc();
    let program = program_of(alloc, &choices(alloc, 257)?)?;
    let branch = Step::Branch(Name::of(b"A"), no_steps(alloc), no_steps(alloc));
    let mut walk = Walk::start(alloc, &program)?;
    for _ in 0..256 {
        walk.enter(&branch)?;
    }
    let too_deep = AcceptFault::Bad(258, Why::Side(SideFault::TooDeep));
    assert_eq!(rt; walk.enter(&branch), Err(too_deep));
    assert_eq!(rt; walk.depth(), 256);
    if walk.depth() > 0 {
        walk.back();
    }
    assert_eq!(rt; walk.depth(), 255);
    walk.enter(&branch)?;
    assert_eq!(rt; walk.enter(&branch), Err(too_deep));
    Ok(())
}
