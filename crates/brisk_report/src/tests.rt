//! A report, written.
ghost use Rattle.std.specs.Prelude.{◌≡◌, IfOk};
ghost use Rattle.brisk_syntax.specs.Texts.{text_of};
ghost use Rattle.brisk_report.specs.Sample.{receiver as receiver_text, sample, sender as sender_text};

use crate::print_report;
use brisk_derivation::{
    BasicStep, Drops, Fact, Report, SideFault, Step, Steps, Tries, Try, TryEnd,
};
use brisk_syntax::{
    Block, Channel, Channels, Decls, Enums, Exprs, Kinds, Program, Role, Roles, Stmt, Who,
};
use brisk_values::Name;
use std::alloc::Global;
use std::rc::Rc;
use std::test::Fail;

// `one B { }`
fn receiver(alloc: Global) -> Result<Role, Fail>
    ensures { IfOk result (λ r. text_of r ≡ receiver_text) }
{
    let code = Block {
        items: Vec::new(alloc),
    };
    Ok(Role {
        name: Name::of(b"B"),
        many: false,
        nonempty: false,
        decls: Decls {
            items: Vec::new(alloc),
        },
        code: Rc::new(alloc, code)?,
    })
}

// `one A { send T() to B; send T() to B; }`
fn sender(alloc: Global) -> Result<Role, Fail>
    ensures { IfOk result (λ r. text_of r ≡ sender_text) }
{
    let one = Exprs {
        items: Vec::new(alloc),
    };
    let two = Exprs {
        items: Vec::new(alloc),
    };
    let first = Stmt::Send(Name::of(b"T"), one, Who::Name(Name::of(b"B")));
    let second = Stmt::Send(Name::of(b"T"), two, Who::Name(Name::of(b"B")));
    let code = Block {
        items: vec![in alloc; first, second]?,
    };
    Ok(Role {
        name: Name::of(b"A"),
        many: false,
        nonempty: false,
        decls: Decls {
            items: Vec::new(alloc),
        },
        code: Rc::new(alloc, code)?,
    })
}

fn program(alloc: Global) -> Result<Program, Fail>
    ensures { IfOk result (λ p. p ≡ sample) }
{
    let first = receiver(alloc)?;
    let second = sender(alloc)?;
    let channel = Channel {
        name: Name::of(b"T"),
        kinds: Kinds {
            items: Vec::new(alloc),
        },
        loose: false,
    };
    Ok(Program {
        enums: Enums {
            items: Vec::new(alloc),
        },
        channels: Channels {
            items: vec![in alloc; channel]?,
        },
        roles: Roles {
            items: vec![in alloc; first, second]?,
        },
    })
}

// `fill A B T` with this number.
fn filled(alloc: Global, number: u32) -> Result<Steps, Fail> {
    let fill = BasicStep::Fill(Name::of(b"A"), Name::of(b"B"), Name::of(b"T"), number);
    Ok(Steps {
        items: vec![in alloc; Step::Basic(fill)]?,
    })
}

// A try of this rule, with this end.
fn tried(alloc: Global, rule: Step, end: TryEnd) -> Result<Tries, Fail> {
    Ok(Tries {
        items: vec![in alloc; Try { rule, end }]?,
    })
}

// `while A drop A.x`, in which a branch was tried.
fn report(alloc: Global) -> Result<Report, Fail> {
    let second = Steps {
        items: Vec::new(alloc),
    };
    let branch = Step::Branch(Name::of(b"A"), filled(alloc, 2)?, second);
    let inner = tried(alloc, branch, TryEnd::Fails(SideFault::BranchesDiffer))?;
    let fact = Fact {
        at: Name::of(b"A"),
        variable: Name::of(b"x"),
    };
    let drops = Drops {
        items: vec![in alloc; fact]?,
    };
    let rule = Step::While(Name::of(b"A"), drops, filled(alloc, 3)?);
    Ok(Report {
        steps: filled(alloc, 1)?,
        tries: tried(alloc, rule, TryEnd::StuckFirst(inner))?,
    })
}

#[test]
fn a_report_is_written(rt: HostRuntime) -> Result<(), Fail> {
    let alloc = rt.alloc();
    let program = program(alloc)?;
    let report = report(alloc)?;
    let text = print_report(alloc, &program, &report)?;
    let expected: &[u8] = b"leftover
left A: send T() to B;
mail A to B T box 1
report
fill A B T 1
stuck
try while A drop A.x
fill A B T 3
stuck
try branch A
fill A B T 2
else
fails BranchesDiffer
done
done
";
    assert_eq!(rt; text.as_slice(), expected);
    Ok(())
}
