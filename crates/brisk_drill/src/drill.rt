//! The drill's text, role by role.
ghost use Rattle.std.specs.Prelude.{◌≡◌, ◌<◌, ◌≤◌, ◌++◌, IfOk, OnOk};
ghost use Rattle.brisk_drill.specs.Drill as text;

use brisk_text::{put, put_number};
use brisk_values::NoMemory;
use std::alloc::Global;

// A role of the chain by its number.
fn put_link(out: &mut Vec<u8>, number: u32) -> Result<(), NoMemory>
    ensures { OnOk result (out.new.items ≡ out.old.items ++ text.link number) }
{
    put(out, b"C")?;
    put_number(out, u64::from(number))
}

// The role behind the one of this number, up to its receive from there.
#[tactic(auto, unfolding(crate::specs::Drill::receiver))]
fn put_receiver(out: &mut Vec<u8>, number: u32) -> Result<(), NoMemory>
    requires { number < 250 }
    ensures { OnOk result (out.new.items ≡ out.old.items ++ text.receiver number) }
{
    put(out, b"one ")?;
    put_link(out, number + 1)?;
    put(out, b" {\n  var v : int = 0;\n  recv Step(v) from ")?;
    put_link(out, number)?;
    put(out, b";\n")
}

// The end of a role, where it sends one more to the one of this number.
#[tactic(auto, unfolding(crate::specs::Drill::sender))]
fn put_sender(out: &mut Vec<u8>, number: u32) -> Result<(), NoMemory>
    ensures { OnOk result (out.new.items ≡ out.old.items ++ text.sender number) }
{
    put(out, b"  send Step(v + 1) to ")?;
    put_link(out, number)?;
    put(out, b";\n}\n")
}

// The channels, the first role, and so many roles that pass the number on.
fn put_chain(out: &mut Vec<u8>, relays: u32) -> Result<(), NoMemory>
    requires { relays < 250 }
    ensures { OnOk result (out.new.items ≡ out.old.items ++ text.chain relays) }
{
    put(
        out,
        b"channel Step(int);\nchannel Ask(int);\nchannel Reply(int);\none C0 {\n  input v : int;\n  send Step(v) to C1;\n}\n",
    )?;
    for number in 0..relays {
        put_receiver(out, number)?;
        put_sender(out, number + 2)?;
    }
    Ok(())
}

fn put_asker(out: &mut Vec<u8>, rounds: u32) -> Result<(), NoMemory>
    requires { rounds ≤ 250 }
    ensures { OnOk result (out.new.items ≡ out.old.items ++ text.asker rounds) }
{
    put(out, b"one H {\n  var s : int = 0;\n  var x : int = 0;\n")?;
    for round in 0..rounds {
        put(out, b"  for w in Ws {\n    send Ask(")?;
        put_number(out, u64::from(round + 1))?;
        put(
            out,
            b") to w;\n  }\n  repeat Ws {\n    recv Reply(x) from any w in Ws {\n      s := s + x;\n    }\n  }\n",
        )?;
    }
    Ok(())
}

fn put_members(out: &mut Vec<u8>, rounds: u32) -> Result<(), NoMemory>
    ensures { OnOk result (out.new.items ≡ out.old.items ++ text.members rounds) }
{
    put(out, b"many Ws {\n  var q : int = 0;\n")?;
    for _round in 0..rounds {
        put(out, b"  recv Ask(q) from H;\n  send Reply(q + 1) to H;\n")?;
    }
    Ok(())
}

/// The source text of the drill: `C0` to `Cn` pass a number on, and `H` asks the members of `Ws` `n` times.
pub fn drill_text(alloc: Global, n: u32) -> Result<Vec<u8>, NoMemory>
    requires some { 0 < n }
    requires few { n ≤ 250 }
    ensures { IfOk result (λ v. v.items ≡ text.drill n) }
{
    let mut out = Vec::new(alloc);
    put_chain(&mut out, n - 1)?;
    put_receiver(&mut out, n - 1)?;
    put(&mut out, b"}\n")?;
    put_asker(&mut out, n)?;
    put(&mut out, b"}\n")?;
    put_members(&mut out, n)?;
    put(&mut out, b"}\n")?;
    Ok(out)
}
