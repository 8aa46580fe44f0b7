//! Derivations, written as texts.
ghost use Rattle.std.specs.Prelude.{◌≡◌, ◌++◌, ◌∷◌, [], map, codes, IfOk, OnOk};
ghost use Rattle.std.specs.Fmt.{decimal};
ghost use Rattle.brisk_derivation.specs.Seen.{step_of};
ghost use Rattle.brisk_derivtext.specs.Lines.{drop_words, fact_text, line_text, spaced};
ghost use Rattle.brisk_derivtext.specs.Texts.{derivation_text, first_line, lines_in, lines_of, text_of_lines};
ghost use Rattle.brisk_derivtext.specs.declared.line.Line.TheVariants.{Plain as plain, Close as close};

use brisk_derivation::{BasicStep, Drops, Fact, Step, Steps};
use brisk_syntax::Names;
use brisk_text::{put, put_number};
use brisk_values::{Name, NoMemory};
use std::alloc::Global;

// A space and a word.
fn put_word(out: &mut Vec<u8>, word: &[u8]) -> Result<(), NoMemory>
    ensures { OnOk result (out.new.items ≡ out.old.items ++ spaced (word.now ∷ [])) }
{
    put(out, b" ")?;
    put(out, word)
}

fn put_names(out: &mut Vec<u8>, names: &Names) -> Result<(), NoMemory>
    ensures { OnOk result (out.new.items ≡ out.old.items ++ spaced names.now) }
{
    for name in &names.items {
        put_word(out, name.bytes())?;
    }
    Ok(())
}

fn put_fact(out: &mut Vec<u8>, fact: &Fact) -> Result<(), NoMemory>
    ensures { OnOk result (out.new.items ≡ out.old.items ++ spaced (fact_text fact.now ∷ [])) }
{
    put_word(out, fact.at.bytes())?;
    put(out, b".")?;
    put(out, fact.variable.bytes())
}

// The word `drop`, and the facts.
fn put_drops(out: &mut Vec<u8>, drops: &Drops) -> Result<(), NoMemory>
    ensures { OnOk result (out.new.items ≡ out.old.items ++ spaced (drop_words drops.now)) }
{
    put(out, b" drop")?;
    for fact in &drops.items {
        put_fact(out, fact)?;
    }
    Ok(())
}

// The words behind the first one of a fill, a pass or a take.
fn put_message(
    out: &mut Vec<u8>,
    sender: &Name,
    receiver: &Name,
    channel: &Name,
) -> Result<(), NoMemory>
    ensures { OnOk result (out.new.items ≡ out.old.items ++ spaced (sender.now ∷ receiver.now ∷ channel.now ∷ [])) }
{
    put_word(out, sender.bytes())?;
    put_word(out, receiver.bytes())?;
    put_word(out, channel.bytes())
}

fn put_basic(out: &mut Vec<u8>, step: &BasicStep) -> Result<(), NoMemory>
    ensures { OnOk result (out.new.items ≡ out.old.items ++ line_text (plain step.now)) }
{
    match step {
        BasicStep::Assign(thread) => {
            put(out, b"assign")?;
            put_word(out, thread.bytes())
        }
        BasicStep::Fill(sender, receiver, channel, number) => {
            put(out, b"fill")?;
            put_message(out, sender, receiver, channel)?;
            put(out, b" ")?;
            put_number(out, u64::from(*number))
        }
        BasicStep::Pass(sender, receiver, channel) => {
            put(out, b"pass")?;
            put_message(out, sender, receiver, channel)
        }
        BasicStep::Take(sender, receiver, channel) => {
            put(out, b"take")?;
            put_message(out, sender, receiver, channel)
        }
        BasicStep::Known(thread) => {
            put(out, b"known")?;
            put_word(out, thread.bytes())
        }
    }
}

// A line of this first word, a name and the facts that are dropped.
fn put_rule(out: &mut Vec<u8>, word: &[u8], name: &Name, drops: &Drops) -> Result<(), NoMemory>
    ensures { OnOk result (out.new.items ≡ out.old.items ++ (word.now ++ spaced (name.now ∷ drop_words drops.now))) }
{
    put(out, word)?;
    put_word(out, name.bytes())?;
    put_drops(out, drops)
}

fn put_for(out: &mut Vec<u8>, set: &Name, owners: &Names, drops: &Drops) -> Result<(), NoMemory>
    ensures { OnOk result (out.new.items ≡ out.old.items ++ (codes "for" ++ spaced (set.now ∷ codes "by" ∷ (owners.now ++ drop_words drops.now)))) }
{
    put(out, b"for")?;
    put_word(out, set.bytes())?;
    put(out, b" by")?;
    put_names(out, owners)?;
    put_drops(out, drops)
}

fn put_first_words(out: &mut Vec<u8>, step: &Step) -> Result<(), NoMemory>
    ensures { OnOk result (out.new.items ≡ out.old.items ++ line_text (first_line (step_of step.now))) }
{
    match step {
        Step::Basic(step) => put_basic(out, step),
        Step::Branch(thread, _, _) => {
            put(out, b"branch")?;
            put_word(out, thread.bytes())
        }
        Step::While(thread, drops, _) => put_rule(out, b"while", thread, drops),
        Step::For(set, owners, drops, _) => put_for(out, set, owners, drops),
        Step::Repeat(set, drops, _) => put_rule(out, b"repeat", set, drops),
        Step::Gather(thread, drops, _) => put_rule(out, b"gather", thread, drops),
        Step::Pick(thread, drops, _) => put_rule(out, b"pick", thread, drops),
    }
}

/// Writes the first line of the step, and the byte 10 at its end.
pub fn put_first_line(out: &mut Vec<u8>, step: &Step) -> Result<(), NoMemory>
    ensures { OnOk result (out.new.items ≡ out.old.items ++ text_of_lines (first_line (step_of step.now) ∷ [])) }
{
    put_first_words(out, step)?;
    put(out, b"\n")
}

// The lines of a premise, and the last line of its rule.
#[cycle(writing)]
fn put_premise(out: &mut Vec<u8>, premise: &Steps) -> Result<(), NoMemory>
    ensures { OnOk result (out.new.items ≡ out.old.items ++ text_of_lines (lines_of premise.now ++ close ∷ [])) }
{
    put_steps(out, premise)?;
    put(out, b"close\n")
}

#[cycle(writing)]
fn put_step(out: &mut Vec<u8>, step: &Step) -> Result<(), NoMemory>
    ensures { OnOk result (out.new.items ≡ out.old.items ++ text_of_lines (lines_in (step_of step.now))) }
{
    put_first_line(out, step)?;
    match step {
        Step::Basic(_) => Ok(()),
        Step::Branch(_, first, second) => {
            put_steps(out, first)?;
            put(out, b"else\n")?;
            put_steps(out, second)?;
            put(out, b"join\n")
        }
        Step::While(_, _, premise) => put_premise(out, premise),
        Step::For(_, _, _, premise) => put_premise(out, premise),
        Step::Repeat(_, _, premise) => put_premise(out, premise),
        Step::Gather(_, _, premise) => put_premise(out, premise),
        Step::Pick(_, _, premise) => put_premise(out, premise),
    }
}

// The lines of the steps.
#[cycle(writing)]
fn put_steps(out: &mut Vec<u8>, steps: &Steps) -> Result<(), NoMemory>
    ensures { OnOk result (out.new.items ≡ out.old.items ++ text_of_lines (lines_of steps.now)) }
{
    for step in &steps.items {
        put_step(out, step)?;
    }
    Ok(())
}

/// The text of a derivation in format 1.
#[tactic(auto, using(crate::proofs::Appended::texts_append))]
pub fn write(alloc: Global, steps: &Steps) -> Result<Vec<u8>, NoMemory>
    ensures { IfOk result (λ text. text.items ≡ derivation_text steps.now) }
{
    let mut out = Vec::new(alloc);
    put(&mut out, b"brisk derivation 1\n")?;
    put_steps(&mut out, steps)?;
    put(&mut out, b"end\n")?;
    Ok(out)
}
