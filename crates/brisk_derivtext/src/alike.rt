//! Whether two steps are the same.
ghost use Rattle.std.specs.Prelude.{◌≡◌, ◌↔◌, IsTrue};
ghost use Rattle.brisk_derivation.specs.Seen.{step_of, steps_of};
ghost use Rattle.brisk_derivtext.specs.Alike.{same_step as is_same};

use brisk_derivation::{Drops, Fact, Step, Steps};
use brisk_syntax::Names;
use brisk_values::same_name;

fn same_names(a: &Names, b: &Names) -> bool
    ensures { IsTrue result ↔ (a.now ≡ b.now) }
{
    let left = a.items.as_slice();
    let right = b.items.as_slice();
    if left.len() != right.len() {
        return false;
    }
    for i in 0..left.len() {
        if !same_name(&left[i], &right[i]) {
            return false;
        }
    }
    true
}

fn same_fact(a: &Fact, b: &Fact) -> bool
    ensures { IsTrue result ↔ (a.now ≡ b.now) }
{
    same_name(&a.at, &b.at) && same_name(&a.variable, &b.variable)
}

fn same_drops(a: &Drops, b: &Drops) -> bool
    ensures { IsTrue result ↔ (a.now ≡ b.now) }
{
    let left = a.items.as_slice();
    let right = b.items.as_slice();
    if left.len() != right.len() {
        return false;
    }
    for i in 0..left.len() {
        if !same_fact(&left[i], &right[i]) {
            return false;
        }
    }
    true
}

#[cycle(same)]
fn same_premise(a: &Steps, b: &Steps) -> bool
    ensures { IsTrue result ↔ (a.now ≡ b.now) }
{
    same_all(a.items.as_slice(), b.items.as_slice())
}

#[cycle(same)]
fn same_all(xs: &[Step], ys: &[Step]) -> bool
    ensures { IsTrue result ↔ (steps_of xs.now ≡ steps_of ys.now) }
{
    if xs.len() != ys.len() {
        return false;
    }
    for i in 0..xs.len() {
        if !equal(&xs[i], &ys[i]) {
            return false;
        }
    }
    true
}

#[cycle(same)]
fn equal(s: &Step, t: &Step) -> bool
    ensures { IsTrue result ↔ (step_of s.now ≡ step_of t.now) }
{
    match (s, t) {
        (Step::Basic(b), Step::Basic(c)) => b == c,
        (Step::Branch(t, a, b), Step::Branch(u, c, d)) => {
            t == u && same_premise(a, c) && same_premise(b, d)
        }
        (Step::While(t, f, a), Step::While(u, g, b)) => {
            t == u && same_drops(f, g) && same_premise(a, b)
        }
        (Step::For(s, ts, f, a), Step::For(r, us, g, b)) => {
            s == r && same_names(ts, us) && same_drops(f, g) && same_premise(a, b)
        }
        (Step::Repeat(t, f, a), Step::Repeat(u, g, b)) => {
            t == u && same_drops(f, g) && same_premise(a, b)
        }
        (Step::Gather(t, f, a), Step::Gather(u, g, b)) => {
            t == u && same_drops(f, g) && same_premise(a, b)
        }
        (Step::Pick(t, f, a), Step::Pick(u, g, b)) => {
            t == u && same_drops(f, g) && same_premise(a, b)
        }
        _ => false,
    }
}

/// Whether the two steps are the same.
pub fn same_step(s: &Step, t: &Step) -> bool
    ensures { result ≡ is_same (step_of s.now) (step_of t.now) }
{
    equal(s, t)
}
