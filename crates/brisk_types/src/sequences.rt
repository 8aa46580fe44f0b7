//! Items of sequential programs.
ghost use Rattle.std.specs.Prelude.{◌≡◌, ◌+◌, ◌<◌, ◌^◌, ◌++◌, [], ◌∷◌, Some, map, option_map, IfOk, OnOk};
ghost use Rattle.brisk_syntax.specs.Expressions.{expression_of};
ghost use Rattle.brisk_syntax.specs.Tokens as tokens;
ghost use Rattle.brisk_seq.specs.Items as tree;
ghost use Rattle.brisk_seq.specs.Seen.{item_of};
ghost use Rattle.brisk_seq.specs.Tokens.{item_tokens, items_tokens};
ghost use Rattle.brisk_types.specs.Failures.{broken, note_all};
ghost use Rattle.brisk_types.specs.Names.{meaning_of, meanings_of, named_meanings};
ghost use Rattle.brisk_types.specs.Sequences as spec;
ghost use Rattle.brisk_types.specs.Statements as statements;

use crate::count::{expression_tokens, expressions_tokens, names_tokens};
use crate::expressions::expression;
use crate::fault::{First, Rule};
use crate::messages::{values, variables};
use crate::names::{Globals, Names, Processes};
use brisk_seq::{Body, Fill, Pass, Seq, Take};
use brisk_syntax::{Expr, Exprs, Names as List};
use brisk_values::{Kind, Name, NoMemory};
use std::alloc::Global;

// The kind of the first of the variables of a process.
fn first_kind(names: Option<&Names<'_>>, vars: &[Name]) -> Option<Kind>
    ensures { result ≡ spec.first_kind (option_map (λ names. meaning_of names.now) names.entry) vars.now }
{
    match (names, vars) {
        (Some(names), [first, ..]) => names.kind_of_variable(*first),
        _ => None,
    }
}

fn others(vars: &[Name]) -> &[Name]
    ensures { result.now ≡ spec.others vars.now }
{
    match vars {
        [] => vars,
        [_, others @ ..] => others,
    }
}

// The expressions of a pass, of which the first is at the token, with the names of the receiving process.
#[tactic(auto, using(crate::proofs::Lists::spaced_room))]
fn passed(
    names: &Names<'_>,
    to: Option<&Names<'_>>,
    exprs: &Exprs,
    vars: &[Name],
    at: u32,
    first: &mut First,
)
    requires { at + tokens.list_tokens exprs.now + 1 < 2 ^ 32 }
    ensures { first.new.failure ≡ note_all first.old.failure (spec.passed (meaning_of names.now) (option_map (λ names. meaning_of names.now) to.entry) at exprs.now vars.now) }
{
    let mut at = at;
    let mut vars = vars;
    for e in &exprs.items {
        at = expression(names, first_kind(to, vars), e, at, first) + 1;
        vars = others(vars);
    }
}

impl Processes<'_> {
    // A process at the token, and the guard in its brackets. Answers the token after the guard.
    fn guard(&self, focus: &[Name], process: &Name, e: &Expr, at: u32, first: &mut First) -> u32
        requires { at + 3 + tokens.expression_tokens (expression_of e.now) < 2 ^ 32 }
        ensures next { result ≡ at + 3 + tokens.expression_tokens (expression_of e.now) }
        ensures noted { first.new.failure ≡ note_all first.old.failure (spec.guard (meanings_of self.now) focus.now at process.now (expression_of e.now)) }
    {
        first.note_some(self.process_rule(focus, process), at);
        match self.names_at(*process) {
            Some(names) => expression(names, Some(Kind::Bool), e, at + 3, first),
            None => at + 3 + expression_tokens(e),
        }
    }

    // A process at the token, and the variables in its brackets. Answers the token after the variables.
    fn stored(&self, focus: &[Name], process: &Name, vars: &List, at: u32, first: &mut First) -> u32
        requires { at + 4 + tokens.name_tokens vars.now < 2 ^ 32 }
        ensures next { result ≡ at + 3 + tokens.name_tokens vars.now }
        ensures noted { first.new.failure ≡ note_all first.old.failure (spec.stored (meanings_of self.now) focus.now at process.now vars.now) }
    {
        first.note_some(self.process_rule(focus, process), at);
        if let Some(names) = self.names_at(*process) {
            variables(names, &vars.items, &[], at + 3, first);
        }
        at + 3 + names_tokens(vars)
    }

    // A pass that begins at the token. Answers the token after it.
    fn pass(&self, focus: &[Name], pass: &Pass, at: u32, first: &mut First) -> u32
        requires { at + 10 + tokens.name_tokens pass.now.vars + tokens.list_tokens pass.now.exprs < 2 ^ 32 }
        ensures next { result ≡ at + 10 + tokens.name_tokens pass.now.vars + tokens.list_tokens pass.now.exprs }
        ensures noted { first.new.failure ≡ note_all first.old.failure (spec.item (meanings_of self.now) focus.now at (tree.Pass pass.now.to pass.now.vars pass.now.from pass.now.exprs)) }
    {
        let counted = pass.vars.items.len() == pass.exprs.items.len();
        first.note_if(!counted, Rule::WrongCount, at);
        let end = self.stored(focus, &pass.to, &pass.vars, at, first);
        first.note_some(self.process_rule(focus, &pass.from), end + 2);
        if let Some(names) = self.names_at(pass.from) {
            let to = self.names_at(pass.to);
            passed(names, to, &pass.exprs, &pass.vars.items, end + 5, first);
        }
        end + 5 + expressions_tokens(&pass.exprs) + 2
    }

    // A fill that begins at the token. Answers the token after it.
    fn fill(&self, focus: &[Name], fill: &Fill, at: u32, first: &mut First) -> u32
        requires { at + 13 + tokens.list_tokens fill.now.exprs < 2 ^ 32 }
        ensures next { result ≡ at + 13 + tokens.list_tokens fill.now.exprs }
        ensures noted { first.new.failure ≡ note_all first.old.failure (spec.item (meanings_of self.now) focus.now at (tree.Fill fill.now.number fill.now.from fill.now.to fill.now.exprs)) }
    {
        let from = self.process_rule(focus, &fill.from);
        first.note_some(from, at + 3);
        first.note_some(self.process_rule(focus, &fill.to), at + 5);
        first.note_some(from, at + 8);
        if let Some(names) = self.names_at(fill.from) {
            values(names, &fill.exprs, &[], at + 11, first);
        }
        at + 11 + expressions_tokens(&fill.exprs) + 2
    }

    // A take that begins at the token. Answers the token after it.
    fn take(&self, focus: &[Name], take: &Take, at: u32, first: &mut First) -> u32
        requires { at + 13 + tokens.name_tokens take.now.vars < 2 ^ 32 }
        ensures next { result ≡ at + 13 + tokens.name_tokens take.now.vars }
        ensures noted { first.new.failure ≡ note_all first.old.failure (spec.item (meanings_of self.now) focus.now at (tree.Take take.now.to take.now.vars take.now.number take.now.from)) }
    {
        let end = self.stored(focus, &take.to, &take.vars, at, first);
        first.note_some(self.process_rule(focus, &take.from), end + 5);
        first.note_some(self.process_rule(focus, &take.to), end + 7);
        end + 10
    }

    #[cycle(body)]
    fn item(
        &self,
        focus: &mut Vec<Name>,
        q: &Seq,
        at: u32,
        first: &mut First,
    ) -> Result<u32, NoMemory>
        requires { at + item_tokens (item_of q.now) < 2 ^ 32 }
        ensures next { IfOk result (λ next. next ≡ at + item_tokens (item_of q.now)) }
        ensures noted { OnOk result (first.new.failure ≡ note_all first.old.failure (spec.item (meanings_of self.now) focus.old.items at (item_of q.now))) }
        ensures focus { OnOk result (focus.new.items ≡ focus.old.items) }
    {
        match q {
            Seq::Pass(pass) => Ok(self.pass(focus, pass, at, first)),
            Seq::Fill(fill) => Ok(self.fill(focus, fill, at, first)),
            Seq::Take(take) => Ok(self.take(focus, take, at, first)),
            Seq::If(process, e, then, otherwise) => {
                let next = self.guard(focus, process, e, at + 1, first);
                let next = self.items(focus, then, next + 2, first)?;
                Ok(self.items(focus, otherwise, next + 3, first)? + 1)
            }
            Seq::While(process, e, body) => {
                let next = self.guard(focus, process, e, at + 1, first);
                Ok(self.items(focus, body, next + 2, first)? + 1)
            }
            Seq::For(set, body) => self.each(focus, *set, body, at + 1, first),
            Seq::ForAny(set, body) => self.each(focus, *set, body, at + 2, first),
            Seq::Pick(set, body) => self.each(focus, *set, body, at + 1, first),
            Seq::Repeat(set, body) => {
                first.note_some(self.turns_rule(set), at + 1);
                Ok(self.items(focus, body, at + 3, first)? + 1)
            }
        }
    }

    // A set at the token, and the body in which it is in focus.
    #[cycle(body)]
    fn each(
        &self,
        focus: &mut Vec<Name>,
        set: Name,
        body: &Body,
        at: u32,
        first: &mut First,
    ) -> Result<u32, NoMemory>
        requires { at + 3 + items_tokens body.now < 2 ^ 32 }
        ensures next { IfOk result (λ next. next ≡ at + 3 + items_tokens body.now) }
        ensures noted { OnOk result (first.new.failure ≡ note_all (note_all first.old.failure (broken (spec.focus_rule (meanings_of self.now) focus.old.items set) at)) (spec.items (meanings_of self.now) (focus.old.items ++ set ∷ []) (at + 2) body.now)) }
        ensures focus { OnOk result (focus.new.items ≡ focus.old.items) }
    {
        first.note_some(self.focus_rule(focus, &set), at);
        focus.push(set)?;
        let next = self.items(focus, body, at + 2, first)?;
        focus.pop();
        Ok(next + 1)
    }

    /// Notes what is wrong with items that begin at the token, where these sets are in focus. Answers the token after
    /// them.
    #[cycle(body)]
    pub fn items(
        &self,
        focus: &mut Vec<Name>,
        body: &Body,
        at: u32,
        first: &mut First,
    ) -> Result<u32, NoMemory>
        requires { at + items_tokens body.now < 2 ^ 32 }
        ensures next { IfOk result (λ next. next ≡ at + items_tokens body.now) }
        ensures noted { OnOk result (first.new.failure ≡ note_all first.old.failure (spec.items (meanings_of self.now) focus.old.items at body.now)) }
        ensures focus { OnOk result (focus.new.items ≡ focus.old.items) }
    {
        let mut at = at;
        for q in &body.items {
            at = self.item(focus, q, at, first)?;
        }
        Ok(at)
    }
}

/// Notes what is wrong with items that begin at the token, where this is what names mean in the text of each role.
pub fn body<'a>(
    alloc: Global,
    globals: &'a Globals<'a>,
    names: &'a [Names<'a>],
    body: &Body,
    at: u32,
    first: &mut First,
) -> Result<(), NoMemory>
    requires { at + items_tokens body.now < 2 ^ 32 }
    ensures { OnOk result (first.new.failure ≡ note_all first.old.failure (spec.items (named_meanings globals.now (map meaning_of names.now)) [] at body.now)) }
{
    let processes = Processes::new(alloc, globals, names)?;
    let mut focus = Vec::new(alloc);
    processes.items(&mut focus, body, at, first)?;
    Ok(())
}
