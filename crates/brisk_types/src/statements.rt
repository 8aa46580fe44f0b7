//! Statements and code.
ghost use Rattle.std.specs.Prelude.{◌≡◌, ◌+◌, ◌<◌, ◌^◌, ◌++◌, [], ◌∷◌, Some, IfOk, OnOk};
ghost use Rattle.brisk_syntax.specs.Expressions.{expression_of};
ghost use Rattle.brisk_syntax.specs.Statements.{code_of, statement_of};
ghost use Rattle.brisk_syntax.specs.Syntax as tree;
ghost use Rattle.brisk_syntax.specs.Tokens.{code_tokens, expression_tokens, list_tokens, name_tokens, statement_tokens};
ghost use Rattle.brisk_values.specs.declared.value.Kind.TheVariants as kind;
ghost use Rattle.brisk_types.specs.Expressions.{wanted};
ghost use Rattle.brisk_types.specs.Failures.{note_all};
ghost use Rattle.brisk_types.specs.Names.{meaning_of};
ghost use Rattle.brisk_types.specs.Statements as spec;

use crate::count::{expressions_tokens, names_tokens};
use crate::expressions::expression;
use crate::fault::{First, Rule};
use crate::messages::{channel_rule, values, variables, wanted_kinds};
use crate::names::{Names, is_among};
use brisk_syntax::{Block, Expr, Exprs, Names as List, Stmt, Who};
use brisk_values::{Kind, Name, NoMemory};

/// Notes that the new name at the token is taken, by a binder in scope, by a variable or by a global name.
pub fn binder(names: &Names<'_>, binders: &[Name], name: Name, at: u32, first: &mut First)
    ensures { first.new.failure ≡ note_all first.old.failure (spec.binder (meaning_of names.now) binders.now at name) }
{
    let taken = is_among(binders, &name) || names.kind_of_variable(name).is_some();
    first.note_if(taken, Rule::Twice, at);
    if let Some(place) = names.place(name) {
        first.note(Rule::Twice, at.max(place));
    }
}

// A binder at the token, and the set behind it.
fn bound(names: &Names<'_>, binders: &[Name], v: Name, s: &Name, at: u32, first: &mut First)
    requires { at + 2 < 2 ^ 32 }
    ensures { first.new.failure ≡ note_all first.old.failure (spec.bound (meaning_of names.now) binders.now at v s.now) }
{
    binder(names, binders, v, at, first);
    first.note_some(names.set_rule(s), at + 2);
}

// A send that begins at the token. Answers the token after it.
fn sent(
    names: &Names<'_>,
    binders: &[Name],
    channel: Name,
    exprs: &Exprs,
    to: &Who,
    at: u32,
    first: &mut First,
) -> u32
    requires { at + 7 + list_tokens exprs.now < 2 ^ 32 }
    ensures next { result ≡ at + 7 + list_tokens exprs.now }
    ensures noted { first.new.failure ≡ note_all first.old.failure (spec.statement (meaning_of names.now) binders.now at (tree.Send channel exprs.now to.now)) }
{
    let kinds = names.kinds_on(channel);
    first.note_some(channel_rule(kinds, exprs.items.len()), at + 1);
    values(names, exprs, wanted_kinds(kinds), at + 3, first);
    let end = at + 3 + expressions_tokens(exprs);
    first.note_some(names.partner_rule(binders, to), end + 2);
    end + 4
}

// A channel, whose name follows the token, and the variables of what is received on it. Answers the token after these.
fn received(names: &Names<'_>, channel: Name, vars: &List, at: u32, first: &mut First) -> u32
    requires { at + name_tokens vars.now + 4 < 2 ^ 32 }
    ensures next { result ≡ at + 3 + name_tokens vars.now }
    ensures noted { first.new.failure ≡ note_all first.old.failure (spec.received (meaning_of names.now) at channel vars.now) }
{
    let kinds = names.kinds_on(channel);
    first.note_some(channel_rule(kinds, vars.items.len()), at + 1);
    variables(names, &vars.items, wanted_kinds(kinds), at + 3, first);
    at + 3 + names_tokens(vars)
}

// A receive that begins at the token. Answers the token after it.
fn taken(
    names: &Names<'_>,
    binders: &[Name],
    channel: Name,
    vars: &List,
    from: &Who,
    at: u32,
    first: &mut First,
) -> u32
    requires { at + 7 + name_tokens vars.now < 2 ^ 32 }
    ensures next { result ≡ at + 7 + name_tokens vars.now }
    ensures noted { first.new.failure ≡ note_all first.old.failure (spec.statement (meaning_of names.now) binders.now at (tree.Recv channel vars.now from.now)) }
{
    let end = received(names, channel, vars, at, first);
    first.note_some(names.partner_rule(binders, from), end + 2);
    end + 4
}

// An assignment that begins at the token. Answers the token after it.
fn assigned(names: &Names<'_>, x: Name, e: &Expr, at: u32, first: &mut First) -> u32
    requires { at + 3 + expression_tokens (expression_of e.now) < 2 ^ 32 }
    ensures next { result ≡ at + 3 + expression_tokens (expression_of e.now) }
    ensures noted { first.new.failure ≡ note_all first.old.failure (spec.statement (meaning_of names.now) [] at (tree.Assign x (expression_of e.now))) }
{
    let kind = names.kind_of_variable(x);
    first.note_if(kind.is_none(), Rule::Unknown, at);
    expression(names, kind, e, at + 2, first) + 1
}

// A guard behind the token. Answers the token after it.
fn guard(names: &Names<'_>, e: &Expr, at: u32, first: &mut First) -> u32
    requires { at + 1 + expression_tokens (expression_of e.now) < 2 ^ 32 }
    ensures next { result ≡ at + 1 + expression_tokens (expression_of e.now) }
    ensures noted { first.new.failure ≡ note_all first.old.failure (wanted (meaning_of names.now) (Some kind.Bool) (at + 1) (expression_of e.now)) }
{
    expression(names, Some(Kind::Bool), e, at + 1, first)
}

impl Names<'_> {
    #[cycle(code)]
    fn statement(
        &self,
        binders: &mut Vec<Name>,
        s: &Stmt,
        at: u32,
        first: &mut First,
    ) -> Result<u32, NoMemory>
        requires { at + statement_tokens (statement_of s.now) < 2 ^ 32 }
        ensures next { IfOk result (λ next. next ≡ at + statement_tokens (statement_of s.now)) }
        ensures noted { OnOk result (first.new.failure ≡ note_all first.old.failure (spec.statement (meaning_of self.now) binders.old.items at (statement_of s.now))) }
        ensures binders { OnOk result (binders.new.items ≡ binders.old.items) }
    {
        match s {
            Stmt::Assign(x, e) => Ok(assigned(self, *x, e, at, first)),
            Stmt::Send(channel, exprs, to) => {
                Ok(sent(self, binders, *channel, exprs, to, at, first))
            }
            Stmt::Recv(channel, vars, from) => {
                Ok(taken(self, binders, *channel, vars, from, at, first))
            }
            Stmt::RecvAny(any) => {
                let end = received(self, any.channel, &any.vars, at, first);
                self.each(binders, any.binder, &any.set, &any.body, end + 3, first)
            }
            Stmt::If(e, then, None) => {
                self.block(binders, then, guard(self, e, at, first), first)
            }
            Stmt::If(e, then, Some(otherwise)) => {
                let next = self.block(binders, then, guard(self, e, at, first), first)?;
                self.block(binders, otherwise, next + 1, first)
            }
            Stmt::While(e, body) => { self.block(binders, body, guard(self, e, at, first), first) }
            Stmt::For(all) => self.each(binders, all.binder, &all.set, &all.body, at + 1, first),
            Stmt::Repeat(turns) => {
                first.note_some(self.set_rule(&turns.set), at + 1);
                Ok(self.code(binders, &turns.body, at + 3, first)? + 1)
            }
        }
    }

    // A body in brackets, of which the first is at the token. Answers the token after them.
    #[cycle(code)]
    fn block(
        &self,
        binders: &mut Vec<Name>,
        body: &Block,
        at: u32,
        first: &mut First,
    ) -> Result<u32, NoMemory>
        requires { at + 2 + code_tokens body.now < 2 ^ 32 }
        ensures next { IfOk result (λ next. next ≡ at + 2 + code_tokens body.now) }
        ensures noted { OnOk result (first.new.failure ≡ note_all first.old.failure (spec.code (meaning_of self.now) binders.old.items (at + 1) body.now)) }
        ensures binders { OnOk result (binders.new.items ≡ binders.old.items) }
    {
        Ok(self.code(binders, body, at + 1, first)? + 1)
    }

    // A binder at the token, its set, and the body in which it is in scope.
    #[cycle(code)]
    fn each(
        &self,
        binders: &mut Vec<Name>,
        binder: Name,
        set: &Name,
        body: &Block,
        at: u32,
        first: &mut First,
    ) -> Result<u32, NoMemory>
        requires { at + 5 + code_tokens body.now < 2 ^ 32 }
        ensures next { IfOk result (λ next. next ≡ at + 5 + code_tokens body.now) }
        ensures noted { OnOk result (first.new.failure ≡ note_all (note_all first.old.failure (spec.bound (meaning_of self.now) binders.old.items at binder set.now)) (spec.code (meaning_of self.now) (binders.old.items ++ binder ∷ []) (at + 4) body.now)) }
        ensures binders { OnOk result (binders.new.items ≡ binders.old.items) }
    {
        bound(self, binders, binder, set, at, first);
        binders.push(binder)?;
        let next = self.code(binders, body, at + 4, first)?;
        binders.pop();
        Ok(next + 1)
    }

    /// Notes what is wrong with code that begins at the token, where these binders are in scope. Answers the token
    /// after it.
    #[cycle(code)]
    pub fn code(
        &self,
        binders: &mut Vec<Name>,
        body: &Block,
        at: u32,
        first: &mut First,
    ) -> Result<u32, NoMemory>
        requires { at + code_tokens body.now < 2 ^ 32 }
        ensures next { IfOk result (λ next. next ≡ at + code_tokens body.now) }
        ensures noted { OnOk result (first.new.failure ≡ note_all first.old.failure (spec.code (meaning_of self.now) binders.old.items at body.now)) }
        ensures binders { OnOk result (binders.new.items ≡ binders.old.items) }
    {
        let mut at = at;
        for s in &body.items {
            at = self.statement(binders, s, at, first)?;
        }
        Ok(at)
    }
}
