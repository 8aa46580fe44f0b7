//! The facts that a try loses, and those that it may lose.
ghost use Rattle.std.specs.Prelude.{◌≡◌, ◌&&◌, ◌||◌, ◌++◌, filter, IfOk, OnOk};
ghost use Rattle.brisk_syntax.specs.Expressions.{expression_of};
ghost use Rattle.brisk_syntax.specs.Statements.{statement_of};
ghost use Rattle.brisk_syntax.specs.Texts.{text_of};
ghost use Rattle.brisk_syntax.specs.Typing.{is_among};
ghost use Rattle.brisk_rules.specs.Rules.{Entered};
ghost use Rattle.brisk_rules.specs.Standing.{stands_at};
ghost use Rattle.brisk_search.specs.Tries.{at_risk, is_dropped, is_known, places_of, touched_by, touched_in, variables_of, with_lost};
ghost use Rattle.brisk_search.specs.Views.{IsPremiseOf};

use crate::closing::Premise;
use crate::standing::has_name;
use brisk_derivation::{Drops, Fact};
use brisk_facts::Facts;
use brisk_loops::Walk;
use brisk_state::State;
use brisk_syntax::{Block, Code, Expr, Role, Stmt};
use brisk_values::{Name, NoMemory};
use std::alloc::Global;

/// The facts to drop in the next try: those of this one, and those that it lost.
pub(crate) fn with_lost(alloc: Global, walk: &Walk, premise: &Premise) -> Result<Drops, NoMemory>
    ensures { (r : Entered) → IsPremiseOf r premise.now walk.now.entered → IfOk result (λ d. d ≡ with_lost walk.now.program r walk.now.state premise.now.drops) }
{
    let lost = walk.lost(premise.around, &premise.closing)?;
    let mut items = Vec::new(alloc);
    for role in &walk.program().roles.items {
        add_lost(role, &premise.drops, &lost, &mut items)?;
    }
    Ok(Drops { items })
}

// Adds the role's variables that are dropped already, or of which a fact was lost.
fn add_lost(role: &Role, drops: &Drops, lost: &Facts, items: &mut Vec<Fact>) -> Result<(), NoMemory>
    ensures { OnOk result (items.new.items ≡ items.old.items ++ filter (λ q. is_dropped drops.now q || is_known lost.now q) (places_of (text_of role.now))) }
{
    for decl in &role.decls.items {
        let place = Fact {
            at: role.name,
            variable: decl.variable(),
        };
        if is_lost(drops, lost, &place) {
            items.push(place)?;
        }
    }
    Ok(())
}

// The place is dropped already, or a fact of it was lost.
fn is_lost(drops: &Drops, lost: &Facts, place: &Fact) -> bool
    ensures { result ≡ (is_dropped drops.now place.now || is_known lost.now place.now) }
{
    is_dropped(drops, place) || lost.get(place.at, place.variable).is_some()
}

// The place is one of these.
fn is_dropped(drops: &Drops, place: &Fact) -> bool
    ensures { result ≡ is_dropped drops.now place.now }
{
    for drop in &drops.items {
        if drop.at == place.at && drop.variable == place.variable {
            return true;
        }
    }
    false
}

/// The facts on variables that their thread's code assigns, receives into or has in a guard.
pub(crate) fn at_risk(alloc: Global, walk: &Walk) -> Result<Drops, NoMemory>
    ensures { IfOk result (λ d. d ≡ at_risk walk.now.program walk.now.state) }
{
    let mut items = Vec::new(alloc);
    for role in &walk.program().roles.items {
        add_touched(role, walk.state(), &mut items)?;
    }
    Ok(Drops { items })
}

// Adds the role's variables of which something is known, and which its thread's code touches.
fn add_touched(role: &Role, state: &State, items: &mut Vec<Fact>) -> Result<(), NoMemory>
    ensures { OnOk result (items.new.items ≡ items.old.items ++ filter (λ q. is_known state.now.facts q && is_among (touched_in (stands_at state.now q.at)) q.variable) (places_of (text_of role.now))) }
{
    for decl in &role.decls.items {
        let place = Fact {
            at: role.name,
            variable: decl.variable(),
        };
        if is_at_risk(state, &place)? {
            items.push(place)?;
        }
    }
    Ok(())
}

// Something is known of the place, and its thread's code touches it.
fn is_at_risk(state: &State, place: &Fact) -> Result<bool, NoMemory>
    ensures { IfOk result (λ b. b ≡ (is_known state.now.facts place.now && is_among (touched_in (stands_at state.now place.now.at)) place.now.variable)) }
{
    if state.facts().get(place.at, place.variable).is_none() {
        return Ok(false);
    }
    is_touched_at(state, place.at, place.variable)
}

// The thread's code assigns the variable, receives into it or has it in a guard.
fn is_touched_at(state: &State, name: Name, variable: Name) -> Result<bool, NoMemory>
    ensures { IfOk result (λ b. b ≡ is_among (touched_in (stands_at state.now name)) variable) }
{
    match state.code_of(name) {
        None => Ok(false),
        Some(code) => is_touched_by_code(code, variable),
    }
}

fn is_touched_by_code(code: &Code, variable: Name) -> Result<bool, NoMemory>
    ensures { IfOk result (λ b. b ≡ is_among (touched_in code.now) variable) }
{
    let mut place = 0u64;
    while let Some(statement) = code.at(place) {
        if is_touched_by(statement, variable) {
            return Ok(true);
        }
        place = place.checked_add(1).ok_or(NoMemory)?;
    }
    Ok(false)
}

#[cycle(touched)]
fn is_touched_in(body: &Block, variable: Name) -> bool
    ensures { result ≡ is_among (touched_in body.now) variable }
{
    for statement in &body.items {
        if is_touched_by(statement, variable) {
            return true;
        }
    }
    false
}

#[cycle(touched)]
fn is_touched_by(statement: &Stmt, variable: Name) -> bool
    ensures { result ≡ is_among (touched_by (statement_of statement.now)) variable }
{
    match statement {
        Stmt::Assign(name, _) => *name == variable,
        Stmt::Send(_, _, _) => false,
        Stmt::Recv(_, names, _) => has_name(&names.items, variable),
        Stmt::RecvAny(any) => {
            has_name(&any.vars.items, variable) || is_touched_in(&any.body, variable)
        }
        Stmt::If(guard, yes, None) => is_in(guard, variable) || is_touched_in(yes, variable),
        Stmt::If(guard, yes, Some(no)) => {
            is_in(guard, variable) || is_touched_in(yes, variable) || is_touched_in(no, variable)
        }
        Stmt::While(guard, body) => is_in(guard, variable) || is_touched_in(body, variable),
        Stmt::For(each) => is_touched_in(&each.body, variable),
        Stmt::Repeat(turns) => is_touched_in(&turns.body, variable),
    }
}

// The expression reads the variable.
fn is_in(expr: &Expr, variable: Name) -> bool
    ensures { result ≡ is_among (variables_of (expression_of expr.now)) variable }
{
    match expr {
        Expr::Var(name) => *name == variable,
        Expr::Paren(e) | Expr::Un(_, e) => is_in(e, variable),
        Expr::Bin(_, e, f) => is_in(e, variable) || is_in(f, variable),
        _ => false,
    }
}
