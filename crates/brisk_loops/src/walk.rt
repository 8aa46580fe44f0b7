//! A walk: the rules of a derivation, applied one by one.
ghost use Rattle.std.specs.Prelude.{◌≡◌, ◌≢◌, ◌<◌, [], IfOk, IfErr, IfSome, Ok as okay, Some as some, OnErr, length, option_map, vec_capacity, vec_len};
ghost use Rattle.std.specs.Option.{option_copied};
ghost use Rattle.brisk_seq.specs.Items.{◌followed_by◌};
ghost use Rattle.brisk_seq.specs.Seen.{item_of, items_of};
ghost use Rattle.brisk_syntax.specs.WellTyped.{IsProgramWellTyped};
ghost use Rattle.brisk_derivation.specs.Seen.{step_of};
ghost use Rattle.brisk_loops.specs.Walk.{back as given_up, basic as applied_by, enter as entered_by, finish as finished_by, follows, leave as left_by, other as other_of, premise_at, rewind as rewound, rule_at, start};
ghost use Rattle.brisk_loops.specs.LeaveSeen.{Closes, lost_by};
ghost use Rattle.brisk_rules.specs.Rules.{Entered};
ghost use Rattle.brisk_rules.specs.Standing.{fault_aside as aside_of};
ghost use Rattle.brisk_rules.specs.Derives.{apply_quietly, first_unfinished as unfinished_in, items_in, rule_of as rule_by};
ghost use Rattle.brisk_loops.specs.WalkSeen.{Fails, Gives, fault_by, refused_by};
ghost use Rattle.brisk_loops.specs.declared.rule.Side.TheVariants.{Second as second};

use crate::copies::{copy_body, declared};
use crate::enter::{alone, refused, second_start, start_of, told, told_first};
use crate::fault::AcceptFault;
use crate::leave::{Closing, closing_of, ending, fault_aside, left, lost, why_not};
use crate::pieces::loose_fault;
use crate::rest::has_code;
use crate::rule::{Rule, Side};
use brisk_basic::{Basic, apply, refusal};
use brisk_derivation::{BasicStep, SideFault, Step};
use brisk_facts::Facts;
use brisk_rules::Why;
use brisk_seq::{Body, Seq, SeqProgram};
use brisk_state::{State, Thread};
use brisk_syntax::{Program, copy_program};
use brisk_values::{Name, NoMemory};
use std::alloc::Global;
use std::marker::Model;
use std::mem;

/// The rules of a derivation, applied one by one.
#[derive(Drop)]
pub struct Walk {
    alloc: Global,
    program: Program,
    state: State,
    items: Body,
    // The innermost rule is the last.
    rules: Vec<Rule>,
    applied: u64,
    counted: u64,
}

impl Model for Walk {
    ghost use Rattle.brisk_syntax.specs.WellTyped.{IsProgramWellTyped};
    ghost use Rattle.brisk_loops.specs.Walk.{Walked};
    ghost use Rattle.brisk_loops.specs.WalkStored.{coded_walked};
    ghost use Rattle.brisk_rules.specs.Derives.{items_in, rule_of as rule_by};
    ghost use Rattle.brisk_loops.specs.WalkSeen.{AreEntered, opened_by};

    ghost Value = { Walked };

    ghost coded = { coded_walked };

    ghost view = { λ w. record { program = w.program; state = w.state; items = w.items; entered = opened_by w.program w.rules.items; applied = w.applied; counted = w.counted } };

    ghost invariant = { λ w. AreEntered w.program w.rules.items × IsProgramWellTyped w.program };
}

impl Walk {
    /// A walk that begins.
    pub fn start(alloc: Global, program: &Program) -> Result<Walk, NoMemory>
        requires { IsProgramWellTyped program.now }
        ensures { IfOk result (λ w. w ≡ start program.now) }
    {
        let program = copy_program(alloc, program)?;
        let state = State::initial(alloc, &program)?;
        Ok(Walk {
            alloc,
            program,
            state,
            items: Body {
                items: Vec::new(alloc),
            },
            rules: Vec::new(alloc),
            applied: 0,
            counted: 0,
        })
    }

    /// The present state.
    pub fn state(&self) -> &State
        ensures { result.now ≡ self.now.state }
    {
        &self.state
    }

    /// The program.
    pub fn program(&self) -> &Program
        ensures { result.now ≡ self.now.program }
    {
        &self.program
    }

    /// How many rules are entered.
    pub fn depth(&self) -> usize
        ensures { result ≡ length self.now.entered }
    {
        self.rules.len()
    }

    /// The state before a rule was entered, where this many rules stood around it.
    pub fn before(&self, depth: usize) -> Option<&State>
        ensures { option_copied result ≡ option_map (λ o. o.state) (rule_at self.now.entered depth) }
    {
        match self.rules.get(depth) {
            None => None,
            Some(rule) => Some(&rule.state),
        }
    }

    /// What its close needs of a rule with one premise, where this many rules stand around it.
    pub fn closing(&self, around: usize) -> Result<Option<Closing>, NoMemory>
        ensures { (r : Entered) → premise_at self.now.entered around ≡ some r → IfOk result (λ k. IfSome k (λ k. Closes k r)) }
    {
        match self.rules.get(around) {
            None => Ok(None),
            Some(rule) => closing_of(self.alloc, &rule.step, &rule.state),
        }
    }

    /// The first test of that rule's close that fails here, facts aside.
    pub fn fault_aside(
        &self,
        around: usize,
        closing: &Closing,
    ) -> Result<Option<SideFault>, NoMemory>
        ensures { (r : Entered) → premise_at self.now.entered around ≡ some r → Closes closing.now r → IfOk result (λ o. o ≡ aside_of r self.now.state) }
    {
        match self.rules.get(around) {
            None => Ok(None),
            Some(rule) => fault_aside(self.alloc, closing, &rule.state, &self.state),
        }
    }

    /// What is known where the close of that rule asks for it, and isn't known here any more.
    pub fn lost(&self, around: usize, closing: &Closing) -> Result<Facts, NoMemory>
        ensures { (r : Entered) → premise_at self.now.entered around ≡ some r → Closes closing.now r → IfOk result (λ f. f ≡ lost_by r self.now.state) }
    {
        match self.rules.get(around) {
            None => Ok(Facts::new(self.alloc)),
            Some(rule) => lost(&closing.kind, rule, &self.state),
        }
    }

    /// The number of rules applied.
    pub fn applied(&self) -> u64
        ensures { result ≡ self.now.applied }
    {
        self.applied
    }

    /// Gives up the innermost rule.
    pub fn back(&mut self)
        requires { self.old.entered ≢ [] }
        ensures { self.new ≡ given_up self.old }
    {
        if let Some(rule) = self.rules.pop() {
            self.state = rule.state;
            self.items = rule.items;
            self.counted = rule.counted;
        }
    }

    /// Goes back to the start. The number of rules applied stays.
    pub fn rewind(&mut self) -> Result<(), NoMemory>
        ensures ok { IfOk result (λ _. self.new ≡ rewound self.old) }
        ensures err { OnErr result (self.new ≡ self.old) }
    {
        let state = State::initial(self.alloc, &self.program)?;
        self.state = state;
        self.items = Body {
            items: Vec::new(self.alloc),
        };
        self.rules = Vec::new(self.alloc);
        self.counted = 0;
        Ok(())
    }

    /// Applies a basic rule. Where a test fails, or there is no memory, nothing changes.
    pub fn basic(&mut self, step: &BasicStep) -> Result<(), AcceptFault>
        ensures ok { IfOk result (λ _. Gives (applied_by self.old step.now) self.new) }
        ensures err { OnErr result (self.new ≡ self.old) }
        ensures cause { IfErr result (λ f. Fails (applied_by self.old step.now) f) }
    {
        let rule = rule_of(step);
        match loose_fault(self.alloc, &self.program, &self.rules, &self.state, &rule)? {
            Some(fault) => {
                let own = refusal(&self.state, &rule);
                Err(told_first(self.counted, own, fault))
            }
            None => {
                if self.items.items.reserve(1).is_err() {
                    return Err(AcceptFault::NoMemory);
                }
                match apply(self.alloc, &mut self.state, &rule) {
                    Err(why) => Err(told(self.counted, why)),
                    Ok(statement) => {
                        add(&mut self.items.items, statement);
                        self.applied = self.applied.saturating_add(1);
                        self.counted = self.counted.saturating_add(1);
                        Ok(())
                    }
                }
            }
        }
    }

    /// Why a basic rule doesn't apply: its own test that fails first, or else that for loose channels; none where it
    /// applies. It copies no state.
    pub fn refusal(&self, step: &BasicStep) -> Result<Option<Why>, NoMemory>
        ensures { IfOk result (λ o. o ≡ fault_by (apply_quietly self.now.program (follows self.now.entered) self.now.state (rule_by step.now))) }
    {
        let rule = rule_of(step);
        if let Some(why) = refusal(&self.state, &rule) {
            return Ok(Some(Why::Rule(why)));
        }
        match loose_fault(self.alloc, &self.program, &self.rules, &self.state, &rule)? {
            None => Ok(None),
            Some(fault) => Ok(Some(Why::Side(fault))),
        }
    }

    /// Enters a rule, whose own steps are ignored. Where a test fails, or there is no memory, nothing changes. It costs one
    /// copy of the state.
    pub fn enter(&mut self, step: &Step) -> Result<(), AcceptFault>
        ensures ok { IfOk result (λ _. Gives (entered_by self.old (step_of step.now)) self.new) }
        ensures err { OnErr result (self.new ≡ self.old) }
        ensures cause { IfErr result (λ f. Fails (entered_by self.old (step_of step.now)) f) }
    {
        let deep = self.rules.len();
        let start = start_of(
            self.alloc,
            &self.program,
            &self.state,
            step,
            deep,
            self.counted,
        )?;
        let step = alone(self.alloc, step)?;
        if self.rules.reserve(1).is_err() {
            return Err(AcceptFault::NoMemory);
        }
        let state = mem::replace(&mut self.state, start);
        let none = Body {
            items: Vec::new(self.alloc),
        };
        let items = mem::replace(&mut self.items, none);
        self.rules.push_reserved(Rule {
            step,
            side: Side::First,
            state,
            items,
            counted: self.counted,
        });
        self.counted = self.counted.saturating_add(1);
        Ok(())
    }

    /// Passes to the second side of a branch. Where there is no memory, nothing changes.
    pub fn other(&mut self) -> Result<(), AcceptFault>
        ensures ok { IfOk result (λ _. Gives (other_of self.old) self.new) }
        ensures err { OnErr result (self.new ≡ self.old) }
        ensures cause { IfErr result (λ f. Fails (other_of self.old) f) }
    {
        let Some(rule) = self.rules.pop() else {
            return Ok(());
        };
        match second_start(self.alloc, &rule) {
            Err(NoMemory) => {
                self.rules.push_reserved(rule);
                Err(AcceptFault::NoMemory)
            }
            Ok(None) => {
                self.rules.push_reserved(rule);
                Ok(())
            }
            Ok(Some(second)) => {
                let state = mem::replace(&mut self.state, second);
                let none = Body {
                    items: Vec::new(self.alloc),
                };
                let items = mem::replace(&mut self.items, none);
                self.rules.push_reserved(across(rule, state, items));
                self.counted = self.counted.saturating_add(1);
                Ok(())
            }
        }
    }

    /// Closes the innermost rule. Where a test fails, or there is no memory, nothing changes.
    pub fn leave(&mut self) -> Result<(), AcceptFault>
        ensures ok { IfOk result (λ _. Gives (left_by self.old) self.new) }
        ensures err { OnErr result (self.new ≡ self.old) }
        ensures cause { IfErr result (λ f. Fails (left_by self.old) f) }
    {
        let Some(rule) = self.rules.pop() else {
            return Ok(());
        };
        match ending(self.alloc, &rule, &self.state) {
            Err(why) => {
                self.rules.push_reserved(rule);
                Err(refused(self.counted, why))
            }
            Ok(None) => {
                self.rules.push_reserved(rule);
                Ok(())
            }
            Ok(Some(ended)) => {
                let mut rule = rule;
                if rule.items.items.reserve(1).is_err() {
                    self.rules.push_reserved(rule);
                    return Err(AcceptFault::NoMemory);
                }
                let none = Body {
                    items: Vec::new(self.alloc),
                };
                let body = mem::replace(&mut self.items, none);
                let side = rule.side;
                let mut items = rule.items.items;
                items.push_reserved(left(self.alloc, ended, side, body, &mut self.state));
                self.items = Body { items };
                self.applied = self.applied.saturating_add(1);
                self.counted = self.counted.saturating_add(1);
                Ok(())
            }
        }
    }

    /// Why the innermost rule can't be closed here; none where it can. Nothing changes.
    pub fn close_refusal(&self) -> Result<Option<Why>, NoMemory>
        ensures { IfOk result (λ o. o ≡ refused_by (left_by self.now)) }
    {
        let Some((rule, _)) = self.rules.split_last() else {
            return Ok(None);
        };
        why_not(ending(self.alloc, rule, &self.state))
    }

    /// The sequential program of a walk to the end.
    pub fn finish(&self) -> Result<SeqProgram, AcceptFault>
        ensures ok { IfOk result (λ q. finished_by self.now ≡ okay q) }
        ensures cause { IfErr result (λ f. Fails (finished_by self.now) f) }
    {
        if let Some(name) = first_unfinished(self.state.threads()) {
            let why = Why::Side(SideFault::Unfinished(name));
            return Err(AcceptFault::Bad(self.counted.saturating_add(2), why));
        }
        let program = copy_program(self.alloc, &self.program)?;
        Ok(SeqProgram {
            enums: program.enums,
            roles: declared(self.alloc, &program.roles)?,
            body: copy_body(self.alloc, &self.items)?,
        })
    }
}

// The rule in its second side, after the first with this end and these items.
fn across(rule: Rule, state: State, items: Body) -> Rule
    ensures { result ≡ record rule { side = second state items } }
{
    Rule {
        step: rule.step,
        side: Side::Second(state, items),
        state: rule.state,
        items: rule.items,
        counted: rule.counted,
    }
}

// The first thread that has code left.
fn first_unfinished(threads: &[Thread]) -> Option<Name>
    ensures { result ≡ unfinished_in threads.now }
{
    for thread in threads {
        if has_code(&thread.code) {
            return Some(thread.name);
        }
    }
    None
}

// Puts the statement, if there is one, last.
fn add(items: &mut Vec<Seq>, statement: Option<Seq>)
    requires { vec_len items.old < vec_capacity items.old }
    ensures { items_of items.new.items ≡ items_of items.old.items followed_by items_in (option_map item_of statement) }
{
    if let Some(statement) = statement {
        items.push_reserved(statement);
    }
}

/// The basic rule of a step.
pub fn rule_of(step: &BasicStep) -> Basic
    ensures { result ≡ rule_by step.now }
{
    match step {
        BasicStep::Assign(t) => Basic::Assign(*t),
        BasicStep::Fill(t, u, c, n) => Basic::Fill(*t, *u, *c, *n),
        BasicStep::Pass(t, u, c) => Basic::Pass(*t, *u, *c),
        BasicStep::Take(t, u, c) => Basic::Take(*t, *u, *c),
        BasicStep::Known(t) => Basic::Known(*t),
    }
}
