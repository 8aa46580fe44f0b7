//! The machine: the state of an instance, which events change.
ghost use Rattle.std.specs.Prelude.{◌≡◌, ℕ, Option as Opt, IfOk, IfErr, IfSome, is_none, is_some, OnOk, OnErr, IsSome, IsTrue, Some, None, ◌⊎◌, ◌↔◌, option_and_then};
ghost use Rattle.std.specs.Option.{option_copied};
ghost use Rattle.std.specs.FinMap as map;
ghost use Rattle.brisk_values.specs.declared.value.Value.{Value as Val};
ghost use Rattle.brisk_values.specs.Names.{Name as Bytes};
ghost use Rattle.brisk_syntax.specs.Declarations.{is_loose as is_loose_in};
ghost use Rattle.brisk_syntax.specs.Segments.{head_of};
ghost use Rattle.brisk_syntax.specs.Statements.{statement_of};
ghost use Rattle.brisk_syntax.specs.Syntax.{Code as Tree, ◌⨾◌};
ghost use Rattle.brisk_async.specs.Acts.{effect_if, effect_of};
ghost use Rattle.brisk_async.specs.Effects.{looks, next_of};
ghost use Rattle.brisk_async.specs.InOrder.{AreQueues};
ghost use Rattle.brisk_instance.specs.Starting.{IsCause, IsReady};
ghost use Rattle.brisk_instance.specs.Given.{FitsAsGiven, instance_of};
ghost use Rattle.brisk_async.specs.Keys.{code_in_map, mail_in, queue_of};
ghost use Rattle.brisk_async.specs.Machine.{IsDeadlocked, IsHalted, IsTerminal, after, effect, effect_in, payload_at, receives, seen_by, start, step};
ghost use Rattle.brisk_async.specs.Refusals.{queue_refusal, refusal, refusal_at};
ghost use Rattle.brisk_async.specs.States.{is_process, state_of};
ghost use Rattle.brisk_syntax.specs.Value.{size_in};
ghost use Rattle.brisk_syntax.specs.WellTyped.{IsProgramWellTyped};

use crate::changes::make_change;
use crate::codes::{Codes, Next};
use crate::effect::{Act, Change, is_member, partner, plain, replaced};
use crate::event::Event;
use crate::fault::StepFault;
use crate::mail::{Key, Mail};
use crate::queue::{Queue, told};
use crate::sizes::copy_sizes;
use crate::start::start_codes;
use brisk_instance::{StartFault, judge, start_store};
use brisk_syntax::{Code, Names, Program, Stmt, Who, copy_names, copy_program, subst};
use brisk_values::{Instance, NoMemory, Pid, Sizes, Store, Values};
use std::alloc::Global;
use std::marker::Model;
use std::rc::Rc;

/// The state of an instance of a program.
#[derive(Drop)]
pub struct Machine {
    alloc: Global,
    program: Program,
    sizes: Sizes,
    codes: Codes,
    store: Store,
    mail: Mail,
}

impl Model for Machine {
    ghost use Rattle.brisk_async.specs.States.{Kept, coded_kept, HasProcesses};

    ghost Value = { Kept };

    ghost coded = { coded_kept };

    ghost view = { λ m. record { program = m.program; sizes = m.sizes; codes = m.codes; store = m.store; mail = m.mail } };

    ghost invariant = { λ m. HasProcesses m.program m.sizes m.codes };
}

impl Machine {
    /// The start of the instance, where it fits and isn't too heavy.
    pub fn start(
        alloc: Global,
        program: &Program,
        instance: &Instance,
    ) -> Result<Machine, StartFault>
        requires { IsProgramWellTyped program.now }
        ensures fits { IfOk result (λ _. IsReady program.now.enums program.now.roles instance.now) }
        ensures start { IfOk result (λ m. state_of m ≡ start program.now (instance_of instance.now)) }
        ensures err { IfErr result (IsCause program.now.enums program.now.roles instance.now) }
    {
        judge(alloc, &program.enums, &program.roles, instance)?;
        Ok(Machine::begin(alloc, program, instance)?)
    }

    /// The start of the instance, whatever its weight.
    pub fn begin(alloc: Global, program: &Program, instance: &Instance) -> Result<Machine, NoMemory>
        requires typed { IsProgramWellTyped program.now }
        requires fits { FitsAsGiven program.now.enums program.now.roles instance.now }
        ensures { IfOk result (λ m. state_of m ≡ start program.now (instance_of instance.now)) }
    {
        let codes = start_codes(alloc, &program.roles, &instance.sizes)?;
        let store = start_store(alloc, &program.roles, instance)?;
        Ok(Machine {
            alloc,
            program: copy_program(alloc, program)?,
            sizes: copy_sizes(alloc, &instance.sizes)?,
            codes,
            store,
            mail: Mail::new(alloc),
        })
    }

    /// The store.
    pub fn store(&self) -> &Store
        ensures { result.now ≡ self.now.store }
    {
        &self.store
    }

    /// The sizes of the sets.
    pub fn sizes(&self) -> &Sizes
        ensures { result.now ≡ self.now.sizes }
    {
        &self.sizes
    }

    /// What a process has left to do, if it is in the instance.
    pub fn code(&self, process: Pid) -> Option<&Code>
        ensures kept { option_copied result ≡ map.get self.now.codes process }
        ensures code { IfSome result (λ c. c.now ≡ code_in_map self.now.codes process) }
        ensures inside { is_some result ≡ is_process self.now.program (size_in self.now.sizes) process }
    {
        self.codes.get(&process)
    }

    /// Whether every process has nothing left to do.
    pub fn is_halted(&self) -> bool
        ensures { IsTrue result ↔ IsHalted (state_of self.now) }
    {
        self.codes.are_done()
    }

    /// Whether no event has a next state, and some process has something left to do.
    pub fn is_deadlocked(&self) -> bool
        ensures { IsTrue result ↔ IsDeadlocked (state_of self.now) }
    {
        self.is_terminal() && !self.is_halted()
    }

    /// The queues that aren't empty, ordered by sender, receiver and channel, each in order of declaration and number.
    pub fn queues(&self) -> Result<Vec<Queue>, NoMemory>
        ensures { IfOk result (λ qs. AreQueues self.now.program (state_of self.now).mail qs.items) }
    {
        let numbers = self.mail.numbers(&self.program)?;
        told(self.alloc, &numbers)
    }

    // Whether no event has a next state.
    fn is_terminal(&self) -> bool
        ensures { IsTrue result ↔ IsTerminal (state_of self.now) }
    {
        self.codes.are_blocked(&self.sizes, &self.mail)
    }

    // What a receive from the queue does, if it can.
    fn receive(
        &self,
        key: &Key,
        vars: &Names,
        next: Next,
        place: Option<u32>,
    ) -> Result<Option<Act>, NoMemory>
        ensures { IfOk result (λ a. (c : Tree) (sizes : Bytes → ℕ) (own : Bytes → Opt Val) → effect_if c a ≡ receives (looks sizes (is_loose_in self.now.program.channels) own (λ q. payload_at (mail_in self.now.mail q))) (queue_of key.now) vars.now (next_of next c) place) }
    {
        let loose = self.program.channels.is_loose(&key.channel);
        let place = match place {
            None => {
                if loose {
                    return Ok(None);
                }
                0
            }
            Some(k) => {
                if !loose {
                    return Ok(None);
                }
                k
            }
        };
        match self.mail.payload(key, place) {
            None => Ok(None),
            Some(payload) => {
                let payload = Values {
                    items: Vec::from_slice(self.alloc, &payload.items)?,
                };
                let vars = copy_names(self.alloc, vars)?;
                Ok(Some(Act {
                    next,
                    change: Change::Takes(*key, place, vars, payload),
                }))
            }
        }
    }

    // What the event does, from the code of its process.
    fn act(&self, code: &Code, event: &Event) -> Result<Option<Act>, NoMemory>
        ensures { IfOk result (λ a. effect_if code.now a ≡ effect (seen_by (state_of self.now) event.now.process) event.now.process code.now event.now.sender event.now.place) }
    {
        let Some(head) = code.first() else {
            return Ok(None);
        };
        match head {
            Stmt::Recv(channel, vars, from) => {
                if event.sender.is_some() {
                    return Ok(None);
                }
                let key = Key {
                    from: partner(from),
                    to: event.process,
                    channel: *channel,
                };
                self.receive(&key, vars, Next::Rest, event.place)
            }
            Stmt::RecvAny(any) => {
                let Some(sender) = event.sender else {
                    return Ok(None);
                };
                let sender = &sender;
                if !is_member(&self.sizes, &any.set, sender) {
                    return Ok(None);
                }
                let body = subst(self.alloc, &any.body, any.binder, Who::Pid(*sender))?;
                let next = replaced(self.alloc, code, &Rc::new(self.alloc, body)?)?;
                let key = Key {
                    from: *sender,
                    to: event.process,
                    channel: any.channel,
                };
                self.receive(&key, &any.vars, next, event.place)
            }
            _ => {
                if event.sender.is_some() || event.place.is_some() {
                    return Ok(None);
                }
                plain(
                    self.alloc,
                    code,
                    head,
                    &event.process,
                    &self.store,
                    &self.sizes,
                )
            }
        }
    }

    // Whether a receive from the queue can take at the place, and if not, why.
    fn at_queue(&self, key: &Key, place: Option<u32>) -> Option<StepFault>
        ensures { result ≡ queue_refusal (is_loose_in self.now.program.channels key.now.channel) (payload_at (mail_in self.now.mail (queue_of key.now))) place }
    {
        let loose = self.program.channels.is_loose(&key.channel);
        match place {
            None => {
                if loose {
                    Some(StepFault::NeedsPlace)
                } else if self.mail.payload(key, 0).is_none() {
                    Some(StepFault::Blocked)
                } else {
                    None
                }
            }
            Some(k) => {
                if !loose {
                    Some(StepFault::TakesNoPlace)
                } else if self.mail.payload(key, 0).is_none() {
                    Some(StepFault::Blocked)
                } else if self.mail.payload(key, k).is_none() {
                    Some(StepFault::NoSuchPlace)
                } else {
                    None
                }
            }
        }
    }

    // Why a process with this head doesn't take the event, if it doesn't.
    fn at_head(&self, head: &Stmt, event: &Event) -> Option<StepFault>
        ensures { (rest : Tree) → result ≡ refusal_at (seen_by (state_of self.now) event.now.process) event.now.process (statement_of head.now ⨾ rest) event.now.sender event.now.place }
    {
        match head {
            Stmt::Recv(channel, _, from) => {
                if event.sender.is_some() {
                    return Some(StepFault::TakesNoSender);
                }
                let key = Key {
                    from: partner(from),
                    to: event.process,
                    channel: *channel,
                };
                self.at_queue(&key, event.place)
            }
            Stmt::RecvAny(any) => {
                let Some(sender) = event.sender else {
                    return Some(StepFault::NeedsSender);
                };
                let sender = &sender;
                if !is_member(&self.sizes, &any.set, sender) {
                    return Some(StepFault::NoSuchSender);
                }
                let key = Key {
                    from: *sender,
                    to: event.process,
                    channel: any.channel,
                };
                self.at_queue(&key, event.place)
            }
            _ => {
                if event.sender.is_some() {
                    Some(StepFault::TakesNoSender)
                } else if event.place.is_some() {
                    Some(StepFault::TakesNoPlace)
                } else {
                    None
                }
            }
        }
    }

    // The first test of the event that fails, if one does.
    fn first_failure(&self, event: &Event) -> Option<StepFault>
        ensures { result ≡ refusal (state_of self.now) event.now }
    {
        let Some(code) = self.codes.get(&event.process) else {
            return Some(StepFault::NoProcess);
        };
        let Some(head) = code.first() else {
            return Some(StepFault::Finished);
        };
        self.at_head(head, event)
    }

    // Why the event has no next state, if it has none.
    fn refusal(&self, event: &Event) -> Option<StepFault>
        ensures first { result ≡ refusal (state_of self.now) event.now }
        ensures none { IfSome result (λ _. step (state_of self.now) event.now ≡ None) }
        ensures some { IsTrue (is_none result) ↔ IsSome (step (state_of self.now) event.now) }
    {
        let _invariant = &self.alloc;
        self.first_failure(event)
    }

    // Does what an act does.
    fn apply(&mut self, process: &Pid, act: Act) -> Result<(), NoMemory>
        requires { IsSome (option_and_then head_of (map.get self.old.codes process.now)) }
        ensures ok { OnOk result (state_of self.new ≡ after (state_of self.old) process.now (effect_of (code_in_map self.old.codes process.now) act)) }
        ensures err { OnErr result (self.new ≡ self.old) }
    {
        make_change(&mut self.store, &mut self.mail, process, act.change)?;
        self.codes.put(process, act.next);
        Ok(())
    }

    // What the event does, if it has a next state.
    fn next_act(&self, event: &Event) -> Result<Option<Act>, NoMemory>
        ensures { IfOk result (λ a. effect_if (code_in_map self.now.codes event.now.process) a ≡ effect_in (state_of self.now) event.now) }
    {
        match self.codes.get(&event.process) {
            None => Ok(None),
            Some(code) => self.act(code, event),
        }
    }

    /// Whether the event has a next state.
    pub fn enabled(&self, event: &Event) -> bool
        ensures { IsTrue result ↔ IsSome (step (state_of self.now) event.now) }
    {
        self.refusal(event).is_none()
    }

    /// Takes the event.
    pub fn step(&mut self, event: &Event) -> Result<(), StepFault>
        ensures ok { OnOk result (step (state_of self.old) event.now ≡ Some (state_of self.new)) }
        ensures err { OnErr result (self.new ≡ self.old) }
        ensures cause { IfErr result (λ f. ((refusal (state_of self.old) event.now ≡ Some f) × (step (state_of self.old) event.now ≡ None)) ⊎ ((f ≡ StepFault.NoMemory) × (refusal (state_of self.old) event.now ≡ None))) }
    {
        if let Some(fault) = self.refusal(event) {
            return Err(fault);
        }
        if let Some(act) = self.next_act(event)? {
            self.apply(&event.process, act)?;
        }
        Ok(())
    }
}
