//! Code as a list of segments, which share the bodies that they come from.
ghost use Rattle.std.specs.Prelude.{◌≡◌, ◌+◌, ◌<◌, ◌≤◌, IfOk, IsSome, OnOk, OnErr, option_map, length, vec_len, vec_capacity};
ghost use Rattle.std.specs.Option.{option_copied};
ghost use Rattle.brisk_syntax.specs.Syntax.{◌then◌};
ghost use Rattle.brisk_syntax.specs.Statements.{statement_of, code_of};
ghost use Rattle.brisk_syntax.specs.Segments.{head_of, rest_of, code_length, statement_at, backwards, or_done};

use crate::tree::{Block, Stmt};
use brisk_values::NoMemory;
use std::alloc::Global;
use std::marker::Model;
use std::rc::Rc;

// The statements of a body from a place on. There is one at the place.
#[derive(Drop)]
struct Segment {
    body: Rc<Block>,
    place: usize,
}

impl Model for Segment {
    ghost use Rattle.std.specs.Prelude.{◌<◌};
    ghost use Rattle.brisk_syntax.specs.Syntax.{Code};
    ghost use Rattle.brisk_syntax.specs.Stored.{coded_code};
    ghost use Rattle.brisk_syntax.specs.Segments.{code_from_place, code_length};

    ghost Value = { Code };

    ghost coded = { coded_code };

    ghost view = { λ a. code_from_place a.place a.body.value };

    ghost invariant = { λ a. a.place < code_length a.body.value };
}

impl Segment {
    // The whole body, where it has a statement.
    fn whole(body: Rc<Block>) -> Option<Segment>
        ensures { or_done result ≡ body.value }
    {
        if body.items.len() == 0 {
            return None;
        }
        Some(Segment { body, place: 0 })
    }

    // What is left of the body.
    fn statements(&self) -> &[Stmt]
        ensures all { code_of result.now ≡ self.now }
        ensures some { 0 < length result.now }
    {
        let block: &Block = &self.body;
        &block.items[self.place..]
    }

    // What is left without the first statement, if it is anything.
    fn rest(self) -> Option<Segment>
        ensures rest { or_done result ≡ rest_of self }
        ensures some { 0 < code_length self }
    {
        let count = self.body.items.len();
        let place = self.place + 1;
        if place < count {
            Some(Segment {
                body: self.body,
                place,
            })
        } else {
            None
        }
    }

    // The same segment.
    fn copy(&self) -> Result<Segment, NoMemory>
        ensures { IfOk result (λ s. s ≡ self.now) }
    {
        Ok(Segment {
            body: self.body.clone()?,
            place: self.place,
        })
    }
}

/// What a process or a thread has left to do.
#[derive(Drop)]
pub struct Code {
    // The last one is in front.
    segments: Vec<Segment>,
}

impl Model for Code {
    ghost use Rattle.brisk_syntax.specs.Syntax.{Code};
    ghost use Rattle.brisk_syntax.specs.Stored.{coded_code};

    ghost Value = { Code };

    ghost coded = { coded_code };

    ghost use Rattle.brisk_syntax.specs.Segments.{backwards};

    ghost view = { λ a. backwards a.segments.items };
}

impl Code {
    /// The code with these statements.
    pub fn of(alloc: Global, items: Vec<Stmt>) -> Result<Code, NoMemory>
        ensures { IfOk result (λ c. c ≡ code_of items.items) }
    {
        let mut segments = Vec::new(alloc);
        if let Some(segment) = Segment::whole(Rc::new(alloc, Block { items })?) {
            segments.push(segment)?;
        }
        Ok(Code { segments })
    }

    /// The first statement, if there is one.
    pub fn first(&self) -> Option<&Stmt>
        ensures { option_map statement_of (option_copied result) ≡ head_of self.now }
    {
        match self.segments.split_last() {
            None => None,
            Some((segment, _)) => segment.statements().first(),
        }
    }

    /// The statement at a place, counted from 0, if there is one.
    pub fn at(&self, place: u64) -> Option<&Stmt>
        ensures { option_map statement_of (option_copied result) ≡ statement_at self.now place }
    {
        let mut left = place;
        let mut segments = self.segments.as_slice();
        while let Some((segment, behind)) = segments.split_last() {
            let statements = segment.statements();
            if left < statements.len() as u64 {
                return Some(&statements[left as usize]);
            }
            left -= statements.len() as u64;
            segments = behind;
        }
        None
    }

    /// Removes the first statement.
    pub fn skip(&mut self)
        requires { IsSome (head_of self.old) }
        ensures { self.new ≡ rest_of self.old }
    {
        skip_first(&mut self.segments);
    }

    /// Puts the statements of the body before the code, and shares them with it.
    pub fn put_before(&mut self, body: &Rc<Block>) -> Result<(), NoMemory>
        ensures ok { OnOk result (self.new ≡ body.now.value then self.old) }
        ensures err { OnErr result (self.new ≡ self.old) }
    {
        let front = Segment::whole(body.clone()?);
        self.segments.reserve(1)?;
        put_first(&mut self.segments, front);
        Ok(())
    }

    /// Puts the statements of the body in the place of the first statement.
    pub fn replace_first(&mut self, body: &Rc<Block>) -> Result<(), NoMemory>
        requires { IsSome (head_of self.old) }
        ensures ok { OnOk result (self.new ≡ body.now.value then rest_of self.old) }
        ensures err { OnErr result (self.new ≡ self.old) }
    {
        let front = Segment::whole(body.clone()?);
        self.segments.reserve(1)?;
        skip_first(&mut self.segments);
        put_first(&mut self.segments, front);
        Ok(())
    }

    /// Puts the statements of two bodies, the one after the other, in the place of the first statement.
    pub fn unroll(&mut self, body: &Rc<Block>, next: &Rc<Block>) -> Result<(), NoMemory>
        requires { IsSome (head_of self.old) }
        ensures ok { OnOk result (self.new ≡ body.now.value then (next.now.value then rest_of self.old)) }
        ensures err { OnErr result (self.new ≡ self.old) }
    {
        let front = Segment::whole(body.clone()?);
        let behind = Segment::whole(next.clone()?);
        self.segments.reserve(2)?;
        skip_first(&mut self.segments);
        put_first(&mut self.segments, behind);
        put_first(&mut self.segments, front);
        Ok(())
    }

    // The same code.
    pub(crate) fn copy(&self, alloc: Global) -> Result<Code, NoMemory>
        ensures { IfOk result (λ c. c ≡ self.now) }
    {
        let mut segments = Vec::new(alloc);
        for segment in &self.segments {
            segments.push(segment.copy()?)?;
        }
        Ok(Code { segments })
    }

    // A walk through the statements.
    pub(crate) fn walk(&self) -> Walk<'_>
        ensures { result ≡ self.now }
    {
        Walk {
            ahead: &[],
            behind: self.segments.as_slice(),
        }
    }
}

// Removes the first statement, and makes no less room.
fn skip_first(segments: &mut Vec<Segment>)
    ensures rest { backwards segments.new.items ≡ rest_of (backwards segments.old.items) }
    ensures room { (vec_capacity segments.new ≡ vec_capacity segments.old) × (vec_len segments.new ≤ vec_len segments.old) }
{
    if let Some(segment) = segments.pop() {
        if let Some(rest) = segment.rest() {
            segments.push_reserved(rest);
        }
    }
}

// Puts the segment, if there is one, in front.
fn put_first(segments: &mut Vec<Segment>, front: Option<Segment>)
    requires { vec_len segments.old < vec_capacity segments.old }
    ensures code { backwards segments.new.items ≡ or_done front then backwards segments.old.items }
    ensures room { (vec_capacity segments.new ≡ vec_capacity segments.old) × (vec_len segments.new ≤ vec_len segments.old + 1) }
{
    if let Some(front) = front {
        segments.push_reserved(front);
    }
}

// What is left of a walk through code: of one body, and of the segments behind it.
#[derive(Drop)]
pub(crate) struct Walk<'a> {
    ahead: &'a [Stmt],
    behind: &'a [Segment],
}

impl<'a> Model for Walk<'a> {
    ghost use Rattle.brisk_syntax.specs.Syntax.{Code, ◌then◌};
    ghost use Rattle.brisk_syntax.specs.Stored.{coded_code};

    ghost Value = { Code };

    ghost coded = { coded_code };

    ghost use Rattle.brisk_syntax.specs.Segments.{backwards};
    ghost use Rattle.brisk_syntax.specs.Statements.{code_of};

    ghost view = { λ w. code_of w.ahead.now then backwards w.behind.now };
}

impl<'a> Walk<'a> {
    // The next statement, if there is one.
    pub(crate) fn next(&mut self) -> Option<&'a Stmt>
        ensures head { option_map statement_of (option_copied result) ≡ head_of self.old }
        ensures rest { self.new ≡ rest_of self.old }
    {
        if let Some((statement, ahead)) = self.ahead.split_first() {
            self.ahead = ahead;
            return Some(statement);
        }
        match self.behind.split_last() {
            None => None,
            Some((segment, behind)) => {
                self.behind = behind;
                match segment.statements().split_first() {
                    None => None,
                    Some((statement, ahead)) => {
                        self.ahead = ahead;
                        Some(statement)
                    }
                }
            }
        }
    }
}
