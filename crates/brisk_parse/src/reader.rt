//! What is left to read, and single tokens.
ghost use Rattle.std.specs.Prelude.{◌≡◌, ◌≤◌, true, false, length, map};
ghost use Rattle.std.specs.Option.{option_copied};
ghost use Rattle.brisk_lex.specs.declared.token.Token.TheVariants as t;
ghost use Rattle.brisk_parse.specs.Input.{after, head, sees, start, with_room};
ghost use Rattle.brisk_parse.specs.Outcomes.{Reads};
ghost use Rattle.brisk_parse.specs.Reading as spec;

use crate::fault::Stop;
use brisk_lex::{Mark, Placed, Token, Word};
use brisk_values::Name;
use std::alloc::Global;
use std::marker::Model;

/// What is left of the tokens, how many of them the present expression may take, and how many statements may begin.
#[derive(Drop)]
pub struct Reader<'a> {
    tokens: &'a [Placed],
    room: usize,
    statements: usize,
    alloc: Global,
}

impl<'a> Model for Reader<'a> {
    ghost use Rattle.std.specs.Prelude.{length, ◌≤◌};
    ghost use Rattle.brisk_parse.specs.Input.{Input, tokens_of};

    ghost Value = { Input };

    ghost view = { λ r. record { rest = tokens_of r.tokens.now; room = r.room; statements = r.statements } };

    ghost invariant = { λ r. length r.tokens.now ≤ 16777216 };
}

impl<'a> Reader<'a> {
    pub fn new(alloc: Global, tokens: &'a [Placed], statements: usize) -> Reader<'a>
        requires { length tokens.now ≤ 16777216 }
        ensures { result ≡ start tokens.entry.now statements }
    {
        Reader {
            tokens,
            room: 0,
            statements,
            alloc,
        }
    }

    pub fn alloc(&self) -> Global {
        self.alloc
    }

    /// The next token.
    pub fn peek(&self) -> Option<&'a Token>
        ensures { option_copied result ≡ head self.now }
    {
        match self.tokens {
            [first, ..] => Some(&first.token),
            [] => None,
        }
    }

    /// How many tokens are left.
    pub fn left(&self) -> u32
        ensures { result ≡ length self.now.rest }
    {
        self.tokens.len() as u32
    }

    /// Goes past the next token.
    pub fn advance(&mut self)
        ensures { self.new ≡ after self.old }
    {
        if let [_, rest @ ..] = self.tokens {
            self.tokens = rest;
        }
    }

    pub fn sees_mark(&self, mark: Mark) -> bool
        ensures { result ≡ sees (t.Mark mark) self.now }
    {
        match self.peek() {
            Some(Token::Mark(other)) => *other == mark,
            _ => false,
        }
    }

    pub fn sees_word(&self, word: Word) -> bool
        ensures { result ≡ sees (t.Word word) self.now }
    {
        match self.peek() {
            Some(Token::Word(other)) => *other == word,
            _ => false,
        }
    }

    #[tactic(auto, unfolding(crate::specs::Reading::expect))]
    pub fn mark(&mut self, mark: Mark) -> Result<(), Stop>
        ensures { Reads (λ _. tt) result self.new (spec.expect (t.Mark mark) self.old) }
    {
        if !self.sees_mark(mark) {
            return Err(Stop::Syntax(self.left()));
        }
        self.advance();
        Ok(())
    }

    #[tactic(auto, unfolding(crate::specs::Reading::expect))]
    pub fn word(&mut self, word: Word) -> Result<(), Stop>
        ensures { Reads (λ _. tt) result self.new (spec.expect (t.Word word) self.old) }
    {
        if !self.sees_word(word) {
            return Err(Stop::Syntax(self.left()));
        }
        self.advance();
        Ok(())
    }

    #[tactic(auto, unfolding(crate::specs::Reading::name))]
    pub fn name(&mut self) -> Result<Name, Stop>
        ensures { Reads (λ x. x) result self.new (spec.name self.old) }
    {
        match self.peek() {
            Some(Token::Name(name)) => {
                self.advance();
                Ok(*name)
            }
            _ => Err(Stop::Syntax(self.left())),
        }
    }

    #[tactic(auto, unfolding(crate::specs::Reading::number))]
    pub fn number(&mut self) -> Result<u64, Stop>
        ensures { Reads (λ n. n) result self.new (spec.number self.old) }
    {
        match self.peek() {
            Some(Token::Num(number)) => {
                self.advance();
                Ok(*number)
            }
            _ => Err(Stop::Syntax(self.left())),
        }
    }

    /// How many tokens the present expression may still take.
    pub fn room(&self) -> usize
        ensures { result ≡ self.now.room }
    {
        self.room
    }

    pub fn set_room(&mut self, room: usize)
        ensures { self.new ≡ with_room room self.old }
    {
        self.room = room;
    }

    /// Goes past the next token, which belongs to an expression.
    #[tactic(auto, unfolding(crate::specs::Reading::spend))]
    pub fn spend(&mut self) -> Result<(), Stop>
        ensures { Reads (λ _. tt) result self.new (spec.spend self.old) }
    {
        if self.room == 0 {
            return Err(Stop::TooMany(self.left()));
        }
        self.advance();
        self.room -= 1;
        Ok(())
    }

    /// Counts a statement, whose first token is the next one.
    #[tactic(auto, unfolding(crate::specs::Reading::count))]
    pub fn count(&mut self) -> Result<(), Stop>
        ensures { Reads (λ _. tt) result self.new (spec.count self.old) }
    {
        if self.statements == 0 {
            return Err(Stop::TooMany(self.left()));
        }
        self.statements -= 1;
        Ok(())
    }
}
