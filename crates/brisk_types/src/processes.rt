//! What names mean in the items of a sequential program.
ghost use Rattle.std.specs.Prelude.{◌≡◌, ◌+◌, ◌<◌, ◌^◌, map, option_map, sum_by, IfOk, OnOk};
ghost use Rattle.brisk_syntax.specs.Texts.{text_of};
ghost use Rattle.brisk_syntax.specs.Tokens as tokens;
ghost use Rattle.brisk_types.specs.Failures.{note_all};
ghost use Rattle.brisk_types.specs.Names.{global_meaning, meaning_of, meanings_of, named_meanings};
ghost use Rattle.brisk_types.specs.Sequences as spec;

use crate::declarations::declared;
use crate::fault::{First, Rule};
use crate::index::{Index, Key};
use crate::names::{Globals, Names, Processes, is_among};
use crate::places::role_tokens;
use brisk_syntax::Roles;
use brisk_values::{Name, NoMemory};
use std::alloc::Global;

/// Notes what is wrong with the declarations of roles that begin at the token. Answers what names mean behind them.
pub fn outlines<'a>(
    alloc: Global,
    globals: &'a Globals<'a>,
    roles: &Roles,
    at: u32,
    first: &mut First,
) -> Result<Vec<Names<'a>>, NoMemory>
    requires { at + sum_by tokens.role_tokens roles.now < 2 ^ 32 }
    ensures names { IfOk result (λ v. map meaning_of v.items ≡ map (spec.behind_role (global_meaning globals.now)) roles.now) }
    ensures noted { OnOk result (first.new.failure ≡ note_all first.old.failure (spec.outlines (global_meaning globals.now) at roles.now)) }
{
    let mut at = at;
    let mut names = Vec::new(alloc);
    for role in &roles.items {
        names.push(declared(alloc, globals, role, at, first)?)?;
        at += role_tokens(role);
    }
    Ok(names)
}

impl<'a> Processes<'a> {
    /// The index of what names mean in the text of each role.
    pub fn new(
        alloc: Global,
        globals: &'a Globals<'a>,
        names: &'a [Names<'a>],
    ) -> Result<Processes<'a>, NoMemory>
        ensures { IfOk result (λ processes. meanings_of processes ≡ named_meanings globals.now (map meaning_of names.now)) }
    {
        let mut index = Index::new(alloc);
        for each in names {
            index.add(&Key { name: each.own }, each)?;
        }
        Ok(Processes {
            globals,
            names: index,
        })
    }

    /// What names mean at a process of the role.
    pub fn names_at(&self, role: Name) -> Option<&'a Names<'a>>
        ensures { option_map (λ names. meaning_of names.now) result ≡ (meanings_of self.now).meaning_at role }
    {
        self.names.get(&Key { name: role })
    }

    /// What is wrong with a process's name, where these sets are in focus.
    pub fn process_rule(&self, focus: &[Name], process: &Name) -> Option<Rule>
        ensures { result ≡ spec.process_rule (meanings_of self.now) focus.now process.now }
    {
        if self.globals.is_single(*process) || is_among(focus, process) {
            None
        } else {
            Some(Rule::Unknown)
        }
    }

    /// What is wrong with a set whose members take turns.
    pub fn turns_rule(&self, set: &Name) -> Option<Rule>
        ensures { result ≡ spec.turns_rule (meanings_of self.now) set.now }
    {
        if self.globals.is_set(*set) {
            None
        } else if self.globals.is_single(*set) {
            Some(Rule::NotASet)
        } else {
            Some(Rule::Unknown)
        }
    }

    /// What is wrong with a set that comes into focus.
    pub fn focus_rule(&self, focus: &[Name], set: &Name) -> Option<Rule>
        ensures { result ≡ spec.focus_rule (meanings_of self.now) focus.now set.now }
    {
        if is_among(focus, set) {
            Some(Rule::Unknown)
        } else {
            self.turns_rule(set)
        }
    }
}
