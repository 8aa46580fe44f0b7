//! What names mean, by their indexes.
ghost use Rattle.std.specs.Prelude.{◌≡◌, option_map, OnOk};
ghost use Rattle.brisk_syntax.specs.Expressions.{expression_of};
ghost use Rattle.brisk_syntax.specs.Declarations as declared;
ghost use Rattle.brisk_syntax.specs.Typing as typing;
ghost use Rattle.brisk_types.specs.Expressions as spec;
ghost use Rattle.brisk_types.specs.Names.{global_meaning, known_enum, known_set, known_single, known_tag, meaning_of};
ghost use Rattle.brisk_types.specs.Declarations as declarations;
ghost use Rattle.brisk_types.specs.Statements as statements;

use crate::fault::Rule;
use crate::index::{Index, Key, TagKey};
use brisk_syntax::{Decl, Expr, Kinds, Who};
use brisk_values::{Kind, Name, NoMemory, Op1, Op2, same_kind};
use std::alloc::Global;

/// What is known everywhere in a program.
#[derive(Drop)]
pub struct Globals<'a> {
    pub enums: Index<Key, ()>,
    pub tags: Index<TagKey, ()>,
    pub channels: Index<Key, &'a Kinds>,
    pub sets: Index<Key, ()>,
    pub singles: Index<Key, ()>,
    /// The token at which each name is first declared.
    pub places: Index<Key, u32>,
}

/// What names mean in the text of a role.
#[derive(Drop)]
pub struct Names<'a> {
    pub globals: &'a Globals<'a>,
    pub own: Name,
    pub variables: Index<Key, Kind>,
}

/// What names mean in the items of a sequential program.
#[derive(Drop)]
pub struct Processes<'a> {
    pub globals: &'a Globals<'a>,
    /// What names mean in the text of each role.
    pub names: Index<Key, &'a Names<'a>>,
}

/// Whether the name is one of these.
pub fn is_among(names: &[Name], name: &Name) -> bool
    ensures { result ≡ typing.is_among names.now name.now }
{
    names.iter().any(|other| name == other)
}

/// Whether both kinds are known and are two.
pub fn differ(a: &Option<Kind>, b: &Option<Kind>) -> bool
    ensures { result ≡ spec.differ a.now b.now }
{
    match (a, b) {
        (Some(a), Some(b)) => !same_kind(a, b),
        _ => false,
    }
}

pub fn unary_kind(op: Op1) -> Kind
    ensures { result ≡ spec.unary_kind op }
{
    match op {
        Op1::Neg => Kind::Int,
        Op1::Not => Kind::Bool,
    }
}

fn binary_kind(op: Op2) -> Kind
    ensures { result ≡ spec.binary_kind op }
{
    match op {
        Op2::Add | Op2::Sub | Op2::Mul => Kind::Int,
        _ => Kind::Bool,
    }
}

/// The kind of both operands, but for `==` and `!=`, which take any.
pub fn operand_kind(op: Op2) -> Option<Kind>
    ensures { result ≡ spec.operand_kind op }
{
    match op {
        Op2::Eq | Op2::Ne => None,
        Op2::And | Op2::Or => Some(Kind::Bool),
        _ => Some(Kind::Int),
    }
}

/// The kind of the right operand, where the left one has this kind.
pub fn right_kind(op: Op2, left: Option<Kind>) -> Option<Kind>
    ensures { result ≡ spec.right_kind op left }
{
    match op {
        Op2::Eq | Op2::Ne => left,
        _ => operand_kind(op),
    }
}

fn variable_of(decl: &Decl) -> Name
    ensures { result ≡ declared.variable_of decl.now }
{
    match decl {
        Decl::Var(name, _, _) => *name,
        Decl::Input(name, _) => *name,
    }
}

fn kind_in(decl: &Decl) -> Kind
    ensures { result ≡ declarations.declared_kind decl.now }
{
    match decl {
        Decl::Var(_, kind, _) => *kind,
        Decl::Input(_, kind) => *kind,
    }
}

impl Globals<'_> {
    pub fn is_enum(&self, name: Name) -> bool
        ensures { result ≡ known_enum self.now name }
    {
        self.enums.get(&Key { name }).is_some()
    }

    pub fn is_tag(&self, of: Name, tag: Name) -> bool
        ensures { result ≡ known_tag self.now of tag }
    {
        let key = TagKey {
            of: Key { name: of },
            tag: Key { name: tag },
        };
        self.tags.get(&key).is_some()
    }

    pub fn is_set(&self, name: Name) -> bool
        ensures { result ≡ known_set self.now name }
    {
        self.sets.get(&Key { name }).is_some()
    }

    pub fn is_single(&self, name: Name) -> bool
        ensures { result ≡ known_single self.now name }
    {
        self.singles.get(&Key { name }).is_some()
    }
}

impl<'a> Names<'a> {
    /// The names at the beginning of a role.
    pub fn new(alloc: Global, globals: &'a Globals<'a>, own: Name) -> Names<'a>
        ensures { meaning_of result ≡ global_meaning globals.now own }
    {
        Names {
            globals,
            own,
            variables: Index::new(alloc),
        }
    }

    /// Adds what is declared, unless the variable is known.
    pub fn add(&mut self, decl: &Decl) -> Result<(), NoMemory>
        ensures { OnOk result (meaning_of self.new ≡ declarations.behind (meaning_of self.old) decl.now) }
    {
        let key = Key {
            name: variable_of(decl),
        };
        self.variables.add(&key, kind_in(decl))?;
        Ok(())
    }

    pub fn kinds_on(&self, channel: Name) -> Option<&'a Kinds>
        ensures { option_map (λ k. k.now) result ≡ (meaning_of self.now).kinds_on channel }
    {
        self.globals.channels.get(&Key { name: channel })
    }

    fn is_set(&self, name: Name) -> bool
        ensures { result ≡ (meaning_of self.now).is_set name }
    {
        self.globals.is_set(name)
    }

    fn is_single(&self, name: Name) -> bool
        ensures { result ≡ (meaning_of self.now).is_single name }
    {
        self.globals.is_single(name)
    }

    pub fn place(&self, name: Name) -> Option<u32>
        ensures { result ≡ (meaning_of self.now).place name }
    {
        self.globals.places.get(&Key { name })
    }

    pub fn kind_of_variable(&self, name: Name) -> Option<Kind>
        ensures { result ≡ (meaning_of self.now).kind_of_variable name }
    {
        self.variables.get(&Key { name })
    }

    pub fn tag_kind(&self, of: Name, tag: Name) -> Option<Kind>
        ensures { result ≡ spec.tag_kind (meaning_of self.now) of tag }
    {
        if self.globals.is_tag(of, tag) {
            Some(Kind::Enum(of))
        } else {
            None
        }
    }

    /// The kind of an expression, by its outermost operator.
    pub fn kind_of(&self, e: &Expr) -> Option<Kind>
        ensures { result ≡ spec.kind_of (meaning_of self.now) (expression_of e.now) }
    {
        match e {
            Expr::Num(_) | Expr::Size(_) => Some(Kind::Int),
            Expr::Bool(_) => Some(Kind::Bool),
            Expr::Var(x) => self.kind_of_variable(*x),
            Expr::Tag(e, t) => self.tag_kind(*e, *t),
            Expr::Paren(e) => self.kind_of(e),
            Expr::Un(op, _) => Some(unary_kind(*op)),
            Expr::Bin(op, _, _) => Some(binary_kind(*op)),
        }
    }

    /// What is wrong with the name after `#`, which is any set's.
    pub fn size_rule(&self, set: &Name) -> Option<Rule>
        ensures { result ≡ spec.size_rule (meaning_of self.now) set.now }
    {
        if self.is_set(*set) {
            None
        } else if *set == self.own {
            Some(Rule::SelfPartner)
        } else if self.is_single(*set) {
            Some(Rule::NotASet)
        } else {
            Some(Rule::Unknown)
        }
    }

    /// What is wrong with the set that a loop goes over.
    pub fn set_rule(&self, set: &Name) -> Option<Rule>
        ensures { result ≡ statements.set_rule (meaning_of self.now) set.now }
    {
        if *set == self.own {
            Some(Rule::SelfPartner)
        } else if self.is_set(*set) {
            None
        } else if self.is_single(*set) {
            Some(Rule::NotASet)
        } else {
            Some(Rule::Unknown)
        }
    }

    /// What is wrong with a partner.
    pub fn partner_rule(&self, binders: &[Name], who: &Who) -> Option<Rule>
        ensures { result ≡ statements.partner_rule (meaning_of self.now) binders.now who.now }
    {
        match who {
            Who::Name(name) => {
                if is_among(binders, name) {
                    None
                } else if *name == self.own {
                    Some(Rule::SelfPartner)
                } else if self.is_single(*name) {
                    None
                } else if self.is_set(*name) {
                    Some(Rule::NotSingle)
                } else {
                    Some(Rule::Unknown)
                }
            }
            _ => Some(Rule::Unknown),
        }
    }
}
