//! Expressions.
ghost use Rattle.std.specs.Prelude.{◌≡◌, ◌+◌, ◌<◌, ◌^◌};
ghost use Rattle.brisk_syntax.specs.Expressions.{expression_of};
ghost use Rattle.brisk_syntax.specs.Tokens.{expression_tokens};
ghost use Rattle.brisk_types.specs.Expressions as spec;
ghost use Rattle.brisk_types.specs.Failures.{note_all};
ghost use Rattle.brisk_types.specs.Names.{meaning_of};

use crate::fault::{First, Rule};
use crate::names::{Names, differ, operand_kind, right_kind, unary_kind};
use brisk_syntax::Expr;
use brisk_values::{Kind, Name};

/// Notes what is wrong with a tag whose enumeration's name is at the token.
pub fn tag(names: &Names<'_>, of: Name, tag: Name, at: u32, first: &mut First)
    requires { at + 3 < 2 ^ 32 }
    ensures { first.new.failure ≡ note_all first.old.failure (spec.tag (meaning_of names.now) at of tag) }
{
    first.note_if(!names.globals.is_enum(of), Rule::Unknown, at);
    first.note_if(!names.globals.is_tag(of, tag), Rule::Unknown, at + 2);
}

/// Notes what is wrong with an expression that begins at the token, of which this kind is wanted. Answers the token
/// after it.
pub fn expression(
    names: &Names<'_>,
    want: Option<Kind>,
    e: &Expr,
    at: u32,
    first: &mut First,
) -> u32
    requires { at + expression_tokens (expression_of e.now) < 2 ^ 32 }
    ensures next { result ≡ at + expression_tokens (expression_of e.now) }
    ensures noted { first.new.failure ≡ note_all first.old.failure (spec.wanted (meaning_of names.now) want at (expression_of e.now)) }
{
    first.note_if(differ(&want, &names.kind_of(e)), Rule::WrongKind, at);
    match e {
        Expr::Num(_) | Expr::Bool(_) => at + 1,
        Expr::Var(x) => {
            first.note_if(names.kind_of_variable(*x).is_none(), Rule::Unknown, at);
            at + 1
        }
        Expr::Tag(of, name) => {
            tag(names, *of, *name, at, first);
            at + 3
        }
        Expr::Size(set) => {
            first.note_some(names.size_rule(set), at + 1);
            at + 2
        }
        Expr::Paren(e) => expression(names, None, e, at + 1, first) + 1,
        Expr::Un(op, e) => expression(names, Some(unary_kind(*op)), e, at + 1, first),
        Expr::Bin(op, e, f) => {
            let next = expression(names, operand_kind(*op), e, at, first);
            let want = right_kind(*op, names.kind_of(e));
            expression(names, want, f, next + 1, first)
        }
    }
}
