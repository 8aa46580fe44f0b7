//! The kinds of a role's variables, and of values.
ghost use Rattle.std.specs.Prelude.{◌≡◌};
ghost use Rattle.brisk_syntax.specs.Declarations.{decls_of, kind_in, role_named};
ghost use Rattle.brisk_seq.specs.Sequential as spec;

use brisk_syntax::{Decl, Decls, Names, Roles};
use brisk_values::{Kind, Name, Value, Values, kind_of, same_kind};

// The kind of a variable, where it is declared.
fn declared_kind(decls: &[Decl], variable: &Name) -> Option<Kind>
    ensures { result ≡ kind_in decls.now variable.now }
{
    for decl in decls {
        let (name, kind) = match decl {
            Decl::Var(name, kind, _) => (name, kind),
            Decl::Input(name, kind) => (name, kind),
        };
        if variable == name {
            return Some(*kind);
        }
    }
    None
}

// The declarations of a role, and none where there is no such role.
fn decls_in<'a>(roles: &'a Roles, role: &Name) -> &'a [Decl]
    ensures { result.now ≡ decls_of (role_named roles.now role.now) }
{
    for r in &roles.items {
        if role == &r.name {
            return &r.decls.items;
        }
    }
    &[]
}

fn is_of_kind(kind: &Option<Kind>, value: &Value) -> bool
    ensures { result ≡ spec.is_of_kind kind.now value.now }
{
    match kind {
        None => false,
        Some(kind) => same_kind(kind, &kind_of(value)),
    }
}

/// Whether there are as many values as variables of the role, each of its variable's kind.
pub fn are_of_kinds(roles: &Roles, role: &Name, vars: &Names, values: &Values) -> bool
    ensures { result ≡ spec.are_of_kinds (kind_in (decls_of (role_named roles.now role.now))) vars.now values.now }
{
    let decls = decls_in(roles, role);
    let xs = vars.items.as_slice();
    let vs = values.items.as_slice();
    if xs.len() != vs.len() {
        return false;
    }
    for i in 0..xs.len() {
        if !is_of_kind(&declared_kind(decls, &xs[i]), &vs[i]) {
            return false;
        }
    }
    true
}
