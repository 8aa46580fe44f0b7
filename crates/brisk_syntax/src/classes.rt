//! Whether a program is straight, or a star.
ghost use Rattle.std.specs.Prelude.{◌≡◌, ◌&&◌, not, true, filter};
ghost use Rattle.std.specs.List.{list_any, list_all};
ghost use Rattle.brisk_syntax.specs.Centres.{is_wanted, only_name};
ghost use Rattle.brisk_syntax.specs.Classes.{all_local as is_all_local, every, fits_star, in_centre as is_in_centre, is_local as is_local_in, is_star as is_star_of, is_straight as is_straight_of, talks_to};
ghost use Rattle.brisk_syntax.specs.Statements.{statement_of};
ghost use Rattle.brisk_syntax.specs.Texts.{text_of};

use crate::program::{Channels, Program, Role, Roles};
use crate::tree::{Block, Stmt, Who};
use brisk_values::Name;

#[cycle(local)]
fn is_local(s: &Stmt) -> bool
    ensures { result ≡ is_local_in (statement_of s.now) }
{
    match s {
        Stmt::Assign(_, _) => true,
        Stmt::If(_, a, None) => all_local(a),
        Stmt::If(_, a, Some(b)) => all_local(a) && all_local(b),
        _ => false,
    }
}

#[cycle(local)]
fn all_local(body: &Block) -> bool
    ensures { result ≡ is_all_local body.now }
{
    for s in &body.items {
        if !is_local(s) {
            return false;
        }
    }
    true
}

// Whether the partner has the name that is wanted, if one is.
fn is_partner(wanted: &Option<Name>, partner: &Who) -> bool
    ensures { result ≡ is_wanted wanted.now partner.now }
{
    let Some(wanted) = wanted else {
        return true;
    };
    match partner {
        Who::Name(name) => wanted == name,
        _ => false,
    }
}

fn talks(wanted: &Option<Name>, s: &Stmt) -> bool
    ensures { result ≡ talks_to (is_wanted wanted.now) (statement_of s.now) }
{
    match s {
        Stmt::Send(_, _, partner) | Stmt::Recv(_, _, partner) => is_partner(wanted, partner),
        _ => is_local(s),
    }
}

// Whether each statement is local, or talks to the wanted partner alone.
fn all_talk(wanted: &Option<Name>, body: &Block) -> bool
    ensures { result ≡ every (talks_to (is_wanted wanted.now)) body.now }
{
    for s in &body.items {
        if !talks(wanted, s) {
            return false;
        }
    }
    true
}

fn in_centre(s: &Stmt) -> bool
    ensures { result ≡ is_in_centre (statement_of s.now) }
{
    match s {
        Stmt::For(l) => all_talk(&Some(l.binder), &l.body),
        Stmt::Repeat(turns) => match turns.body.items.as_slice() {
            [Stmt::RecvAny(any)] => turns.set == any.set && all_talk(&Some(any.binder), &any.body),
            _ => false,
        },
        _ => is_local(s),
    }
}

fn all_in_centre(body: &Block) -> bool
    ensures { result ≡ every is_in_centre body.now }
{
    for s in &body.items {
        if !in_centre(s) {
            return false;
        }
    }
    true
}

// Whether a role can stand in a star with this centre.
fn fits(centre: &Name, role: &Role) -> bool
    ensures { result ≡ fits_star centre.now (text_of role.now) }
{
    if role.many {
        all_talk(&Some(*centre), &role.code)
    } else {
        all_in_centre(&role.code)
    }
}

fn all_fit(centre: &Name, roles: &Roles) -> bool
    ensures { result ≡ list_all (fits_star centre.now) roles.now }
{
    for role in &roles.items {
        if !fits(centre, role) {
            return false;
        }
    }
    true
}

// The name of the single role, where there is exactly one.
fn only_single(roles: &Roles) -> Option<Name>
    ensures { result ≡ only_name (filter (λ r. not r.many) roles.now) }
{
    let mut found = None;
    for role in &roles.items {
        if !role.many {
            if found.is_some() {
                return None;
            }
            found = Some(role.name);
        }
    }
    found
}

fn has_loose(channels: &Channels) -> bool
    ensures { result ≡ list_any (λ c. c.loose) channels.now }
{
    channels.items.iter().any(|c| c.loose)
}

fn all_straight(roles: &Roles) -> bool
    ensures { result ≡ list_all (λ r. not r.many && every (talks_to (λ u. true)) r.code) roles.now }
{
    for role in &roles.items {
        if role.many || !all_talk(&None, &role.code) {
            return false;
        }
    }
    true
}

/// Whether the program is straight: no loose channel, and single roles alone, with assignments, local choices, sends
/// and receives from a named sender. A local choice is an `if` whose sides are assignments and local choices.
pub fn is_straight(program: &Program) -> bool
    ensures { result ≡ is_straight_of program.now }
{
    !has_loose(&program.channels) && all_straight(&program.roles)
}

/// Whether the program is a star: no loose channel, and exactly one single role, the centre, with assignments, local
/// choices, and loops and gathers that talk to their own member alone; each set talks to the centre alone.
pub fn is_star(program: &Program) -> bool
    ensures { result ≡ is_star_of program.now }
{
    if has_loose(&program.channels) {
        return false;
    }
    match only_single(&program.roles) {
        None => false,
        Some(centre) => all_fit(&centre, &program.roles),
    }
}
