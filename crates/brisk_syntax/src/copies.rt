//! Copies of programs, which share the code of their roles.
ghost use Rattle.std.specs.Prelude.{◌≡◌, IfOk};
ghost use Rattle.brisk_syntax.specs.Texts.{text_of};

use crate::copy::copy_names;
use crate::program::{Channel, Channels, Decls, EnumDecl, Enums, Kinds, Program, Role, Roles};
use brisk_values::NoMemory;
use std::alloc::Global;

fn copy_enum(alloc: Global, decl: &EnumDecl) -> Result<EnumDecl, NoMemory>
    ensures { IfOk result (λ d. d ≡ decl.now) }
{
    Ok(EnumDecl {
        name: decl.name,
        tags: copy_names(alloc, &decl.tags)?,
    })
}

fn copy_enums(alloc: Global, enums: &Enums) -> Result<Enums, NoMemory>
    ensures { IfOk result (λ e. e ≡ enums.now) }
{
    let mut items = Vec::new(alloc);
    for decl in &enums.items {
        items.push(copy_enum(alloc, decl)?)?;
    }
    Ok(Enums { items })
}

fn copy_channel(alloc: Global, channel: &Channel) -> Result<Channel, NoMemory>
    ensures { IfOk result (λ c. c ≡ channel.now) }
{
    Ok(Channel {
        name: channel.name,
        kinds: Kinds {
            items: Vec::from_slice(alloc, &channel.kinds.items)?,
        },
        loose: channel.loose,
    })
}

fn copy_channels(alloc: Global, channels: &Channels) -> Result<Channels, NoMemory>
    ensures { IfOk result (λ c. c ≡ channels.now) }
{
    let mut items = Vec::new(alloc);
    for channel in &channels.items {
        items.push(copy_channel(alloc, channel)?)?;
    }
    Ok(Channels { items })
}

// The same role, which shares its code.
fn copy_role(alloc: Global, role: &Role) -> Result<Role, NoMemory>
    ensures { IfOk result (λ r. text_of r ≡ text_of role.now) }
{
    Ok(Role {
        name: role.name,
        many: role.many,
        nonempty: role.nonempty,
        decls: Decls {
            items: Vec::from_slice(alloc, &role.decls.items)?,
        },
        code: role.code.clone()?,
    })
}

fn copy_roles(alloc: Global, roles: &Roles) -> Result<Roles, NoMemory>
    ensures { IfOk result (λ r. r ≡ roles.now) }
{
    let mut items = Vec::new(alloc);
    for role in &roles.items {
        items.push(copy_role(alloc, role)?)?;
    }
    Ok(Roles { items })
}

/// The same program, which shares the code of its roles.
pub fn copy_program(alloc: Global, program: &Program) -> Result<Program, NoMemory>
    ensures { IfOk result (λ p. p ≡ program.now) }
{
    Ok(Program {
        enums: copy_enums(alloc, &program.enums)?,
        channels: copy_channels(alloc, &program.channels)?,
        roles: copy_roles(alloc, &program.roles)?,
    })
}
