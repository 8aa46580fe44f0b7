//! The codes with which a machine starts.
ghost use Rattle.std.specs.Prelude.{◌≡◌, IfOk, OnOk};
ghost use Rattle.std.specs.FinMap as map;
ghost use Rattle.brisk_syntax.specs.Value.{size_in};
ghost use Rattle.brisk_async.specs.Begun.{with_code, with_codes};

use crate::codes::Codes;
use brisk_instance::members_of;
use brisk_syntax::{Role, Roles, code_from, copy_code};
use brisk_values::{NoMemory, Pid, Sizes};
use std::alloc::Global;

// Adds the role's code for each of its processes, which share it.
fn add_codes(alloc: Global, codes: &mut Codes, role: &Role, members: u32) -> Result<(), NoMemory>
    ensures { OnOk result (codes.new ≡ with_code role.now.name role.now.code.value members codes.old) }
{
    let code = code_from(alloc, &role.code)?;
    for member in 0..members {
        let process = Pid {
            role: role.name,
            member,
        };
        codes.add(process, copy_code(alloc, &code)?)?;
    }
    Ok(())
}

/// The code of each process.
pub fn start_codes(alloc: Global, roles: &Roles, sizes: &Sizes) -> Result<Codes, NoMemory>
    ensures { IfOk result (λ c. c ≡ with_codes (size_in sizes.now) roles.now map.empty) }
{
    let mut codes = Codes::new(alloc);
    for role in &roles.items {
        add_codes(alloc, &mut codes, role, members_of(role, sizes))?;
    }
    Ok(codes)
}
