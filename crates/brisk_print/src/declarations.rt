//! Enumerations, channels, and roles with their declarations.
ghost use Rattle.std.specs.Prelude.{◌≡◌, ◌++◌, OnOk};
ghost use Rattle.brisk_syntax.specs.Texts.{text_of};
ghost use Rattle.brisk_print.specs.Layout as layout;

use crate::expressions::put_names;
use crate::pieces::{Piece, put_all, put_with_commas};
use brisk_syntax::{Channel, Const, Decl, EnumDecl, Role};
use brisk_text::{put, put_number, put_tag, put_truth};
use brisk_values::NoMemory;

fn put_constant(out: &mut Vec<u8>, constant: &Const) -> Result<(), NoMemory>
    ensures { OnOk result (out.new.items ≡ out.old.items ++ layout.constant constant.now) }
{
    match constant {
        Const::Num(negative, n) => {
            if *negative {
                put(out, b"-")?;
            }
            put_number(out, *n)
        }
        Const::Bool(b) => put_truth(out, *b),
        Const::Tag(enumeration, tag) => put_tag(out, enumeration, tag),
    }
}

fn put_declaration(out: &mut Vec<u8>, declaration: &Decl) -> Result<(), NoMemory>
    ensures { OnOk result (out.new.items ≡ out.old.items ++ layout.declaration declaration.now) }
{
    match declaration {
        Decl::Var(name, kind, constant) => {
            put(out, b"  var ")?;
            put(out, name.bytes())?;
            put(out, b" : ")?;
            kind.write(out)?;
            put(out, b" = ")?;
            put_constant(out, constant)?;
            put(out, b";\n")
        }
        Decl::Input(name, kind) => {
            put(out, b"  input ")?;
            put(out, name.bytes())?;
            put(out, b" : ")?;
            kind.write(out)?;
            put(out, b";\n")
        }
    }
}

impl Piece for Decl {
    ghost use Rattle.brisk_print.specs.Layout.{declaration};

    ghost text = { declaration };

    fn write(&self, out: &mut Vec<u8>) -> Result<(), NoMemory> {
        put_declaration(out, self)
    }
}

fn put_enumeration(out: &mut Vec<u8>, enumeration: &EnumDecl) -> Result<(), NoMemory>
    ensures { OnOk result (out.new.items ≡ out.old.items ++ layout.enumeration enumeration.now) }
{
    put(out, b"enum ")?;
    put(out, enumeration.name.bytes())?;
    put(out, b" { ")?;
    put_names(out, &enumeration.tags)?;
    put(out, b" }\n")
}

impl Piece for EnumDecl {
    ghost use Rattle.brisk_print.specs.Layout.{enumeration};

    ghost text = { enumeration };

    fn write(&self, out: &mut Vec<u8>) -> Result<(), NoMemory> {
        put_enumeration(out, self)
    }
}

fn channel_end(loose: bool) -> &'static [u8]
    ensures { result.now ≡ layout.channel_end loose }
{
    if loose { b") loose;\n" } else { b");\n" }
}

fn put_channel(out: &mut Vec<u8>, channel: &Channel) -> Result<(), NoMemory>
    ensures { OnOk result (out.new.items ≡ out.old.items ++ layout.channel channel.now) }
{
    put(out, b"channel ")?;
    put(out, channel.name.bytes())?;
    put(out, b"(")?;
    put_with_commas(out, &channel.kinds.items)?;
    put(out, channel_end(channel.loose))
}

impl Piece for Channel {
    ghost use Rattle.brisk_print.specs.Layout.{channel};

    ghost text = { channel };

    fn write(&self, out: &mut Vec<u8>) -> Result<(), NoMemory> {
        put_channel(out, self)
    }
}

fn role_word(many: bool) -> &'static [u8]
    ensures { result.now ≡ layout.role_word many }
{
    if many { b"many " } else { b"one " }
}

fn role_bracket(nonempty: bool) -> &'static [u8]
    ensures { result.now ≡ layout.role_bracket nonempty }
{
    if nonempty { b" nonempty {\n" } else { b" {\n" }
}

/// The first line of a role.
pub fn put_role_heading(out: &mut Vec<u8>, role: &Role) -> Result<(), NoMemory>
    ensures { OnOk result (out.new.items ≡ out.old.items ++ layout.role_heading (text_of role.now)) }
{
    put(out, role_word(role.many))?;
    put(out, role.name.bytes())?;
    put(out, role_bracket(role.many && role.nonempty))
}

// A role without its code.
fn put_declared_role(out: &mut Vec<u8>, role: &Role) -> Result<(), NoMemory>
    ensures { OnOk result (out.new.items ≡ out.old.items ++ layout.declared_role (text_of role.now)) }
{
    put_role_heading(out, role)?;
    put_all(out, &role.decls.items)?;
    put(out, b"}\n")
}

impl Piece for Role {
    ghost use Rattle.brisk_syntax.specs.Texts.{text_of};
    ghost use Rattle.brisk_print.specs.Layout.{declared_role};

    ghost text = { λ r. declared_role (text_of r) };

    fn write(&self, out: &mut Vec<u8>) -> Result<(), NoMemory> {
        put_declared_role(out, self)
    }
}
