//! Numbers and values, written at the end of a text.
ghost use Rattle.std.specs.Prelude.{◌≡◌, ◌++◌, IfOk, OnOk};
ghost use Rattle.std.specs.Fmt.{decimal};
ghost use Rattle.brisk_text.specs.Values as text;

use brisk_values::{Name, NoMemory, Value};
use itoa::Buffer;
use std::alloc::Global;

/// Writes the bytes at the end.
pub fn put(out: &mut Vec<u8>, bytes: &[u8]) -> Result<(), NoMemory>
    ensures { OnOk result (out.new.items ≡ out.old.items ++ bytes.now) }
{
    out.extend_from_slice(bytes)?;
    Ok(())
}

/// Writes the decimal number.
pub fn put_number(out: &mut Vec<u8>, number: u64) -> Result<(), NoMemory>
    ensures { OnOk result (out.new.items ≡ out.old.items ++ decimal number) }
{
    let mut buffer = Buffer::new();
    put(out, buffer.format(number).as_bytes())
}

/// Writes `true` or `false`.
pub fn put_truth(out: &mut Vec<u8>, truth: bool) -> Result<(), NoMemory>
    ensures { OnOk result (out.new.items ≡ out.old.items ++ text.truth truth) }
{
    if truth {
        put(out, b"true")
    } else {
        put(out, b"false")
    }
}

/// Writes the enumeration, a dot and the tag.
pub fn put_tag(out: &mut Vec<u8>, enumeration: &Name, tag: &Name) -> Result<(), NoMemory>
    ensures { OnOk result (out.new.items ≡ out.old.items ++ text.tag enumeration.now tag.now) }
{
    put(out, enumeration.bytes())?;
    put(out, b".")?;
    put(out, tag.bytes())
}

/// Writes a value as `print_value` does.
pub fn put_value(out: &mut Vec<u8>, value: &Value) -> Result<(), NoMemory>
    ensures { OnOk result (out.new.items ≡ out.old.items ++ text.value_text value.now) }
{
    match value {
        Value::Int(n) => put(out, Buffer::new().format(*n).as_bytes()),
        Value::Bool(b) => put_truth(out, *b),
        Value::Tag(enumeration, tag) => put_tag(out, enumeration, tag),
    }
}

/// The decimal number, `true`, `false`, or the enumeration, a dot and the tag.
pub fn print_value(alloc: Global, value: &Value) -> Result<Vec<u8>, NoMemory>
    ensures { IfOk result (λ v. v.items ≡ text.value_text value.now) }
{
    let mut out = Vec::new(alloc);
    put_value(&mut out, value)?;
    Ok(out)
}
