//! Names, kinds and lists, written at the end of a text.
ghost use Rattle.std.specs.Prelude.{◌≡◌, ◌++◌, OnOk, map};
ghost use Rattle.brisk_print.specs.Layout as layout;

use brisk_text::put;
use brisk_values::{Kind, Name, NoMemory};

/// What is written in lists.
pub trait Piece {
    ghost use Rattle.std.specs.Prelude.{List, ℕ};

    ghost text: { Self → List ℕ };

    /// Writes the piece at the end.
    fn write(&self, out: &mut Vec<u8>) -> Result<(), NoMemory>
        ensures { OnOk result (out.new.items ≡ out.old.items ++ text self.now) };
}

impl Piece for Name {
    ghost text = { λ x. x };

    fn write(&self, out: &mut Vec<u8>) -> Result<(), NoMemory> {
        put(out, self.bytes())
    }
}

impl Piece for Kind {
    ghost use Rattle.brisk_print.specs.Layout.{kind};

    ghost text = { kind };

    fn write(&self, out: &mut Vec<u8>) -> Result<(), NoMemory> {
        match self {
            Kind::Int => put(out, b"int"),
            Kind::Bool => put(out, b"bool"),
            Kind::Enum(name) => put(out, name.bytes()),
        }
    }
}

/// Writes the pieces with a comma and a space between.
pub fn put_with_commas<T: Piece>(out: &mut Vec<u8>, items: &[T]) -> Result<(), NoMemory>
    ensures { OnOk result (out.new.items ≡ out.old.items ++ layout.with_commas (map T.text items.now)) }
{
    let Some((first, others)) = items.split_first() else {
        return Ok(());
    };
    first.write(out)?;
    for item in others {
        put(out, b", ")?;
        item.write(out)?;
    }
    Ok(())
}

/// Writes the pieces one after another.
pub fn put_all<T: Piece>(out: &mut Vec<u8>, items: &[T]) -> Result<(), NoMemory>
    ensures { OnOk result (out.new.items ≡ out.old.items ++ layout.joined (map T.text items.now)) }
{
    for item in items {
        item.write(out)?;
    }
    Ok(())
}
