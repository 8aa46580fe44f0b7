//! Names.
ghost use Rattle.std.specs.Prelude.{◌≡◌, ◌++◌, ◌-◌, replicate, ◌<◌, ◌≤◌, ℕ, length, IsTrue, ◌↔◌, MatchOption, ◌⊎◌, ◌==◌};
ghost use Rattle.std.proofs.Common.{rules};
ghost use Rattle.std.specs.Cmp.{partial_order_from_own_ties, partial_equiv_from_equiv};
ghost use Rattle.std.specs.Cmp.Rules.{comparing};
ghost use Rattle.std.specs.Ordering.{nat_cmp, as_partial_cmp};
ghost use Rattle.std.specs.Cmp.Lexicographic.{slice_cmp};
ghost use lib.Pointwise.{pointwise};
ghost use Rattle.std.proofs.lemmas.Cmp.{nat_list_cmp_total, nat_list_eq_equiv};

use std::cmp::Ordering;
use std::fmt;
use std::marker::Model;
use std::str::from_utf8;

/// A name of 1 to 64 bytes. Names are ordered byte by byte.
#[derive(Clone, Copy)]
pub struct Name {
    padded: [u8; 64],
    len: usize,
}

impl Model for Name {
    ghost use Rattle.std.specs.Prelude.{List, ℕ};

    ghost Value = { List ℕ };

    ghost use Rattle.brisk_values.specs.Padding.{name_bytes, Padded, name_inside, name_inside-name_bytes};

    ghost view = { name_bytes };

    ghost invariant = { Padded };

    ghost inverse = { name_inside };

    ghost inverse_ok = { name_inside-name_bytes };
}

impl Name {
    /// The name with these bytes, of which there are 1 to 64. Whether they are text isn't looked at.
    pub fn of(bytes: &[u8]) -> Name
        requires some { 0 < length bytes.now }
        requires few { length bytes.now ≤ 64 }
        ensures { result ≡ bytes.now }
    {
        Name {
            padded: padded_of(bytes),
            len: bytes.len(),
        }
    }

    /// The same for any bytes.
    pub fn new(bytes: &[u8]) -> Option<Name>
        ensures { MatchOption result ((length bytes.now ≡ 0) ⊎ (64 < length bytes.now)) (λ n. (n ≡ bytes.now) × (0 < length bytes.now) × (length bytes.now ≤ 64)) }
    {
        let len = bytes.len();
        if len == 0 || len > 64 {
            return None;
        }
        Some(Name::of(bytes))
    }

    /// The bytes of the name.
    pub fn bytes(&self) -> &[u8]
        ensures { result.now ≡ self.now }
    {
        &self.padded[..self.len]
    }
}

// The bytes, and zeros after them.
fn padded_of(bytes: &[u8]) -> [u8; 64]
    requires { length bytes.now ≤ 64 }
    ensures { result ≡ bytes.now ++ replicate (64 - length bytes.now) 0 }
{
    let mut padded = [0u8; 64];
    for (i, b) in bytes.iter().enumerate() {
        padded[i] = *b;
    }
    padded
}

/// Whether two names are the same: `==`, with its meaning as a clause.
pub fn same_name(a: &Name, b: &Name) -> bool
    ensures { IsTrue result ↔ (a.now ≡ b.now) }
{
    a == b
}

impl PartialEq for Name {
    ghost eq = { pointwise ◌==◌ };

    ghost laws = { partial_equiv_from_equiv nat_list_eq_equiv };

    fn eq(&self, other: &Name) -> bool {
        self.bytes() == other.bytes()
    }
}

impl Eq for Name {
    ghost laws = { nat_list_eq_equiv };
}

impl Ord for Name {
    ghost cmp = { slice_cmp nat_cmp };

    ghost total = { nat_list_cmp_total };

    ghost matches_partial_cmp = { Prim.search (comparing, rules) };

    ghost matches_eq = { Prim.search (comparing, rules) };

    fn cmp(&self, other: &Name) -> Ordering {
        self.bytes().cmp(other.bytes())
    }
}

impl PartialOrd for Name {
    ghost partial_cmp = { as_partial_cmp (slice_cmp nat_cmp) };

    ghost laws = { partial_order_from_own_ties (Prim.search (comparing, rules)) (Prim.search (comparing, rules)) };

    fn partial_cmp(&self, other: &Name) -> Option<Ordering> {
        Some(self.cmp(other))
    }
}

impl fmt::Debug for Name {
    fn fmt<W: fmt::Write>(&self, f: &mut fmt::Formatter<W>) -> fmt::Result {
        match from_utf8(self.bytes()) {
            Ok(text) => write!(f, "{text}"),
            Err(_) => {
                let bytes = self.bytes();
                write!(f, "{bytes:?}")
            }
        }
    }
}
