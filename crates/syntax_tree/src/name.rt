//! Identifiers.

ghost use Rattle.std.specs.Prelude.{◌≡◌, ◌≤◌, length, take, IfOk};

use out_of_memory::OutOfMemory;
use std::alloc::Global;
use std::hash::{Hash, Hasher};
use std::marker::Model;

/// So many bytes of an identifier stand in its name, and need no allocation.
const SHORT: usize = 15;

/// At most 15 bytes, kept where they stand.
#[derive(Clone, Copy, Debug)]
struct ShortBytes {
    len: usize,
    room: [u8; SHORT],
    ghost within: { len ≤ 15 },
}

impl ShortBytes {
    fn new(bytes: &[u8]) -> ShortBytes
        requires short { length bytes.now ≤ 15 }
        ensures { take result.len result.room ≡ bytes.now }
    {
        let len = bytes.len();
        let mut room = [0; SHORT];
        room[..len].copy_from_slice(bytes);
        ShortBytes { len, room }
    }

    fn as_slice(&self) -> &[u8]
        ensures { result.now ≡ take self.now.len self.now.room }
    {
        &self.room[..self.len]
    }
}

#[derive(Debug, Drop)]
enum Bytes {
    Short(ShortBytes),
    Long(Vec<u8>),
}

/// The bytes of an identifier.
#[derive(Debug, Drop)]
pub struct Name {
    bytes: Bytes,
}

impl Model for Name {
    ghost use Rattle.std.specs.Prelude.{List, ℕ};
    ghost use Rattle.syntax_tree.specs.NameBytes.{bytes_of};

    ghost Value = { List ℕ };

    ghost view = { λ n. bytes_of n.bytes };
}

impl PartialEq for Name {
    ghost use Rattle.std.specs.Prelude.{nat_eq};
    ghost use Rattle.std.specs.Cmp.Lexicographic.{pointwise};
    ghost use Rattle.std.proofs.Common.{rules};
    ghost use Rattle.std.specs.Cmp.Rules.{comparing};

    ghost eq = { pointwise nat_eq };

    ghost laws = { Prim.search (comparing, rules) };

    fn eq(&self, other: &Name) -> bool {
        self.as_bytes() == other.as_bytes()
    }
}

impl Eq for Name {
    ghost use Rattle.std.proofs.Common.{rules};
    ghost use Rattle.std.specs.Cmp.Rules.{comparing};

    ghost laws = { Prim.search (comparing, rules) };
}

impl Name {
    pub fn new(alloc: Global, bytes: &[u8]) -> Result<Name, OutOfMemory>
        ensures { IfOk result (λ n. n ≡ bytes.now) }
    {
        let bytes = if bytes.len() <= SHORT {
            Bytes::Short(ShortBytes::new(bytes))
        } else {
            let mut long = Vec::with_capacity(alloc, bytes.len())?;
            long.extend_from_slice(bytes)?;
            Bytes::Long(long)
        };
        Ok(Name { bytes })
    }

    pub fn as_bytes(&self) -> &[u8]
        ensures { result.now ≡ self.now }
    {
        match &self.bytes {
            Bytes::Short(short) => short.as_slice(),
            Bytes::Long(long) => long.as_slice(),
        }
    }
}

impl Hash for Name {
    ghost use Rattle.std.specs.Hash as fed;
    ghost use Rattle.std.proofs.Common.{rules};
    ghost use Rattle.std.specs.Cmp.Rules.{comparing, hashing};

    ghost hash_input = { fed.slice fed.u8 };

    ghost respects_eq = { Prim.search (hashing, rules) };

    fn hash<H: Hasher>(&self, state: &mut H) {
        self.as_bytes().hash(state);
    }
}
