//! Names as keys of maps.
ghost use Rattle.std.specs.Prelude.{length};
ghost use Rattle.std.specs.Str.{bytes_eq};
ghost use Rattle.std.specs.Hash as fed;
ghost use Rattle.std.specs.Cmp.Rules.{comparing, hashing};
ghost use Rattle.std.proofs.Common.{rules};

use std::hash::{Hash, Hasher};

/// The bytes of a name as a key of a map. They are hashed in one go and not byte by byte, since a name may have 65,535.
#[derive(Clone, Copy)]
pub struct NameKey<'a> {
    pub bytes: &'a [u8],
}

impl PartialEq for NameKey<'_> {
    ghost eq = { λ a b. bytes_eq a.bytes.now b.bytes.now };

    ghost laws = { Prim.search (comparing, rules) };

    fn eq(&self, other: &Self) -> bool {
        self.bytes == other.bytes
    }
}

impl Eq for NameKey<'_> {
    ghost laws = { Prim.search (comparing, rules) };
}

impl Hash for NameKey<'_> {
    ghost use Rattle.std.specs.Prelude.{◌∷◌, [], ◌++◌};

    ghost hash_input = { λ a. fed.usize (length a.bytes.now) ++ a.bytes.now ∷ [] };

    ghost respects_eq = { Prim.search (hashing, rules) };

    fn hash<H: Hasher>(&self, state: &mut H) {
        state.write_usize(self.bytes.len());
        state.write(self.bytes);
    }
}
