//! Names of classes, members and types.
ghost use Rattle.std.specs.Prelude.{◌≡◌, IfOk, ℕ, List};
ghost use Rattle.std.specs.Arc.{arc_slice_items};
ghost use Rattle.std.specs.Str.{bytes_eq};
ghost use Rattle.std.specs.Hash as fed;
ghost use Rattle.std.specs.Cmp.{partial_equiv_from_equiv};
ghost use Rattle.std.specs.Cmp.Rules.{hashing};
ghost use Rattle.std.proofs.Common.{rules};
ghost use Rattle.std.proofs.lemmas.Cmp.{nat_list_eq_equiv};

use std::alloc::{AllocError, Global};
use std::fmt;
use std::hash::{Hash, Hasher};
use std::marker::Model;
use std::sync::ArcSlice;

/// The name of a class, field or method, or a descriptor, as its ASCII bytes (JVMS 4.2, 4.3): `java/lang/Object`,
/// `main`, `()V`, `[I`. A contract sees the list of the bytes. Which bytes make a good name is reported by
/// `good_names`. The bytes are kept once, however many names share them.
#[derive(Debug, Drop)]
pub struct Name {
    bytes: ArcSlice<u8, Global>,
}

impl Model for Name {
    ghost Value = { List ℕ };

    ghost view = { λ a. arc_slice_items a.bytes };
}

impl Name {
    /// The name with these bytes. `AllocError` where memory runs out.
    pub fn new(bytes: Vec<u8>) -> Result<Name, AllocError>
        ensures { IfOk result (λ name. name ≡ bytes.items) }
    {
        let bytes = ArcSlice::from_vec(bytes)?;
        Ok(Name { bytes })
    }

    /// A name with a copy of these bytes. `AllocError` where memory runs out.
    pub fn copy_of(alloc: Global, bytes: &[u8]) -> Result<Name, AllocError>
        ensures { IfOk result (λ name. name ≡ bytes.now) }
    {
        Name::new(Vec::from_slice(alloc, bytes)?)
    }

    /// The same name, which shares the bytes: none is copied. `AllocError` where the count of those that share them is
    /// full, at 2^63.
    pub fn share(&self) -> Result<Name, AllocError>
        ensures { IfOk result (λ name. name ≡ self.now) }
    {
        let bytes = self.bytes.clone()?;
        Ok(Name { bytes })
    }

    /// Whether the name is this text.
    pub fn is(&self, text: &str) -> bool
        ensures { result ≡ bytes_eq self.now text.now }
    {
        self.bytes.as_slice() == text.as_bytes()
    }

    /// The bytes, in order.
    pub fn as_bytes(&self) -> &[u8]
        ensures { result.now ≡ self.now }
    {
        self.bytes.as_slice()
    }
}

/// Names are equal where their bytes are.
impl PartialEq for Name {
    ghost eq = { bytes_eq };

    ghost laws = { partial_equiv_from_equiv nat_list_eq_equiv };

    fn eq(&self, other: &Name) -> bool {
        self.as_bytes() == other.as_bytes()
    }
}

impl Eq for Name {
    ghost laws = { nat_list_eq_equiv };
}

impl Hash for Name {
    ghost hash_input = { fed.slice fed.u8 };

    ghost respects_eq = { Prim.search (hashing, rules) };

    fn hash<H: Hasher>(&self, state: &mut H) {
        self.as_bytes().hash(state);
    }
}

impl fmt::Display for Name {
    fn fmt<W: fmt::Write>(&self, f: &mut fmt::Formatter<W>) -> fmt::Result {
        for byte in self.bytes.as_slice() {
            f.write_char(char::from(*byte))?;
        }
        Ok(())
    }
}

/// A field or a method by name, as an instruction of a listing refers to it (JVMS 5.1): the class to begin the search
/// at, and the member's name and descriptor.
#[derive(Debug, PartialEq, Eq, Drop)]
pub struct Member {
    pub class: Name,
    pub name: Name,
    pub descriptor: Name,
}
