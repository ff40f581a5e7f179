//! Labels by name.
ghost use Rattle.std.specs.Prelude.{◌≡◌, [], ◌∷◌, ◌++◌, None, OnOk};
ghost use Rattle.model.specs.Texts.Tables.{named};

use indexmap::IndexMap;
use std::alloc::{AllocError, Global};
use std::marker::Model;

/// Labels, each once, with what is known of it. A contract sees their list, in the order in which they were noted.
#[derive(Drop)]
pub struct Labels<'a, T: Copy> {
    table: IndexMap<&'a [u8], T>,
}

impl<'a, T: Copy> Model for Labels<'a, T> {
    ghost use Rattle.std.specs.Prelude.{List, ℕ, map};

    ghost Value = { List (List ℕ × T) };

    ghost view = { λ a. map (λ e. (e.0.now, e.1)) a.table.entries };
}

impl<'a, T: Copy> Labels<'a, T> {
    /// No labels.
    pub fn new(alloc: Global) -> Labels<'a, T>
        ensures { result ≡ [] }
    {
        Labels {
            table: IndexMap::new(alloc),
        }
    }

    /// What is known of a label, if it was noted.
    pub fn get(&self, name: &[u8]) -> Option<T>
        ensures { result ≡ named self.now name.now }
    {
        self.table.get(name).copied()
    }

    /// Notes a label that wasn't noted yet.
    pub fn note(&mut self, name: &'a [u8], known: T) -> Result<(), AllocError>
        requires { named self.old name.now ≡ None }
        ensures { OnOk result (self.new ≡ self.old ++ (name.now, known) ∷ []) }
    {
        self.table.insert(name, known)?;
        Ok(())
    }
}
