//! The names that a program's states may have, by their places in a table.
ghost use Rattle.std.specs.Prelude.{◌≡◌, ℕ, List};
ghost use Rattle.exploring.specs.Keys.{place_of};

use indexmap::IndexSet;
use model::listings::Listing;
use model::names::Name;
use std::alloc::{AllocError, Global};
use std::marker::Model;

/// Names, each once. A contract sees their list.
#[derive(Drop)]
pub struct Names {
    names: IndexSet<Name>,
}

impl Model for Names {
    ghost Value = { List (List ℕ) };

    ghost view = { λ a. a.names.keys };
}

impl Names {
    /// The names of a program's classes and fields, with the fields' descriptors. Which ones there are decides how long
    /// keys are, and nothing else. `AllocError` where memory runs out.
    pub fn new(alloc: Global, program: &[Listing]) -> Result<Names, AllocError> {
        let mut names = IndexSet::new(alloc);
        for class in program {
            names.insert(class.name.share()?)?;
            for field in &class.fields {
                names.insert(field.name.share()?)?;
                names.insert(field.descriptor.share()?)?;
            }
        }
        Ok(Names { names })
    }

    /// The place of a name, if the table has it.
    pub fn place_of(&self, name: &Name) -> Option<usize>
        ensures { result ≡ place_of self.now name.now }
    {
        self.names.get_index_of(name)
    }
}
