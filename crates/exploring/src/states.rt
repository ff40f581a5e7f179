//! The states that a search has found.
ghost use Rattle.std.specs.Prelude.{◌≡◌, List, [], IfOk, length};
ghost use Rattle.exploring.specs.States.{AddsState, HasStates};

use crate::chains::{Chains, Link};
use crate::names::Names;
use crate::pieces::add_state;
use ideal_run::worlds::World;
use indexmap::IndexSet;
use model::listings::Listing;
use std::alloc::{AllocError, Global};
use std::marker::Model;

/// States, each once, in the order in which they came: of each its key is kept, the last link of a chain that says all of
/// the state. A contract sees the table of names, the chains and the keys. Which states these are is said by `HasStates`.
#[derive(Drop)]
pub struct States {
    names: Names,
    chains: Chains,
    keys: IndexSet<Link>,
}

impl Model for States {
    ghost use Rattle.exploring.specs.States.{Stored};

    ghost Value = { Stored };

    ghost view = { λ a. record { table = a.names; chains = a.chains; keys = a.keys.keys } };
}

impl States {
    /// No states of a program's worlds. `AllocError` where memory runs out.
    pub fn new(alloc: Global, program: &[Listing]) -> Result<States, AllocError>
        ensures { IfOk result (λ states. HasStates states []) }
    {
        Ok(States {
            names: Names::new(alloc, program)?,
            chains: Chains::new(alloc),
            keys: IndexSet::new(alloc),
        })
    }

    /// How many there are.
    pub fn len(&self) -> usize
        ensures { result ≡ length self.now.keys }
    {
        self.keys.len()
    }

    /// Adds a state, unless it's there; whether it's new. `AllocError` where memory runs out.
    pub fn add(&mut self, alloc: Global, state: &World) -> Result<bool, AllocError>
        ensures { (states : List World) → HasStates self.old states
            → IfOk result (λ new. AddsState self.new states state.now new) }
    {
        add_state(&mut self.chains, alloc, &self.names, state)?;
        let key = self.chains.last_link();
        let (_, new) = self.keys.insert_full(key)?;
        Ok(new)
    }
}
