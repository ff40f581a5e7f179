//! Keys that come more than once.
ghost use Rattle.std.specs.Prelude.{◌≡◌, None, OnOk, OnErr};
ghost use Rattle.acceptance.specs.Repeats.{again, with_one_more, is_again};

use indexmap::IndexMap;
use std::alloc::{AllocError, Global};
use std::hash::Hash;

/// The keys that were noted, and of each whether it came again.
#[derive(Drop)]
pub struct Repeats<K: Eq + Hash> {
    came_again: IndexMap<K, bool>,
}

impl<K: Eq + Hash + Copy> Repeats<K> {
    /// No keys.
    pub fn new(alloc: Global) -> Repeats<K>
        ensures { (key : K) → again K.eq result key ≡ None }
    {
        Repeats {
            came_again: IndexMap::new(alloc),
        }
    }

    /// Notes a key. `AllocError` where memory runs out.
    pub fn note(&mut self, key: K) -> Result<(), AllocError>
        ensures { OnOk result ((k : K) → again K.eq self.new k ≡ with_one_more K.eq key (again K.eq self.old) k) }
    {
        let is_there = self.came_again.contains_key(&key);
        self.came_again.insert(key, is_there)?;
        Ok(())
    }

    /// Whether a key was noted more than once.
    pub fn has_again(&self, key: K) -> bool
        ensures { result ≡ is_again (again K.eq self.now key) }
    {
        self.came_again.get(&key).copied() == Some(true)
    }
}
