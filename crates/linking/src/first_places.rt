//! Where keys stand in a list.
ghost use Rattle.std.specs.Prelude.{◌≡◌, position, IfOk};
ghost use Rattle.indexmap.specs.IndexMap.{get};

use indexmap::IndexMap;
use std::alloc::{AllocError, Global};
use std::hash::Hash;

/// For each key the first place at which it stands. `AllocError` where memory runs out.
pub fn first_places<K: Eq + Hash + Copy>(
    alloc: Global,
    keys: &[K],
) -> Result<IndexMap<K, usize>, AllocError>
    ensures { IfOk result (λ places. (key : K) → get K.eq places key ≡ position (λ k. K.eq k key) keys.now) }
{
    let mut places = IndexMap::new(alloc);
    for place in (0..keys.len()).rev() {
        places.insert(keys[place], place)?;
    }
    Ok(places)
}
