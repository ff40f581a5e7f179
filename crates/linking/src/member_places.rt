//! The places of members in lists, by the classes that declare them, their names and their descriptors.
ghost use Rattle.std.specs.Prelude.{◌≡◌, map, IfOk};
ghost use Rattle.linking.specs.MemberPlaces.{Places, key_shown, place_of};

use crate::first_places::first_places;
use indexmap::IndexMap;
use resolve::keys::NameKey;
use std::alloc::{AllocError, Global};

/// The names of a class and of a member, and the member's descriptor.
pub type MemberKey<'a> = ((NameKey<'a>, NameKey<'a>), NameKey<'a>);

/// The key of a member: the name of its class, its own, and its descriptor.
pub fn member_key<'a>(class: &'a [u8], name: &'a [u8], descriptor: &'a [u8]) -> MemberKey<'a>
    ensures { key_shown result ≡ record { class = class.now; name = name.now; descriptor = descriptor.now } }
{
    (
        (NameKey { bytes: class }, NameKey { bytes: name }),
        NameKey { bytes: descriptor },
    )
}

/// For each of some members its first place in a list.
#[derive(Drop)]
pub struct MemberPlaces<'a> {
    places: IndexMap<MemberKey<'a>, usize>,
}

impl<'a> MemberPlaces<'a> {
    /// The places of these keys. `AllocError` where memory runs out.
    pub fn new(alloc: Global, keys: &[MemberKey<'a>]) -> Result<MemberPlaces<'a>, AllocError>
        ensures { IfOk result (λ places. Places places (map key_shown keys.now)) }
    {
        let places = first_places(alloc, keys)?;
        Ok(MemberPlaces { places })
    }

    /// The place of a member, if it has one.
    pub fn get(&self, class: &[u8], name: &[u8], descriptor: &[u8]) -> Option<usize>
        ensures { result ≡ place_of self.now (record {
          class = class.now;
          name = name.now;
          descriptor = descriptor.now;
        }) }
    {
        self.places
            .get(&member_key(class, name, descriptor))
            .copied()
    }
}
