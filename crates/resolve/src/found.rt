//! What a search for a member finds.

use model::listings::Listing;
use std::marker::Model;

/// A member that was found, and the class that declares it. A contract sees the member with the name of its class.
#[derive(Drop)]
pub struct Found<'a, M> {
    pub class: &'a Listing,
    pub member: &'a M,
}

impl<'a, M> Model for Found<'a, M> {
    ghost use Rattle.model.specs.Classes.Search.{Declared};

    ghost Value = { Declared M };

    ghost view = { λ a. record { class = a.class.now.name; member = a.member.now } };
}
