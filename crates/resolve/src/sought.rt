//! What is sought in classes: fields, methods, and methods that can be selected for an object.
ghost use Rattle.std.specs.Prelude.{◌≡◌, Option};
ghost use Rattle.std.specs.Option.{option_copied};
ghost use Rattle.model.specs.ClassListings.{ClassListing};
ghost use Rattle.model.specs.Classes.Resolution.{field_of, method_of};
ghost use Rattle.model.specs.Classes.Selection.{virtual_of};

use crate::members::{Members, field_of, method_of, virtual_of};
use model::listings::{Field, Listing, Method};

/// A name and a descriptor for which a class may declare a member.
pub trait Sought {
    type Member;

    ghost of: { Self → ClassListing → Option Self.Member };

    /// The member that a class declares, sought among all.
    fn of<'c>(&self, class: &'c Listing) -> Option<&'c Self::Member>
        ensures { option_copied result ≡ of self.now class.now };

    /// The member that a class declares, looked up.
    fn find_in<'c>(&self, members: &'c Members<'_>) -> Option<&'c Self::Member>
        ensures { option_copied result ≡ of self.now members.now };
}

/// A field.
#[derive(Clone, Copy)]
pub struct SoughtField<'m> {
    pub name: &'m [u8],
    pub descriptor: &'m [u8],
}

impl<'m> Sought for SoughtField<'m> {
    type Member = Field;

    ghost of = { λ s. field_of s.name.now s.descriptor.now };

    fn of<'c>(&self, class: &'c Listing) -> Option<&'c Field> {
        field_of(class, self.name, self.descriptor)
    }

    fn find_in<'c>(&self, members: &'c Members<'_>) -> Option<&'c Field> {
        members.field(self.name, self.descriptor)
    }
}

/// A method, be it static or private.
#[derive(Clone, Copy)]
pub struct SoughtMethod<'m> {
    pub name: &'m [u8],
    pub descriptor: &'m [u8],
}

impl<'m> Sought for SoughtMethod<'m> {
    type Member = Method;

    ghost of = { λ s. method_of s.name.now s.descriptor.now };

    fn of<'c>(&self, class: &'c Listing) -> Option<&'c Method> {
        method_of(class, self.name, self.descriptor)
    }

    fn find_in<'c>(&self, members: &'c Members<'_>) -> Option<&'c Method> {
        members.method(self.name, self.descriptor)
    }
}

/// A method that is neither static nor private.
#[derive(Clone, Copy)]
pub struct SoughtVirtual<'m> {
    pub name: &'m [u8],
    pub descriptor: &'m [u8],
}

impl<'m> Sought for SoughtVirtual<'m> {
    type Member = Method;

    ghost of = { λ s. virtual_of s.name.now s.descriptor.now };

    fn of<'c>(&self, class: &'c Listing) -> Option<&'c Method> {
        virtual_of(class, self.name, self.descriptor)
    }

    fn find_in<'c>(&self, members: &'c Members<'_>) -> Option<&'c Method> {
        members.virtual_method(self.name, self.descriptor)
    }
}
