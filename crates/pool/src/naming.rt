//! What constant-pool indices name: texts, classes, members and constants in place of them.

ghost use Rattle.std.specs.Prelude.{◌≡◌, IfOk};
ghost use Rattle.model.specs.ClassFiles.Listing.{name_at, class_at, reference_of, member_at, int_of, long_of, value_of};
ghost use Rattle.model.specs.ClassFiles.Pools.{entry_at};

use crate::pools::Pool;
use model::class_files::Entry;
use model::listings::Constant;
use model::names::{Member, Name};
use std::alloc::AllocError;

impl Pool {
    /// The text under a number, which shares its bytes with the pool; no bytes where it is no text's.
    pub fn name(&self, number: u16) -> Result<Name, AllocError>
        ensures { IfOk result (λ name. name ≡ name_at self.now number) }
    {
        match self.entry(number) {
            Some(Entry::Utf8(text)) => text.share(),
            _ => Name::new(Vec::new(self.alloc())),
        }
    }

    /// The name of the class, or the descriptor of the array, under a number; no bytes where it is neither's.
    pub fn class_name(&self, number: u16) -> Result<Name, AllocError>
        ensures { IfOk result (λ name. name ≡ class_at self.now number) }
    {
        self.name(self.class(number).unwrap_or(0))
    }

    /// The numbers of a reference's class and of its name and descriptor; zeros where there is no reference.
    fn reference(&self, number: u16) -> (u16, u16)
        ensures { result ≡ reference_of (entry_at self.now number) }
    {
        match self.entry(number) {
            Some(Entry::Fieldref(class, member)) => (*class, *member),
            Some(Entry::Methodref(class, member)) => (*class, *member),
            Some(Entry::InterfaceMethodref(class, member)) => (*class, *member),
            _ => (0, 0),
        }
    }

    /// The field or the method that the reference under a number names; its names have no bytes where there is none.
    pub fn member(&self, number: u16) -> Result<Member, AllocError>
        ensures { IfOk result (λ member. member ≡ member_at self.now number) }
    {
        let (class, member) = self.reference(number);
        let (name, descriptor) = self.name_and_type(member).unwrap_or((0, 0));
        Ok(Member {
            class: self.class_name(class)?,
            name: self.name(name)?,
            descriptor: self.name(descriptor)?,
        })
    }

    /// The number that the Integer under a number holds; 0 where there is none.
    pub fn int(&self, number: u16) -> i32
        ensures { result ≡ int_of (entry_at self.now number) }
    {
        match self.entry(number) {
            Some(Entry::Integer(z)) => *z,
            _ => 0,
        }
    }

    /// The number that the Long under a number holds; 0 where there is none.
    pub fn long(&self, number: u16) -> i64
        ensures { result ≡ long_of (entry_at self.now number) }
    {
        match self.entry(number) {
            Some(Entry::Long(z)) => *z,
            _ => 0,
        }
    }

    /// The value that a field with this number in its ConstantValue begins with, if it is an Integer's or a Long's.
    pub fn value(&self, number: u16) -> Option<Constant>
        ensures { result ≡ value_of (entry_at self.now number) }
    {
        match self.entry(number)? {
            Entry::Integer(z) => Some(Constant::Int(*z)),
            Entry::Long(z) => Some(Constant::Long(*z)),
            _ => None,
        }
    }
}
