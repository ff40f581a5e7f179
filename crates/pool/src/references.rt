//! What the entries of a pool name.

ghost use Rattle.std.specs.Prelude.{◌≡◌};
ghost use Rattle.std.specs.Option.{option_copied};
ghost use Rattle.model.specs.ClassFiles.Pools.{entry_at};
ghost use Rattle.model.specs.ClassFiles.References as references;
ghost use Rattle.pool.specs.Slots.{entries_in};
ghost use Rattle.pool.specs.Checks.{fault_in, member_test, both_pass};

use crate::pools::Pool;
use model::class_files::{Entry, FormatFault};

/// Whether a reference or a declaration is a field's or a method's.
#[derive(Clone, Copy, Debug, PartialEq, Eq)]
pub enum MemberKind {
    Field,
    Method,
}

/// Whether the units of a method's arguments, if its descriptor is one, are 255 at most.
fn fits_units(units: Option<usize>) -> bool
    ensures { result ≡ references.fits_units units }
{
    match units {
        None => false,
        Some(units) => units <= 255,
    }
}

impl Pool {
    /// The text under a number, if it is a Utf8's.
    pub fn text(&self, number: u16) -> Option<&[u8]>
        ensures { option_copied result ≡ references.text_at self.now number }
    {
        match self.entry(number)? {
            Entry::Utf8(text) => Some(text.as_bytes()),
            _ => None,
        }
    }

    /// The number of the name of the class under a number, if it is a class's.
    pub fn class(&self, number: u16) -> Option<u16>
        ensures { result ≡ references.class_of (entry_at self.now number) }
    {
        match self.entry(number)? {
            Entry::Class(name) => Some(*name),
            _ => None,
        }
    }

    /// The numbers of the name and the descriptor under a number, if it is a NameAndType's.
    pub fn name_and_type(&self, number: u16) -> Option<(u16, u16)>
        ensures { result ≡ references.name_and_type_of (entry_at self.now number) }
    {
        match self.entry(number)? {
            Entry::NameAndType(name, descriptor) => Some((*name, *descriptor)),
            _ => None,
        }
    }

    /// Whether a field may have the texts under these numbers as its name and descriptor.
    fn is_field(&self, name: u16, descriptor: u16) -> bool
        ensures { result ≡ both_pass references.is_field (references.text_at self.now name)
            (references.text_at self.now descriptor) }
    {
        self.is_field_name(name) && self.is_field_descriptor(descriptor)
    }

    /// Whether a method may be referred to by the texts under these numbers as its name and descriptor: its arguments
    /// take 255 units at most.
    fn is_method(&self, name: u16, descriptor: u16) -> bool
        ensures { result ≡ both_pass references.is_method (references.text_at self.now name)
            (references.text_at self.now descriptor) }
    {
        self.is_method_name(name) && fits_units(self.argument_units(descriptor))
    }

    /// Whether a member of this kind may have the texts under these numbers as its name and descriptor.
    fn is_member_of(&self, kind: MemberKind, name: u16, descriptor: u16) -> bool
        ensures { result ≡ both_pass (member_test kind) (references.text_at self.now name)
            (references.text_at self.now descriptor) }
    {
        match kind {
            MemberKind::Field => self.is_field(name, descriptor),
            MemberKind::Method => self.is_method(name, descriptor),
        }
    }

    /// That a class's name is one, or an array's descriptor. C6 where it is no text, else C7.
    fn check_class(&self, name: u16) -> Result<(), FormatFault>
        ensures { fault_in result ≡ references.class_fault (references.text_at self.now name) }
    {
        let Some(_) = self.text(name) else {
            return Err(FormatFault::Index);
        };
        if self.names_class(name) {
            Ok(())
        } else {
            Err(FormatFault::Name)
        }
    }

    /// That a name and a descriptor are a field's or a method's. C6 where one is no text, else C7.
    fn check_pair(&self, name: u16, descriptor: u16) -> Result<(), FormatFault>
        ensures { fault_in result ≡ references.pair_fault (references.text_at self.now name)
            (references.text_at self.now descriptor) }
    {
        let Some(_) = self.text(name) else {
            return Err(FormatFault::Index);
        };
        let Some(_) = self.text(descriptor) else {
            return Err(FormatFault::Index);
        };
        if self.is_field(name, descriptor) || self.is_method(name, descriptor) {
            Ok(())
        } else {
            Err(FormatFault::Name)
        }
    }

    /// That the texts of a member's name and descriptor suit its kind. C7 where they don't.
    fn check_texts(&self, kind: MemberKind, name: u16, descriptor: u16) -> Result<(), FormatFault>
        ensures { fault_in result ≡ references.texts_fault (member_test kind) (references.text_at self.now name)
            (references.text_at self.now descriptor) }
    {
        let Some(_) = self.text(name) else {
            return Ok(());
        };
        let Some(_) = self.text(descriptor) else {
            return Ok(());
        };
        if self.is_member_of(kind, name, descriptor) {
            Ok(())
        } else {
            Err(FormatFault::Name)
        }
    }

    /// That a reference names a class and a member's name and descriptor. C6 where an entry is of another kind, C7
    /// where the texts don't suit.
    fn check_member(&self, kind: MemberKind, class: u16, member: u16) -> Result<(), FormatFault>
        ensures { fault_in result ≡ references.member_fault self.now (member_test kind)
            (references.class_of (entry_at self.now class)) (references.name_and_type_of (entry_at self.now member)) }
    {
        if self.class(class).is_none() {
            return Err(FormatFault::Index);
        }
        match self.name_and_type(member) {
            None => Err(FormatFault::Index),
            Some((name, descriptor)) => self.check_texts(kind, name, descriptor),
        }
    }

    /// That an entry names what it should. C6 where it names an entry of another kind or none, C7 where it names a text
    /// that isn't well formed.
    fn check_entry(&self, entry: &Entry) -> Result<(), FormatFault>
        ensures { fault_in result ≡ references.entry_fault self.now entry.now }
    {
        match entry {
            Entry::Utf8(_) | Entry::Integer(_) | Entry::Long(_) => Ok(()),
            Entry::Class(name) => self.check_class(*name),
            Entry::Fieldref(class, member) => self.check_member(MemberKind::Field, *class, *member),
            Entry::Methodref(class, member) => {
                self.check_member(MemberKind::Method, *class, *member)
            }
            Entry::InterfaceMethodref(class, member) => {
                self.check_member(MemberKind::Method, *class, *member)
            }
            Entry::NameAndType(name, descriptor) => self.check_pair(*name, *descriptor),
        }
    }

    /// That each of these entries names what it should in this pool. The fault is that of the first that doesn't.
    pub fn check_entries(&self, slots: &[Option<Entry>]) -> Result<(), FormatFault>
        ensures { fault_in result ≡ references.first_fault self.now (entries_in slots.now) }
    {
        for slot in slots {
            if let Some(entry) = slot {
                self.check_entry(entry)?;
            }
        }
        Ok(())
    }
}
