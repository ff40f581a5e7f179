//! Fields and methods that one class declares.
ghost use Rattle.std.specs.Prelude.{◌≡◌, ◌&&◌, ◌||◌, ℕ, List, cond, not, IfOk, OnOk, Some, None};
ghost use Rattle.std.specs.List.{find};
ghost use Rattle.std.specs.Option.{option_copied};
ghost use Rattle.std.specs.Str.{bytes_eq};
ghost use Rattle.model.specs.Classes.Flags.{is_private, is_static};
ghost use Rattle.model.specs.Classes.Named.{or_else};
ghost use Rattle.model.specs.Classes.Resolution.{field_of, method_of};
ghost use Rattle.model.specs.Classes.Selection.{virtual_of};
ghost use Rattle.resolve.specs.Members.{IsAdded, found_under, FieldsAre, MethodsAre, VirtualsAre};

use crate::keys::NameKey;
use bitflags::Flags;
use indexmap::IndexMap;
use model::flags::MethodFlags;
use model::listings::{Field, Listing, Method};
use std::alloc::{AllocError, Global};
use std::marker::Model;

/// The field that a class declares under a name and descriptor.
pub fn field_of<'a>(class: &'a Listing, name: &[u8], descriptor: &[u8]) -> Option<&'a Field>
    ensures { option_copied result ≡ field_of name.now descriptor.now class.now }
{
    class.fields.iter().find(|field| field.name.as_bytes() == name
        && field.descriptor.as_bytes() == descriptor)
}

/// The method that a class declares under a name and descriptor.
pub fn method_of<'a>(class: &'a Listing, name: &[u8], descriptor: &[u8]) -> Option<&'a Method>
    ensures { option_copied result ≡ method_of name.now descriptor.now class.now }
{
    class.methods.iter().find(|method| method.name.as_bytes() == name
        && method.descriptor.as_bytes() == descriptor)
}

/// The method that a class declares for its objects under a name and descriptor: neither static nor private.
pub fn virtual_of<'a>(class: &'a Listing, name: &[u8], descriptor: &[u8]) -> Option<&'a Method>
    ensures { option_copied result ≡ virtual_of name.now descriptor.now class.now }
{
    class.methods.iter().find(|method| {
        method.name.as_bytes() == name
            && method.descriptor.as_bytes() == descriptor
            && is_virtual(method)
    })
}

/// Of each name and descriptor, the first member.
#[derive(Drop)]
struct FirstMembers<'a, M> {
    members: IndexMap<(NameKey<'a>, NameKey<'a>), &'a M>,
}

impl<'a, M> FirstMembers<'a, M> {
    fn new(alloc: Global) -> FirstMembers<'a, M>
        ensures { (name descriptor : List ℕ) → found_under result.members.entries name descriptor ≡ None }
    {
        FirstMembers {
            members: IndexMap::new(alloc),
        }
    }

    fn get(&self, name: &[u8], descriptor: &[u8]) -> Option<&'a M>
        ensures { option_copied result ≡ found_under self.now.members.entries name.now descriptor.now }
    {
        self.members
            .get(&(NameKey { bytes: name }, NameKey { bytes: descriptor }))
            .copied()
    }

    /// Adds a member, where none is there of its name and descriptor.
    fn add(&mut self, name: &'a [u8], descriptor: &'a [u8], member: &'a M) -> Result<(), AllocError>
        ensures { OnOk result
            (IsAdded self.old.members.entries self.new.members.entries name.now descriptor.now member.now) }
    {
        if self.get(name, descriptor).is_none() {
            self.members.insert(
                (NameKey { bytes: name }, NameKey { bytes: descriptor }),
                member,
            )?;
        }
        Ok(())
    }
}

fn first_fields<'a>(
    alloc: Global,
    fields: &'a [Field],
) -> Result<FirstMembers<'a, Field>, AllocError>
    ensures { IfOk result (λ found. FieldsAre fields.now found.members.entries) }
{
    let mut found = FirstMembers::new(alloc);
    for field in fields {
        found.add(field.name.as_bytes(), field.descriptor.as_bytes(), field)?;
    }
    Ok(found)
}

fn first_methods<'a>(
    alloc: Global,
    methods: &'a [Method],
) -> Result<FirstMembers<'a, Method>, AllocError>
    ensures { IfOk result (λ found. MethodsAre methods.now found.members.entries) }
{
    let mut found = FirstMembers::new(alloc);
    for method in methods {
        found.add(method.name.as_bytes(), method.descriptor.as_bytes(), method)?;
    }
    Ok(found)
}

fn is_virtual(method: &Method) -> bool
    ensures { result ≡ not (is_static method.now || is_private method.now) }
{
    !(method.flags.contains(MethodFlags::STATIC) || method.flags.contains(MethodFlags::PRIVATE))
}

fn first_virtuals<'a>(
    alloc: Global,
    methods: &'a [Method],
) -> Result<FirstMembers<'a, Method>, AllocError>
    ensures { IfOk result (λ found. VirtualsAre methods.now found.members.entries) }
{
    let mut found = FirstMembers::new(alloc);
    for method in methods {
        if is_virtual(method) {
            found.add(method.name.as_bytes(), method.descriptor.as_bytes(), method)?;
        }
    }
    Ok(found)
}

/// A class, with its members by their names and descriptors. A contract sees the class.
#[derive(Drop)]
pub struct Members<'a> {
    class: &'a Listing,
    fields: FirstMembers<'a, Field>,
    methods: FirstMembers<'a, Method>,
    virtuals: FirstMembers<'a, Method>,
}

impl<'a> Model for Members<'a> {
    ghost use Rattle.model.specs.ClassListings.{ClassListing};
    ghost use Rattle.resolve.specs.Members.{AreMembers};

    ghost Value = { ClassListing };

    ghost view = { λ a. a.class.now };

    ghost invariant = { λ a. AreMembers a.class.now a.fields.members.entries a.methods.members.entries
        a.virtuals.members.entries };
}

impl<'a> Members<'a> {
    /// The members of a class. `AllocError` where memory runs out.
    pub fn new(alloc: Global, class: &'a Listing) -> Result<Members<'a>, AllocError>
        ensures { IfOk result (λ members. members ≡ class.now) }
    {
        let fields = first_fields(alloc, &class.fields)?;
        let methods = first_methods(alloc, &class.methods)?;
        let virtuals = first_virtuals(alloc, &class.methods)?;
        Ok(Members {
            class,
            fields,
            methods,
            virtuals,
        })
    }

    /// The class.
    pub fn class(&self) -> &'a Listing
        ensures { result.now ≡ self.now }
    {
        self.class
    }

    /// The field that the class declares under a name and descriptor.
    pub fn field(&self, name: &[u8], descriptor: &[u8]) -> Option<&'a Field>
        ensures { option_copied result ≡ field_of name.now descriptor.now self.now }
    {
        self.fields.get(name, descriptor)
    }

    /// The method that the class declares under a name and descriptor.
    pub fn method(&self, name: &[u8], descriptor: &[u8]) -> Option<&'a Method>
        ensures { option_copied result ≡ method_of name.now descriptor.now self.now }
    {
        self.methods.get(name, descriptor)
    }

    /// The method that the class declares for its objects under a name and descriptor: neither static nor private.
    pub fn virtual_method(&self, name: &[u8], descriptor: &[u8]) -> Option<&'a Method>
        ensures { option_copied result ≡ virtual_of name.now descriptor.now self.now }
    {
        self.virtuals.get(name, descriptor)
    }
}

/// The members of each class of a program, in order. `AllocError` where memory runs out.
pub fn members_of_all<'a>(
    alloc: Global,
    program: &'a [Listing],
) -> Result<Vec<Members<'a>>, AllocError>
    ensures { IfOk result (λ members. members.items ≡ program.now) }
{
    let mut members = Vec::new(alloc);
    for class in program {
        members.push(Members::new(alloc, class)?)?;
    }
    Ok(members)
}
