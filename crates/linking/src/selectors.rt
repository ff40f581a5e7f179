//! Selectors: numbers for the names and descriptors that a program calls on objects.
ghost use Rattle.std.specs.Prelude.{◌≡◌, [], map, IfOk, OnOk};
ghost use Rattle.std.specs.List.{position};
ghost use Rattle.linking.specs.Selectors.{is_signature, selector_of, with_called, with_classes, with_code};
ghost use Rattle.linking.specs.Selectors.{with_instructions, with_member, with_methods, with_signature};

use indexmap::IndexSet;
use model::instructions::{Instruction, Invocation};
use model::listings::{Code, Listed, Listing, Method, Placed};
use model::names::Member;
use resolve::keys::NameKey;
use std::alloc::{AllocError, Global};
use std::marker::Model;

/// Names with their descriptors, each pair once, in the order in which they came. A contract sees their list.
#[derive(Drop)]
pub(crate) struct Signatures<'a> {
    pairs: IndexSet<(NameKey<'a>, NameKey<'a>)>,
}

impl<'a> Model for Signatures<'a> {
    ghost use Rattle.std.specs.Prelude.{List, map};
    ghost use Rattle.linking.specs.Selectors.{Signature};

    ghost Value = { List Signature };

    ghost view = { λ a. map (λ s. (s.0.bytes.now, s.1.bytes.now)) a.pairs.keys };
}

impl<'a> Signatures<'a> {
    /// None.
    fn new(alloc: Global) -> Signatures<'a>
        ensures { result ≡ [] }
    {
        Signatures {
            pairs: IndexSet::new(alloc),
        }
    }

    /// Adds the name and descriptor of a method where they aren't there. `AllocError` where memory runs out, here and
    /// below.
    fn add(&mut self, member: &'a Member) -> Result<(), AllocError>
        ensures { OnOk result (self.new ≡ with_signature self.old (member.now.name, member.now.descriptor)) }
    {
        self.pairs.insert((
            NameKey {
                bytes: member.name.as_bytes(),
            },
            NameKey {
                bytes: member.descriptor.as_bytes(),
            },
        ))?;
        Ok(())
    }

    /// Adds what an instruction calls on an object.
    fn add_called(&mut self, instruction: &'a Listed) -> Result<(), AllocError>
        ensures { OnOk result (self.new ≡ with_called self.old instruction.now) }
    {
        match instruction {
            Instruction::Invoke(Invocation::Virtual, member)
            | Instruction::Invoke(Invocation::Interface(_), member) => self.add(member),
            _ => Ok(()),
        }
    }

    fn add_instructions(&mut self, instructions: &'a [Placed]) -> Result<(), AllocError>
        ensures { OnOk result (self.new ≡ with_instructions self.old instructions.now) }
    {
        for placed in instructions {
            self.add_called(&placed.instruction)?;
        }
        Ok(())
    }

    fn add_code(&mut self, code: &'a Option<Code>) -> Result<(), AllocError>
        ensures { OnOk result (self.new ≡ with_code self.old code.now) }
    {
        match code {
            Some(code) => self.add_instructions(&code.instructions),
            None => Ok(()),
        }
    }

    fn add_methods(&mut self, methods: &'a [Method]) -> Result<(), AllocError>
        ensures { OnOk result (self.new ≡ with_methods self.old methods.now) }
    {
        for method in methods {
            self.add_code(&method.code)?;
        }
        Ok(())
    }

    fn add_classes(&mut self, classes: &'a [Listing]) -> Result<(), AllocError>
        ensures { OnOk result (self.new ≡ with_classes self.old classes.now) }
    {
        for class in classes {
            self.add_methods(&class.methods)?;
        }
        Ok(())
    }

    /// The place of a name and descriptor.
    fn place(&self, name: &[u8], descriptor: &[u8]) -> Option<usize>
        ensures { result ≡ position (is_signature (name.now, descriptor.now)) self.now }
    {
        self.pairs
            .get_index_of(&(NameKey { bytes: name }, NameKey { bytes: descriptor }))
    }

    /// The names with their descriptors, in order.
    pub fn as_slice(&self) -> &[(NameKey<'a>, NameKey<'a>)]
        ensures { map (λ s. (s.0.bytes.now, s.1.bytes.now)) result.now ≡ self.now }
    {
        self.pairs.as_slice()
    }
}

/// The numbers of the names and descriptors that an `invokevirtual` or `invokeinterface` of a program names. A contract
/// sees the program.
#[derive(Drop)]
pub struct Selectors<'a> {
    program: &'a [Listing],
    called: Signatures<'a>,
}

impl<'a> Model for Selectors<'a> {
    ghost use Rattle.std.specs.Prelude.{◌≡◌, List};
    ghost use Rattle.model.specs.ClassListings.{ClassListing};
    ghost use Rattle.linking.specs.Selectors.{selectors};

    ghost Value = { List ClassListing };

    ghost view = { λ a. a.program.now };

    ghost invariant = { λ a. a.called ≡ selectors a.program.now };
}

impl<'a> Selectors<'a> {
    ghost use Rattle.linking.specs.Selectors.{selectors};

    /// The selectors of a program. `AllocError` where memory runs out.
    pub fn new(alloc: Global, program: &'a [Listing]) -> Result<Selectors<'a>, AllocError>
        ensures { IfOk result (λ selectors. selectors ≡ program.now) }
    {
        let mut called = Signatures::new(alloc);
        called.add_classes(program)?;
        Ok(Selectors { program, called })
    }

    /// The selector of a name and descriptor: their place among all these pairs in the order of the program. `None`
    /// where no such instruction names them.
    pub fn number(&self, name: &[u8], descriptor: &[u8]) -> Option<usize>
        ensures { result ≡ selector_of self.now name.now descriptor.now }
    {
        self.called.place(name, descriptor)
    }

    /// The names with their descriptors, in the order of the selectors.
    pub(crate) fn as_slice(&self) -> &[(NameKey<'a>, NameKey<'a>)]
        ensures { map (λ s. (s.0.bytes.now, s.1.bytes.now)) result.now ≡ selectors self.now }
    {
        self.called.as_slice()
    }
}
