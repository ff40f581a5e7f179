//! The numbers that a class file's pool has for what the class names.

ghost use Rattle.std.specs.Prelude.{◌≡◌, [], ◌∷◌, map, IfOk, OnOk, MatchResult};
ghost use Rattle.model.specs.ClassFiles.Items.{class_items, name_items, member_items};
ghost use Rattle.model.specs.ClassFiles.Items.Item.{text_item, int_item, long_item, class_item, name_item, field_item};
ghost use Rattle.model.specs.ClassFiles.Items.Item.{method_item, interface_item};
ghost use Rattle.classfile.specs.Classes.{IsClass};
ghost use Rattle.classfile.specs.Made.{made};
ghost use Rattle.classfile.specs.declared.error.ClassError.TheVariants as class_error;
ghost use Rattle.assembler.specs.Answers.{Gives, HasNumber, OnlyFull};
ghost use Rattle.assembler.specs.Assembled.{Grows};
ghost use Rattle.assembler.specs.Numbering.{entries_of, reference_items, reference_numbers, IsPool, said, IsEntry};

use crate::error::AsmError;
use classfile::{Body, ClassError, ClassFile};
use model::class_files::Entry;
use model::names::{Member, Name};
use pool::PoolBuilder;
use std::alloc::Global;
use std::marker::Model;

/// The pool of a class file in the making. What is asked for stands in it from then on, after what it names itself,
/// and once; its number stays, whatever is added later. A contract sees the items of the pool, in the order of their
/// numbers. A3 where the pool has no room, A5 where memory runs out; then what an entry names may have been added.
#[derive(Drop)]
pub(crate) struct Numbers {
    pool: PoolBuilder,
    alloc: Global,
}

impl Model for Numbers {
    ghost use Rattle.std.specs.Prelude.{List, ◌≡◌};
    ghost use Rattle.model.specs.ClassFiles.Items.{Item};
    ghost use Rattle.assembler.specs.Numbering.{entries_of, items_of, IsPool};

    ghost Value = { List Item };

    ghost view = { λ a. items_of a.pool };

    ghost invariant = { λ a. (a.pool ≡ entries_of (items_of a.pool)) × IsPool (items_of a.pool) };
}

impl Numbers {
    /// A pool with nothing in it.
    pub(crate) fn new(alloc: Global) -> Numbers
        ensures { result ≡ [] }
    {
        Numbers {
            pool: PoolBuilder::new(alloc),
            alloc,
        }
    }

    /// The number of a text.
    pub(crate) fn text(&mut self, text: &Name) -> Result<u16, AsmError>
        ensures found { HasNumber self.old (text_item text.now ∷ []) self.new (text_item text.now) result }
        ensures only { OnlyFull self.old (text_item text.now ∷ []) result }
        ensures pool { IsPool self.new }
    {
        // what the type says of a pool holds also where the text can't be shared
        let _ = &self.pool;
        let shared = text.share()?;
        self.entry(Entry::Utf8(shared))
    }

    /// The number of the name of an attribute.
    pub(crate) fn attribute(&mut self, name: &str) -> Result<u16, AsmError>
        ensures found { HasNumber self.old (text_item name.now ∷ []) self.new (text_item name.now) result }
        ensures only { OnlyFull self.old (text_item name.now ∷ []) result }
        ensures pool { IsPool self.new }
    {
        let copy = Name::copy_of(self.alloc, name.as_bytes())?;
        self.entry(Entry::Utf8(copy))
    }

    /// The number of an int.
    pub(crate) fn int(&mut self, value: i32) -> Result<u16, AsmError>
        ensures found { HasNumber self.old (int_item value ∷ []) self.new (int_item value) result }
        ensures only { OnlyFull self.old (int_item value ∷ []) result }
        ensures pool { IsPool self.new }
    {
        self.entry(Entry::Integer(value))
    }

    /// Gives ints their numbers, in their order.
    pub(crate) fn ints(&mut self, values: &[i32]) -> Result<(), AsmError>
        ensures added { OnOk result (Grows self.old (map int_item values.now) self.new) }
        ensures only { OnlyFull self.old (map int_item values.now) result }
    {
        for value in values {
            self.int(*value)?;
        }
        Ok(())
    }

    /// The number of a long.
    pub(crate) fn long(&mut self, value: i64) -> Result<u16, AsmError>
        ensures found { HasNumber self.old (long_item value ∷ []) self.new (long_item value) result }
        ensures only { OnlyFull self.old (long_item value ∷ []) result }
        ensures pool { IsPool self.new }
    {
        self.entry(Entry::Long(value))
    }

    /// The number of a class or an array, by its name.
    pub(crate) fn class(&mut self, name: &Name) -> Result<u16, AsmError>
        ensures found { HasNumber self.old (class_items name.now) self.new (class_item name.now) result }
        ensures only { OnlyFull self.old (class_items name.now) result }
        ensures pool { IsPool self.new }
    {
        let text = self.text(name)?;
        self.entry(Entry::Class(text))
    }

    /// The number of a field.
    pub(crate) fn field(&mut self, member: &Member) -> Result<u16, AsmError>
        ensures found { HasNumber self.old (member_items (field_item member.now) member.now) self.new
            (field_item member.now) result }
        ensures only { OnlyFull self.old (member_items (field_item member.now) member.now) result }
        ensures pool { IsPool self.new }
    {
        let (class, names) = self.reference(member)?;
        self.entry(Entry::Fieldref(class, names))
    }

    /// The number of a class's method.
    pub(crate) fn method(&mut self, member: &Member) -> Result<u16, AsmError>
        ensures found { HasNumber self.old (member_items (method_item member.now) member.now) self.new
            (method_item member.now) result }
        ensures only { OnlyFull self.old (member_items (method_item member.now) member.now) result }
        ensures pool { IsPool self.new }
    {
        let (class, names) = self.reference(member)?;
        self.entry(Entry::Methodref(class, names))
    }

    /// The number of an interface's method.
    pub(crate) fn interface_method(&mut self, member: &Member) -> Result<u16, AsmError>
        ensures found { HasNumber self.old (member_items (interface_item member.now) member.now) self.new
            (interface_item member.now) result }
        ensures only { OnlyFull self.old (member_items (interface_item member.now) member.now) result }
        ensures pool { IsPool self.new }
    {
        let (class, names) = self.reference(member)?;
        self.entry(Entry::InterfaceMethodref(class, names))
    }

    /// The class file of the pool and a body, as `ClassFile::new` makes and refuses it.
    pub(crate) fn finish(self, body: Body) -> Result<ClassFile, ClassError>
        ensures made { IfOk result (λ file. file ≡ made (entries_of self) body) }
        ensures only { IsClass (made (entries_of self) body)
            → MatchResult result (λ file. file ≡ made (entries_of self) body) (λ e. e ≡ class_error.Memory) }
        ensures pool { IsPool self }
    {
        let Numbers { pool, alloc } = self;
        ClassFile::new(alloc, pool, body)
    }

    /// The numbers of a member's class and of its name with its descriptor.
    fn reference(&mut self, member: &Member) -> Result<(u16, u16), AsmError>
        ensures found { Gives self.old (reference_items member.now) self.new (reference_numbers member.now) result }
        ensures only { OnlyFull self.old (reference_items member.now) result }
        ensures pool { IsPool self.new }
    {
        let class = self.class(&member.class)?;
        let names = self.name_and_type(&member.name, &member.descriptor)?;
        Ok((class, names))
    }

    /// The number of a member's name with its descriptor.
    fn name_and_type(&mut self, name: &Name, descriptor: &Name) -> Result<u16, AsmError>
        ensures found { HasNumber self.old (name_items name.now descriptor.now) self.new
            (name_item name.now descriptor.now) result }
        ensures only { OnlyFull self.old (name_items name.now descriptor.now) result }
        ensures pool { IsPool self.new }
    {
        let name = self.text(name)?;
        let descriptor = self.text(descriptor)?;
        self.entry(Entry::NameAndType(name, descriptor))
    }

    /// The number of an entry, of which what it names is there.
    fn entry(&mut self, entry: Entry) -> Result<u16, AsmError>
        requires { IsEntry self.old entry }
        ensures found { HasNumber self.old (said self.old entry ∷ []) self.new (said self.old entry) result }
        ensures only { OnlyFull self.old (said self.old entry ∷ []) result }
        ensures pool { IsPool self.new }
    {
        Ok(self.pool.add(entry)?)
    }
}
