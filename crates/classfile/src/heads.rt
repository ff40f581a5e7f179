//! A class file up to its methods.

ghost use Rattle.std.specs.Prelude.{◌≡◌, ◌↔◌, ◌++◌, ◌<◌, ◌^◌, ℕ, List, length, true, Ok, IfOk, IfErr, OnOk, is_ok};
ghost use Rattle.std.specs.List.{flat_map, AllByRecursion};
ghost use Rattle.model.specs.ClassFiles.Numbers.{u2};
ghost use Rattle.model.specs.ClassFiles.Fields.{field_bytes};
ghost use Rattle.model.specs.ClassFiles.Heads.{HeadPart, IsHead, SpellsHead, after_bytes, head_bytes};
ghost use Rattle.model.specs.ClassFiles.Heads as definition;
ghost use Rattle.model.specs.ClassFiles.Pools.{PoolFits};
ghost use Rattle.model.specs.ClassFiles.References.{AreSound};
ghost use Rattle.pool.specs.Reading.Steps.{AsksForNone, Gives};
ghost use Rattle.classfile.specs.Reading.Fields.{field_from};
ghost use Rattle.classfile.specs.Reading.Lists.{repeated, list_from};
ghost use Rattle.classfile.specs.Reading.Heads.{class_flags_from, class_from, after_from, head_from};
ghost use Rattle.classfile.specs.Sound.{ClassStands};

use crate::fields::{field_of, put_field};
use crate::flags::{ABSTRACT, FINAL, INTERFACE, OF_NO_CLASS};
use crate::opening::opening_of;
use crate::sound_fields::{both, fields_stand, is_count};
use bitflags::Flags;
use model::class_files::{FieldEntry, FormatFault};
use model::flags::ClassFlags;
use pool::fields::u16_at;
use pool::{Pool, ReadError};
use std::alloc::{AllocError, Global};
use std::marker::Model;

/// The parts of a class file up to its methods.
#[derive(Drop)]
pub struct Parts {
    pub pool: Pool,
    pub flags: ClassFlags,
    pub class: u16,
    pub superclass: u16,
    pub interfaces: Vec<u16>,
    pub fields: Vec<FieldEntry>,
}

impl Model for Parts {
    ghost use Rattle.model.specs.ClassFiles.Heads.{HeadPart};

    ghost Value = { HeadPart };

    ghost view = { λ a. record {
      pool = a.pool;
      flags = a.flags;
      class = a.class;
      superclass = a.superclass;
      interfaces = a.interfaces.items;
      fields = a.fields.items;
    } };
}

/// Whether a class may have these flags.
fn are_class_flags(flags: u16) -> bool
    ensures { result ≡ definition.are_class_flags flags }
{
    flags & OF_NO_CLASS == 0
        && (flags & INTERFACE == 0 || flags & ABSTRACT != 0)
        && !(flags & FINAL != 0 && flags & ABSTRACT != 0)
}

/// The flags of a class. C11 where they don't go together.
#[tactic(auto, unfolding(crate::specs::Reading::Heads::class_flags_from))]
fn class_flags_at(bytes: &[u8]) -> Result<(u16, &[u8]), ReadError>
    ensures gives { Gives (λ x. (x.0, x.1.now)) result (class_flags_from bytes.now) }
    ensures memory { AsksForNone result }
{
    let (flags, rest) = u16_at(bytes)?;
    if are_class_flags(flags) {
        Ok((flags, rest))
    } else {
        Err(ReadError::Format(FormatFault::Flags))
    }
}

/// Whether a number is of a class that is no array.
pub fn is_class(pool: &Pool, number: u16) -> bool
    ensures { result ≡ definition.is_class pool.now number }
{
    match pool.class(number) {
        None => false,
        Some(name) => pool.is_class_name(name),
    }
}

/// The number of a class that is no array. C6 where it is another's.
#[tactic(auto, unfolding(crate::specs::Reading::Heads::class_from))]
fn class_at<'a>(pool: &Pool, bytes: &'a [u8]) -> Result<(u16, &'a [u8]), ReadError>
    ensures gives { Gives (λ x. (x.0, x.1.now)) result (class_from pool.now bytes.now) }
    ensures memory { AsksForNone result }
{
    let (number, rest) = u16_at(bytes)?;
    if is_class(pool, number) {
        Ok((number, rest))
    } else {
        Err(ReadError::Format(FormatFault::Index))
    }
}

/// The numbers of so many classes.
fn classes_at<'a>(
    alloc: Global,
    pool: &Pool,
    count: u16,
    bytes: &'a [u8],
) -> Result<(Vec<u16>, &'a [u8]), ReadError>
    ensures { Gives (λ x. (x.0.items, x.1.now)) result (repeated (class_from pool.now) count bytes.now) }
{
    let mut classes = Vec::new(alloc);
    let mut rest = bytes;
    for _ in 0..count {
        let (class, after) = class_at(pool, rest)?;
        classes.push(class)?;
        rest = after;
    }
    Ok((classes, rest))
}

/// So many fields of a class of these flags.
fn fields_at<'a>(
    alloc: Global,
    pool: &Pool,
    flags: u16,
    count: u16,
    bytes: &'a [u8],
) -> Result<(Vec<FieldEntry>, &'a [u8]), ReadError>
    ensures { Gives (λ x. (x.0.items, x.1.now)) result (repeated (field_from pool.now flags) count bytes.now) }
{
    let mut fields = Vec::new(alloc);
    let mut rest = bytes;
    for _ in 0..count {
        let (field, after) = field_of(pool, flags, rest)?;
        fields.push(field)?;
        rest = after;
    }
    Ok((fields, rest))
}

/// Interfaces after their count.
#[tactic(auto, unfolding(crate::specs::Reading::Lists::list_from))]
fn interfaces_at<'a>(
    alloc: Global,
    pool: &Pool,
    bytes: &'a [u8],
) -> Result<(Vec<u16>, &'a [u8]), ReadError>
    ensures { Gives (λ x. (x.0.items, x.1.now)) result (list_from (class_from pool.now) bytes.now) }
{
    let (count, rest) = u16_at(bytes)?;
    classes_at(alloc, pool, count, rest)
}

/// Fields after their count.
#[tactic(auto, unfolding(crate::specs::Reading::Lists::list_from))]
fn counted_fields_at<'a>(
    alloc: Global,
    pool: &Pool,
    flags: u16,
    bytes: &'a [u8],
) -> Result<(Vec<FieldEntry>, &'a [u8]), ReadError>
    ensures { Gives (λ x. (x.0.items, x.1.now)) result (list_from (field_from pool.now flags) bytes.now) }
{
    let (count, rest) = u16_at(bytes)?;
    fields_at(alloc, pool, flags, count, rest)
}

/// What stands after the pool.
#[tactic(auto, unfolding(crate::specs::Reading::Heads::after_from))]
fn after_pool(alloc: Global, pool: Pool, bytes: &[u8]) -> Result<(Parts, &[u8]), ReadError>
    ensures { Gives (λ x. (x.0, x.1.now)) result (after_from pool bytes.now) }
{
    let (flags, rest) = class_flags_at(bytes)?;
    let (class, rest) = class_at(&pool, rest)?;
    let (superclass, rest) = class_at(&pool, rest)?;
    let (interfaces, rest) = interfaces_at(alloc, &pool, rest)?;
    let (fields, rest) = counted_fields_at(alloc, &pool, flags, rest)?;
    let parts = Parts {
        pool,
        flags: ClassFlags::from_bits_retain(flags),
        class,
        superclass,
        interfaces,
        fields,
    };
    Ok((parts, rest))
}

/// A class file up to its methods.
#[tactic(auto, unfolding(crate::specs::Reading::Heads::head_from))]
fn head_of(alloc: Global, bytes: &[u8]) -> Result<(Parts, &[u8]), ReadError>
    ensures { Gives (λ x. (x.0, x.1.now)) result (head_from bytes.now) }
{
    let (_, rest) = opening_of(bytes)?;
    let (pool, rest) = Pool::read(alloc, rest)?;
    after_pool(alloc, pool, rest)
}

/// Whether a number is that of a class that is no array.
fn class_stands(pool: &Pool, number: u16) -> bool
    ensures { (result ≡ true) ↔ ClassStands pool.now number }
{
    is_class(pool, number)
}

/// Whether numbers are those of classes that are no arrays.
fn classes_stand(pool: &Pool, numbers: &[u16]) -> bool
    ensures { (result ≡ true) ↔ AllByRecursion (ClassStands pool.now) numbers.now }
{
    for number in numbers {
        if !class_stands(pool, *number) {
            return false;
        }
    }
    true
}

/// Whether a class may have these flags, which have their range.
fn flags_stand(flags: u16) -> bool
    ensures is { result ≡ definition.are_class_flags flags }
    ensures fits { flags < 2 ^ 16 }
{
    are_class_flags(flags)
}

/// Whether parts are those of some class file up to its methods.
fn head_stands(parts: &Parts) -> bool
    requires fits { PoolFits parts.now.pool }
    requires sound { AreSound parts.now.pool }
    ensures { (result ≡ true) ↔ IsHead parts.now }
{
    let flags = parts.flags.bits();
    let interfaces = parts.interfaces.as_slice();
    let fields = parts.fields.as_slice();
    let class = class_stands(&parts.pool, parts.class);
    let superclass = class_stands(&parts.pool, parts.superclass);
    let others = both(
        is_count(interfaces.len()),
        classes_stand(&parts.pool, interfaces),
    );
    let members = both(
        is_count(fields.len()),
        fields_stand(&parts.pool, flags, fields),
    );
    let itself = both(flags_stand(flags), both(class, superclass));
    both(itself, both(others, members))
}

/// A class file up to its methods (JVMS 4.1). A contract sees its parts, which are those of some class file.
#[derive(Drop)]
pub struct ClassHead {
    parts: Parts,
}

impl Model for ClassHead {
    ghost use Rattle.model.specs.ClassFiles.Heads.{HeadPart, IsHead};

    ghost Value = { HeadPart };

    ghost view = { λ a. a.parts };

    ghost invariant = { λ a. IsHead a.parts };
}

impl ClassHead {
    /// Reads a class file up to its methods from the front of the bytes. C1, C2, C3, C5, C6, C7, C8 or C11: the first
    /// fault from left to right.
    pub fn read(alloc: Global, bytes: &[u8]) -> Result<(ClassHead, &[u8]), ReadError>
        // What is read is spelled so.
        ensures found { IfOk result (λ x. (text : List ℕ) × SpellsHead text x.0 × (bytes.now ≡ text ++ x.1.now)) }
        // What is spelled so is read, unless memory runs out.
        ensures only { (head : HeadPart) (text rest : List ℕ) → SpellsHead text head → bytes.now ≡ text ++ rest
            → let read : HeadPart × List ℕ = (head, rest) in Gives (λ x. (x.0, x.1.now)) result (Ok read) }
        // Which fault it is.
        ensures exact { Gives (λ x. (x.0, x.1.now)) result (head_from bytes.now) }
    {
        let (parts, rest) = head_of(alloc, bytes)?;
        Ok((ClassHead { parts }, rest))
    }

    /// The head of these parts; where they aren't those of a class file, they are given back.
    pub(crate) fn of(parts: Parts) -> Result<ClassHead, Parts>
        requires fits { PoolFits parts.pool }
        requires sound { AreSound parts.pool }
        ensures made { IfOk result (λ head. head ≡ parts) }
        ensures only { IfErr result (λ same. same ≡ parts) }
        ensures none { IsHead parts → is_ok result ≡ true }
    {
        if !head_stands(&parts) {
            return Err(parts);
        }
        Ok(ClassHead { parts })
    }

    /// The parts.
    pub(crate) fn parts(&self) -> &Parts
        ensures { result.now ≡ self.now }
    {
        &self.parts
    }

    /// The constant pool.
    pub fn pool(&self) -> &Pool
        ensures is { result.now ≡ self.now.pool }
        // The parts are those of some class file.
        ensures head { IsHead self.now }
    {
        &self.parts.pool
    }

    /// The access flags of the class, as bits.
    pub fn flags(&self) -> u16
        ensures { result ≡ self.now.flags.0 }
    {
        self.parts.flags.bits()
    }

    /// The number of the class in the pool.
    pub fn class(&self) -> u16
        ensures { result ≡ self.now.class }
    {
        self.parts.class
    }

    /// The number of the superclass in the pool.
    pub fn superclass(&self) -> u16
        ensures { result ≡ self.now.superclass }
    {
        self.parts.superclass
    }

    /// The numbers of the superinterfaces in the pool, in order.
    pub fn interfaces(&self) -> &[u16]
        ensures { result.now ≡ self.now.interfaces }
    {
        self.parts.interfaces.as_slice()
    }

    /// The fields, in order.
    pub fn fields(&self) -> &[FieldEntry]
        ensures { result.now ≡ self.now.fields }
    {
        self.parts.fields.as_slice()
    }

    /// Writes the head at the end, with the attributes that count and no others.
    pub fn write(&self, out: &mut Vec<u8>) -> Result<(), AllocError>
        ensures { OnOk result ((text : List ℕ) × SpellsHead text self.now × (out.new.items ≡ out.old.items ++ text)) }
    {
        put_parts(out, &self.parts)
    }
}

/// No head begins another: bytes are those of one head alone.
pub fn one_head()
    ensures { (a b x y : List ℕ) (h k : HeadPart) → SpellsHead a h → SpellsHead b k → a ++ x ≡ b ++ y
        → (h ≡ k) × (x ≡ y) }
{}

/// Writes so many numbers of classes at the end.
fn put_classes(out: &mut Vec<u8>, classes: &[u16]) -> Result<(), AllocError>
    ensures { OnOk result (out.new.items ≡ out.old.items ++ flat_map u2 classes.now) }
{
    for class in classes {
        out.extend_from_slice(&class.to_be_bytes())?;
    }
    Ok(())
}

/// Writes so many fields at the end.
fn put_fields(out: &mut Vec<u8>, fields: &[FieldEntry]) -> Result<(), AllocError>
    ensures { OnOk result (out.new.items ≡ out.old.items ++ flat_map field_bytes fields.now) }
{
    for field in fields {
        put_field(out, field)?;
    }
    Ok(())
}

/// Writes what stands after the pool at the end.
fn put_after(out: &mut Vec<u8>, parts: &Parts) -> Result<(), AllocError>
    requires interfaces { length parts.now.interfaces < 2 ^ 16 }
    requires fields { length parts.now.fields < 2 ^ 16 }
    ensures { OnOk result (out.new.items ≡ out.old.items ++ after_bytes parts.now) }
{
    out.extend_from_slice(&parts.flags.bits().to_be_bytes())?;
    out.extend_from_slice(&parts.class.to_be_bytes())?;
    out.extend_from_slice(&parts.superclass.to_be_bytes())?;
    let interfaces = parts.interfaces.as_slice();
    out.extend_from_slice(&(interfaces.len() as u16).to_be_bytes())?;
    put_classes(out, interfaces)?;
    let fields = parts.fields.as_slice();
    out.extend_from_slice(&(fields.len() as u16).to_be_bytes())?;
    put_fields(out, fields)
}

/// Writes a head at the end.
pub fn put_parts(out: &mut Vec<u8>, parts: &Parts) -> Result<(), AllocError>
    requires interfaces { length parts.now.interfaces < 2 ^ 16 }
    requires fields { length parts.now.fields < 2 ^ 16 }
    ensures { OnOk result (out.new.items ≡ out.old.items ++ head_bytes parts.now) }
{
    out.extend_from_slice(&[0xca, 0xfe, 0xba, 0xbe, 0, 0, 0, 49])?;
    parts.pool.write(out)?;
    put_after(out, parts)
}
