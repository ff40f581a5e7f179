//! Fields, methods and the class with constant-pool indices for names.
ghost use Rattle.std.specs.Prelude.{◌≡◌, [], ◌∷◌, true, map, IfOk, IfErr};
ghost use Rattle.std.specs.List.{flat_map, list_all, AllByRecursion};
ghost use Rattle.std.specs.Option.{option_map};
ghost use Rattle.classfile.specs.Classes.{IsClass};
ghost use Rattle.model.specs.ClassFiles.Items.{with_items, value_item, class_items, value_items, field_items};
ghost use Rattle.model.specs.ClassFiles.Items.{code_items, method_items, listing_items};
ghost use Rattle.assembler.specs.Answers.{Gives, HasNumber, OnlyFull, OnlyFullWhere};
ghost use Rattle.assembler.specs.Assembled.{Stays, HasCode, code_stands, class_number, file_flags, assembled_code};
ghost use Rattle.assembler.specs.Assembled.{assembled_method, assembled_body, assembled};
ghost use Rattle.assembler.specs.Numbering.{numbered_value, numbered_field, IsPool};
ghost use Rattle.assembler.specs.declared.error.AsmError.TheVariants as error;

use crate::error::AsmError;
use crate::numbered_code::numbered_code;
use crate::pool_numbers::Numbers;
use bitflags::Flags;
use classfile::flags::{INTERFACE, SUPER};
use classfile::{Body, ClassFile, CodeEntry, MethodEntry};
use model::class_files::{ConstantValue, FieldEntry};
use model::flags::ClassFlags;
use model::listings::{Code, Constant, Field, Listing, Method};
use model::names::Name;
use std::alloc::Global;

/// The class file of a listing, in whose pool other items stand first. A3 where the pool has no room, and where the
/// format refuses the class file.
pub fn class_file(
    alloc: Global,
    mut numbers: Numbers,
    listing: &Listing,
) -> Result<ClassFile, AsmError>
    requires { list_all (λ m. code_stands m.code) listing.now.methods ≡ true }
    ensures found { IfOk result (λ file. (file
        ≡ assembled (with_items numbers (listing_items listing.now)) listing.now)
        × IsPool (with_items numbers (listing_items listing.now))) }
    ensures only { IfErr result (λ e. IsClass (assembled (with_items numbers (listing_items listing.now)) listing.now)
        → e ≡ error.Memory) }
{
    let body = body(alloc, &mut numbers, listing)?;
    Ok(numbers.finish(body)?)
}

fn body(alloc: Global, numbers: &mut Numbers, listing: &Listing) -> Result<Body, AsmError>
    requires { list_all (λ m. code_stands m.code) listing.now.methods ≡ true }
    ensures found { Gives numbers.old (listing_items listing.now) numbers.new
        (λ items. assembled_body items listing.now) result }
    ensures only { OnlyFullWhere numbers.old (listing_items listing.now)
        (λ items. AllByRecursion (λ m. HasCode items m.code) listing.now.methods) result }
{
    Ok(Body {
        flags: file_flags(listing.flags),
        class: numbers.class(&listing.name)?,
        superclass: numbers.class(&listing.superclass)?,
        interfaces: classes(alloc, numbers, listing.interfaces.as_slice())?,
        fields: fields(alloc, numbers, listing.fields.as_slice())?,
        methods: methods(alloc, numbers, listing.methods.as_slice())?,
    })
}

/// A class has SUPER, an interface hasn't.
fn file_flags(flags: ClassFlags) -> ClassFlags
    ensures { result ≡ file_flags flags }
{
    if flags.bits() & INTERFACE != 0 {
        flags
    } else {
        ClassFlags::from_bits_retain(flags.bits() | SUPER)
    }
}

fn classes(alloc: Global, numbers: &mut Numbers, names: &[Name]) -> Result<Vec<u16>, AsmError>
    ensures found { IfOk result (λ all. Stays numbers.old (flat_map class_items names.now) numbers.new
        (λ items. map (class_number items) names.now) all.items) }
    ensures only { OnlyFull numbers.old (flat_map class_items names.now) result }
{
    let mut all = Vec::new(alloc);
    for name in names {
        all.push(numbers.class(name)?)?;
    }
    Ok(all)
}

fn fields(
    alloc: Global,
    numbers: &mut Numbers,
    fields: &[Field],
) -> Result<Vec<FieldEntry>, AsmError>
    ensures found { IfOk result (λ all. Stays numbers.old (flat_map field_items fields.now) numbers.new
        (λ items. map (numbered_field items) fields.now) all.items) }
    ensures only { OnlyFull numbers.old (flat_map field_items fields.now) result }
{
    let mut all = Vec::new(alloc);
    for field in fields {
        all.push(numbered_field(numbers, field)?)?;
    }
    Ok(all)
}

fn numbered_field(numbers: &mut Numbers, field: &Field) -> Result<FieldEntry, AsmError>
    ensures found { Gives numbers.old (field_items field.now) numbers.new
        (λ items. numbered_field items field.now) result }
    ensures only { OnlyFull numbers.old (field_items field.now) result }
{
    Ok(FieldEntry {
        flags: field.flags,
        name: numbers.text(&field.name)?,
        descriptor: numbers.text(&field.descriptor)?,
        constant: numbered_value(numbers, field.constant)?,
    })
}

/// The value of a field, if it has one.
fn numbered_value(
    numbers: &mut Numbers,
    value: Option<Constant>,
) -> Result<Option<ConstantValue>, AsmError>
    ensures found { Gives numbers.old (value_items value) numbers.new
        (λ items. option_map (numbered_value items) value) result }
    ensures only { OnlyFull numbers.old (value_items value) result }
{
    let Some(value) = value else {
        return Ok(None);
    };
    let name = numbers.attribute("ConstantValue")?;
    let value = constant(numbers, value)?;
    Ok(Some(ConstantValue { name, value }))
}

fn constant(numbers: &mut Numbers, value: Constant) -> Result<u16, AsmError>
    ensures found { HasNumber numbers.old (value_item value ∷ []) numbers.new (value_item value) result }
    ensures only { OnlyFull numbers.old (value_item value ∷ []) result }
{
    match value {
        Constant::Int(z) => numbers.int(z),
        Constant::Long(z) => numbers.long(z),
    }
}

fn methods(
    alloc: Global,
    numbers: &mut Numbers,
    methods: &[Method],
) -> Result<Vec<MethodEntry>, AsmError>
    requires { list_all (λ m. code_stands m.code) methods.now ≡ true }
    ensures found { IfOk result (λ all. Stays numbers.old (flat_map method_items methods.now) numbers.new
        (λ items. map (assembled_method items) methods.now) all.items) }
    ensures only { OnlyFullWhere numbers.old (flat_map method_items methods.now)
        (λ items. AllByRecursion (λ m. HasCode items m.code) methods.now) result }
{
    let mut all = Vec::new(alloc);
    for method in methods {
        all.push(numbered_method(alloc, numbers, method)?)?;
    }
    Ok(all)
}

fn numbered_method(
    alloc: Global,
    numbers: &mut Numbers,
    method: &Method,
) -> Result<MethodEntry, AsmError>
    requires { code_stands method.now.code ≡ true }
    ensures found { Gives numbers.old (method_items method.now) numbers.new
        (λ items. assembled_method items method.now) result }
    ensures only { OnlyFullWhere numbers.old (method_items method.now) (λ items. HasCode items method.now.code) result }
{
    Ok(MethodEntry {
        flags: method.flags,
        name: numbers.text(&method.name)?,
        descriptor: numbers.text(&method.descriptor)?,
        code: code(alloc, numbers, &method.code)?,
    })
}

/// The code of a method, if it has some.
fn code(
    alloc: Global,
    numbers: &mut Numbers,
    code: &Option<Code>,
) -> Result<Option<CodeEntry>, AsmError>
    requires { code_stands code.now ≡ true }
    ensures found { Gives numbers.old (code_items code.now) numbers.new
        (λ items. option_map (assembled_code items) code.now) result }
    ensures only { OnlyFullWhere numbers.old (code_items code.now) (λ items. HasCode items code.now) result }
{
    match code {
        None => Ok(None),
        Some(code) => Ok(Some(numbered_code(alloc, numbers, code)?)),
    }
}
