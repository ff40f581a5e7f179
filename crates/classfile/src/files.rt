//! Class files, whole.

ghost use Rattle.std.specs.Prelude.{◌≡◌, ◌↔◌, ◌++◌, ◌<◌, ◌^◌, ℕ, List, None, length, true, false, IfOk, IfErr, OnOk};
ghost use Rattle.std.specs.Prelude.{MatchResult};
ghost use Rattle.std.specs.List.{flat_map, list_all, AllByRecursion};
ghost use Rattle.std.specs.Option.{IfSome};
ghost use Rattle.model.specs.ClassFiles.Classes.{ClassPart, IsClassFile};
ghost use Rattle.model.specs.ClassFiles.Pools.{PoolFits};
ghost use Rattle.model.specs.ClassFiles.References.{AreSound};
ghost use Rattle.classfile.specs.Classes.{IsClass};
ghost use Rattle.classfile.specs.Made.{IsRefused, file_bytes, lists_are_countable, method_is_countable};
ghost use Rattle.classfile.specs.declared.error.ClassError.TheVariants as error;
ghost use Rattle.classfile.specs.Reading.Answers.{Answers};
ghost use Rattle.classfile.specs.Reading.Lists.{repeated, list_from};
ghost use Rattle.classfile.specs.Reading.Methods.{method_from};
ghost use Rattle.classfile.specs.Reading.Classes.{after_head_from, file_from};
ghost use Rattle.classfile.specs.Writing.{MethodFits, method_bytes, after_head_bytes};

use crate::attributes::skip_attributes;
use crate::error::ClassError;
use crate::heads::{ClassHead, Parts, put_parts};
use crate::methods::{MethodEntry, method_of, put_method};
use crate::sound_fields::{both, is_count};
use crate::sound_methods::methods_stand;
use model::class_files::FormatFault;
use pool::Pool;
use pool::fields::u16_at;
use std::alloc::{AllocError, Global};
use std::marker::Model;

/// A class file (JVMS 4.1): what stands before its methods, and these. A contract sees its parts, which are those of
/// some class file's bytes.
#[derive(Drop)]
pub struct ClassFile {
    head: ClassHead,
    methods: Vec<MethodEntry>,
}

impl Model for ClassFile {
    ghost use Rattle.model.specs.ClassFiles.Classes.{ClassPart};
    ghost use Rattle.classfile.specs.Classes.{IsClass};

    ghost Value = { ClassPart };

    ghost view = { λ a. record { head = a.head; methods = a.methods.items } };

    ghost invariant = { λ a. IsClass (record { head = a.head; methods = a.methods.items }) };
}

/// So many methods of a class of these flags.
fn some_methods_at<'a>(
    alloc: Global,
    pool: &Pool,
    flags: u16,
    count: u16,
    bytes: &'a [u8],
) -> Result<(Vec<MethodEntry>, &'a [u8]), ClassError>
    ensures { Answers (λ x. (x.0.items, x.1.now)) result (repeated (method_from pool.now flags) count bytes.now) }
{
    let mut methods = Vec::new(alloc);
    let mut rest = bytes;
    for _ in 0..count {
        let (method, after) = method_of(alloc, pool, flags, rest)?;
        methods.push(method)?;
        rest = after;
    }
    Ok((methods, rest))
}

/// Methods after their count.
#[tactic(auto, unfolding(crate::specs::Reading::Lists::list_from))]
fn methods_at<'a>(
    alloc: Global,
    pool: &Pool,
    flags: u16,
    bytes: &'a [u8],
) -> Result<(Vec<MethodEntry>, &'a [u8]), ClassError>
    ensures { Answers (λ x. (x.0.items, x.1.now)) result (list_from (method_from pool.now flags) bytes.now) }
{
    let (count, rest) = u16_at(bytes)?;
    some_methods_at(alloc, pool, flags, count, rest)
}

/// What stands after a class file's head: its methods, and attributes that are skipped. C4 where bytes are left.
#[tactic(auto, unfolding(crate::specs::Reading::Classes::after_head_from))]
fn after_head(alloc: Global, head: &ClassHead, bytes: &[u8]) -> Result<Vec<MethodEntry>, ClassError>
    ensures { Answers (λ x. x.items) result (after_head_from head.now bytes.now) }
{
    let (methods, rest) = methods_at(alloc, head.pool(), head.flags(), bytes)?;
    let rest = skip_attributes(head.pool(), rest)?;
    match rest {
        [] => Ok(methods),
        [_, ..] => Err(ClassError::Format(FormatFault::Trailing)),
    }
}

/// The head and the methods of a class file.
#[tactic(auto, unfolding(crate::specs::Reading::Classes::file_from))]
fn parts_of(alloc: Global, bytes: &[u8]) -> Result<(ClassHead, Vec<MethodEntry>), ClassError>
    ensures { Answers (λ x. record { head = x.0; methods = x.1.items }) result (file_from bytes.now) }
{
    let (head, rest) = ClassHead::read(alloc, bytes)?;
    let methods = after_head(alloc, &head, rest)?;
    Ok((head, methods))
}

/// Reads a class file: the parts that the bytes are those of (JVMS 4).
///
/// The first fault from left to right is reported, C1 to C8 or C11; the pool is read whole before what its entries name
/// is looked at. Faulty code is reported with its method, before C6 for what the instructions name. An attribute that
/// doesn't count is skipped. C10 where memory runs out.
pub fn read(alloc: Global, bytes: &[u8]) -> Result<ClassFile, ClassError>
    // What is read is the class file.
    ensures found { IfOk result (IsClassFile bytes.now) }
    // What is a class file is read, unless memory runs out.
    ensures only { (c : ClassPart) → IsClassFile bytes.now c → MatchResult result (λ x. x ≡ c) (λ e. e ≡ error.Memory) }
    // Which fault it is, but for which one of code.
    ensures exact { Answers (λ x. x) result (file_from bytes.now) }
{
    let (head, methods) = parts_of(alloc, bytes)?;
    Ok(ClassFile { head, methods })
}

/// Writes so many methods at the end.
fn put_methods(out: &mut Vec<u8>, methods: &[MethodEntry]) -> Result<(), AllocError>
    requires { AllByRecursion MethodFits methods.now }
    ensures { OnOk result (out.new.items ≡ out.old.items ++ flat_map method_bytes methods.now) }
{
    for method in methods {
        put_method(out, method)?;
    }
    Ok(())
}

/// Writes what stands after a class file's head at the end.
fn put_after_head(out: &mut Vec<u8>, methods: &[MethodEntry]) -> Result<(), AllocError>
    requires few { length methods.now < 2 ^ 16 }
    requires fit { AllByRecursion MethodFits methods.now }
    ensures { OnOk result (out.new.items ≡ out.old.items ++ after_head_bytes methods.now) }
{
    out.extend_from_slice(&(methods.len() as u16).to_be_bytes())?;
    put_methods(out, methods)?;
    out.extend_from_slice(&[0, 0])
}

/// Writes a class file at the end.
fn put_file(out: &mut Vec<u8>, file: &ClassFile) -> Result<(), AllocError>
    ensures { OnOk result ((text : List ℕ) × IsClassFile text file.now × (out.new.items ≡ out.old.items ++ text)) }
{
    file.head.write(out)?;
    put_after_head(out, file.methods.as_slice())
}

/// The bytes of a class file, with the attributes that count and no others. C10 where memory runs out.
pub fn write(alloc: Global, file: &ClassFile) -> Result<Vec<u8>, ClassError>
    ensures { MatchResult result (λ bytes. IsClassFile bytes.items file.now) (λ e. e ≡ error.Memory) }
{
    let mut bytes = Vec::new(alloc);
    put_file(&mut bytes, file)?;
    Ok(bytes)
}

/// What is written, read again: the same class file. C10 where memory runs out.
pub fn again(alloc: Global, file: &ClassFile) -> Result<ClassFile, ClassError>
    ensures { MatchResult result (λ x. x ≡ file.now) (λ e. e ≡ error.Memory) }
{
    let bytes = write(alloc, file)?;
    read(alloc, &bytes)
}

/// Bytes are those of one class file at most.
pub fn one_class_file()
    ensures { (bytes : List ℕ) (a b : ClassPart) → IsClassFile bytes a → IsClassFile bytes b → a ≡ b }
{}

/// Whether a class file can count the bytes and the exception rows of a method's code.
fn method_is_countable(method: &MethodEntry) -> bool
    ensures { result ≡ method_is_countable method.now }
{
    match &method.code {
        None => true,
        Some(code) => {
            is_count(code.instructions.bytes().len()) && is_count(code.rows.as_slice().len())
        }
    }
}

fn methods_are_countable(methods: &[MethodEntry]) -> bool
    ensures { result ≡ list_all method_is_countable methods.now }
{
    methods.iter().all(|method| method_is_countable(method))
}

/// Whether a class file can count each list of these parts and methods.
fn lists_are_countable(parts: &Parts, methods: &[MethodEntry]) -> bool
    ensures { result ≡ lists_are_countable (record { head = parts.now; methods = methods.now }) }
{
    let interfaces = is_count(parts.interfaces.as_slice().len());
    let fields = is_count(parts.fields.as_slice().len());
    let count = is_count(methods.len());
    interfaces && (fields && (count && methods_are_countable(methods)))
}

/// The bytes of parts and methods, whatever is wrong with them; `None` where a class file can't count one of their
/// lists. `AllocError` where memory runs out.
fn bytes_of(
    alloc: Global,
    parts: &Parts,
    methods: &[MethodEntry],
) -> Result<Option<Vec<u8>>, AllocError>
    ensures none { IfOk result (λ bytes. bytes ≡ None
        → lists_are_countable (record { head = parts.now; methods = methods.now }) ≡ false) }
    ensures some { IfOk result (λ bytes. IfSome bytes (λ bytes. bytes.items
        ≡ file_bytes (record { head = parts.now; methods = methods.now }))) }
{
    if lists_are_countable(parts, methods) {
        let mut bytes = Vec::new(alloc);
        put_parts(&mut bytes, parts)?;
        put_after_head(&mut bytes, methods)?;
        Ok(Some(bytes))
    } else {
        Ok(None)
    }
}

/// Why there is no class file of parts and methods: the fault with which their bytes are refused when they are read.
/// C8 where they have no bytes, or those of another class file, since an attribute doesn't count under its name.
fn refusal(alloc: Global, parts: &Parts, methods: &[MethodEntry]) -> ClassError
    ensures { IsRefused (record { head = parts.now; methods = methods.now }) result }
{
    let bytes = match bytes_of(alloc, parts, methods) {
        Ok(Some(bytes)) => bytes,
        Ok(None) => return ClassError::Format(FormatFault::Attribute),
        Err(_) => return ClassError::Memory,
    };
    match parts_of(alloc, &bytes) {
        Ok(_) => ClassError::Format(FormatFault::Attribute),
        Err(error) => error,
    }
}

/// Whether a head and methods are those of some class file.
fn class_stands(
    alloc: Global,
    head: &ClassHead,
    methods: &[MethodEntry],
) -> Result<bool, AllocError>
    ensures { IfOk result (λ stands. (stands ≡ true) ↔ IsClass (record { head = head.now; methods = methods.now })) }
{
    let stand = methods_stand(alloc, head.pool(), head.flags(), methods)?;
    Ok(both(is_count(methods.len()), stand))
}

impl ClassFile {
    /// The class file of parts and methods. Where there is none, they are refused as their bytes are when they are
    /// read. C10 where memory runs out.
    pub(crate) fn of(
        alloc: Global,
        parts: Parts,
        methods: Vec<MethodEntry>,
    ) -> Result<ClassFile, ClassError>
        requires fits { PoolFits parts.pool }
        requires sound { AreSound parts.pool }
        ensures made { IfOk result (λ file. file ≡ record { head = parts; methods = methods.items }) }
        ensures only { IfErr result (λ e. IsClass (record { head = parts; methods = methods.items })
            → e ≡ error.Memory) }
        ensures refused { IfErr result (λ e. IsRefused (record { head = parts; methods = methods.items }) e) }
    {
        let head = match ClassHead::of(parts) {
            Ok(head) => head,
            Err(parts) => return Err(refusal(alloc, &parts, methods.as_slice())),
        };
        if !class_stands(alloc, &head, methods.as_slice())? {
            return Err(refusal(alloc, head.parts(), methods.as_slice()));
        }
        Ok(ClassFile { head, methods })
    }

    /// Every class file is that of some bytes, so that what the format says (JVMS 4) holds of it.
    pub fn has_bytes(&self)
        ensures { IsClass self.now }
    {
        let _ = &self.head; // for the proof alone, which has what the type says from here
    }

    /// What stands before the methods.
    pub fn head(&self) -> &ClassHead
        ensures { result.now ≡ self.now.head }
    {
        &self.head
    }

    /// The methods, in order.
    pub fn methods(&self) -> &[MethodEntry]
        ensures { result.now ≡ self.now.methods }
    {
        self.methods.as_slice()
    }
}
