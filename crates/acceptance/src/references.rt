//! What instructions and exception rows refer to (JVMS 5.4.3, 6.5).
ghost use Rattle.std.specs.Prelude.{◌≡◌, not};
ghost use Rattle.std.specs.List.{list_any};
ghost use Rattle.model.specs.declared.instructions.Invocation.TheVariants.{Virtual, Special, Interface};
ghost use Rattle.model.specs.declared.listings.ExceptionRow.{ExceptionRow as RowListing};
ghost use Rattle.model.specs.declared.listings.Method.{Method as MethodListing};
ghost use Rattle.model.specs.declared.listings.Placed.{Placed as PlacedAt};
ghost use Rattle.model.specs.Classes.Named.{class_named};
ghost use Rattle.model.specs.Classes.Resolution.{is_initializer, resolved_field, resolved_method};
ghost use Rattle.model.specs.Accepted.References.{is_static_found, is_instance_found, is_static_method_found};
ghost use Rattle.model.specs.Accepted.References.{is_concrete_found, is_interface_found, names_class, finds_static};
ghost use Rattle.model.specs.Accepted.References.{finds_instance, invocation_resolves, array_resolves, class_resolves};
ghost use Rattle.model.specs.Accepted.References.{resolves, catch_resolves, is_unresolved_in, has_unresolved};

use bitflags::Flags;
use linking::type_numbers::dimensions;
use model::descriptors::argument_units;
use model::flags::{ClassFlags, FieldFlags, MethodFlags};
use model::instructions::{ArrayOperation, ClassOperation, Instruction, Invocation};
use model::listings::{ExceptionRow, Listed, Listing, Method, Placed};
use model::names::{Member, Name};
use resolve::classes::Classes;

fn finds_static_field(classes: &Classes<'_>, member: &Member) -> bool
    ensures { result ≡ is_static_found (resolved_field classes.now member.now) }
{
    match classes.field(member) {
        Some(found) => found.member.flags.contains(FieldFlags::STATIC),
        None => false,
    }
}

fn finds_instance_field(classes: &Classes<'_>, member: &Member) -> bool
    ensures { result ≡ is_instance_found (resolved_field classes.now member.now) }
{
    match classes.field(member) {
        Some(found) => !found.member.flags.contains(FieldFlags::STATIC),
        None => false,
    }
}

fn finds_static_method(classes: &Classes<'_>, member: &Member) -> bool
    ensures { result ≡ is_static_method_found (resolved_method classes.now member.now) }
{
    match classes.method(member) {
        Some(found) => found.member.flags.contains(MethodFlags::STATIC),
        None => false,
    }
}

fn finds_instance_method(classes: &Classes<'_>, member: &Member) -> bool
    ensures { result ≡ finds_instance classes.now member.now }
{
    match classes.method(member) {
        Some(found) => !found.member.flags.contains(MethodFlags::STATIC),
        None => false,
    }
}

/// Whether a member is sought in a class that is no interface. An array type is no class.
fn names_class(classes: &Classes<'_>, member: &Member) -> bool
    ensures { result ≡ names_class classes.now member.now }
{
    match classes.class_named(member.class.as_bytes()) {
        Some(class) => !class.flags.contains(ClassFlags::INTERFACE),
        None => false,
    }
}

fn names_interface(classes: &Classes<'_>, member: &Member) -> bool
    ensures { result ≡ is_interface_found (class_named classes.now member.now.class) }
{
    match classes.class_named(member.class.as_bytes()) {
        Some(class) => class.flags.contains(ClassFlags::INTERFACE),
        None => false,
    }
}

/// Whether there is a class of this name of which there can be objects.
fn is_concrete(classes: &Classes<'_>, name: &[u8]) -> bool
    ensures { result ≡ is_concrete_found (class_named classes.now name.now) }
{
    match classes.class_named(name) {
        Some(class) => {
            !(class.flags.contains(ClassFlags::INTERFACE)
                || class.flags.contains(ClassFlags::ABSTRACT))
        }
        None => false,
    }
}

/// Whether a name is that of an instance or class initializer (JVMS 2.9).
fn is_initializer(name: &Name) -> bool
    ensures { result ≡ is_initializer name.now }
{
    name.is("<init>") || name.is("<clinit>")
}

fn finds_static(classes: &Classes<'_>, member: &Member) -> bool
    ensures { result ≡ finds_static classes.now member.now }
{
    names_class(classes, member)
        && !is_initializer(&member.name)
        && finds_static_method(classes, member)
}

fn finds_virtual(classes: &Classes<'_>, member: &Member) -> bool
    ensures { result ≡ invocation_resolves classes.now Virtual member.now }
{
    names_class(classes, member)
        && !is_initializer(&member.name)
        && finds_instance_method(classes, member)
}

fn finds_special(classes: &Classes<'_>, member: &Member) -> bool
    ensures { result ≡ invocation_resolves classes.now Special member.now }
{
    names_class(classes, member)
        && !member.name.is("<clinit>")
        && finds_instance_method(classes, member)
}

fn finds_in_interface(classes: &Classes<'_>, count: u8, member: &Member) -> bool
    ensures { result ≡ invocation_resolves classes.now (Interface count) member.now }
{
    names_interface(classes, member)
        && !is_initializer(&member.name)
        && finds_instance_method(classes, member)
        && usize::from(count) == argument_units(member.descriptor.as_bytes()) + 1
}

fn invocation_resolves(classes: &Classes<'_>, invocation: Invocation, member: &Member) -> bool
    ensures { result ≡ invocation_resolves classes.now invocation member.now }
{
    match invocation {
        Invocation::Virtual => finds_virtual(classes, member),
        Invocation::Special => finds_special(classes, member),
        Invocation::Static => finds_static(classes, member),
        Invocation::Interface(count) => finds_in_interface(classes, count, member),
    }
}

fn array_resolves(classes: &Classes<'_>, operation: &ArrayOperation<Name>) -> bool
    ensures { result ≡ array_resolves classes.now operation.now }
{
    match operation {
        ArrayOperation::NewOf(name) => {
            classes.is_type(name.as_bytes()) && dimensions(name.as_bytes()) < 255
        }
        ArrayOperation::New(_)
        | ArrayOperation::Length
        | ArrayOperation::Load(_)
        | ArrayOperation::Store(_) => true,
    }
}

fn class_resolves(classes: &Classes<'_>, operation: ClassOperation, name: &[u8]) -> bool
    ensures { result ≡ class_resolves classes.now operation name.now }
{
    match operation {
        ClassOperation::New => is_concrete(classes, name),
        ClassOperation::CheckCast | ClassOperation::InstanceOf => classes.is_type(name),
    }
}

/// Whether what an instruction refers to is there, and of the kind that it wants.
pub fn resolves(classes: &Classes<'_>, instruction: &Listed) -> bool
    ensures { result ≡ resolves classes.now instruction.now }
{
    match instruction {
        Instruction::Static(_, member) => finds_static_field(classes, member),
        Instruction::Field(_, member) => finds_instance_field(classes, member),
        Instruction::Array(operation) => array_resolves(classes, operation),
        Instruction::Class(operation, name) => class_resolves(classes, *operation, name.as_bytes()),
        Instruction::Invoke(invocation, member) => invocation_resolves(
            classes,
            *invocation,
            member,
        ),
        Instruction::Nop
        | Instruction::Constant(_)
        | Instruction::Local(_)
        | Instruction::Stack(_)
        | Instruction::Number(_)
        | Instruction::Branch(_, _)
        | Instruction::TableSwitch(_)
        | Instruction::LookupSwitch(_)
        | Instruction::Return(_)
        | Instruction::Throw
        | Instruction::Monitor(_) => true,
    }
}

fn catch_resolves(classes: &Classes<'_>, row: &ExceptionRow) -> bool
    ensures { result ≡ catch_resolves classes.now row.now.class }
{
    match &row.class {
        Some(name) => classes.is_type(name.as_bytes()),
        None => true,
    }
}

fn is_one_unresolved(classes: &Classes<'_>, instructions: &[Placed]) -> bool
    ensures { result ≡ list_any (λ (i : PlacedAt). not (resolves classes.now i.instruction)) instructions.now }
{
    instructions
        .iter()
        .any(|placed| !resolves(classes, &placed.instruction))
}

fn is_one_catch_unresolved(classes: &Classes<'_>, rows: &[ExceptionRow]) -> bool
    ensures { result ≡ list_any (λ (row : RowListing). not (catch_resolves classes.now row.class)) rows.now }
{
    rows.iter().any(|row| !catch_resolves(classes, row))
}

fn is_unresolved_in(classes: &Classes<'_>, method: &Method) -> bool
    ensures { result ≡ is_unresolved_in classes.now method.now.code }
{
    match &method.code {
        Some(code) => {
            is_one_unresolved(classes, &code.instructions)
                || is_one_catch_unresolved(classes, &code.rows)
        }
        None => false,
    }
}

fn is_one_method_unresolved(classes: &Classes<'_>, methods: &[Method]) -> bool
    ensures { result ≡ list_any (λ (m : MethodListing). is_unresolved_in classes.now m.code) methods.now }
{
    methods
        .iter()
        .any(|method| is_unresolved_in(classes, method))
}

/// Whether an instruction or an exception row of the class refers to what can't be resolved.
#[tactic(auto, unfolding(model::specs::Accepted::References::has_unresolved))]
pub fn has_unresolved(classes: &Classes<'_>, class: &Listing) -> bool
    ensures { result ≡ has_unresolved classes.now class.now }
{
    is_one_method_unresolved(classes, &class.methods)
}
