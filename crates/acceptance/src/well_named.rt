//! Names that are names (JVMS 4.2.1, 4.4.1).
ghost use Rattle.std.specs.Prelude.{◌≡◌};
ghost use Rattle.std.specs.List.{list_all};
ghost use Rattle.model.specs.ClassFiles.References.{names_class};
ghost use Rattle.model.specs.WellNamed.{array_is_named, class_is_named, is_well_named, type_is_named, types_are_named};
ghost use Rattle.model.specs.WellNamed.{types_are_named_in};
ghost use Rattle.model.specs.declared.listings.Placed.{Placed as PlacedAt};

use model::descriptors::is_array_descriptor;
use model::good_names::is_class_name;
use model::instructions::{ArrayOperation, ClassOperation, Instruction};
use model::listings::{Listed, Listing, Method, Placed};
use model::names::Name;

/// Whether a class file can have the name, as a class's or as an array's descriptor.
fn names_class(name: &[u8]) -> bool
    ensures { result ≡ names_class name.now }
{
    is_class_name(name) || is_array_descriptor(name)
}

fn array_is_named(operation: &ArrayOperation<Name>) -> bool
    ensures { result ≡ array_is_named operation.now }
{
    match operation {
        ArrayOperation::NewOf(name) => names_class(name.as_bytes()),
        ArrayOperation::New(_)
        | ArrayOperation::Length
        | ArrayOperation::Load(_)
        | ArrayOperation::Store(_) => true,
    }
}

fn class_is_named(operation: ClassOperation, name: &Name) -> bool
    ensures { result ≡ class_is_named operation name.now }
{
    match operation {
        ClassOperation::New => true,
        ClassOperation::CheckCast | ClassOperation::InstanceOf => names_class(name.as_bytes()),
    }
}

/// Whether the type that an instruction names, if it names one, has a name that a class file can have.
fn type_is_named(instruction: &Listed) -> bool
    ensures { result ≡ type_is_named instruction.now }
{
    match instruction {
        Instruction::Nop
        | Instruction::Constant(_)
        | Instruction::Local(_)
        | Instruction::Stack(_)
        | Instruction::Number(_)
        | Instruction::Branch(_, _)
        | Instruction::Return(_)
        | Instruction::TableSwitch(_)
        | Instruction::LookupSwitch(_) => true,
        Instruction::Static(_, _)
        | Instruction::Field(_, _)
        | Instruction::Invoke(_, _)
        | Instruction::Throw
        | Instruction::Monitor(_) => true,
        Instruction::Array(operation) => array_is_named(operation),
        Instruction::Class(operation, name) => class_is_named(*operation, name),
    }
}

fn are_named(instructions: &[Placed]) -> bool
    ensures { result ≡ list_all (λ (i : PlacedAt). type_is_named i.instruction) instructions.now }
{
    instructions
        .iter()
        .all(|placed| type_is_named(&placed.instruction))
}

/// Whether the types that a method's code names have such names.
fn types_are_named_in(method: &Method) -> bool
    ensures { result ≡ types_are_named_in method.now.code }
{
    match &method.code {
        Some(code) => are_named(&code.instructions),
        None => true,
    }
}

fn types_are_named(methods: &[Method]) -> bool
    ensures { result ≡ types_are_named methods.now }
{
    methods.iter().all(|method| types_are_named_in(method))
}

/// Whether the class has a class's name, and its code names types by names that a class file can have. It is so in the
/// listing of every text and of every class file.
#[tactic(auto, unfolding(model::specs::WellNamed::is_well_named))]
pub fn is_well_named(class: &Listing) -> bool
    ensures { result ≡ is_well_named class.now }
{
    is_class_name(class.name.as_bytes()) && types_are_named(&class.methods)
}
