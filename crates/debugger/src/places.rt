//! Places in a program's code by their names.
ghost use Rattle.std.specs.Prelude.{◌≡◌, Some, position};
ghost use Rattle.model.specs.Classes.Named.{is_named};
ghost use Rattle.debugger.specs.Breakpoints.{find_pc, is_method, place_in_class, place_in_method, place_named};

use model::listings::{Code, Listing, Method};
use model::places::{CodePlace, MethodPlace};

/// The pc of an instruction, if there is one.
fn find_pc(code: &Code, pc: u32) -> Option<u16>
    ensures { result ≡ find_pc pc code.now.instructions }
{
    for placed in &code.instructions {
        if u32::from(placed.pc) == pc {
            return Some(placed.pc);
        }
    }
    None
}

/// The place of the class of a name.
fn class_named(program: &[Listing], name: &[u8]) -> Option<usize>
    ensures { result ≡ position (is_named name.now) program.now }
{
    program
        .iter()
        .position(|class| class.name.as_bytes() == name)
}

/// The place of the method that a class declares by a name and a descriptor.
fn method_named(methods: &[Method], name: &[u8], descriptor: &[u8]) -> Option<usize>
    ensures { result ≡ position (is_method name.now descriptor.now) methods.now }
{
    methods.iter().position(|method| {
        method.name.as_bytes() == name && method.descriptor.as_bytes() == descriptor
    })
}

/// An instruction of a method.
fn place_in_method(place: MethodPlace, pc: u32, method: &Method) -> Option<CodePlace>
    ensures { result ≡ place_in_method place.class place.method pc (Some method.now) }
{
    let code = method.code.as_ref()?;
    let pc = find_pc(code, pc)?;
    Some(CodePlace { method: place, pc })
}

/// An instruction of a method that a class declares.
fn place_in_class(
    listing: &Listing,
    class: usize,
    name: &[u8],
    descriptor: &[u8],
    pc: u32,
) -> Option<CodePlace>
    ensures { result ≡ place_in_class name.now descriptor.now pc class (Some listing.now) }
{
    let methods = listing.methods.as_slice();
    let method = method_named(methods, name, descriptor)?;
    let found = methods.get(method)?;
    place_in_method(MethodPlace { class, method }, pc, found)
}

/// The instruction at a pc of the method that a class declares by a name and a descriptor; none where there is no such
/// class, method or pc, and for methods without code and the machine's own.
pub fn place_named(
    program: &[Listing],
    class: &[u8],
    name: &[u8],
    descriptor: &[u8],
    pc: u32,
) -> Option<CodePlace>
    ensures { result ≡ place_named program.now class.now name.now descriptor.now pc }
{
    let place = class_named(program, class)?;
    let listing = program.get(place)?;
    place_in_class(listing, place, name, descriptor, pc)
}
