//! The machine's limits on classes.
ghost use Rattle.std.specs.Prelude.{◌≡◌, Some, length, nat_lt};
ghost use Rattle.std.specs.Option.{option_copied};
ghost use Rattle.std.specs.List.{find, list_any};
ghost use Rattle.model.specs.declared.listings.Method.{Method as MethodListing};
ghost use Rattle.model.specs.Accepted.LimitsOfClasses.{own_fields, fields_within, has_too_many_fields, passes_limits};
ghost use Rattle.model.specs.Accepted.LimitsOfClasses.{is_too_large, first_past_limits};

use bitflags::Flags;
use model::descriptors::argument_units;
use model::flags::{FieldFlags, MethodFlags};
use model::listings::{Listing, Method};
use resolve::classes::Classes;

/// Whether the locals of a method don't hold its arguments, or a frame of it takes more than 4,096 units.
fn passes_limits(method: &Method) -> bool
    ensures { result ≡ passes_limits method.now method.now.code }
{
    match &method.code {
        Some(code) => {
            let arguments = argument_units(method.descriptor.as_bytes());
            let object = if method.flags.contains(MethodFlags::STATIC) {
                0
            } else {
                1
            };
            let locals = usize::from(code.max_locals);
            locals < arguments + object || locals + usize::from(code.max_stack) > 4096
        }
        None => false,
    }
}

fn own_fields(class: &Listing) -> usize
    ensures { result ≡ own_fields class.now }
{
    class
        .fields
        .iter()
        .filter(|field| !field.flags.contains(FieldFlags::STATIC))
        .count()
}

/// Whether an object of the class, with the fields of so many superclasses, has more fields than `room`.
fn has_more_fields(steps: usize, classes: &Classes<'_>, class: &Listing, room: usize) -> bool
    ensures { result ≡ nat_lt room (fields_within steps classes.now (Some class.now)) }
{
    let own = own_fields(class);
    if own > room {
        return true;
    }
    if steps == 0 {
        return false;
    }
    match classes.listed(class.superclass.as_bytes()) {
        Some(superclass) => has_more_fields(steps - 1, classes, superclass, room - own),
        None => false,
    }
}

fn is_one_past_limits(methods: &[Method]) -> bool
    ensures { result ≡ list_any (λ (m : MethodListing). passes_limits m m.code) methods.now }
{
    methods.iter().any(|method| passes_limits(method))
}

/// Whether an object of the class has more than 256 fields, or a method of it passes the limits.
#[tactic(auto, unfolding(model::specs::Accepted::LimitsOfClasses::is_too_large))]
fn is_too_large(classes: &Classes<'_>, class: &Listing) -> bool
    ensures { result ≡ is_too_large classes.now class.now }
{
    has_more_fields(classes.program().len(), classes, class, 256)
        || is_one_past_limits(&class.methods)
}

fn first_too_large<'a>(classes: &Classes<'_>, program: &'a [Listing]) -> Option<&'a Listing>
    ensures { option_copied result ≡ find (is_too_large classes.now) program.now }
{
    program.iter().find(|class| is_too_large(classes, class))
}

/// The first class past a limit; the 257th is past that of the number of classes.
#[tactic(auto, unfolding(model::specs::Accepted::LimitsOfClasses::first_past_limits))]
pub fn first_past_limits<'a>(classes: &Classes<'a>) -> Option<&'a Listing>
    ensures { option_copied result ≡ first_past_limits classes.now }
{
    let program = classes.program();
    if program.len() <= 256 {
        return first_too_large(classes, program);
    }
    match first_too_large(classes, &program[..256]) {
        Some(class) => Some(class),
        None => Some(&program[256]),
    }
}
