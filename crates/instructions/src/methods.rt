//! What a turn asks of the method that a frame runs.
ghost use Rattle.std.specs.Prelude.{◌≡◌, List, false, true};
ghost use Rattle.std.specs.Option.{option_copied};
ghost use Rattle.model.specs.declared.places.MethodPlace.{MethodPlace};
ghost use Rattle.model.specs.ClassListings.{ClassListing};
ghost use Rattle.model.specs.Initialisation.{is_initializer_if};
ghost use Rattle.model.specs.Programs.{method_at};
ghost use Rattle.model.specs.Table.Returns.{gives, same_result};
ghost use Rattle.instructions.specs.MethodsByNumber.{facts_in};

use linking::method_tables::{MethodInfo, Returns};
use loader::method_codes::MethodCode;
use loader::programs::Program;
use model::places::MethodPlace;
use model::values::Kind;

/// What is known of the method at a place. `None` where the program has no such method.
#[inline(always)]
pub(crate) fn info_of(program: &Program, place: MethodPlace) -> Option<&MethodInfo>
    ensures { option_copied result ≡ facts_in program.now place }
{
    if place.class < program.listings().len() {
        program.tables().methods.method(place)
    } else {
        None
    }
}

/// Whether the method at a place is a class initializer.
pub(crate) fn is_initializer(program: &Program, place: MethodPlace) -> bool
    ensures { result ≡ is_initializer_if (method_at program.now place) }
{
    match info_of(program, place) {
        Some(method) => method.is_initializer(),
        None => false,
    }
}

/// Whether two results are of one kind, or both none.
#[inline(always)]
fn same_result(kind: Option<Kind>, other: Option<Kind>) -> bool
    ensures { result ≡ same_result kind other }
{
    match (kind, other) {
        (None, None) => true,
        (Some(Kind::Int), Some(Kind::Int)) => true,
        (Some(Kind::Long), Some(Kind::Long)) => true,
        (Some(Kind::Ref), Some(Kind::Ref)) => true,
        _ => false,
    }
}

/// Whether the result of the method at a place is of this kind.
pub(crate) fn gives(program: &Program, place: MethodPlace, kind: Option<Kind>) -> bool
    ensures { result ≡ gives kind (method_at program.now place) }
{
    match info_of(program, place) {
        Some(method) => same_result(kind, method.result()),
        None => false,
    }
}

/// Whether the method of some code is no class initializer, and its result is of this kind.
#[inline(always)]
pub(crate) fn is_plain(code: &MethodCode, kind: Option<Kind>) -> bool
    ensures plain { result ≡ true → (program : List ClassListing) (place : MethodPlace)
        → code.now.info ≡ facts_in program place → is_initializer_if (method_at program place) ≡ false }
    ensures gives { result ≡ true → (program : List ClassListing) (place : MethodPlace)
        → code.now.info ≡ facts_in program place → gives kind (method_at program place) ≡ true }
{
    code.returns() == Returns::of(kind)
}
