//! What a method that was resolved or selected has to run (JVMS 2.6, 6.5).
ghost use Rattle.std.specs.Prelude.{◌≡◌, None};
ghost use Rattle.model.specs.Callees.{callee_of, callee_by};
ghost use Rattle.ideal_run.specs.Called.{callee_in};

use crate::programs::{Program, builtin_of};
use model::builtins::Builtin;
use model::listings::{Code, Method};
use model::places::MethodPlace;
use resolve::found::Found;

/// One of the machine's own methods, a method with code and the place where the program declares it, or neither: no
/// method, or an abstract one.
pub enum Callee<'c> {
    Own(Builtin),
    Coded(&'c Method, &'c Code, MethodPlace),
    NoCode,
}

/// A method that isn't the machine's own.
fn coded<'c>(program: &Program<'_>, found: Found<'c, Method>) -> Callee<'c>
    ensures { callee_in result ≡ callee_by program.now found.entry None }
{
    let method = found.member;
    match method.code.as_ref() {
        None => Callee::NoCode,
        Some(code) => match program.place_of(&found) {
            None => Callee::NoCode,
            Some(place) => Callee::Coded(method, code, place),
        },
    }
}

/// What a method that was found has to run.
pub fn callee_of<'c>(program: &Program<'_>, found: Option<Found<'c, Method>>) -> Callee<'c>
    ensures { callee_in result ≡ callee_of program.now found.entry }
{
    match found {
        None => Callee::NoCode,
        Some(found) => {
            let class = found.class;
            let method = found.member;
            match builtin_of(&class.name, &method.name, &method.descriptor) {
                Some(builtin) => Callee::Own(builtin),
                None => coded(program, found),
            }
        }
    }
}
