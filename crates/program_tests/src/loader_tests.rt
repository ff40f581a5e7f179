//! Programs in rows of words, and what a program has by pcs. What is reported of programs stands in
//! examples/answers.txt.

mod operations;
mod selections;
mod tables;

use crate::texts::{classes, program};
use acceptance::accept;
use linking::operations::Operation;
use loader::programs::Program;
use model::listings::Listing;
use model::names::Name;
use model::places::MethodPlace;
use std::alloc::{AllocError, Global};
use std::process::Abort;
use std::test::Fail;

/// What is reported of these classes.
fn reported(alloc: Global, program: &[Listing]) -> Result<String, AllocError> {
    match accept(alloc, program) {
        Ok(()) => String::from_str(alloc, "accepted"),
        Err(error) => error.to_string(alloc),
    }
}

/// Gives a program's last class a name that is none, as no text has it.
fn rename_last(alloc: Global, program: &mut [Listing]) -> Result<(), AllocError> {
    if let Some(class) = program.last_mut() {
        class.name = Name::copy_of(alloc, b"[X")?;
    }
    Ok(())
}

fn refuses_a_name(alloc: Global) -> Result<bool, Fail> {
    let mut program = classes(alloc, "class E|main; class X")?;
    rename_last(alloc, &mut program)?;
    Ok(reported(alloc, &program)?.as_str() == "L10 in class [X")
}

/// Where the instruction after the one at a pc stands, by the listing and by the step, and the step's operation.
fn step_at(program: &Program, place: MethodPlace, pc: u16) -> (u16, u16, &'static str) {
    let following = match program.placed(place, pc) {
        Some(placed) => placed.next,
        None => 0,
    };
    let step = program.step(place, pc);
    let operation = match step.operation {
        Operation::Nop => "nop",
        Operation::Return => "return",
        Operation::Invalid => "none",
        _ => "another",
    };
    (following, step.next, operation)
}

/// A class and a method; the units that its arguments take, if there is such a method, and where register code can
/// begin.
const METHODS: &[(usize, usize, Option<usize>, Option<usize>)] = &[
    (0, 0, Some(0), Some(1)),
    (0, 1, Some(0), Some(1)),
    (0, 2, None, None),
    (2, 0, None, None),
];

fn compare_methods(rt: &impl Abort, program: &Program) {
    for (class, method, units, start) in METHODS {
        let code = program.code(MethodPlace {
            class: *class,
            method: *method,
        });
        let known = match code.info() {
            Some(info) => Some(info.argument_units()),
            None => None,
        };
        assert!(rt;
            known == *units && code.start() == *start,
            "{class} {method}"
        );
    }
}

/// A method of a class, and how many values and units a call takes that enters it as register code at once: with its
/// arguments alone, and on an object (JVMS 2.6.1: a long takes two units).
const ENTRIES: &[(usize, Option<(u8, u8)>, Option<(u8, u8)>)] = &[
    (0, Some((0, 0)), None),
    (1, Some((2, 3)), None),
    (2, None, Some((3, 4))),
    (3, None, None),
];

fn is_same(taken: Option<(u8, u8)>, wanted: Option<(u8, u8)>) -> bool {
    match taken {
        Some((values, units)) => match wanted {
            Some((others, more)) => values == others && units == more,
            None => false,
        },
        None => wanted.is_none(),
    }
}

fn compare_entries(rt: &impl Abort, program: &Program) {
    for (method, alone, on_object) in ENTRIES {
        let code = program.code(MethodPlace {
            class: 0,
            method: *method,
        });
        let as_static = match code.enters_static() {
            Some(taken) => Some((taken.values, taken.units)),
            None => None,
        };
        let as_instance = match code.enters_instance() {
            Some(taken) => Some((taken.values, taken.units)),
            None => None,
        };
        assert!(rt;
            is_same(as_static, *alone) && is_same(as_instance, *on_object),
            "{method}"
        );
    }
}

/// A class, a method and a pc; where the instruction after stands, and what the one that is there does.
const PCS: &[(usize, usize, u16, u16, &str)] = &[
    (0, 0, 0, 1, "nop"),
    (0, 0, 1, 2, "return"),
    (0, 0, 2, 0, "none"),
    (0, 1, 0, 1, "return"),
    (0, 1, 1, 0, "none"),
    (0, 2, 0, 0, "none"),
    (1, 0, 0, 1, "return"),
    (2, 0, 0, 0, "none"),
];

fn compare_pcs(rt: &impl Abort, program: &Program) {
    for (class, method, pc, next, operation) in PCS {
        let place = MethodPlace {
            class: *class,
            method: *method,
        };
        assert!(rt;
            step_at(program, place, *pc) == (*next, *next, *operation),
            "{class} {method} {pc}"
        );
    }
}

/// Whether a program is equal to another one, or not, and the other one to its copy.
fn compares(program: &Program, other: &Program, is_equal: bool) -> Result<bool, AllocError> {
    let copy = other.copy()?;
    Ok((*program == *other) == is_equal && *other == copy)
}

/// The same of the program of some classes.
fn compares_with(
    alloc: Global,
    program: &Program,
    other: &str,
    is_equal: bool,
) -> Result<bool, Fail> {
    let other = crate::texts::program(alloc, other)?;
    Ok(compares(program, &other, is_equal)?)
}

const PROGRAMS: &[(&str, bool)] = &[
    ("class E|.field public x I|main; class F", true),
    ("class E|.field public x J|main; class F", false),
    ("class E|.field public x I|main", false),
];

/// What no text and no command has: no class, and a class whose name is none.
#[test]
fn programs_are_refused(rt: HostRuntime) -> Result<(), Fail> {
    assert!(rt; reported(rt.alloc(), &[])?.as_str() == "L9", "no class");
    assert!(rt; refuses_a_name(rt.alloc())?, "a name");
    Ok(())
}

/// Main's instructions by their pcs, and the initializer after a class's last method (JVMS 2.9), and what is known of
/// both. Programs are equal where their listings are, in one order.
#[test]
fn programs_have_steps_and_are_compared(rt: HostRuntime) -> Result<(), Fail> {
    let steps = program(rt.alloc(), "class E|main; class F")?;
    compare_pcs(&rt, &steps);
    compare_methods(&rt, &steps);
    compare_entries(
        &rt,
        &program(
            rt.alloc(),
            "class E|main|code 3 0 static f(IJ)V|code 4 0 public g(IJ)V|code 1 0 public synchronized h()V",
        )?,
    );
    let program = program(rt.alloc(), "class E|.field public x I|main; class F")?;
    for (other, is_equal) in PROGRAMS {
        assert!(rt;
            compares_with(rt.alloc(), &program, other, *is_equal)?,
            "{other}"
        );
    }
    Ok(())
}
