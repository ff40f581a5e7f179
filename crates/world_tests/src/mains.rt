//! Programs of one class, by the lines of its main, their worlds, and the rows of what they come to.
ghost use Rattle.std.specs.Prelude.{◌≡◌, [], IfOk};

use acceptance::accept;
use loader::programs::Program;
use model::journals::{HeapShape, Limits, Row};
use model::listings::Listing;
use scheduler::worlds::World;
use std::alloc::{AllocError, Global};
use std::test::Fail;

/// Prints -2147483648.
pub const WRAPPING_SUM: &str =
    "ldc 2147483647\niconst_1\niadd\ninvokestatic vm/Sys/print(I)V\nreturn\n";

/// Makes an array of one int, and drops it.
pub const ARRAY: &str = "iconst_1\nnewarray int\npop\nreturn\n";

/// Two arrays, each of which is garbage when it is popped.
pub const ARRAYS: &str = "iconst_1\nnewarray int\npop\niconst_1\nnewarray int\npop\nreturn\n";

/// Ends by an ArithmeticException, or by an OutOfMemoryError in its place.
pub const DIVISION: &str = "iconst_1\niconst_0\nidiv\nreturn\n";

fn listed(alloc: Global, text: &str) -> Result<Listing, Fail> {
    let tree = jasmin::read(alloc, text.as_bytes())?;
    Ok(assembler::listing(alloc, tree)?)
}

/// The program of one text.
pub fn program_of(alloc: Global, text: &str) -> Result<Program, Fail> {
    let listings = vec![in alloc; listed(alloc, text)?]?;
    accept(alloc, listings.as_slice())?;
    Ok(Program::new(alloc, listings)?)
}

/// The program whose main has these lines and so much stack.
pub fn program(alloc: Global, max_stack: u16, lines: &str) -> Result<Program, Fail> {
    let text = format!(in alloc;
        ".class public A\n.super java/lang/Object\n.method static main()V\n.limit stack {max_stack}\n.limit locals 0\n{lines}.end method\n"
    )?;
    program_of(alloc, text.as_str())
}

/// The program whose main is so many times `nop`, and `return`.
pub fn nops(alloc: Global, count: usize) -> Result<Program, Fail> {
    let mut lines = "nop\n".repeat(alloc, count)?;
    lines.push_str("return\n")?;
    program(alloc, 0, lines.as_str())
}

/// The world of a program on so many small cells, which has made no turn.
pub fn world_on(alloc: Global, program: Program, small: u32, limits: Limits) -> Result<World, Fail>
    ensures { IfOk result (λ world. world.journal.rows ≡ []) }
{
    let shape = HeapShape {
        small,
        medium: 0,
        large: 0,
    };
    Ok(World::new(alloc, program, shape, limits)?)
}

/// Whether a world's journal has these rows, and no more.
pub fn has_rows(world: &World, rows: &[Row]) -> bool {
    let mut found = world.journal().rows();
    for row in rows {
        if found.next() != Some(*row) {
            return false;
        }
    }
    found.next().is_none()
}
