//! Answers that are looked up in a world, for which memory may run out.
ghost use Rattle.std.specs.Prelude.{◌≡◌, ◌++◌, IfOk};
ghost use Rattle.std.specs.Option.{option_map};
ghost use Rattle.debug_texts.specs.Answers.{object_text, stack_text};
ghost use Rattle.model.specs.Observers.{object_of, thread_of};
ghost use Rattle.model.specs.Worlds.{Object};
ghost use Rattle.debugger.specs.Sessions.{heap_text};

use debug_texts::frames::stack_answer;
use debug_texts::heaps::{write_cell, write_phase};
use debug_texts::objects::object_answer;
use scheduler::worlds::World;
use std::alloc::{AllocError, Global};

/// The frames of a thread.
pub fn stack_of(alloc: Global, world: &World, thread: u8) -> Result<Vec<u8>, AllocError>
    ensures { IfOk result (λ text. text.items ≡ stack_text world.now.program (thread_of world.now thread)) }
{
    let view = world.thread(thread)?;
    stack_answer(alloc, world.program().listings(), &view)
}

/// What the object of a birth holds.
pub fn object_of(alloc: Global, world: &World, birth: u32) -> Result<Vec<u8>, AllocError>
    ensures { IfOk result (λ text. text.items
        ≡ object_text birth (option_map (λ (o : Object). o.contents) (object_of world.now birth))) }
{
    let view = world.object(birth)?;
    object_answer(alloc, birth, &view)
}

/// The lines of all cells, and where the collector stands.
pub fn heap_of(alloc: Global, world: &World) -> Result<Vec<u8>, AllocError>
    ensures { IfOk result (λ text. text.items ≡ heap_text world.now) }
{
    let mut text = Vec::new(alloc);
    for number in 0..world.cell_count() {
        match world.heap(number) {
            Some(cell) => write_cell(&mut text, number, cell)?,
            None => unreachable!(),
        }
    }
    write_phase(&mut text, world.phase())?;
    Ok(text)
}
