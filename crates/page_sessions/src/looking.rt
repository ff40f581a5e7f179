//! Answers that are looked up in a world, for which memory may run out.
ghost use Rattle.std.specs.Prelude.{◌≡◌, ◌++◌, IfOk, codes, slice_get};
ghost use Rattle.debug_texts.specs.Answers.{fields_text};
ghost use Rattle.model.specs.JournalTexts.{journal_text};
ghost use Rattle.model.specs.Observers.{ideal, output_of};
ghost use Rattle.page_texts.specs.Shown.{classes_lines, rows_text, whole_text};
ghost use Rattle.page_sessions.specs.Texts.{helds_text, listing_text, state_text, thread_text, threads_text};
ghost use Rattle.page_sessions.specs.Texts.{world_lists_text};

use crate::held::helds_answer;
use debug_texts::frames::stack_answer;
use disasm::text;
use journal_texts::writing::write_journal;
use model::listings::Listing;
use page_texts::fields::fields_answer;
use page_texts::journal_rows::rows_answer;
use page_texts::lists::lists_answer;
use page_texts::methods::methods_answer;
use page_texts::states::{write_fault, write_state};
use page_texts::threads::write_thread;
use page_texts::whole_texts::whole_answer;
use scheduler::worlds::World;
use std::alloc::{AllocError, Global};

/// How a world stands.
pub fn state_of(alloc: Global, world: &World) -> Result<Vec<u8>, AllocError>
    ensures { IfOk result (λ text. text.items ≡ state_text world.now) }
{
    let mut text = Vec::new(alloc);
    write_state(
        &mut text,
        world.status(),
        world.rows(),
        world.next_birth(),
        world.pick(),
        world.phase(),
    )?;
    write_fault(&mut text, world.fault())?;
    Ok(text)
}

/// Adds what is to be seen of a thread.
fn add_thread(
    alloc: Global,
    text: &mut Vec<u8>,
    program: &[Listing],
    world: &World,
    number: u8,
) -> Result<(), AllocError>
    requires { program.now ≡ world.now.program }
    ensures { IfOk result (λ _. text.new.items ≡ text.old.items ++ thread_text world.now number) }
{
    let view = world.thread(number)?;
    write_thread(text, number, &view)?;
    let frames = stack_answer(alloc, program, &view)?;
    text.extend_from_slice(&frames)
}

/// Each thread that was started, with its frames.
pub fn threads_of(alloc: Global, world: &World) -> Result<Vec<u8>, AllocError>
    ensures { IfOk result (λ text. text.items ≡ threads_text world.now) }
{
    let mut text = Vec::new(alloc);
    let program = world.program().listings();
    for number in 0..world.thread_count() {
        add_thread(alloc, &mut text, program, world, number)?;
    }
    Ok(text)
}

/// What the cells hold to whose objects paths lead.
pub fn held_of(alloc: Global, world: &World) -> Result<Vec<u8>, AllocError>
    ensures { IfOk result (λ text. text.items ≡ helds_text world.now) }
{
    let helds = world.helds()?;
    helds_answer(alloc, helds.as_slice())
}

/// The grey list and the free lists, in their order.
pub fn lists_of(alloc: Global, world: &World) -> Result<Vec<u8>, AllocError>
    ensures { IfOk result (λ text. text.items ≡ world_lists_text world.now) }
{
    let lists = world.lists()?;
    lists_answer(
        alloc,
        lists.grey.as_slice(),
        lists.small.as_slice(),
        lists.medium.as_slice(),
        lists.large.as_slice(),
    )
}

/// The static fields.
pub fn statics_of(alloc: Global, world: &World) -> Result<Vec<u8>, AllocError>
    ensures { IfOk result (λ text. text.items ≡ fields_text (ideal world.now).statics.fields) }
{
    let fields = world.static_fields()?;
    fields_answer(alloc, fields.as_slice())
}

/// The classes, their methods and the places of these.
pub fn methods_of(alloc: Global, world: &World) -> Result<Vec<u8>, AllocError>
    ensures { IfOk result (λ text. text.items ≡ classes_lines world.now.program) }
{
    methods_answer(alloc, world.program().listings())
}

/// So many rows of the journal at most, from one on.
pub fn rows_of(alloc: Global, world: &World, first: u32, count: u32) -> Result<Vec<u8>, AllocError>
    ensures { IfOk result (λ text. text.items ≡ rows_text world.now.journal.rows first count) }
{
    rows_answer(alloc, world.journal().rows(), first, count)
}

/// The text of a class's listing.
pub fn listing_of(alloc: Global, world: &World, class: u32) -> Result<Vec<u8>, AllocError>
    ensures { IfOk result (λ text. text.items ≡ listing_text (slice_get world.now.program class)) }
{
    match world.program().listings().get(class as usize) {
        Some(listing) => {
            let told = text(alloc, listing)?;
            whole_answer(alloc, b"listing", told.as_slice())
        }
        None => Vec::from_slice(alloc, b"error no such class\n"),
    }
}

/// What was printed.
pub fn output_of(alloc: Global, world: &World) -> Result<Vec<u8>, AllocError>
    ensures { IfOk result (λ text. text.items ≡ whole_text (codes "output") (output_of world.now)) }
{
    whole_answer(alloc, b"output", world.output())
}

/// The journal's text.
pub fn journal_of(alloc: Global, world: &World) -> Result<Vec<u8>, AllocError>
    ensures { IfOk result (λ text. text.items ≡ whole_text (codes "journal") (journal_text world.now.journal)) }
{
    let told = write_journal(alloc, world.journal())?;
    whole_answer(alloc, b"journal", told.as_slice())
}
