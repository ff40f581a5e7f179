//! The heap: objects in cells, and the account of the cells.
ghost use Rattle.std.specs.Prelude.{[], ◌≡◌, ◌+◌, ◌<◌, ◌^◌, length, slice_get, true, IfOk, IfSome, Some};
ghost use Rattle.model.specs.Accounts.{has_room, take_cell};
ghost use Rattle.std.specs.Option.{option_map};
ghost use Rattle.values.specs.Slots.{value_of};
ghost use Rattle.model.specs.Limits.{ShapeFits};
ghost use Rattle.model.specs.Observers.{cell_view};
ghost use Rattle.model.specs.Room.{words_of_cell};
ghost use Rattle.join.specs.ReadBack.{birth_read};
ghost use Rattle.instructions.specs.ByNumbers.{AreStored, IsStored};
ghost use Rattle.instructions.specs.HeapsAgree.{HoldsErrors, own_kind};
ghost use Rattle.instructions.specs.Threads.{all_shown};
ghost use Rattle.instructions.specs.Heaps.{all_shaded, collected, created, exception_kind, exception_place, kind_held};
ghost use Rattle.instructions.specs.Heaps.{memory_error_kind, own_class, opening_heap, reference_taken, shaded};
ghost use Rattle.instructions.specs.Heaps.{words_held, written};

mod entering;
mod filling;
mod listing;
mod looking;
mod monitoring;
pub(crate) mod owed;
mod owed_steps;
mod showing;
mod starting;

use crate::kinds::Kind;
use crate::threads::Threads;
use cells::Cells;
use collector::{append_quickly, collect_step};
use colours::accounts::Account;
pub(crate) use entering::is_full;
use frames::Frames;
use loader::programs::Program;
use looking::Looked;
use model::colours::{Cell, Phase};
use model::journals::HeapShape;
use model::turns::Exception;
use model::values::Value;
use model::views::CellView;
use plain_steps::Written;
use std::alloc::{AllocError, Global};
use std::marker::Model;
use values::Words;
use values::slots::Slot;

/// The heap of a running program. A contract sees its shape, the account, the object of each cell, and the number of
/// the next birth. A reference is the number of a cell and one more. No call but `new` and `reached` takes memory.
#[derive(Drop)]
pub(crate) struct Heap {
    account: Account,
    cells: Cells<Kind>,
    births: u32,
    classes: u16,
}

impl Model for Heap {
    ghost use Rattle.instructions.specs.ByNumbers.{AreStored, IsStored};
    ghost use Rattle.instructions.specs.Heaps.{HeapValue};
    ghost use Rattle.instructions.specs.HeapsAgree.{IsHeap};

    ghost Value = { HeapValue };

    ghost view = { λ a. record {
      shape = a.cells.shape;
      account = a.account;
      objects = a.cells.objects;
      births = a.births;
      classes = a.classes;
    } };

    ghost invariant = { λ a. IsHeap a.cells.shape a.account a.cells.objects a.births a.classes };
}

/// A birth of this number may be the last.
const MOST_BIRTHS: u32 = u32::MAX - 1;

impl Heap {
    /// A heap that holds OutOfMemoryError and StackOverflowError alone. `AllocError` where there is no memory for it.
    pub(crate) fn new(
        alloc: Global,
        program: &Program,
        shape: HeapShape,
    ) -> Result<Heap, AllocError>
        requires { ShapeFits shape.small shape.medium shape.large }
        ensures heap { IfOk result (λ heap. heap ≡ opening_heap program.now shape) }
        ensures stored { IfOk result (λ heap. AreStored program.now heap.objects) }
    {
        let account = Account::new(alloc, shape)?;
        let mut cells = Cells::new(alloc, shape)?;
        let stack_error = exception_kind(program, Exception::StackOverflow);
        cells.place_all(0, memory_error_kind(program), &[]);
        cells.place_all(1, stack_error, &[]);
        Ok(Heap {
            account,
            cells,
            births: 3,
            classes: program.listings().len() as u16,
        })
    }

    /// Shades what a reference leads to.
    #[inline(always)]
    pub(crate) fn shade(&mut self, reference: Option<u32>)
        ensures { self.new ≡ shaded self.old reference }
    {
        if let Some(reference) = reference {
            self.account.shade(reference);
        }
    }

    /// Shades what a turn wrote, in the order of writing.
    #[inline(always)]
    pub(crate) fn shade_all(&mut self, written: &Written)
        ensures { self.new ≡ all_shaded self.old written.now }
    {
        for reference in written.as_slice() {
            self.shade(Some(*reference));
        }
    }

    /// Whether a free cell has so many words; the cell that is taken then is one of the heap's.
    pub(crate) fn has_room(&self, words: u32) -> bool
        ensures room { result ≡ has_room self.now.account words }
        ensures there { IfSome (take_cell self.now.account words) (λ taken. taken.0 < length self.now.objects) }
    {
        self.account.has_room(words)
    }

    /// A new object with these words, grey, in the front cell of the smallest size that has a free cell for it: its
    /// reference. `None` exactly where no free cell has room, and then nothing changes.
    pub(crate) fn create(&mut self, kind: Kind, words: &[Value]) -> Option<u32>
        requires { self.old.births + 1 < 2 ^ 32 }
        ensures reference { result ≡ reference_taken (take_cell self.old.account (length words.now)) }
        ensures heap { self.new ≡ created self.old kind words.now (take_cell self.old.account (length words.now)) }
    {
        if words.len() > 256 {
            return None; // more than any cell has
        }
        let cell = self.account.create(words.len() as u32, self.births)?;
        self.cells.place_all(cell, kind, words);
        self.births += 1;
        Some(cell + 1)
    }

    /// What the object of a reference is of. `None` where there is no object.
    pub(crate) fn kind(&self, reference: u32) -> Option<Kind>
        ensures { result ≡ kind_held self.now reference }
    {
        self.cells.kind(reference.checked_sub(1)?)
    }

    /// What birth 1 is of, OutOfMemoryError.
    pub(crate) fn memory_error(&self) -> Kind
        requires { HoldsErrors self.now.account }
        ensures held { kind_held self.now 1 ≡ Some result }
        ensures kind { result ≡ own_kind self.now.classes 16 }
    {
        Kind::Instance(self.classes + 16)
    }

    /// What birth 2 is of, StackOverflowError.
    pub(crate) fn stack_error(&self) -> Kind
        requires { HoldsErrors self.now.account }
        ensures held { kind_held self.now 2 ≡ Some result }
        ensures kind { result ≡ own_kind self.now.classes 17 }
    {
        Kind::Instance(self.classes + 17)
    }

    /// Whether a turn may be made on it: the errors that were made before the run have their cells, and a birth more has
    /// a number.
    #[inline(always)]
    pub(crate) fn serves_turns(&self) -> bool
        ensures errors { result ≡ true → HoldsErrors self.now.account }
        ensures births { result ≡ true → self.now.births + 1 < 2 ^ 32 }
    {
        if self.births >= MOST_BIRTHS {
            return false;
        }
        self.birth(1) == 1 && self.birth(2) == 2
    }

    /// What a word of the object of a reference holds. `None` past its last word, and where there is no object.
    #[inline(always)]
    pub(crate) fn word(&self, reference: u32, index: u32) -> Option<Slot>
        ensures { option_map value_of result ≡ slice_get (words_held self.now reference) index }
    {
        self.cells.word(reference.checked_sub(1)?, index)
    }

    /// Writes a word of the object of a reference. Where there is none, nothing changes.
    #[inline(always)]
    pub(crate) fn put(&mut self, reference: u32, index: u32, value: Value)
        ensures { self.new ≡ written self.old reference index value }
    {
        if let Some(cell) = reference.checked_sub(1) {
            self.cells.put(cell, index, value);
        }
    }

    /// The birth to which a reference leads: 0 where there is no object.
    pub(crate) fn birth(&self, reference: u32) -> u32
        ensures { result ≡ birth_read self.now.account.cells reference }
    {
        let Some(cell) = reference.checked_sub(1) else {
            return 0;
        };
        match self.account.cell(cell) {
            Cell::Free => 0,
            Cell::Taken { birth, colour: _ } => birth,
        }
    }

    /// A cell: how many words it has, and the birth and the colour that it holds, if it holds one. `None` past the last
    /// cell.
    pub(crate) fn cell(&self, cell: u32) -> Option<CellView>
        ensures { result ≡ option_map (cell_view (words_of_cell self.now.shape cell))
            (slice_get self.now.account.cells cell) }
    {
        if cell as usize >= self.account.cells() {
            return None;
        }
        let held = match self.account.cell(cell) {
            Cell::Free => None,
            Cell::Taken { birth, colour } => Some((birth, colour)),
        };
        Some(CellView {
            words: u32::from(self.cells.room(cell)),
            held,
        })
    }

    /// Where the collector stands.
    pub(crate) fn phase(&self) -> Phase
        ensures { result ≡ self.now.account.phase }
    {
        self.account.phase()
    }

    /// The number of the next birth.
    pub(crate) fn births(&self) -> u32
        ensures { result ≡ self.now.births }
    {
        self.births
    }

    /// The collector's turn: one look at one place of the threads' frames, the static fields or the objects, or one
    /// cell given back or whitened (CACM 21(11)).
    // Most turns of a cycle whiten a cell or pass one that is free: that is inlined.
    #[inline(always)]
    pub(crate) fn collect(
        &mut self,
        program: &Program,
        threads: &Threads,
        running: u8,
        frames: &Frames,
        slots: &Words,
    )
        requires few { length slots.now < 2 ^ 32 }
        requires running { running < 64 }
        ensures { self.new ≡ collected program.now
            (all_shown program.now threads.now running frames.now) slots.now self.old }
    {
        if append_quickly(&mut self.account) {
            return;
        }
        self.collect_by_phase(program, threads, running, frames, slots);
    }

    /// The same, by the phase.
    #[inline(never)]
    fn collect_by_phase(
        &mut self,
        program: &Program,
        threads: &Threads,
        running: u8,
        frames: &Frames,
        slots: &Words,
    )
        requires few { length slots.now < 2 ^ 32 }
        requires running { running < 64 }
        ensures { self.new ≡ collected program.now
            (all_shown program.now threads.now running frames.now) slots.now self.old }
    {
        let looked = Looked {
            program,
            threads,
            running,
            frames,
            slots,
            cells: &self.cells,
        };
        let shape = self.cells.shape();
        if let Some(cell) = collect_step(&mut self.account, &looked, shape) {
            self.cells.clear(cell);
        }
    }
}

/// What an exception that the machine makes is of.
pub(crate) fn exception_kind(program: &Program, exception: Exception) -> Kind
    ensures kind { result ≡ exception_kind program.now exception }
    ensures stored { IsStored program.now result [] }
{
    own_class(program, exception_place(exception))
}

/// What birth 1 is of: OutOfMemoryError.
fn memory_error_kind(program: &Program) -> Kind
    ensures kind { result ≡ memory_error_kind program.now }
    ensures stored { IsStored program.now result [] }
{
    own_class(program, 16)
}

/// The place of an exception's class among the machine's own.
fn exception_place(exception: Exception) -> u16
    ensures place { result ≡ exception_place exception }
    ensures few { result < 25 }
{
    match exception {
        Exception::Arithmetic => 5,
        Exception::NullPointer => 6,
        Exception::ClassCast => 7,
        Exception::NegativeArraySize => 8,
        Exception::ArrayStore => 9,
        Exception::IllegalMonitorState => 10,
        Exception::ArrayIndexOutOfBounds => 12,
        Exception::IllegalThreadState => 14,
        Exception::StackOverflow => 17,
        Exception::ExceptionInInitializer => 19,
        Exception::NoClassDefFound => 20,
    }
}

/// The machine's own class at a place, by its number.
fn own_class(program: &Program, place: u16) -> Kind
    requires { place < 25 }
    ensures kind { result ≡ own_class program.now place }
    ensures stored { IsStored program.now result [] }
{
    Kind::Instance(program.listings().len() as u16 + place)
}
