//! The account of the heap.
ghost use Rattle.std.specs.Prelude.{◌≡◌, ◌≢◌, ◌+◌, ◌<◌, ◌≤◌, length, nat_lt, slice_get, is_some, Some, IfOk, false};
ghost use Rattle.std.specs.Prelude.{true};
ghost use Rattle.std.specs.Option.{IfSome};
ghost use Rattle.model.specs.declared.colours.Cell.TheVariants.{Free, Taken};
ghost use Rattle.model.specs.declared.colours.Colour.TheVariants.{White, Black};
ghost use Rattle.model.specs.Accounts.{empty_account, opening_account, placed, take_cell, has_room};
ghost use Rattle.model.specs.Collector.Table.{cell_at, at_phase, with_cell, with_free, append_step};
ghost use Rattle.model.specs.Limits.{ShapeFits};
ghost use Rattle.join.specs.TurnsOnCells.{shade_cell};
ghost use Rattle.colours.specs.Births.{taken_cell, born_in, front_blackened, colour_in};
ghost use Rattle.colours.specs.Sound.{free_in, grey_in};

mod copies;

use crate::free_lists::FreeLists;
use crate::queues::push;
use circular_buffer::HeapCircularBuffer;
use model::colours::{Cell, Colour, Phase};
use model::journals::HeapShape;
use std::alloc::{AllocError, Global};
use std::marker::Model;

/// Which cell holds which birth in which colour, the free cells of each size, the grey list and the collector's phase.
/// Cells are numbered from 0. A contract sees the account of the definitions, with references in its grey list: the
/// number of a cell and one more. Every call but `new` takes constant time and no memory.
#[derive(Drop)]
pub struct Account {
    cells: Vec<Cell>,
    free: FreeLists,
    grey: HeapCircularBuffer<u32>,
    phase: Phase,
}

impl Model for Account {
    ghost use Rattle.model.specs.Accounts.{Account};
    ghost use Rattle.colours.specs.FreeLists.{account_of};
    ghost use Rattle.colours.specs.Sound.{AreKept};

    ghost Value = { Account };

    ghost view = { λ a. account_of a.cells.items a.free a.grey a.phase };

    ghost invariant = { λ a. AreKept a.cells.items a.free a.grey a.phase };
}

impl Account {
    /// The account of a new heap: births 1 and 2 are in it, white, all other cells are free, nothing is grey, and the
    /// collector is idle. `AllocError` where there is no memory for the cells and their lists.
    pub fn new(alloc: Global, shape: HeapShape) -> Result<Account, AllocError>
        requires { ShapeFits shape.small shape.medium shape.large }
        ensures { IfOk result (λ account. account ≡ opening_account shape) }
    {
        let mut account = Account::empty(alloc, shape)?;
        account.place(1);
        account.place(2);
        Ok(account)
    }

    /// An account of free cells. `AllocError` where there is no memory for them and their lists.
    fn empty(alloc: Global, shape: HeapShape) -> Result<Account, AllocError>
        requires { ShapeFits shape.small shape.medium shape.large }
        ensures { IfOk result (λ account. account ≡ empty_account shape) }
    {
        let count = (shape.small + shape.medium + shape.large) as usize;
        Ok(Account {
            cells: vec![in alloc; Cell::Free; count]?,
            free: FreeLists::new(alloc, shape, count)?,
            grey: HeapCircularBuffer::with_capacity(alloc, count)?,
            phase: Phase::Idle,
        })
    }

    /// A birth of no words comes, white, into the front cell of the smallest size with a free cell.
    fn place(&mut self, birth: u32)
        ensures { self.new ≡ placed self.old birth 0 White }
    {
        if let Some(cell) = self.free.take(0) {
            self.cells[cell as usize] = Cell::Taken {
                birth,
                colour: Colour::White,
            };
        }
    }

    /// How many cells there are: 65,535 at most.
    pub fn cells(&self) -> usize
        ensures count { result ≡ length self.now.cells }
        ensures few { result ≤ 65535 }
    {
        self.cells.len()
    }

    /// What a cell holds; nothing past the last one.
    pub fn cell(&self, cell: u32) -> Cell
        ensures { result ≡ cell_at self.now.cells cell }
    {
        held(&self.cells, cell)
    }

    /// The colour of what a cell holds; `None` for a free cell and past the last one.
    pub fn colour(&self, cell: u32) -> Option<Colour>
        ensures { result ≡ colour_in (cell_at self.now.cells cell) }
    {
        match self.cell(cell) {
            Cell::Free => None,
            Cell::Taken { birth: _, colour } => Some(colour),
        }
    }

    /// Where the collector stands.
    pub fn phase(&self) -> Phase
        ensures { result ≡ self.now.phase }
    {
        self.phase
    }

    /// The collector comes to another place.
    pub fn set_phase(&mut self, phase: Phase)
        ensures { self.new ≡ at_phase self.old phase }
    {
        self.phase = phase;
    }

    /// The front reference of the grey list; `None` where nothing is grey.
    pub fn front(&self) -> Option<u32>
        ensures { result ≡ slice_get self.now.grey 0 }
    {
        self.grey.front().copied()
    }

    /// Shades the cell of a reference: where it is white it turns grey, and the reference goes to the end of the grey
    /// list. A cell of another colour, a free one, and the reference 0 that no cell has, are left.
    // Most cells aren't white: that is seen where the write barrier stands.
    #[inline(always)]
    pub fn shade(&mut self, reference: u32)
        ensures { self.new ≡ shade_cell self.old reference }
    {
        if !self.is_dark(reference) {
            self.darken(reference);
        }
    }

    /// Whether the cell of a reference isn't white, or is none.
    #[inline(always)]
    fn is_dark(&self, reference: u32) -> bool
        ensures { result ≡ true → shade_cell self.now reference ≡ self.now }
    {
        let Some(cell) = reference.checked_sub(1) else {
            return true;
        };
        match self.cell(cell) {
            Cell::Taken {
                birth: _,
                colour: Colour::White,
            } => false,
            Cell::Taken {
                birth: _,
                colour: Colour::Grey,
            } => true,
            Cell::Taken {
                birth: _,
                colour: Colour::Black,
            } => true,
            Cell::Free => true,
        }
    }

    /// What `shade` does where the cell is white.
    #[inline(never)]
    fn darken(&mut self, reference: u32)
        ensures { self.new ≡ shade_cell self.old reference }
    {
        let Some(cell) = reference.checked_sub(1) else {
            return;
        };
        if let Cell::Taken {
            birth,
            colour: Colour::White,
        } = self.cell(cell)
        {
            let shaded = Cell::Taken {
                birth,
                colour: Colour::Grey,
            };
            self.cells[cell as usize] = shaded;
            push(&mut self.grey, reference);
        }
    }

    /// Whether a free cell has so many words; the cell that is taken then is one of the heap's.
    pub fn has_room(&self, words: u32) -> bool
        ensures room { result ≡ has_room self.now words }
        ensures there { IfSome (take_cell self.now words) (λ taken. taken.0 < length self.now.cells) }
    {
        self.free.have_room(words)
    }

    /// A birth of so many words comes into the front cell of the smallest size that has a free cell for it: that cell,
    /// which was free, is reported. It is grey, and its reference goes to the end of the grey list. `None` exactly
    /// where no free cell has room, and then nothing changes.
    pub fn create(&mut self, words: u32, birth: u32) -> Option<u32>
        ensures cell { result ≡ taken_cell (take_cell self.old words) }
        ensures account { self.new ≡ born_in self.old birth (take_cell self.old words) }
        ensures room { is_some result ≡ has_room self.old words }
        ensures free { IfSome result (λ cell. slice_get self.old.cells cell ≡ Some Free) }
    {
        let cell = self.free.take(words)?;
        self.cells[cell as usize] = Cell::Taken {
            birth,
            colour: Colour::Grey,
        };
        push(&mut self.grey, cell + 1);
        Some(cell)
    }

    /// The cell of the front reference turns black, and the reference leaves the grey list. Where nothing is grey,
    /// nothing changes.
    pub fn blacken(&mut self)
        ensures { self.new ≡ front_blackened self.old self.old.grey }
    {
        let Some(reference) = self.grey.pop_front() else {
            return;
        };
        let Some(cell) = reference.checked_sub(1) else {
            return;
        };
        if let Cell::Taken { birth, colour: _ } = held(&self.cells, cell) {
            self.cells[cell as usize] = Cell::Taken {
                birth,
                colour: Colour::Black,
            };
        }
    }

    /// Appends at a cell of a heap of this shape, and goes to the next: a white cell is given back, at the end of the
    /// list of its size; a black one turns white; any other is left. Past the last cell the cycle ends, and the
    /// collector is idle.
    pub fn append(&mut self, shape: HeapShape, cell: u32)
        ensures { self.new ≡ append_step shape self.old cell (nat_lt cell (length self.old.cells)) }
    {
        if cell as usize >= self.cells() {
            self.set_phase(Phase::Idle);
            return;
        }
        match self.cell(cell) {
            Cell::Taken {
                birth: _,
                colour: Colour::White,
            } => self.give(shape, cell),
            Cell::Taken {
                birth,
                colour: Colour::Black,
            } => self.whiten(cell, birth),
            Cell::Taken {
                birth: _,
                colour: Colour::Grey,
            } => {}
            Cell::Free => {}
        }
        self.set_phase(Phase::Append { cell: cell + 1 });
    }

    /// Appends at a cell that isn't white, of a heap of any shape, and goes to the next. Answers whether it did; if
    /// not, nothing changes.
    #[inline(always)]
    pub fn append_unless_white(&mut self, cell: u32) -> bool
        ensures appends { result ≡ true → (shape : HeapShape)
            → self.new ≡ append_step shape self.old cell (nat_lt cell (length self.old.cells)) }
        ensures coloured { result ≡ true → colour_in (cell_at self.old.cells cell) ≢ Some White }
        ensures kept { result ≡ false → self.new ≡ self.old }
    {
        if cell as usize >= self.cells.len() {
            return false;
        }
        match self.cells[cell as usize] {
            Cell::Taken {
                birth: _,
                colour: Colour::White,
            } => return false,
            Cell::Taken {
                birth,
                colour: Colour::Black,
            } => self.whiten(cell, birth),
            Cell::Taken {
                birth: _,
                colour: Colour::Grey,
            } => {}
            Cell::Free => {}
        }
        self.phase = Phase::Append { cell: cell + 1 };
        true
    }

    /// A white cell is free again, at the end of the list of its size.
    fn give(&mut self, shape: HeapShape, cell: u32)
        requires taken { free_in (cell_at self.old.cells cell) ≡ 0 }
        requires white { grey_in (cell_at self.old.cells cell) ≡ 0 }
        requires within { cell < length self.old.cells }
        ensures { self.new ≡ with_free shape (with_cell self.old cell Free) cell }
    {
        self.cells[cell as usize] = Cell::Free;
        self.free.give(shape, cell);
    }

    /// The black cell of a birth turns white.
    #[inline(always)]
    pub fn whiten(&mut self, cell: u32, birth: u32)
        requires { cell_at self.old.cells cell ≡ Taken birth Black }
        ensures { self.new ≡ with_cell self.old cell (Taken birth White) }
    {
        self.cells[cell as usize] = Cell::Taken {
            birth,
            colour: Colour::White,
        };
    }
}

/// What a cell holds; nothing past the last one.
fn held(cells: &[Cell], cell: u32) -> Cell
    ensures { result ≡ cell_at cells.now cell }
{
    match cells.get(cell as usize).copied() {
        Some(held) => held,
        None => Cell::Free,
    }
}
