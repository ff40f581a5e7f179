//! The cells of a heap: a header each, and the words of all in one array.
ghost use Rattle.std.specs.Prelude.{◌≡◌, ◌≤◌, ◌<◌, ◌↔◌, IsTrue, IfOk, Some, None, length, slice_get};
ghost use Rattle.model.specs.Limits.{ShapeFits};
ghost use Rattle.model.specs.Room.{words_of_cell};
ghost use Rattle.values.specs.Slots.{value_of};
ghost use Rattle.std.specs.Option.{option_map};
ghost use Rattle.cells.specs.Objects.{empty_cells, made_object, new_object, kind_at, words_at, monitor_at, thread_at};
ghost use Rattle.cells.specs.Objects.{with_object, with_word, with_monitor, with_thread};

use crate::headers::{Header, header_at, occupied, room_of, vacant};
use crate::monitors::Monitor;
use model::journals::HeapShape;
use model::values::Value;
use std::alloc::{AllocError, Global};
use std::marker::Model;
use values::Words;
use values::slots::Slot;

/// The cells of a heap.
#[derive(Drop)]
pub struct Cells<K: Copy> {
    shape: HeapShape,
    headers: Vec<Header<K>>,
    words: Words,
}

impl<K: Copy> Model for Cells<K> {
    ghost use Rattle.std.specs.Prelude.{length};
    ghost use Rattle.model.specs.Room.{words_of_cell};
    ghost use Rattle.values.specs.Slots.{value_of};
    ghost use Rattle.std.specs.Option.{option_map};
    ghost use Rattle.cells.specs.Objects.{CellsValue};
    ghost use Rattle.cells.specs.Layout.{cells_in, AreLaidOut};

    ghost Value = { CellsValue K };

    ghost view = { λ a. cells_in a.shape a.words a.headers.items };

    ghost invariant = { λ a. AreLaidOut (words_of_cell a.shape) 0 0 a.headers.items (length a.words) };
}

impl<K: Copy> Cells<K> {
    /// Cells of this shape with nobody in any. All the memory that they ever take is taken here: `AllocError` where
    /// there is not so much.
    pub fn new(alloc: Global, shape: HeapShape) -> Result<Self, AllocError>
        requires { ShapeFits shape.small shape.medium shape.large }
        ensures { IfOk result (λ cells. cells ≡ empty_cells shape) }
    {
        let count = shape.small + shape.medium + shape.large;
        let mut headers = Vec::with_capacity(alloc, count as usize)?;
        let mut end = 0;
        for cell in 0..count {
            let room = room_of(shape, cell);
            headers.push(vacant(end, room))?;
            end += u32::from(room);
        }
        let words = Words::new(alloc, end as usize, Value::Ref(None))?;
        Ok(Cells {
            shape,
            headers,
            words,
        })
    }

    /// The shape of the heap.
    pub fn shape(&self) -> HeapShape
        ensures { result ≡ self.now.shape }
    {
        self.shape
    }

    /// How many cells there are.
    pub fn len(&self) -> usize
        ensures { result ≡ length self.now.objects }
    {
        self.headers.len()
    }

    /// How many words a cell has: 4, 32 or 256.
    pub fn room(&self, cell: u32) -> u16
        requires { cell < length self.now.objects }
        ensures { result ≡ words_of_cell self.now.shape cell }
    {
        self.headers[cell as usize].room
    }

    /// The kind of the object in a cell. None where nobody is, or where there is no such cell.
    pub fn kind(&self, cell: u32) -> Option<K>
        ensures { result ≡ kind_at self.now cell }
    {
        header_at(&self.headers, cell)?.kind
    }

    /// How many words the object in a cell uses. 0 where nobody is.
    pub fn length(&self, cell: u32) -> u16
        ensures { result ≡ length (words_at self.now cell) }
    {
        match header_at(&self.headers, cell) {
            None => 0,
            Some(header) => header.length,
        }
    }

    /// A copy of the words that the object in a cell uses, in order: none of them where nobody is. `AllocError` where
    /// there is no memory for it.
    pub fn values(&self, cell: u32) -> Result<Vec<Value>, AllocError>
        ensures { IfOk result (λ values. values.items ≡ words_at self.now cell) }
    {
        match header_at(&self.headers, cell) {
            None => self.words.values(0, 0),
            Some(header) => self.words.values(header.base, header.length),
        }
    }

    /// What a word of the object in a cell holds. None past its length, and where nobody is.
    #[inline(always)]
    pub fn word(&self, cell: u32, index: u32) -> Option<Slot>
        ensures { option_map value_of result ≡ slice_get (words_at self.now cell) index }
    {
        let header = header_at(&self.headers, cell)?;
        if index >= u32::from(header.length) {
            return None;
        }
        self.words.get(header.base as usize + index as usize)
    }

    /// The monitor of the object in a cell. Nobody's where nobody is.
    pub fn monitor(&self, cell: u32) -> Monitor
        ensures { result ≡ monitor_at self.now cell }
    {
        match header_at(&self.headers, cell) {
            Some(
                Header {
                    kind: Some(_),
                    monitor,
                    ..
                },
            ) => monitor,
            _ => Monitor::free(),
        }
    }

    /// The number of the thread that was started on the object in a cell. None where none was, and where nobody is.
    pub fn thread(&self, cell: u32) -> Option<u32>
        ensures { result ≡ thread_at self.now cell }
    {
        match header_at(&self.headers, cell) {
            Some(
                Header {
                    kind: Some(_),
                    thread,
                    ..
                },
            ) => thread,
            _ => None,
        }
    }

    /// Puts a new object into a cell with nobody: so many words, all of them `zero`, nobody's monitor, and no thread.
    pub fn place(&mut self, cell: u32, kind: K, count: u32, zero: Value)
        requires nobody { slice_get self.old.objects cell ≡ Some None }
        requires room { count ≤ words_of_cell self.old.shape cell }
        ensures { self.new ≡ with_object self.old cell (Some (new_object kind count zero)) }
    {
        if let Some(header) = header_at(&self.headers, cell) {
            self.words.fill(header.base, count, zero);
            self.headers[cell as usize] = occupied(header, kind, count as u16);
        }
    }

    /// Puts a new object with these words into a cell with nobody: nobody's monitor, and no thread.
    pub fn place_all(&mut self, cell: u32, kind: K, words: &[Value])
        requires nobody { slice_get self.old.objects cell ≡ Some None }
        requires room { length words.now ≤ words_of_cell self.old.shape cell }
        ensures { self.new ≡ with_object self.old cell (Some (made_object kind words.now)) }
    {
        if let Some(header) = header_at(&self.headers, cell) {
            self.words.write(header.base, words);
            self.headers[cell as usize] = occupied(header, kind, words.len() as u16);
        }
    }

    /// Leaves nobody in a cell.
    pub fn clear(&mut self, cell: u32)
        ensures { self.new ≡ with_object self.old cell None }
    {
        if let Some(header) = header_at(&self.headers, cell) {
            self.headers[cell as usize] = vacant(header.base, header.room);
        }
    }

    /// Writes a word of the object in a cell. Whether there is such a word: where there is none, nothing changes.
    #[inline(always)]
    pub fn put(&mut self, cell: u32, index: u32, value: Value) -> bool
        ensures there { IsTrue result ↔ (index < length (words_at self.old cell)) }
        ensures after { self.new ≡ with_word self.old cell index value }
    {
        let Some(header) = header_at(&self.headers, cell) else {
            return false;
        };
        if index >= u32::from(header.length) {
            return false;
        }
        self.words.put(header.base as usize + index as usize, value);
        true
    }

    /// Gives the object in a cell another monitor. Where nobody is, nothing changes.
    pub fn set_monitor(&mut self, cell: u32, monitor: Monitor)
        ensures { self.new ≡ with_monitor self.old cell monitor }
    {
        if (cell as usize) < self.headers.len() {
            self.headers[cell as usize].monitor = monitor;
        }
    }

    /// Notes of the object in a cell the thread that was started on it. Where nobody is, nothing changes.
    pub fn set_thread(&mut self, cell: u32, thread: Option<u32>)
        ensures { self.new ≡ with_thread self.old cell thread }
    {
        if (cell as usize) < self.headers.len() {
            self.headers[cell as usize].thread = thread;
        }
    }
}
