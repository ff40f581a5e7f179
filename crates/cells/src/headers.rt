//! What is kept of a cell beside its words.
ghost use Rattle.std.specs.Prelude.{◌≡◌, ◌<◌, Some, None, length, slice_get};
ghost use Rattle.model.specs.Limits.{ShapeFits};
ghost use Rattle.model.specs.Room.{words_of_cell};
ghost use Rattle.model.specs.Worlds.{free_monitor};

use crate::monitors::Monitor;
use model::journals::HeapShape;

/// One cell: the `room` words from `base` on are its own. Where it holds an object, that is of this kind and uses the
/// first `length` of them; monitor and thread are the object's. A cell with nobody has no kind, and uses no word.
#[derive(Clone, Copy)]
pub struct Header<K: Copy> {
    pub base: u32,
    pub room: u16,
    pub length: u16,
    pub kind: Option<K>,
    pub monitor: Monitor,
    pub thread: Option<u32>,
}

/// The header of a cell with nobody.
pub fn vacant<K: Copy>(base: u32, room: u16) -> Header<K>
    ensures { result ≡ record {
      base = base;
      room = room;
      length = 0;
      kind = None;
      monitor = free_monitor;
      thread = None;
    } }
{
    Header {
        base,
        room,
        length: 0,
        kind: None,
        monitor: Monitor::free(),
        thread: None,
    }
}

/// The header of the same cell with a new object of so many words.
pub fn occupied<K: Copy>(cell: Header<K>, kind: K, length: u16) -> Header<K>
    ensures { result ≡ record {
      base = cell.base;
      room = cell.room;
      length = length;
      kind = Some kind;
      monitor = free_monitor;
      thread = None;
    } }
{
    Header {
        length,
        kind: Some(kind),
        ..vacant(cell.base, cell.room)
    }
}

/// How many words a cell of this number has.
pub fn room_of(shape: HeapShape, cell: u32) -> u16
    requires { ShapeFits shape.small shape.medium shape.large }
    ensures { result ≡ words_of_cell shape cell }
{
    if cell < shape.small {
        4
    } else if cell < shape.small + shape.medium {
        32
    } else {
        256
    }
}

/// A cell's header, if there is such a cell.
#[inline(always)]
pub fn header_at<K: Copy>(headers: &[Header<K>], cell: u32) -> Option<Header<K>>
    ensures { result ≡ slice_get headers.now cell }
{
    headers.get(cell as usize).copied()
}
