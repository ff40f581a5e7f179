//! What is proved of the collector, on the definitions alone.

ghost use Rattle.std.specs.Prelude.{ℕ, ◌↔◌, IsTrue};
ghost use Rattle.model.specs.declared.journals.HeapShape.{HeapShape};
ghost use Rattle.model.specs.Accounts.{Account, has_room};
ghost use Rattle.model.specs.Room.{Room};
ghost use Rattle.model.specs.Worlds.{World, next_birth};
ghost use Rattle.model.specs.Collector.Table.{collected};
ghost use Rattle.model.specs.Collector.Invariant.{Invariant};
ghost use Rattle.model.specs.Collector.Changes.{Change, Allowed, RoomFor, changed};
ghost use Rattle.model.specs.Collector.Choices.{AlwaysChoosesByRoom};
ghost use Rattle.model.specs.Collector.Paths.{KeepsReachable, ThreeColour};
ghost use Rattle.model.specs.Collector.Places.{Reach};
ghost use Rattle.model.specs.Collector.Reached.{is_reached};
ghost use Rattle.model.specs.Collector.Reclaim.{AlwaysReclaims};
ghost use Rattle.model.specs.Collector.Runs.{Always, Holds};
ghost use Rattle.model.specs.Shows.{Shows};
ghost use Rattle.model.specs.Heaps.{heap_of};

/// Whatever threads and collector do, in whatever order: the invariant of three colours holds, with paths and without;
/// a reachable birth has one cell, and the collector gives back no cell whose birth a path reaches (Dijkstra et al.,
/// CACM 21(11), 1978); a birth that no path reaches outside Append has no cell once two cycles have ended; the lists of
/// free cells have one of so many words exactly where some free cell of the heap has so many; a thread's turn finds no
/// room exactly where it asks for a cell and no free cell has so many words; and with each object in its birth's cell,
/// the cells show the threads, the static fields, the output and the reachable objects of the ideal world, where
/// nothing is ever freed. The first two clauses say of a single step that it keeps the invariant.
pub fn no_reachable_object_is_lost()
    ensures collector { (shape : HeapShape) (w : World) (n : ℕ) (a : Account) → Invariant shape w n a
        → Invariant shape w n (collected shape w a) }
    ensures thread { (shape : HeapShape) (w : World) (a : Account) (c : Change) → RoomFor c.object a → Allowed w c
        → Invariant shape w (next_birth w) a → Invariant shape c.after (next_birth c.after) (changed w a c) }
    ensures holds { Always Holds }
    ensures kept { Always (λ shape m. KeepsReachable shape m.world m.account) }
    ensures coloured { Always (λ shape m. ThreeColour m.world m.account) }
    ensures reclaimed { AlwaysReclaims }
    ensures room { Always (λ shape m. (words : ℕ) → Room shape m.account words ↔ IsTrue (has_room m.account words)) }
    ensures chosen { AlwaysChoosesByRoom }
    ensures shown { Always (λ shape m. Shows (heap_of m.account m.world) m.world) }
{}

/// The test of whether paths from the roots lead to a birth tells that they do, in every world.
pub fn what_is_reached_is_computed()
    ensures { (w : World) (b : ℕ) → Reach w b ↔ IsTrue (is_reached w b) }
{}
