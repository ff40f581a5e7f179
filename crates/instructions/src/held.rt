//! Objects as cells hold them, with births in place of references.

use model::names::Name;
use model::values::Value;
use std::marker::Model;

/// What an object is: an instance of a class, or an array of such elements.
#[derive(Drop)]
pub enum HeldKind {
    OfClass(Name),
    OfElements(Name),
}

/// An object as a cell holds it: its birth, what it is, its fields' or elements' values in order, who owns its monitor
/// and how often that was entered (JVMS 2.11.10), and the thread that was started on it. References are births.
#[derive(Drop)]
pub struct HeldView {
    pub birth: u32,
    pub kind: HeldKind,
    pub words: Vec<Value>,
    pub owner: Option<u32>,
    pub entries: u16,
    pub thread: Option<u32>,
}

impl Model for HeldView {
    ghost use Rattle.model.specs.Shows.{Held};
    ghost use Rattle.instructions.specs.HeldViews.{kind_in};

    ghost Value = { Held };

    ghost view = { λ a. record {
      birth = a.birth;
      kind = kind_in a.kind;
      words = a.words.items;
      monitor = record { owner = a.owner; count = a.entries };
      thread = a.thread;
    } };
}
