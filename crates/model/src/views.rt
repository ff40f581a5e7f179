//! Threads, their frames, objects and the cells of the heap as plain data, for those who look at a world from outside.

use crate::colours::Colour;
use crate::names::Name;
use crate::places::MethodPlace;
use crate::turns::Mark;
use crate::values::{Entry, Value};
use std::marker::Model;

/// A frame (JVMS 2.6): its method, the pc at which it stands, its locals from 0 on, its stack from the bottom on, how
/// many units the stack may take, the monitor that is given back when the frame is left, and its mark.
#[derive(Debug, Drop)]
pub struct FrameView {
    pub method: MethodPlace,
    pub pc: u16,
    pub locals: Vec<Entry>,
    pub stack: Vec<Value>,
    pub room: usize,
    pub monitor: Option<u32>,
    pub mark: Mark,
}

impl Model for FrameView {
    ghost use Rattle.std.specs.Prelude.{reverse};
    ghost use Rattle.model.specs.Frames.{Frame};

    ghost Value = { Frame };

    ghost view = { λ a. record {
      method = a.method;
      pc = a.pc;
      locals = a.locals.items;
      stack = reverse a.stack.items;
      room = a.room;
      monitor = a.monitor;
      mark = a.mark;
    } };
}

/// Whether a thread lives, with its frames, outermost first, or has ended: normally, or by an exception of a class.
#[derive(Debug, Drop)]
pub enum ThreadState {
    Live(Vec<FrameView>),
    Ended(Option<Name>),
}

/// A thread that was started.
#[derive(Debug, Drop)]
pub struct ThreadView {
    pub state: ThreadState,
}

impl Model for ThreadView {
    ghost use Rattle.model.specs.Worlds.{Thread};
    ghost use Rattle.model.specs.Views.{thread_in};

    ghost Value = { Thread };

    ghost view = { λ a. thread_in a.state };
}

/// A cell of the heap: how many words it has, and the birth and the colour that it holds, if it holds one.
#[derive(Clone, Copy, Debug, PartialEq, Eq)]
pub struct CellView {
    pub words: u32,
    pub held: Option<(u32, Colour)>,
}

/// A field of an object: the class that declares it, its name and its descriptor, and what it holds.
#[derive(Drop)]
pub struct FieldView {
    pub class: Name,
    pub name: Name,
    pub descriptor: Name,
    pub value: Value,
}

impl Model for FieldView {
    ghost use Rattle.model.specs.Worlds.{FieldValue};

    ghost Value = { FieldValue };

    ghost view = { λ a. record { class = a.class; name = a.name; descriptor = a.descriptor; value = a.value } };
}

/// What an object holds: an instance of a class its fields, the superclass's first; an array its elements, whose type
/// is reported by its descriptor.
#[derive(Drop)]
pub enum ContentsView {
    Instance { class: Name, fields: Vec<FieldView> },
    Array { element: Name, values: Vec<Value> },
}

/// An object: what it holds, the thread that owns its monitor and how often that was entered (JVMS 2.11.10), and the
/// thread that was started on it. References are births.
#[derive(Drop)]
pub struct ObjectView {
    pub contents: ContentsView,
    pub owner: Option<u32>,
    pub entries: u16,
    pub thread: Option<u32>,
}

impl Model for ObjectView {
    ghost use Rattle.model.specs.Worlds.{Object};
    ghost use Rattle.model.specs.Views.{contents_in};

    ghost Value = { Object };

    ghost view = { λ a. record {
      contents = contents_in a.contents;
      monitor = record { owner = a.owner; count = a.entries };
      thread = a.thread;
    } };
}
