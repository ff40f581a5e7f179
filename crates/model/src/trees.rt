//! Texts as trees: what a text declares, with labels in place of pcs.

use crate::flags::{ClassFlags, MethodFlags};
use crate::instructions::Instruction;
use crate::listings::Field;
use crate::names::{Member, Name};
use std::marker::Model;

/// An instruction of a text: branches name labels, and what the constant pool would hold stands in place.
pub type Written = Instruction<Name, i32, i64, Member, Member, Name>;

/// What a method's code is made of, in order.
#[derive(Drop)]
pub enum TextLine {
    /// a name for the place of the next instruction
    Label(Name),
    Instruction(Written),
}

/// A `.catch`: between two labels, what is of the class (or anything) is taken at the third label.
#[derive(Drop)]
pub struct CatchRow {
    pub class: Option<Name>,
    pub start: Name,
    pub end: Name,
    pub handler: Name,
}

/// A method's limits, its catch rows in order, and its labels and instructions in order.
#[derive(Drop)]
pub struct BodyTree {
    pub max_stack: u16,
    pub max_locals: u16,
    pub rows: Vec<CatchRow>,
    pub lines: Vec<TextLine>,
}

impl Model for BodyTree {
    ghost use Rattle.model.specs.Texts.Bodies.{Body};

    ghost Value = { Body };

    ghost view = { λ a. record {
      max_stack = a.max_stack;
      max_locals = a.max_locals;
      rows = a.rows.items;
      lines = a.lines.items;
    } };
}

/// A method of a text; an abstract or native one has no body.
#[derive(Drop)]
pub struct MethodTree {
    pub flags: MethodFlags,
    pub name: Name,
    pub descriptor: Name,
    pub body: Option<BodyTree>,
}

/// What a text declares, in its order. SUPER is left out of the flags.
#[derive(Drop)]
pub struct ClassTree {
    pub flags: ClassFlags,
    pub name: Name,
    pub superclass: Name,
    pub interfaces: Vec<Name>,
    pub fields: Vec<Field>,
    pub methods: Vec<MethodTree>,
}

impl Model for ClassTree {
    ghost use Rattle.model.specs.Texts.Trees.{Tree};

    ghost Value = { Tree };

    ghost view = { λ a. record {
      flags = a.flags;
      name = a.name;
      superclass = a.superclass;
      interfaces = a.interfaces.items;
      fields = a.fields.items;
      methods = a.methods.items;
    } };
}
