//! Listings: what a class declares, with names in place of pool numbers (JVMS 4).

ghost use Rattle.std.specs.Prelude.{◌==◌, ◌&&◌};
ghost use Rattle.std.specs.Cmp.{and_equiv, and_per, nat_eq_equiv, on_equiv, on_per, partial_equiv_from_equiv};
ghost use Rattle.std.specs.Cmp.Lexicographic.{lists_equiv, lists_per, pointwise};
ghost use Rattle.std.specs.Str.{bytes_eq};
ghost use Rattle.std.proofs.lemmas.Cmp.{nat_list_eq_equiv};

use crate::flags::{ClassFlags, FieldFlags, MethodFlags};
use crate::instructions::Instruction;
use crate::names::{Member, Name};
use std::marker::Model;

/// The value that a static field begins with (JVMS 4.7.2).
#[derive(Clone, Copy, Debug, PartialEq, Eq)]
pub enum Constant {
    Int(i32),
    Long(i64),
}

/// A field that a class declares.
#[derive(PartialEq, Eq, Drop)]
pub struct Field {
    pub flags: FieldFlags,
    pub name: Name,
    pub descriptor: Name,
    pub constant: Option<Constant>,
}

/// An instruction of a listing: branches name pcs, and what the constant pool would hold stands in place.
pub type Listed = Instruction<u16, i32, i64, Member, Member, Name>;

/// An instruction at its pc, and the pc after it.
#[derive(PartialEq, Eq, Drop)]
pub struct Placed {
    pub pc: u16,
    pub next: u16,
    pub instruction: Listed,
}

/// A row of an exception table: from `start` to before `end` the handler takes what is of the class, or anything.
#[derive(PartialEq, Eq, Drop)]
pub struct ExceptionRow {
    pub start: u16,
    pub end: u16,
    pub handler: u16,
    pub class: Option<Name>,
}

/// A method's limits, exception rows and instructions, both in order.
#[derive(Drop)]
pub struct Code {
    pub max_stack: u16,
    pub max_locals: u16,
    pub rows: Vec<ExceptionRow>,
    pub instructions: Vec<Placed>,
}

impl Model for Code {
    ghost use Rattle.model.specs.CodeListings.{CodeListing};

    ghost Value = { CodeListing };

    ghost view = { λ a. record {
      max_stack = a.max_stack;
      max_locals = a.max_locals;
      rows = a.rows.items;
      instructions = a.instructions.items;
    } };
}

impl PartialEq for Code {
    ghost use Rattle.model.specs.contracts.listings.ExceptionRowPartialEq.TheImpl as rows;
    ghost use Rattle.model.specs.contracts.listings.PlacedPartialEq.TheImpl as instructions;
    ghost use Rattle.model.specs.contracts.listings.ExceptionRowPartialEq.TheImpl.Laws as row;
    ghost use Rattle.model.specs.contracts.listings.PlacedPartialEq.TheImpl.Laws as instruction;

    ghost eq = { λ a b. (a.max_stack == b.max_stack && a.max_locals == b.max_locals)
        && (pointwise (rows.ghosts).eq a.rows b.rows
        && pointwise (instructions.ghosts).eq a.instructions b.instructions) };

    ghost laws = { and_per
        (and_per (on_per (λ a. a.max_stack) (partial_equiv_from_equiv nat_eq_equiv))
        (on_per (λ a. a.max_locals) (partial_equiv_from_equiv nat_eq_equiv)))
        (and_per (on_per (λ a. a.rows) (lists_per row.laws-law))
        (on_per (λ a. a.instructions) (lists_per instruction.laws-law))) };

    fn eq(&self, other: &Code) -> bool {
        self.max_stack == other.max_stack
            && self.max_locals == other.max_locals
            && self.rows == other.rows
            && self.instructions == other.instructions
    }
}

impl Eq for Code {
    ghost use Rattle.model.specs.contracts.listings.ExceptionRowEq.TheImpl.Laws as row;
    ghost use Rattle.model.specs.contracts.listings.PlacedEq.TheImpl.Laws as instruction;

    ghost laws = { and_equiv
        (and_equiv (on_equiv (λ a. a.max_stack) nat_eq_equiv) (on_equiv (λ a. a.max_locals) nat_eq_equiv))
        (and_equiv (on_equiv (λ a. a.rows) (lists_equiv row.laws-law))
        (on_equiv (λ a. a.instructions) (lists_equiv instruction.laws-law))) };
}

/// A method that a class declares; an abstract or native one has no code.
#[derive(PartialEq, Eq, Drop)]
pub struct Method {
    pub flags: MethodFlags,
    pub name: Name,
    pub descriptor: Name,
    pub code: Option<Code>,
}

/// What a class declares. SUPER is left out of its flags.
#[derive(Drop)]
pub struct Listing {
    pub name: Name,
    pub flags: ClassFlags,
    pub superclass: Name,
    pub interfaces: Vec<Name>,
    pub fields: Vec<Field>,
    pub methods: Vec<Method>,
}

impl Model for Listing {
    ghost use Rattle.model.specs.ClassListings.{ClassListing};

    ghost Value = { ClassListing };

    ghost view = { λ a. record {
      name = a.name;
      flags = a.flags;
      superclass = a.superclass;
      interfaces = a.interfaces.items;
      fields = a.fields.items;
      methods = a.methods.items;
    } };
}

impl PartialEq for Listing {
    ghost use Rattle.model.specs.contracts.flags.ClassFlagsPartialEq.TheImpl as flags;
    ghost use Rattle.model.specs.contracts.listings.FieldPartialEq.TheImpl as fields;
    ghost use Rattle.model.specs.contracts.listings.MethodPartialEq.TheImpl as methods;
    ghost use Rattle.model.specs.contracts.flags.ClassFlagsPartialEq.TheImpl.Laws as flag;
    ghost use Rattle.model.specs.contracts.listings.FieldPartialEq.TheImpl.Laws as field;
    ghost use Rattle.model.specs.contracts.listings.MethodPartialEq.TheImpl.Laws as method;

    ghost eq = { λ a b. ((bytes_eq a.name b.name && (flags.ghosts).eq a.flags b.flags)
        && (bytes_eq a.superclass b.superclass && pointwise bytes_eq a.interfaces b.interfaces))
        && (pointwise (fields.ghosts).eq a.fields b.fields && pointwise (methods.ghosts).eq a.methods b.methods) };

    ghost laws = { and_per
        (and_per
        (and_per (on_per (λ a. a.name) (partial_equiv_from_equiv nat_list_eq_equiv))
        (on_per (λ a. a.flags) flag.laws-law))
        (and_per (on_per (λ a. a.superclass) (partial_equiv_from_equiv nat_list_eq_equiv))
        (on_per (λ a. a.interfaces) (lists_per (partial_equiv_from_equiv nat_list_eq_equiv)))))
        (and_per (on_per (λ a. a.fields) (lists_per field.laws-law))
        (on_per (λ a. a.methods) (lists_per method.laws-law))) };

    fn eq(&self, other: &Listing) -> bool {
        self.name == other.name
            && self.flags == other.flags
            && self.superclass == other.superclass
            && self.interfaces == other.interfaces
            && self.fields == other.fields
            && self.methods == other.methods
    }
}

impl Eq for Listing {
    ghost use Rattle.model.specs.contracts.flags.ClassFlagsEq.TheImpl.Laws as flag;
    ghost use Rattle.model.specs.contracts.listings.FieldEq.TheImpl.Laws as field;
    ghost use Rattle.model.specs.contracts.listings.MethodEq.TheImpl.Laws as method;

    ghost laws = { and_equiv
        (and_equiv
        (and_equiv (on_equiv (λ a. a.name) nat_list_eq_equiv) (on_equiv (λ a. a.flags) flag.laws-law))
        (and_equiv (on_equiv (λ a. a.superclass) nat_list_eq_equiv)
        (on_equiv (λ a. a.interfaces) (lists_equiv nat_list_eq_equiv))))
        (and_equiv (on_equiv (λ a. a.fields) (lists_equiv field.laws-law))
        (on_equiv (λ a. a.methods) (lists_equiv method.laws-law))) };
}
