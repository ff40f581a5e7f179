//! The rows of one class's selection table, gathered from the class upwards (JVMS 6.5, invokevirtual).
ghost use Rattle.std.specs.Prelude.{◌≡◌, ℕ, List, None, IfOk, OnOk};
ghost use Rattle.std.specs.BTreeMap.{values};
ghost use Rattle.linking.specs.Selections.{AddsRows, AreInOrder, first_row, gathered, is_pair, is_virtual};
ghost use Rattle.linking.specs.Selections.{is_virtual_of, row_if, TellSelected};

use bitflags::Flags;
use model::flags::MethodFlags;
use model::listings::Method;
use resolve::classes::Classes;
use std::alloc::{AllocError, Global};
use std::collections::BTreeMap;

/// The method that is selected for a name and descriptor: the number of the class that declares it, and its place among
/// that class's methods. The program's classes are counted from 0, in order, and the machine's own after them.
#[derive(Clone, Copy, PartialEq, Eq)]
pub struct SelectionRow {
    pub class: usize,
    pub method: usize,
}

/// The rows of a class that were gathered so far, by name and descriptor.
#[derive(Drop)]
pub(crate) struct ClassRows<'a> {
    rows: BTreeMap<(&'a [u8], &'a [u8]), SelectionRow>,
}

/// Whether a method can be selected for an object: it is neither static nor private.
fn is_virtual(method: &Method) -> bool
    ensures { result ≡ is_virtual method.now }
{
    !(method.flags.contains(MethodFlags::STATIC) || method.flags.contains(MethodFlags::PRIVATE))
}

impl<'a> ClassRows<'a> {
    /// No rows.
    fn new(alloc: Global) -> ClassRows<'a>
        ensures { (name descriptor : List ℕ) → gathered result name descriptor ≡ None }
    {
        ClassRows {
            rows: BTreeMap::new(alloc),
        }
    }

    /// Adds the row of a name and descriptor, where they have none yet. `AllocError` where memory runs out, here and
    /// below.
    fn add(
        &mut self,
        name: &'a [u8],
        descriptor: &'a [u8],
        row: SelectionRow,
    ) -> Result<(), AllocError>
        ensures { OnOk result (AddsRows self.old (λ n d. row_if row (is_pair n d name.now descriptor.now)) self.new) }
    {
        let key = (name, descriptor);
        if !self.rows.contains_key(&key) {
            self.rows.insert(key, row)?;
        }
        Ok(())
    }

    /// Adds a method's row, where the method can be selected and its name and descriptor have none yet.
    fn add_method(&mut self, row: SelectionRow, method: &'a Method) -> Result<(), AllocError>
        ensures { OnOk result (AddsRows self.old (λ n d. row_if row (is_virtual_of n d method.now)) self.new) }
    {
        if is_virtual(method) {
            self.add(method.name.as_bytes(), method.descriptor.as_bytes(), row)
        } else {
            Ok(())
        }
    }

    /// Adds the rows of the methods that the class of a number declares and that can be selected.
    fn add_methods(&mut self, class: usize, methods: &'a [Method]) -> Result<(), AllocError>
        ensures { OnOk result (AddsRows self.old (λ n d. first_row class 0 n d methods.now) self.new) }
    {
        for (place, method) in methods.iter().enumerate() {
            let row = SelectionRow {
                class,
                method: place,
            };
            self.add_method(row, method)?;
        }
        Ok(())
    }

    /// The rows of the class of a name: of the methods that it declares, and then from superclass to superclass of
    /// those that no class below declares.
    pub fn of_class(
        alloc: Global,
        classes: &'a Classes<'_>,
        class: &'a [u8],
    ) -> Result<ClassRows<'a>, AllocError>
        ensures { IfOk result (λ rows. TellSelected classes.now class.now rows) }
    {
        let mut rows = ClassRows::new(alloc);
        let mut next = class;
        for _ in 0..classes.enough_steps() {
            let Some(number) = classes.number(next) else {
                return Ok(rows);
            };
            let declaring = classes.class(number);
            rows.add_methods(number, &declaring.methods)?;
            next = declaring.superclass.as_bytes();
        }
        Ok(rows)
    }

    /// The row of a name and descriptor.
    pub fn row(&self, name: &'a [u8], descriptor: &'a [u8]) -> Option<SelectionRow>
        ensures { result ≡ gathered self.now name.now descriptor.now }
    {
        self.rows.get(&(name, descriptor)).copied()
    }

    /// The rows in the order of their names and descriptors.
    pub fn in_order(&self, alloc: Global) -> Result<Vec<SelectionRow>, AllocError>
        ensures rows { IfOk result (λ rows. rows.items ≡ values self.now.rows) }
        ensures ordered { AreInOrder self.now }
    {
        self.rows.values().copied().collect(alloc)
    }
}
