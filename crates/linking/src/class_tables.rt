//! What a turn asks of classes, by their numbers: superclasses, the words of objects, subtypes.
ghost use Rattle.std.specs.Prelude.{◌≡◌, map, IfOk, OnOk};
ghost use Rattle.model.specs.Classes.Types.{is_subtype};
ghost use Rattle.linking.specs.ClassTables.{class_facts, class_tables, defaults_in, is_subtype_in, opening_word};
ghost use Rattle.linking.specs.ClassTables.{superclass_in, with_classes, word_of, words_in};
ghost use Rattle.linking.specs.ClassNumbers.{names_now};

use crate::class_numbers::ClassNumbers;
use crate::storages::{Storage, default_in, storage_of};
use model::listings::{Field, Listing};
use model::values::Value;
use resolve::builtins::builtin_classes;
use resolve::classes::Classes;
use resolve::found::Found;
use resolve::keys::NameKey;
use std::alloc::{AllocError, Global};
use std::marker::Model;

/// A word of an object: the number of the class that declares its field, and what it keeps.
#[derive(Clone, Copy, PartialEq, Eq)]
pub struct Word {
    pub class: usize,
    pub storage: Storage,
}

/// What is known of one class.
#[derive(Drop)]
pub struct ClassTable {
    superclass: Option<usize>,
    words: Vec<Word>,
    /// what the words hold before they are written
    defaults: Vec<Value>,
    /// for each class whether this one is a subtype of it
    above: Vec<bool>,
}

impl Model for ClassTable {
    ghost use Rattle.std.specs.Prelude.{◌≡◌, map};
    ghost use Rattle.linking.specs.ClassFacts.{ClassFacts};
    ghost use Rattle.linking.specs.ClassTables.{opening_word};

    ghost Value = { ClassFacts };

    ghost view = { λ a. record { superclass = a.superclass; words = a.words.items; above = a.above.items } };

    ghost invariant = { λ a. a.defaults.items ≡ map opening_word a.words.items };
}

/// What is known of each class of a program by its number, the machine's own after those of the program. A contract
/// sees the list.
#[derive(Drop)]
pub struct ClassTables {
    classes: Vec<ClassTable>,
}

impl Model for ClassTables {
    ghost use Rattle.std.specs.Prelude.{List};
    ghost use Rattle.linking.specs.ClassFacts.{ClassFacts};

    ghost Value = { List ClassFacts };

    ghost view = { λ a. a.classes.items };
}

/// The words of these fields. `AllocError` where memory runs out, here and below.
fn words_of(
    alloc: Global,
    numbers: &ClassNumbers<'_>,
    fields: &[Found<'_, Field>],
) -> Result<Vec<Word>, AllocError>
    ensures { IfOk result (λ words. words.items ≡ map (word_of numbers.now) fields.now) }
{
    let mut words = Vec::new(alloc);
    for field in fields {
        let class = field.class;
        let member = field.member;
        words.push(Word {
            class: numbers.place(class.name.as_bytes()),
            storage: storage_of(member.descriptor.as_bytes()),
        })?;
    }
    Ok(words)
}

/// What these words hold before they are written.
fn defaults_of(alloc: Global, words: &[Word]) -> Result<Vec<Value>, AllocError>
    ensures { IfOk result (λ defaults. defaults.items ≡ map opening_word words.now) }
{
    let mut defaults = Vec::new(alloc);
    for word in words {
        defaults.push(default_in(word.storage))?;
    }
    Ok(defaults)
}

/// For each of these classes whether a class is a subtype of it.
fn classes_above(
    alloc: Global,
    classes: &Classes<'_>,
    name: &[u8],
    names: &[NameKey<'_>],
) -> Result<Vec<bool>, AllocError>
    ensures { IfOk result (λ above. above.items ≡ map (is_subtype classes.now name.now) (names_now names.now)) }
{
    let mut above = Vec::new(alloc);
    for other in names {
        above.push(classes.is_subtype(name, other.bytes))?;
    }
    Ok(above)
}

fn class_table(
    alloc: Global,
    classes: &Classes<'_>,
    numbers: &ClassNumbers<'_>,
    class: &Listing,
) -> Result<ClassTable, AllocError>
    ensures { numbers.now ≡ classes.now → IfOk result (λ table. table ≡ class_facts classes.now class.now) }
{
    let name = class.name.as_bytes();
    let fields = classes.layout(alloc, name)?;
    let words = words_of(alloc, numbers, &fields)?;
    let defaults = defaults_of(alloc, &words)?;
    let above = classes_above(alloc, classes, name, numbers.names())?;
    Ok(ClassTable {
        superclass: numbers.number(class.superclass.as_bytes()),
        words,
        defaults,
        above,
    })
}

fn add_tables(
    alloc: Global,
    tables: &mut Vec<ClassTable>,
    classes: &Classes<'_>,
    numbers: &ClassNumbers<'_>,
    listings: &[Listing],
) -> Result<(), AllocError>
    ensures { numbers.now ≡ classes.now → OnOk result (tables.new.items
        ≡ with_classes classes.now tables.old.items listings.now) }
{
    for class in listings {
        tables.push(class_table(alloc, classes, numbers, class)?)?;
    }
    Ok(())
}

/// The tables of a program's classes and of the machine's own.
fn tables_of(
    alloc: Global,
    classes: &Classes<'_>,
    numbers: &ClassNumbers<'_>,
) -> Result<Vec<ClassTable>, AllocError>
    requires { numbers.now ≡ classes.now }
    ensures { IfOk result (λ tables. tables.items ≡ class_tables classes.now) }
{
    let own = builtin_classes(alloc)?;
    let mut tables = Vec::new(alloc);
    add_tables(alloc, &mut tables, classes, numbers, classes.program())?;
    add_tables(alloc, &mut tables, classes, numbers, &own)?;
    Ok(tables)
}

impl ClassTables {
    /// The tables of a program. `AllocError` where memory runs out.
    pub fn new(alloc: Global, classes: &Classes<'_>) -> Result<ClassTables, AllocError>
        ensures { IfOk result (λ tables. tables ≡ class_tables classes.now) }
    {
        let numbers = ClassNumbers::new(alloc, classes.program())?;
        Ok(ClassTables {
            classes: tables_of(alloc, classes, &numbers)?,
        })
    }

    /// The number of a class's superclass. `None` for `java/lang/Object`, and where there is no such class.
    pub fn superclass(&self, class: usize) -> Option<usize>
        ensures { result ≡ superclass_in self.now class }
    {
        self.classes.get(class)?.superclass
    }

    /// The words of the objects of a class, the superclass's first. None where there is no such class.
    pub fn words(&self, class: usize) -> &[Word]
        ensures { result.now ≡ words_in self.now class }
    {
        match self.classes.get(class) {
            Some(table) => &table.words,
            None => &[],
        }
    }

    /// What the words of a new object of a class hold, before they are written (JVMS 2.3, 2.4). None where there is no
    /// such class.
    pub fn defaults(&self, class: usize) -> &[Value]
        ensures { result.now ≡ defaults_in self.now class }
    {
        match self.classes.get(class) {
            Some(table) => &table.defaults,
            None => &[],
        }
    }

    /// Whether a class is a subtype of another (JVMS 6.5, instanceof): the same, or below it through superclasses and
    /// superinterfaces. No where there is no such class.
    pub fn is_subtype(&self, class: usize, above: usize) -> bool
        ensures { result ≡ is_subtype_in self.now class above }
    {
        match self.classes.get(class) {
            Some(table) => table.above.get(above).copied().unwrap_or(false),
            None => false,
        }
    }
}
