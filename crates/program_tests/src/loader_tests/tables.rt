//! The tables of a small program: what is read of classes, fields and methods by their numbers.

use crate::texts::classes;
use bitflags::Flags;
use linking::class_tables::ClassTables;
use linking::initializers::Initializers;
use linking::method_tables::{Body, Catch, MethodInfo, MethodTables};
use linking::static_slots::Slot;
use linking::storages::Storage;
use linking::tables::Tables;
use model::builtins::Builtin;
use model::listings::Listing;
use model::places::MethodPlace;
use model::values::{Kind, Value};
use resolve::classes::Classes;
use std::alloc::{AllocError, Global};
use std::process::Abort;
use std::test::Fail;

/// A is 0, B 1 and J 2; `java/lang/Object` is 3, `java/lang/Throwable` 4 and `vm/Sys`, the last one, 25. The field s
/// begins as -1, g is abstract, and f has three exception rows.
const CLASSES: &str =
    "class A|.field public x B|.field static s C = -1|.field public y J|main|.method public static f(IJ[[I)J|.limit stack 2|.limit locals 5|.catch B from X to Z using Y|.catch Q from X to Z using Y|.catch all from X to Z using Y|X:|nop|Y:|return|Z:|end|code 0 0 static <clinit>()V; class B < A|.implements J|.field public z S|.field static t LA;|.method public abstract g()V|end; interface J|.field public static final c I";

fn tables_of_program(alloc: Global, program: &[Listing]) -> Result<Option<Tables>, AllocError> {
    match Classes::new(alloc, program)? {
        Some(classes) => Ok(Some(Tables::new(alloc, &classes)?)),
        None => Ok(None),
    }
}

/// The tables of classes that have their parents.
pub fn tables_of(alloc: Global, row: &str) -> Result<Tables, Fail> {
    let program = classes(alloc, row)?;
    match tables_of_program(alloc, &program)? {
        Some(tables) => Ok(tables),
        None => Err(Fail::new("no classes")),
    }
}

/// Classes with their superclasses.
const SUPERCLASSES: &[(usize, Option<usize>)] = &[
    (0, Some(3)),
    (1, Some(0)),
    (2, Some(3)),
    (3, None),
    (4, Some(3)),
    (26, None),
];

/// Whether a class is another one or below it.
const SUBTYPES: &[(usize, usize, bool)] = &[
    (1, 0, true),
    (1, 1, true),
    (1, 2, true),
    (1, 3, true),
    (0, 1, false),
    (0, 2, false),
    (1, 26, false),
    (26, 26, false),
];

fn compare_classes(rt: &impl Abort, tables: &ClassTables) {
    for (class, superclass) in SUPERCLASSES {
        assert!(rt; tables.superclass(*class) == *superclass, "{class}");
    }
    for (class, above, is_below) in SUBTYPES {
        assert!(rt;
            tables.is_subtype(*class, *above) == *is_below,
            "{class} {above}"
        );
    }
}

/// How many words an object of a class has, and of the last the class that declares it and how it is kept.
fn last_word(tables: &ClassTables, class: usize) -> (usize, Option<(usize, Storage)>) {
    let words = tables.words(class);
    match words.last() {
        Some(word) => (words.len(), Some((word.class, word.storage))),
        None => (words.len(), None),
    }
}

/// What is known of some slots: the first one's storage and opening, and the last one's class and opening.
fn ends(slots: &[Slot]) -> Option<(Storage, Value, usize, Value)> {
    let first = slots.first()?;
    let last = slots.last()?;
    Some((first.storage, first.opening, last.class, last.opening))
}

/// An object has its superclass's words first (JVMS 2.4). A char keeps the low 16 bits of -1 (JVMS 2.3.1).
fn has_words_and_slots(tables: &Tables) -> bool {
    let slots = tables.slots.slots();
    last_word(&tables.classes, 1) == (3, Some((1, Storage::Short)))
        && last_word(&tables.classes, 3) == (0, None)
        && slots.len() == 3
        && ends(slots) == Some((Storage::Char, Value::Int(65535), 2, Value::Int(0)))
}

/// The units that the arguments of a method take, and its body.
fn reported(tables: &MethodTables, class: usize, method: usize) -> Option<(usize, Body)> {
    let info = tables.method(MethodPlace { class, method })?;
    Some((info.argument_units(), info.body()))
}

/// Units: `IJ[[I` takes four; the empty initializer after a class's methods has none.
const UNITS: &[(usize, usize, usize)] = &[(0, 1, 4), (0, 3, 0), (3, 0, 0)];

fn has_units(tables: &MethodTables) -> bool {
    for (class, method, units) in UNITS {
        match reported(tables, *class, *method) {
            Some((found, _)) if found == *units => {}
            _ => return false,
        }
    }
    true
}

fn has_bodies(tables: &MethodTables) -> bool {
    reported(tables, 1, 0) == Some((0, Body::NoCode))
        && reported(tables, 25, 1) == Some((2, Body::Own(Builtin::PrintLong)))
        && reported(tables, 26, 0) == None
}

/// Whether this is `static public f(IJ[[I)J` with three exception rows, of which the last catches all.
fn is_f(f: &MethodInfo) -> bool {
    f.flags().bits() == 9
        && !f.is_initializer()
        && f.arguments().len() == 3
        && f.result() == Some(Kind::Long)
        && f.rows().len() == 3
        && f.rows().last().is_some_and(|row| row.class == Catch::Any)
}

fn has_f(tables: &MethodTables) -> bool {
    let place = MethodPlace {
        class: 0,
        method: 1,
    };
    match tables.method(place) {
        Some(f) => is_f(f),
        None => false,
    }
}

/// A class with the place of its initializer, and whether it wants initialising: B does for its superclass A, an
/// interface never (JVMS 5.5).
const INITIALIZERS: &[(usize, usize, bool)] = &[
    (0, 2, true),
    (1, 1, true),
    (2, 0, false),
    (3, 0, false),
];

fn compare_initializers(rt: &impl Abort, tables: &Initializers) {
    for (class, method, is_wanted) in INITIALIZERS {
        let place = MethodPlace {
            class: *class,
            method: *method,
        };
        let found = (
            tables.initializer(*class),
            tables.wants_initialising(*class),
        );
        assert!(rt; found == (place, *is_wanted), "{class}");
    }
}

fn compare_tables(rt: &impl Abort, tables: &Tables) {
    compare_classes(rt, &tables.classes);
    compare_initializers(rt, &tables.initializers);
    assert!(rt; has_words_and_slots(tables), "words or slots");
    assert!(rt; has_units(&tables.methods), "units");
    assert!(rt;
        has_bodies(&tables.methods) && has_f(&tables.methods),
        "methods"
    );
}

#[test]
fn tables_by_number(rt: HostRuntime) -> Result<(), Fail> {
    let tables = tables_of(rt.alloc(), CLASSES)?;
    compare_tables(&rt, &tables);
    Ok(())
}
