//! Resolution, selection and subclasses on small programs.

use crate::texts::{classes, layers};
use model::listings::Listing;
use model::names::{Member, Name};
use resolve::classes::Classes;
use std::alloc::{AllocError, Global};
use std::process::Abort;
use std::test::Fail;

/// A has an f, B over A a private one, C over B none. D over A implements K, which extends J.
const CLASSES: &str =
    "class A|.field public x I|code 1 0 public f()I; class B < A|code 1 0 private f()I; class C < B; interface J|.field public static final x I|.method public abstract f()I|end; interface K|.implements J; class D < A|.implements K";

/// What is asked of two names.
#[derive(Clone, Copy)]
enum Asked {
    /// Whether the first class's field x is found in the second; an empty name stands for none.
    Field,
    /// The same of its method f.
    Method,
    /// The same of the f that is selected for it.
    Selected,
    IsSubclass,
    IsSubtype,
    IsType,
    /// Whether a class has a number, and this has its name; an empty one stands for none.
    Number,
    /// Whether the fields of a class's objects are declared by the classes of these names.
    Fields,
}

/// JVMS 5.4.3.2, 5.4.3.3 and 6.5, invokevirtual and instanceof; 4.4.1. The program's six classes are counted from 0,
/// the machine's own after them.
const ROWS: &[(Asked, &str, &str, bool)] = &[
    // a superinterface's field comes before the superclass's, the superclass's method before a superinterface's
    (Asked::Field, "D", "J", true),
    (Asked::Method, "D", "A", true),
    (Asked::Field, "C", "A", true),
    (Asked::Method, "K", "J", true),
    // a private method is resolved, but passed over by a selection
    (Asked::Method, "C", "B", true),
    (Asked::Selected, "C", "A", true),
    // no superinterface is looked at by a selection
    (Asked::Selected, "K", "", true),
    (Asked::Field, "java/lang/Thread", "", true),
    (Asked::IsSubclass, "D", "J", true),
    (Asked::IsSubclass, "D", "java/lang/Object", true),
    (Asked::IsSubclass, "C", "J", false),
    (Asked::IsSubclass, "A", "D", false),
    (
        Asked::IsSubclass,
        "java/lang/StackOverflowError",
        "java/lang/Throwable",
        true,
    ),
    (Asked::IsSubclass, "E", "E", true),
    (Asked::IsSubclass, "E", "java/lang/Object", false),
    (Asked::IsSubtype, "D", "J", true),
    (Asked::IsSubtype, "[D", "java/lang/Object", true),
    (Asked::IsSubtype, "[LD;", "[LJ;", true),
    (Asked::IsSubtype, "[LJ;", "[LD;", false),
    (Asked::IsSubtype, "[[I", "[Ljava/lang/Object;", true),
    (Asked::IsSubtype, "[I", "[J", false),
    (Asked::IsSubtype, "[I", "[Ljava/lang/Object;", false),
    (Asked::IsSubtype, "J", "[LJ;", false),
    (Asked::IsType, "D", "", true),
    (Asked::IsType, "E", "", false),
    (Asked::IsType, "[[I", "", true),
    (Asked::IsType, "[LD;", "", true),
    (Asked::IsType, "[[LE;", "", false),
    (Asked::Number, "A", "0", true),
    (Asked::Number, "D", "5", true),
    (Asked::Number, "java/lang/Object", "6", true),
    (Asked::Number, "vm/Sys", "28", true),
    (Asked::Number, "E", "", true),
];

/// JVMS 2.4: the superclass's fields come first, and static ones have no word.
const FIELDS: &str =
    "class B < A|.field private x I; class A|.field public x I; class C < B|.implements J|.field public static x I; interface J|.field public static final x I";

const FIELD_ROWS: &[(Asked, &str, &str, bool)] = &[(Asked::Fields, "C", "A B", true)];

/// A search looks at each interface once.
const LAYER_ROWS: &[(Asked, &str, &str, bool)] = &[
    (Asked::IsSubclass, "A1", "B20", true),
    (Asked::Field, "A1", "", true),
];

/// Whether a class was found that has this name, or none where the name is empty.
fn is_named(found: Option<&Listing>, name: &str) -> bool {
    match found {
        Some(class) => class.name.is(name),
        None => name.is_empty(),
    }
}

fn member(
    alloc: Global,
    class: &str,
    name: &[u8],
    descriptor: &[u8],
) -> Result<Member, AllocError> {
    Ok(Member {
        class: Name::copy_of(alloc, class.as_bytes())?,
        name: Name::copy_of(alloc, name)?,
        descriptor: Name::copy_of(alloc, descriptor)?,
    })
}

fn has_field(
    alloc: Global,
    classes: &Classes<'_>,
    class: &str,
    declarer: &str,
) -> Result<bool, AllocError> {
    let x = member(alloc, class, b"x", b"I")?;
    let found = match classes.field(&x) {
        Some(found) => Some(found.class),
        None => None,
    };
    Ok(is_named(found, declarer))
}

fn has_method(
    alloc: Global,
    classes: &Classes<'_>,
    class: &str,
    declarer: &str,
) -> Result<bool, AllocError> {
    let f = member(alloc, class, b"f", b"()I")?;
    let found = match classes.method(&f) {
        Some(found) => Some(found.class),
        None => None,
    };
    Ok(is_named(found, declarer))
}

fn selects(classes: &Classes<'_>, class: &str, declarer: &str) -> bool {
    match classes.select(class.as_bytes(), b"f", b"()I") {
        Some(found) => is_named(Some(found.class), declarer),
        None => declarer.is_empty(),
    }
}

fn has_number(classes: &Classes<'_>, name: &str, number: &str) -> bool {
    match (classes.number(name.as_bytes()), number.parse::<usize>()) {
        (Some(found), Ok(wanted)) => {
            found == wanted && found < classes.len() && classes.class(found).name.is(name)
        }
        (None, Err(_)) => true,
        _ => false,
    }
}

fn has_fields_of(
    alloc: Global,
    classes: &Classes<'_>,
    class: &str,
    declarers: &str,
) -> Result<bool, AllocError> {
    let fields = classes.layout(alloc, class.as_bytes())?;
    let mut names = declarers.split(" ");
    for field in &fields {
        let class = field.class;
        match names.next() {
            Some(name) if class.name.is(name) => {}
            _ => return Ok(false),
        }
    }
    Ok(names.next().is_none())
}

fn answer(
    alloc: Global,
    classes: &Classes<'_>,
    asked: Asked,
    name: &str,
    other: &str,
) -> Result<bool, AllocError> {
    match asked {
        Asked::Field => has_field(alloc, classes, name, other),
        Asked::Method => has_method(alloc, classes, name, other),
        Asked::Selected => Ok(selects(classes, name, other)),
        Asked::IsSubclass => Ok(classes.is_subclass(name.as_bytes(), other.as_bytes())),
        Asked::IsSubtype => Ok(classes.is_subtype(name.as_bytes(), other.as_bytes())),
        Asked::IsType => Ok(classes.is_type(name.as_bytes())),
        Asked::Number => Ok(has_number(classes, name, other)),
        Asked::Fields => has_fields_of(alloc, classes, name, other),
    }
}

fn compare(
    rt: &impl Abort,
    alloc: Global,
    classes: &Classes<'_>,
    rows: &[(Asked, &str, &str, bool)],
) -> Result<(), AllocError> {
    for (asked, name, other, wanted) in rows {
        let found = answer(alloc, classes, *asked, name, other)?;
        assert!(rt; found == *wanted, "{name} and {other}");
    }
    Ok(())
}

/// Asks each row of the classes of a program.
fn compare_program(
    rt: &impl Abort,
    alloc: Global,
    program: &[Listing],
    rows: &[(Asked, &str, &str, bool)],
) -> Result<(), AllocError> {
    match Classes::new(alloc, program)? {
        Some(classes) => compare(rt, alloc, &classes, rows)?,
        None => assert!(rt; false, "no classes"),
    }
    Ok(())
}

fn compare_text(
    rt: &impl Abort,
    alloc: Global,
    row: &str,
    rows: &[(Asked, &str, &str, bool)],
) -> Result<(), Fail> {
    let program = classes(alloc, row)?;
    Ok(compare_program(rt, alloc, &program, rows)?)
}

fn has_no_classes(alloc: Global, row: &str) -> Result<bool, Fail> {
    let program = classes(alloc, row)?;
    Ok(Classes::new(alloc, &program)?.is_none())
}

/// Where a parent is missing, or classes lie above themselves, there are no classes.
const NO_CLASSES: [&str; 2] = [
    "class A < B; class C",
    "class A|.implements B; class B|.implements A",
];

#[test]
fn classes_answer(rt: HostRuntime) -> Result<(), Fail> {
    let layers = layers(rt.alloc(), 20)?;
    for (row, rows) in [
        (CLASSES, ROWS),
        (FIELDS, FIELD_ROWS),
        (layers.as_str(), LAYER_ROWS),
    ] {
        compare_text(&rt, rt.alloc(), row, rows)?;
    }
    for row in NO_CLASSES {
        assert!(rt; has_no_classes(rt.alloc(), row)?, "{row}");
    }
    Ok(())
}
