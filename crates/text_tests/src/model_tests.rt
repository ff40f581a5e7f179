//! Each call that takes memory succeeds where there is some; printed names.
use model::descriptors::{
    argument_units, arguments_of, descriptor_kind, is_array_descriptor, is_field_descriptor,
    is_int_type, is_long_type, result_kind,
};
use model::good_names::{is_class_name, is_field_name, is_method_name, is_part};
use model::journals::{HeapShape, Journal, Limits, Outcome, Row};
use model::names::Name;
use model::turns::{Actor, Fault};
use model::values::Kind;
use std::alloc::{AllocError, Global};

/// A name, made of bytes and then shared.
fn shared(alloc: Global, bytes: &[u8]) -> Result<Name, AllocError> {
    let made = Name::new(bytes.to_vec(alloc)?)?;
    Ok(made.share()?)
}

const SHAPE: HeapShape = HeapShape {
    small: 2,
    medium: 0,
    large: 0,
};

const LIMITS: Limits = Limits {
    steps: 2,
    output: 0,
};

const FIRST: Row = Row {
    actor: Actor::Thread(0),
    outcome: Outcome::Done,
    worker: 0,
};

const SECOND: Row = Row {
    actor: Actor::Collector,
    outcome: Outcome::Fault,
    worker: 0,
};

/// Whether a journal has these rows and no more.
fn has_rows(journal: &Journal, rows: &[Row]) -> bool {
    let mut found = journal.rows();
    for row in rows {
        if found.next() != Some(*row) {
            return false;
        }
    }
    found.next().is_none()
}

/// Whether a journal has two rows, in order, and all that it was made with.
fn has_noted(journal: &Journal) -> bool {
    has_rows(journal, [FIRST, SECOND].as_slice())
        && journal.shape() == SHAPE
        && journal.limits() == LIMITS
        && journal.workers() == 1
}

/// Words, and whether each is a class's, a field's and a method's name (JVMS 4.2).
const NAMES: &[(&str, bool, bool, bool)] = &[
    ("", false, false, false),
    ("a", true, true, true),
    ("$_1", true, true, true),
    ("1a", false, false, false),
    ("java/lang/Object", true, false, false),
    ("a/1", false, false, false),
    ("a/", false, false, false),
    ("/a", false, false, false),
    ("a//b", false, false, false),
    ("a.b", false, false, false),
    ("<clinit>", false, false, true),
    ("<main>", false, false, false),
];

fn is_name_of(word: &[u8], class: bool, field: bool, method: bool) -> bool {
    is_class_name(word) == class
        && is_field_name(word) == field
        && is_method_name(word) == method
        && is_part(word) == field
}

/// Words, and the kind of a value of each that is a field's descriptor (JVMS 4.3.2): one type of the profile.
const FIELD_DESCRIPTORS: &[(&str, Option<Kind>)] = &[
    ("", None),
    ("B", Some(Kind::Int)),
    ("C", Some(Kind::Int)),
    ("S", Some(Kind::Int)),
    ("I", Some(Kind::Int)),
    ("J", Some(Kind::Long)),
    ("V", None),
    ("Z", None),
    ("II", None),
    ("[", None),
    ("[[J", Some(Kind::Ref)),
    ("[V", None),
    ("LI;", Some(Kind::Ref)),
    ("[La/b;", Some(Kind::Ref)),
    ("L;", None),
    ("La//b;", None),
    ("La", None),
    ("La;;", None),
];

fn describes_field(text: &str, kind: Option<Kind>) -> bool {
    let word = text.as_bytes();
    let is_array = kind.is_some() && text.starts_with('[');
    let is_kind = match kind {
        Some(kind) => descriptor_kind(word) == kind,
        None => true,
    };
    is_kind
        && is_field_descriptor(word) == kind.is_some()
        && is_int_type(word) == (kind == Some(Kind::Int))
        && is_long_type(word) == (text == "J")
        && is_array_descriptor(word) == is_array
}

/// Words, the units of the arguments of each that is a method's descriptor (JVMS 4.3.3), and the kind of its result.
const METHOD_DESCRIPTORS: &[(&str, Option<usize>, Option<Kind>)] = &[
    ("", None, None),
    ("()V", Some(0), None),
    ("()I", Some(0), Some(Kind::Int)),
    ("(J[JLa/b;)[[I", Some(4), Some(Kind::Ref)),
    ("(BCSIJ)J", Some(6), Some(Kind::Long)),
    ("([[JLJ;J)LJ;", Some(4), Some(Kind::Ref)),
    ("(V)V", None, None),
    ("([)V", None, None),
    ("(La)V", None, None),
    ("(I", None, None),
    ("I)V", None, None),
    ("()", None, None),
    ("()VV", None, None),
];

fn describes_method(word: &[u8], units: Option<usize>, kind: Option<Kind>) -> bool {
    let is_reported = match units {
        Some(units) => argument_units(word) == units && result_kind(word) == kind,
        None => true,
    };
    is_reported && arguments_of(word) == units
}

fn names_are_kept(alloc: Global) -> Result<bool, AllocError> {
    let copied = Name::copy_of(alloc, b"vm/Sys")?;
    let shared = shared(alloc, copied.as_bytes())?;
    let is_kept = copied.is("vm/Sys") && !copied.is("vm/Sy") && shared == copied;
    Ok(is_kept && shared.as_bytes() == b"vm/Sys".as_slice())
}

fn rows_are_noted(alloc: Global) -> Result<bool, AllocError> {
    let mut journal = Journal::new(alloc, SHAPE, LIMITS, 1)?;
    journal.note(FIRST);
    journal.note(SECOND);
    Ok(has_noted(&journal))
}

/// Whether two faults are printed as users know them.
fn faults_are_printed(alloc: Global) -> Result<bool, AllocError> {
    let (first, last) = (Fault::StackEmpty, Fault::MonitorLimit);
    Ok(format!(in alloc; "{first} {last}")?.as_str() == "F1 F10")
}

#[test]
fn names_rows_and_faults(rt: HostRuntime) {
    assert!(rt; names_are_kept(rt.alloc()) == Ok(true), "names");
    assert!(rt; rows_are_noted(rt.alloc()) == Ok(true), "rows");
    assert!(rt; faults_are_printed(rt.alloc()) == Ok(true), "faults");
}

/// An array has 255 dimensions at most.
#[test]
fn words_are_names_and_descriptors(rt: HostRuntime) {
    for (text, class, field, method) in NAMES {
        assert!(rt;
            is_name_of(text.as_bytes(), *class, *field, *method),
            "{text}"
        );
    }
    for (text, kind) in FIELD_DESCRIPTORS {
        assert!(rt; describes_field(text, *kind), "{text}");
    }
    for (text, units, kind) in METHOD_DESCRIPTORS {
        assert!(rt; describes_method(text.as_bytes(), *units, *kind), "{text}");
    }
    let mut word = [b'['; 257];
    word[256] = b'I';
    assert!(rt; is_array_descriptor(&word[1..]) && !is_array_descriptor(&word));
}
