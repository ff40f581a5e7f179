//! Selection tables and selectors of a small program, by hand from JVMS 6.5, invokevirtual. Private methods are passed
//! over.

use super::tables::tables_of;
use crate::texts::classes;
use linking::selection::Selection;
use linking::selectors::Selectors;
use model::listings::Listing;
use std::alloc::{AllocError, Global};
use std::fmt::Write;
use std::process::Abort;
use std::test::Fail;

/// Of A's methods g is private and s static. J is an interface; its k is declared by no class that implements it. Main
/// makes calls.
const CLASSES: &str =
    "class A|code 1 1 public f()I|code 1 0 private g()V|code 0 0 public static s()V|code 2 0 public h(I)V|code 1 0 public h()V|main:|invokevirtual A/f()I|invokestatic A/s()V|invokeinterface J/k()V 1|invokevirtual B/f()I|invokespecial A/g()V|invokevirtual B/h(I)V|return|end; class B < A|.implements J|code 1 1 public f()I|code 1 0 public g()V; class T < java/lang/Thread|code 1 0 public run()V; interface J|.method public abstract k()V|end";

/// The rows of the classes of some numbers: the class and the place of each method. Object has the number 4, Thread 25
/// and vm/Sys 26, after the program's four. The order is of names, then of descriptors.
const TABLES: &[(usize, &str)] = &[
    (0, "4.0 0.0 0.4 0.3 "),
    (1, "4.0 1.0 1.1 0.4 0.3 "),
    (2, "25.0 25.3 2.0 25.2 "),
    (3, "4.0 3.0 "),
    (4, "4.0 "),
    (25, "25.0 25.3 25.1 25.2 "),
    (26, "4.0 "),
];

/// The row of a class under a selector: the class and the method's place.
const ROWS: &[(usize, u32, Option<(usize, usize)>)] = &[
    (0, 0, Some((0, 0))),
    (1, 0, Some((1, 0))),
    (2, 0, None),
    (1, 1, None),
    (3, 1, Some((3, 0))),
    (1, 2, Some((0, 3))),
    (26, 2, None),
    (0, 3, None),
];

/// The numbers of selectors. A name with a descriptor that only invokestatic or invokespecial names has none.
const SELECTORS: &[(&str, &str, Option<usize>)] = &[
    ("f", "()I", Some(0)),
    ("k", "()V", Some(1)),
    ("h", "(I)V", Some(2)),
    ("h", "()V", None),
    ("s", "()V", None),
    ("g", "()V", None),
];

/// The table of a class as text: the class and the place of each method.
fn table(alloc: Global, selection: &Selection, class: usize) -> Result<String, AllocError> {
    let mut text = String::new(alloc);
    if class < selection.len() {
        for row in selection.table(class) {
            write!(text, "{}.{} ", row.class, row.method)?;
        }
    }
    Ok(text)
}

fn row(selection: &Selection, class: usize, selector: u32) -> Option<(usize, usize)> {
    if class >= selection.len() {
        return None;
    }
    let row = selection.row(class, selector)?;
    Some((row.class, row.method))
}

fn compare_rows(rt: &impl Abort, selection: &Selection) {
    for (class, selector, wanted) in ROWS {
        assert!(rt;
            row(selection, *class, *selector) == *wanted,
            "{class} {selector}"
        );
    }
}

fn compare_tables(rt: &impl Abort, alloc: Global, selection: &Selection) -> Result<(), AllocError> {
    for (class, wanted) in TABLES {
        assert!(rt;
            table(alloc, selection, *class)?.as_str() == *wanted,
            "{class}"
        );
    }
    Ok(())
}

fn compare_selectors(rt: &impl Abort, selectors: &Selectors<'_>) {
    for (name, descriptor, wanted) in SELECTORS {
        let found = selectors.number(name.as_bytes(), descriptor.as_bytes());
        assert!(rt; found == *wanted, "{name}{descriptor}");
    }
}

fn compare_selection(
    rt: &impl Abort,
    alloc: Global,
    selection: &Selection,
) -> Result<(), AllocError> {
    compare_rows(rt, selection);
    compare_tables(rt, alloc, selection)
}

fn compare_selectors_of(
    rt: &impl Abort,
    alloc: Global,
    program: &[Listing],
) -> Result<(), AllocError> {
    let selectors = Selectors::new(alloc, program)?;
    compare_selectors(rt, &selectors);
    Ok(())
}

#[test]
fn methods_are_selected(rt: HostRuntime) -> Result<(), Fail> {
    compare_selection(&rt, rt.alloc(), &tables_of(rt.alloc(), CLASSES)?.selection)?;
    compare_selectors_of(&rt, rt.alloc(), &classes(rt.alloc(), CLASSES)?)?;
    Ok(())
}
