//! What `invokevirtual` and `invokeinterface` find for the objects of each class, looked up by numbers (JVMS 6.5).
ghost use Rattle.std.specs.Prelude.{◌≡◌, ◌<◌, List, map, IfOk};
ghost use Rattle.model.specs.ClassListings.{ClassListing};
ghost use Rattle.resolve.specs.Numbers.{all_classes};
ghost use Rattle.linking.specs.Selections.{gathered};
ghost use Rattle.linking.specs.SelectionTables.{AreTables, IsRowAt, IsSelection, IsTableAt, IsTableOf, table_count};

use crate::selection_rows::{ClassRows, SelectionRow};
use crate::selectors::Selectors;
use resolve::classes::Classes;
use resolve::keys::NameKey;
use std::alloc::{AllocError, Global};

/// The selection table of a class.
#[derive(Drop)]
struct ClassTable {
    /// its rows by name and descriptor
    rows: Vec<SelectionRow>,
    /// the row of each selector
    by_selector: Vec<Option<SelectionRow>>,
}

/// The selection tables of a program's classes, the machine's own among them, by their numbers: the program's from 0,
/// in order, and the machine's own after them.
#[derive(Drop)]
pub struct Selection {
    tables: Vec<ClassTable>,
}

/// The rows of some names and descriptors, in order. `AllocError` where memory runs out, here and below.
fn rows_of<'a>(
    alloc: Global,
    rows: &ClassRows<'a>,
    signatures: &[(NameKey<'a>, NameKey<'a>)],
) -> Result<Vec<Option<SelectionRow>>, AllocError>
    ensures { IfOk result (λ found. found.items
        ≡ map (λ s. gathered rows.now s.0.bytes.now s.1.bytes.now) signatures.now) }
{
    let mut found = Vec::new(alloc);
    for signature in signatures {
        found.push(rows.row(signature.0.bytes, signature.1.bytes))?;
    }
    Ok(found)
}

/// The table of the class of a name.
fn table_of<'a>(
    alloc: Global,
    classes: &'a Classes<'_>,
    selectors: &Selectors<'a>,
    class: &'a [u8],
) -> Result<ClassTable, AllocError>
    ensures { selectors.now ≡ classes.now → IfOk result (λ table. IsTableOf classes.now class.now table) }
{
    let gathered = ClassRows::of_class(alloc, classes, class)?;
    let rows = gathered.in_order(alloc)?;
    let by_selector = rows_of(alloc, &gathered, selectors.as_slice())?;
    Ok(ClassTable { rows, by_selector })
}

/// The tables of all classes by their numbers.
fn tables_of<'a>(
    alloc: Global,
    classes: &'a Classes<'_>,
    selectors: &Selectors<'a>,
) -> Result<Vec<ClassTable>, AllocError>
    requires { selectors.now ≡ classes.now }
    ensures { IfOk result (λ tables. AreTables classes.now tables.items (all_classes classes.now)) }
{
    let mut tables = Vec::new(alloc);
    for number in 0..classes.len() {
        let class = classes.class(number);
        tables.push(table_of(alloc, classes, selectors, class.name.as_bytes())?)?;
    }
    Ok(tables)
}

impl Selection {
    /// The selection tables of these classes.
    pub fn new(alloc: Global, classes: &Classes<'_>) -> Result<Selection, AllocError>
        ensures { IfOk result (λ selection. IsSelection classes.now selection) }
    {
        let selectors = Selectors::new(alloc, classes.program())?;
        Ok(Selection {
            tables: tables_of(alloc, classes, &selectors)?,
        })
    }

    /// How many tables there are, one for each class.
    pub fn len(&self) -> usize
        ensures { result ≡ table_count self.now }
    {
        self.tables.len()
    }

    /// The selection table of the class of a number: its rows rise by name and descriptor.
    pub fn table(&self, class: usize) -> &[SelectionRow]
        requires { class < table_count self.now }
        ensures { (program : List ClassListing) → IsSelection program self.now → IsTableAt program class result.now }
    {
        self.tables[class].rows.as_slice()
    }

    /// The row of a selector in the selection table of the class of a number; `None` where it has none.
    pub fn row(&self, class: usize, selector: u32) -> Option<SelectionRow>
        requires { class < table_count self.now }
        ensures { (program : List ClassListing) → IsSelection program self.now → IsRowAt program class selector result }
    {
        match self.tables[class].by_selector.get(selector as usize) {
            Some(row) => *row,
            None => None,
        }
    }
}
