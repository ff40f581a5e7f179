//! What a turn asks of methods, by the numbers of their classes and their places there.
ghost use Rattle.std.specs.Prelude.{◌≡◌, ◌++◌, map, IfOk, OnOk};
ghost use Rattle.std.specs.Option.{option_copied};
ghost use Rattle.model.specs.Classes.Builtin.{builtin_classes};
ghost use Rattle.model.specs.Programs.{empty_initializer};
ghost use Rattle.linking.specs.Instructions.{instructions_in};
ghost use Rattle.linking.specs.MethodTables.{body_of, catch_of, class_methods, facts_at, lists, method_facts};
ghost use Rattle.linking.specs.MethodTables.{method_tables, own_methods, row_of, rows_of};

use crate::class_numbers::ClassNumbers;
use crate::named_methods::is_class_initializer;
use crate::own_methods::builtin_found;
use bitflags::Flags;
use model::builtins::Builtin;
use model::descriptors::{argument_kinds, argument_units, result_kind};
use model::flags::MethodFlags;
use model::instructions::Instruction;
use model::listings::{Code, ExceptionRow, Listing, Method, Placed};
use model::names::{Member, Name};
use model::places::MethodPlace;
use model::values::Kind;
use resolve::builtins::builtin_classes;
use resolve::classes::Classes;
use resolve::found::Found;
use std::alloc::{AllocError, Global};
use std::marker::Model;

/// What a handler takes: anything, or what is of the class of a number.
#[derive(Clone, Copy, PartialEq, Eq)]
pub enum Catch {
    Any,
    /// where the program has no such class, how many classes there are
    Class(usize),
}

/// A row of an exception table: from `start` to before `end` the handler takes what is said of it.
#[derive(Clone, Copy, PartialEq, Eq)]
pub struct Row {
    pub start: u16,
    pub end: u16,
    pub handler: u16,
    pub class: Catch,
}

/// What a method has to run.
#[derive(Clone, Copy, PartialEq, Eq)]
pub enum Body {
    /// nothing: it is abstract
    NoCode,
    /// it is one of the machine's own
    Own(Builtin),
    Coded { max_locals: u16, max_stack: u16 },
}

/// How a method returns: with nothing or with a result of a kind, and nothing else is done. Otherwise it is a class
/// initializer, of whose return its class is told, or no method.
#[derive(Clone, Copy, PartialEq, Eq)]
pub enum Returns {
    Nothing,
    Int,
    Long,
    Ref,
    Otherwise,
}

impl Returns {
    ghost use Rattle.linking.specs.Returns.{returning};

    /// With a result of this kind, if of any.
    #[inline(always)]
    pub fn of(kind: Option<Kind>) -> Returns
        ensures { result ≡ returning kind }
    {
        match kind {
            None => Returns::Nothing,
            Some(Kind::Int) => Returns::Int,
            Some(Kind::Long) => Returns::Long,
            Some(Kind::Ref) => Returns::Ref,
        }
    }
}

/// What is known of one method.
#[derive(Drop)]
pub struct MethodInfo {
    flags: MethodFlags,
    is_initializer: bool,
    arguments: Vec<Kind>,
    argument_units: usize,
    result: Option<Kind>,
    body: Body,
    rows: Vec<Row>,
}

impl Model for MethodInfo {
    ghost use Rattle.linking.specs.MethodFacts.{MethodFacts};

    ghost Value = { MethodFacts };

    ghost view = { λ a. record {
      flags = a.flags;
      is_initializer = a.is_initializer;
      arguments = a.arguments.items;
      argument_units = a.argument_units;
      kind = a.result;
      body = a.body;
      rows = a.rows.items;
    } };
}

impl MethodInfo {
    /// The access flags.
    pub fn flags(&self) -> MethodFlags
        ensures { result ≡ self.now.flags }
    {
        self.flags
    }

    /// Whether it is a class initializer (JVMS 2.9).
    pub fn is_initializer(&self) -> bool
        ensures { result ≡ self.now.is_initializer }
    {
        self.is_initializer
    }

    /// The kinds of the arguments, in order.
    pub fn arguments(&self) -> &[Kind]
        ensures { result.now ≡ self.now.arguments }
    {
        &self.arguments
    }

    /// The units that the arguments take, two for a long.
    pub fn argument_units(&self) -> usize
        ensures { result ≡ self.now.argument_units }
    {
        self.argument_units
    }

    /// The kind of the result. `None` where nothing is returned.
    pub fn result(&self) -> Option<Kind>
        ensures { result ≡ self.now.kind }
    {
        self.result
    }

    /// What a call has to run.
    pub fn body(&self) -> Body
        ensures { result ≡ self.now.body }
    {
        self.body
    }

    /// The exception table, in order.
    pub fn rows(&self) -> &[Row]
        ensures { result.now ≡ self.now.rows }
    {
        &self.rows
    }
}

/// What is known of the methods of each class of a program by its number, the machine's own after those of the
/// program. A contract sees a list for each class.
#[derive(Drop)]
pub struct MethodTables {
    classes: Vec<Vec<MethodInfo>>,
}

impl Model for MethodTables {
    ghost use Rattle.std.specs.Prelude.{List, map};
    ghost use Rattle.linking.specs.MethodFacts.{MethodFacts};

    ghost Value = { List (List MethodFacts) };

    ghost view = { λ a. map (λ methods. methods.items) a.classes.items };
}

fn catch_of(numbers: &ClassNumbers<'_>, class: &Option<Name>) -> Catch
    ensures { result ≡ catch_of numbers.now class.now }
{
    match class {
        Some(name) => Catch::Class(numbers.place(name.as_bytes())),
        None => Catch::Any,
    }
}

fn row_of(numbers: &ClassNumbers<'_>, row: &ExceptionRow) -> Row
    ensures { result ≡ row_of numbers.now row.now }
{
    Row {
        start: row.start,
        end: row.end,
        handler: row.handler,
        class: catch_of(numbers, &row.class),
    }
}

/// These rows with their classes' numbers. `AllocError` where memory runs out, here and below.
fn rows_in(
    alloc: Global,
    numbers: &ClassNumbers<'_>,
    listed: &[ExceptionRow],
) -> Result<Vec<Row>, AllocError>
    ensures { IfOk result (λ rows. rows.items ≡ map (row_of numbers.now) listed.now) }
{
    let mut rows = Vec::new(alloc);
    for row in listed {
        rows.push(row_of(numbers, row))?;
    }
    Ok(rows)
}

fn rows_of(
    alloc: Global,
    numbers: &ClassNumbers<'_>,
    code: &Option<Code>,
) -> Result<Vec<Row>, AllocError>
    ensures { IfOk result (λ rows. rows.items ≡ rows_of numbers.now code.now) }
{
    match code {
        Some(code) => rows_in(alloc, numbers, &code.rows),
        None => Ok(Vec::new(alloc)),
    }
}

/// What a method that a class declares has to run.
fn body_of(class: &Listing, method: &Method) -> Body
    ensures { result ≡ body_of class.now.name method.now }
{
    let own = builtin_found(&Found {
        class,
        member: method,
    });
    match (own, &method.code) {
        (Some(builtin), _) => Body::Own(builtin),
        (None, Some(code)) => Body::Coded {
            max_locals: code.max_locals,
            max_stack: code.max_stack,
        },
        (None, None) => Body::NoCode,
    }
}

/// What is known of a method that a class declares.
pub fn method_info(
    alloc: Global,
    numbers: &ClassNumbers<'_>,
    class: &Listing,
    method: &Method,
) -> Result<MethodInfo, AllocError>
    ensures { IfOk result (λ info. info ≡ method_facts numbers.now class.now.name method.now) }
{
    let descriptor = method.descriptor.as_bytes();
    let arguments = argument_kinds(alloc, descriptor)?;
    let rows = rows_of(alloc, numbers, &method.code)?;
    let body = body_of(class, method);
    Ok(MethodInfo {
        flags: method.flags,
        is_initializer: is_class_initializer(method),
        arguments,
        argument_units: argument_units(descriptor),
        result: result_kind(descriptor),
        body,
        rows,
    })
}

/// What is known of methods that a class declares.
fn method_infos(
    alloc: Global,
    numbers: &ClassNumbers<'_>,
    class: &Listing,
    methods: &[Method],
) -> Result<Vec<MethodInfo>, AllocError>
    ensures { IfOk result (λ infos. infos.items ≡ map (method_facts numbers.now class.now.name) methods.now) }
{
    let mut infos = Vec::new(alloc);
    for method in methods {
        infos.push(method_info(alloc, numbers, class, method)?)?;
    }
    Ok(infos)
}

/// The instructions of a class that declares no initializer: a `return`.
pub fn empty_initializer() -> [Placed; 1]
    ensures { result ≡ instructions_in empty_initializer.code }
{
    [Placed {
        pc: 0,
        next: 1,
        instruction: Instruction::Return(None),
    }]
}

/// The initializer of a class that declares none: a `return`, with limits 0.
pub fn empty_initializer_method(alloc: Global) -> Result<Method, AllocError>
    ensures { IfOk result (λ method. method ≡ empty_initializer) }
{
    let instructions = Vec::from_array(alloc, empty_initializer())?;
    Ok(Method {
        flags: MethodFlags::STATIC,
        name: Name::copy_of(alloc, b"<clinit>")?,
        descriptor: Name::copy_of(alloc, b"()V")?,
        code: Some(Code {
            max_stack: 0,
            max_locals: 0,
            rows: Vec::new(alloc),
            instructions,
        }),
    })
}

/// What is known of the methods of a class, and of the empty initializer after them.
fn infos_of(
    alloc: Global,
    numbers: &ClassNumbers<'_>,
    class: &Listing,
    empty: &Method,
) -> Result<Vec<MethodInfo>, AllocError>
    requires { empty.now ≡ empty_initializer }
    ensures { IfOk result (λ infos. infos.items ≡ class_methods numbers.now class.now) }
{
    let mut infos = method_infos(alloc, numbers, class, &class.methods)?;
    infos.push(method_info(alloc, numbers, class, empty)?)?;
    Ok(infos)
}

/// Adds what is known of the methods of these classes, and of the empty initializer of each.
fn add_classes(
    alloc: Global,
    tables: &mut Vec<Vec<MethodInfo>>,
    numbers: &ClassNumbers<'_>,
    program: &[Listing],
    empty: &Method,
) -> Result<(), AllocError>
    requires { empty.now ≡ empty_initializer }
    ensures { OnOk result (lists tables.new.items
        ≡ lists tables.old.items ++ map (class_methods numbers.now) program.now) }
{
    for class in program {
        tables.push(infos_of(alloc, numbers, class, empty)?)?;
    }
    Ok(())
}

/// The same, for a program's classes.
fn add_program(
    alloc: Global,
    tables: &mut Vec<Vec<MethodInfo>>,
    numbers: &ClassNumbers<'_>,
    program: &[Listing],
) -> Result<(), AllocError>
    ensures { OnOk result (lists tables.new.items
        ≡ lists tables.old.items ++ map (class_methods numbers.now) program.now) }
{
    let empty = empty_initializer_method(alloc)?;
    add_classes(alloc, tables, numbers, program, &empty)
}

/// Adds what is known of the methods of these classes.
fn add_own(
    alloc: Global,
    tables: &mut Vec<Vec<MethodInfo>>,
    numbers: &ClassNumbers<'_>,
    own: &[Listing],
) -> Result<(), AllocError>
    ensures { OnOk result (lists tables.new.items ≡ lists tables.old.items ++ map (own_methods numbers.now) own.now) }
{
    for class in own {
        tables.push(method_infos(alloc, numbers, class, &class.methods)?)?;
    }
    Ok(())
}

/// Adds what is known of the methods of the machine's own classes.
fn add_builtins(
    alloc: Global,
    tables: &mut Vec<Vec<MethodInfo>>,
    numbers: &ClassNumbers<'_>,
) -> Result<(), AllocError>
    ensures { OnOk result (lists tables.new.items
        ≡ lists tables.old.items ++ map (own_methods numbers.now) builtin_classes) }
{
    let own = builtin_classes(alloc)?;
    add_own(alloc, tables, numbers, &own)
}

/// The lists of a program's classes and of the machine's own.
fn tables_of(
    alloc: Global,
    numbers: &ClassNumbers<'_>,
    program: &[Listing],
) -> Result<Vec<Vec<MethodInfo>>, AllocError>
    requires { numbers.now ≡ program.now }
    ensures { IfOk result (λ tables. lists tables.items ≡ method_tables program.now) }
{
    let mut tables = Vec::new(alloc);
    add_program(alloc, &mut tables, numbers, program)?;
    add_builtins(alloc, &mut tables, numbers)?;
    Ok(tables)
}

impl MethodTables {
    /// The tables of a program. `AllocError` where memory runs out.
    pub fn new(alloc: Global, classes: &Classes<'_>) -> Result<MethodTables, AllocError>
        ensures { IfOk result (λ tables. tables ≡ method_tables classes.now) }
    {
        let program = classes.program();
        let numbers = ClassNumbers::new(alloc, program)?;
        Ok(MethodTables {
            classes: tables_of(alloc, &numbers, program)?,
        })
    }

    /// The method at a place: the number of its class and its own place there. After the last method of a class of the
    /// program stands its empty initializer. `None` where there is no such method.
    pub fn method(&self, place: MethodPlace) -> Option<&MethodInfo>
        ensures { option_copied result ≡ facts_at self.now place }
    {
        match self.classes.get(place.class) {
            Some(methods) => methods.get(place.method),
            None => None,
        }
    }
}
