//! The structure of a text: the class, its interfaces, fields and methods, and their bodies.
ghost use Rattle.std.specs.Prelude.{◌≡◌, ◌≢◌, [], ◌∷◌, true, codes, None, Some, IfOk, MatchOption, MatchResult};
ghost use Rattle.std.specs.Option.{option_and_then, option_to_list};
ghost use Rattle.model.specs.Texts.{tree_of};
ghost use Rattle.model.specs.Texts.Classes.{class_tree, interfaces_of, fields_of, methods_of, begins_otherwise};
ghost use Rattle.model.specs.Texts.Classes.{after_led};
ghost use Rattle.model.specs.Texts.Flags.{has};
ghost use Rattle.model.specs.Texts.Heads.{MethodHead as Head};
ghost use Rattle.model.specs.Texts.Methods.{body_with, method_without};
ghost use Rattle.jasmin.specs.Statements.{ahead};
ghost use Rattle.jasmin.specs.Bodies.{Says, SaysNothing, opened, block_of, after_block, first_parts, first_body};
ghost use Rattle.jasmin.specs.Bodies.{first_method};
ghost use Rattle.jasmin.specs.Classes.{class_under};

use crate::bodies::{Given, Part, end_of, next_of, part_of};
use crate::errors::{Fault, TextError};
use crate::fields::field;
use crate::flags::WITHOUT_CODE;
use crate::heads::{ClassHead, MethodHead, class_head, interface_name, method_head, super_name};
use crate::notes::Notes;
use crate::switches::OpenSwitch;
use crate::uses::labels_agree;
use bitflags::Flags;
use jasmin_words::statements::{Statement, Statements};
use model::flags::ClassFlags;
use model::listings::Field;
use model::names::Name;
use model::trees::{BodyTree, CatchRow, ClassTree, MethodTree, TextLine};
use model::watching::{Unwatched, Watch};
use std::alloc::Global;

/// Reads a text. It is refused where it spells no tree, with the first fault of the least faulty line, and where memory
/// runs out (J9).
pub fn read(alloc: Global, text: &[u8]) -> Result<ClassTree, TextError>
    ensures { MatchResult result (λ tree. tree_of text.now ≡ Some tree) (λ e. e.fault ≢ Fault.Memory
        → tree_of text.now ≡ None) }
{
    let mut watch = Unwatched;
    read_watched(alloc, text, &mut watch)
}

/// The same tree or refusal as `read`, with a watch that is told at each statement of a method's body the number of its
/// line and how many lines are left.
pub fn read_watched<P: Watch>(
    alloc: Global,
    text: &[u8],
    watch: &mut P,
) -> Result<ClassTree, TextError>
    ensures { MatchResult result (λ tree. tree_of text.now ≡ Some tree) (λ e. e.fault ≢ Fault.Memory
        → tree_of text.now ≡ None) }
{
    let mut statements = Statements::new(text);
    let Ok(mut notes) = Notes::new(alloc, text) else {
        return Err(TextError {
            line: statements.line(),
            fault: Fault::Memory,
        });
    };
    match class_tree(alloc, &mut statements, &mut notes, watch) {
        Ok(tree) => Ok(tree),
        Err(fault) => {
            let line = statements.line();
            Err(
                notes
                    .labels
                    .reported(alloc, text, TextError { line, fault }),
            )
        }
    }
}

/// The class that statements spell.
fn class_tree<P: Watch>(
    alloc: Global,
    statements: &mut Statements<'_>,
    notes: &mut Notes,
    watch: &mut P,
) -> Result<ClassTree, Fault>
    ensures { MatchResult result (λ tree. class_tree statements.old ≡ Some tree) (λ e. e ≢ Fault.Memory
        → class_tree statements.old ≡ None) }
{
    let first = next_of(statements)?.ok_or(Fault::Statement)?;
    let head = class_head(first)?;
    let second = next_of(statements)?.ok_or(Fault::Statement)?;
    let superclass = super_name(head.flags, second)?;
    members_after(alloc, head, superclass, statements, notes, watch)
}

/// The class of a head and a superclass, by the statements of its interfaces, fields and methods.
fn members_after<P: Watch>(
    alloc: Global,
    head: ClassHead<'_>,
    superclass: &[u8],
    statements: &mut Statements<'_>,
    notes: &mut Notes,
    watch: &mut P,
) -> Result<ClassTree, Fault>
    ensures { MatchResult result
        (λ tree. class_under head.entry.flags head.entry.name.now superclass.now statements.old ≡ Some tree) (λ e. e
        ≢ Fault.Memory → class_under head.entry.flags head.entry.name.now superclass.now statements.old ≡ None) }
{
    let third = next_of(statements)?;
    let (interfaces, following) = interfaces_of(alloc, third, statements)?;
    let (fields, following) = fields_of(alloc, head.flags, following, statements)?;
    let methods = methods_of(alloc, head.flags, following, statements, notes, watch)?;
    Ok(ClassTree {
        flags: head.flags,
        name: Name::copy_of(alloc, head.name)?,
        superclass: Name::copy_of(alloc, superclass)?,
        interfaces,
        fields,
        methods,
    })
}

/// The interfaces that statements begin with, the first of which was read, and the first statement after them.
#[tactic(auto, using(crate::proofs::DeclarationLemmas::declarations))]
fn interfaces_of<'a>(
    alloc: Global,
    first: Option<Statement<'a>>,
    statements: &mut Statements<'a>,
) -> Result<(Vec<Name>, Option<Statement<'a>>), Fault>
    ensures { MatchResult result (λ found. (interfaces_of (ahead first.entry statements.old) ≡ Some found.0.items)
        × (after_led (codes ".implements") (ahead first.entry statements.old) ≡ ahead found.1 statements.new)) (λ e. e
        ≢ Fault.Memory → interfaces_of (ahead first.entry statements.old) ≡ None) }
{
    let mut interfaces = Vec::new(alloc);
    let mut next = first;
    'rows: while let Some(statement) = next {
        if begins_otherwise(&statement, b".implements") {
            return Ok((interfaces, Some(statement)));
        }
        let name = interface_name(statement)?;
        interfaces.push(Name::copy_of(alloc, name)?)?;
        next = next_of(statements)?;
    }
    Ok((interfaces, None))
}

/// The fields that statements begin with, the first of which was read, in a class with these flags, and the first
/// statement after them.
#[tactic(auto, using(crate::proofs::DeclarationLemmas::declarations))]
fn fields_of<'a>(
    alloc: Global,
    class: ClassFlags,
    first: Option<Statement<'a>>,
    statements: &mut Statements<'a>,
) -> Result<(Vec<Field>, Option<Statement<'a>>), Fault>
    ensures { MatchResult result (λ found. (fields_of class (ahead first.entry statements.old) ≡ Some found.0.items)
        × (after_led (codes ".field") (ahead first.entry statements.old) ≡ ahead found.1 statements.new)) (λ e. e
        ≢ Fault.Memory → fields_of class (ahead first.entry statements.old) ≡ None) }
{
    let mut fields = Vec::new(alloc);
    let mut next = first;
    'rows: while let Some(statement) = next {
        if begins_otherwise(&statement, b".field") {
            return Ok((fields, Some(statement)));
        }
        let field = field(alloc, class, statement)?;
        fields.push(field)?;
        next = next_of(statements)?;
    }
    Ok((fields, None))
}

/// Whether a statement begins with another word.
fn begins_otherwise(statement: &Statement<'_>, word: &[u8]) -> bool
    ensures { result ≡ begins_otherwise word.now (Some (statement.now.first.now ∷ statement.now.operands)) }
{
    statement.first != word
}

/// The methods that statements spell, the first of which was read, in a class with these flags.
#[tactic(auto, using(crate::proofs::MethodLemmas::methods))]
fn methods_of<'a, P: Watch>(
    alloc: Global,
    class: ClassFlags,
    first: Option<Statement<'a>>,
    statements: &mut Statements<'a>,
    notes: &mut Notes,
    watch: &mut P,
) -> Result<Vec<MethodTree>, Fault>
    ensures { MatchResult result (λ methods. methods_of class (ahead first.entry statements.old)
        ≡ Some methods.items) (λ e. e ≢ Fault.Memory → methods_of class (ahead first.entry statements.old) ≡ None) }
{
    let mut methods = Vec::new(alloc);
    let mut next = first;
    'rows: while let Some(statement) = next {
        let head = method_head(class, statement)?;
        let method = method_under(alloc, class, head, statements, notes, watch)?;
        methods.push(method)?;
        next = next_of(statements)?;
    }
    Ok(methods)
}

/// A method with this head, by the statements up to its `.end method`.
#[tactic(auto, using(crate::proofs::MethodLemmas::alone))]
fn method_under<P: Watch>(
    alloc: Global,
    class: ClassFlags,
    head: MethodHead<'_>,
    statements: &mut Statements<'_>,
    notes: &mut Notes,
    watch: &mut P,
) -> Result<MethodTree, Fault>
    ensures { MatchResult result (λ method.
        (first_method (record {
          flags = head.entry.flags;
          name = head.entry.name.now;
          descriptor = head.entry.descriptor.now;
        }) statements.old ≡ Some method)
        × (statements.new ≡ after_block statements.old)) (λ e. e ≢ Fault.Memory
        → first_method (record {
          flags = head.entry.flags;
          name = head.entry.name.now;
          descriptor = head.entry.descriptor.now;
        }) statements.old ≡ None) }
{
    let name = Name::copy_of(alloc, head.name)?;
    let descriptor = notes.names.shared(Name::copy_of(alloc, head.descriptor)?);
    let flags = head.flags;
    if flags.bits() & WITHOUT_CODE != 0 {
        no_body(class, statements)?;
        return Ok(MethodTree {
            flags,
            name,
            descriptor,
            body: None,
        });
    }
    let body = body(alloc, class, statements, notes, watch)?;
    Ok(MethodTree {
        flags,
        name,
        descriptor,
        body: Some(body),
    })
}

/// The end of a method that has no body.
#[tactic(auto, using(crate::proofs::MethodLemmas::ends))]
fn no_body(class: ClassFlags, statements: &mut Statements<'_>) -> Result<(), Fault>
    ensures { MatchResult result (λ _. (block_of statements.old ≡ Some [])
        × (statements.new ≡ after_block statements.old)) (λ _. (head : Head)
        → option_and_then (method_without head) (block_of statements.old) ≡ None) }
{
    let statement = next_of(statements)?.ok_or(Fault::End)?;
    end_of(class, statement)
}

/// A body whose labels agree, up to its `.end method`.
#[tactic(auto, using(crate::proofs::BodyLemmas::agreeing))]
fn body<P: Watch>(
    alloc: Global,
    class: ClassFlags,
    statements: &mut Statements<'_>,
    notes: &mut Notes,
    watch: &mut P,
) -> Result<BodyTree, Fault>
    ensures { MatchResult result (λ body. (first_body statements.old ≡ Some body)
        × (statements.new ≡ after_block statements.old)) (λ e. e ≢ Fault.Memory → first_body statements.old ≡ None) }
{
    let body = body_parts(alloc, class, statements, notes, watch)?;
    labels_agree(alloc, body.rows.as_slice(), body.lines.as_slice())?;
    notes.labels.clear();
    Ok(body)
}

/// A body, up to its `.end method`, whether its labels agree or not.
#[tactic(auto, using(crate::proofs::BodyLemmas::bodies))]
fn body_parts<P: Watch>(
    alloc: Global,
    class: ClassFlags,
    statements: &mut Statements<'_>,
    notes: &mut Notes,
    watch: &mut P,
) -> Result<BodyTree, Fault>
    ensures { MatchResult result (λ body. (first_parts statements.old ≡ Some body)
        × (statements.new ≡ after_block statements.old)) (λ e. e ≢ Fault.Memory → first_parts statements.old ≡ None) }
{
    let mut stack: Option<u16> = None;
    let mut locals: Option<u16> = None;
    let mut rows = Vec::new(alloc);
    let mut lines = Vec::new(alloc);
    let mut open: Option<OpenSwitch> = None;
    'rows: while let Some(statement) = next_of(statements)? {
        let number = statements.line();
        watch.reached(number, notes.lines_after(number));
        match noted_part(
            alloc,
            class,
            given_of(stack, locals),
            open.take(),
            statement,
            notes,
            number,
        )? {
            Part::End => return whole_body(stack, locals, rows, lines),
            Part::StackLimit(n) => {
                if stack.is_some() {
                    return Err(Fault::Statement);
                }
                stack = Some(n);
            }
            Part::LocalsLimit(n) => {
                if locals.is_some() {
                    return Err(Fault::Statement);
                }
                locals = Some(n);
            }
            Part::Row(row) => rows.push(row)?,
            Part::Line(line) => lines.push(line)?,
            Part::Open(switch) => open = Some(switch),
        }
    }
    Err(Fault::End)
}

/// What a statement of a body says, in a class with these flags, where a switch may be open; the labels on its line are
/// noted, and its names are shared.
fn noted_part(
    alloc: Global,
    class: ClassFlags,
    given: Given,
    current: Option<OpenSwitch>,
    statement: Statement<'_>,
    notes: &mut Notes,
    line: usize,
) -> Result<Part, Fault>
    ensures { MatchResult result (λ part. Says (opened current)
        (Some (statement.entry.first.now ∷ statement.entry.operands)) part) (λ e. e ≢ Fault.Memory
        → SaysNothing (opened current) (Some (statement.entry.first.now ∷ statement.entry.operands))) }
{
    let in_switch = current.is_some();
    let operands = statement.operands.again();
    match part_of(alloc, class, given, current, statement) {
        Ok(part) => {
            let part = notes.names.shared_part(part);
            notes.labels.note(&part, line)?;
            Ok(part)
        }
        Err(fault) => {
            if in_switch && fault == Fault::Range {
                notes.labels.note_pair(alloc, operands, line)?;
            }
            Err(fault)
        }
    }
}

fn given_of(stack: Option<u16>, locals: Option<u16>) -> Given {
    Given {
        stack: stack.is_some(),
        locals: locals.is_some(),
    }
}

/// A body of which all statements were read.
fn whole_body(
    stack: Option<u16>,
    locals: Option<u16>,
    rows: Vec<CatchRow>,
    lines: Vec<TextLine>,
) -> Result<BodyTree, Fault>
    ensures { MatchResult result (λ body. body_with (option_to_list stack)
        (option_to_list locals) rows.items lines.items
        ≡ Some body) (λ _. body_with (option_to_list stack) (option_to_list locals) rows.items lines.items ≡ None) }
{
    match (stack, locals) {
        (Some(max_stack), Some(max_locals)) => Ok(BodyTree {
            max_stack,
            max_locals,
            rows,
            lines,
        }),
        _ => Err(Fault::Limit),
    }
}
