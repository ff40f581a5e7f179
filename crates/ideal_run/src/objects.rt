//! `new`, `checkcast` and `instanceof` (JVMS 6.5).
ghost use Rattle.std.specs.Prelude.{◌≡◌, IfOk, map};
ghost use Rattle.model.specs.Table.Objects.{new_instance, reported_if, class_operated};
ghost use Rattle.model.specs.Views.{contents_in};
ghost use Rattle.model.specs.Words.{unwritten};
ghost use Rattle.model.specs.declared.instructions.ClassOperation.TheVariants.{CheckCast, InstanceOf};
ghost use Rattle.ideal_run.specs.Completed.{reported, plainly};

use crate::completions::{Completion, Site, raises};
use crate::operands::ref_on;
use crate::throws::is_instance;
use crate::words::default_in;
use model::instructions::ClassOperation;
use model::listings::Field;
use model::names::Name;
use model::turns::Exception;
use model::values::Value;
use model::views::{ContentsView, FieldView};
use resolve::classes::Classes;
use resolve::found::Found;
use std::alloc::{AllocError, Global};

/// A field before it is written. `AllocError` where memory runs out.
fn unwritten(found: &Found<'_, Field>) -> Result<FieldView, AllocError>
    ensures { IfOk result (λ field. field ≡ unwritten found.now) }
{
    let class = found.class;
    let member = found.member;
    Ok(FieldView {
        class: class.name.share()?,
        name: member.name.share()?,
        descriptor: member.descriptor.share()?,
        value: default_in(member.descriptor.as_bytes()),
    })
}

/// Fields before they are written.
fn all_unwritten(alloc: Global, layout: &[Found<'_, Field>]) -> Result<Vec<FieldView>, AllocError>
    ensures { IfOk result (λ fields. fields.items ≡ map unwritten layout.now) }
{
    let mut fields = Vec::new(alloc);
    for found in layout {
        fields.push(unwritten(found)?)?;
    }
    Ok(fields)
}

/// An object of a class as it is made: its fields in the layout's order, none written yet. `AllocError` where memory
/// runs out.
fn new_instance(
    alloc: Global,
    classes: &Classes<'_>,
    class: &Name,
) -> Result<ContentsView, AllocError>
    ensures { IfOk result (λ contents. contents_in contents ≡ new_instance classes.now class.now) }
{
    let layout = classes.layout(alloc, class.as_bytes())?;
    Ok(ContentsView::Instance {
        class: class.share()?,
        fields: all_unwritten(alloc, &layout)?,
    })
}

/// The reference is pushed again.
fn cast(site: &Site<'_, '_>, name: &Name) -> Result<Completion, AllocError>
    ensures { IfOk result (λ c. reported site.now.world site.now.thread c
        ≡ plainly (class_operated site.now CheckCast name.now)) }
{
    match ref_on(site.stack()) {
        Err(fault) => Ok(Completion::Faults(fault)),
        Ok(None) => site.pushes(1, Value::Ref(None)),
        Ok(Some(birth)) => {
            if is_instance(site, name.as_bytes(), birth)? {
                site.pushes(1, Value::Ref(Some(birth)))
            } else {
                Ok(raises(Exception::ClassCast))
            }
        }
    }
}

fn reported_if(site: &Site<'_, '_>, is: bool) -> Result<Completion, AllocError>
    ensures { IfOk result (λ c. reported site.now.world site.now.thread c ≡ plainly (reported_if site.now is)) }
{
    if is {
        site.pushes(1, Value::Int(1))
    } else {
        site.pushes(1, Value::Int(0))
    }
}

/// Null is no instance.
fn tested(site: &Site<'_, '_>, name: &Name) -> Result<Completion, AllocError>
    ensures { IfOk result (λ c. reported site.now.world site.now.thread c
        ≡ plainly (class_operated site.now InstanceOf name.now)) }
{
    match ref_on(site.stack()) {
        Err(fault) => Ok(Completion::Faults(fault)),
        Ok(None) => reported_if(site, false),
        Ok(Some(birth)) => reported_if(site, is_instance(site, name.as_bytes(), birth)?),
    }
}

/// An object is made, cast or tested. `AllocError` where memory runs out.
pub fn class_operated(
    site: &Site<'_, '_>,
    operation: ClassOperation,
    name: &Name,
) -> Result<Completion, AllocError>
    ensures { IfOk result (λ c. reported site.now.world site.now.thread c
        ≡ plainly (class_operated site.now operation name.now)) }
{
    match operation {
        ClassOperation::New => {
            let contents = new_instance(site.alloc(), site.program().classes(), name)?;
            Ok(Completion::Creates(site.next(), 0, contents))
        }
        ClassOperation::CheckCast => cast(site, name),
        ClassOperation::InstanceOf => tested(site, name),
    }
}
