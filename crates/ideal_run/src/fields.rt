//! `getfield` and `putfield` (JVMS 6.5).
ghost use Rattle.std.specs.Prelude.{◌≡◌, IfOk};
ghost use Rattle.model.specs.Table.Fields.{word_place, field_place, word_got, word_put, field_accessed};
ghost use Rattle.model.specs.declared.instructions.Access.TheVariants.{Get, Put};
ghost use Rattle.ideal_run.specs.Completed.{reported, plainly};

use crate::completions::{Change, Completion, Site, raises};
use crate::frames::below;
use crate::operands::{ref_on, value_on};
use crate::words::{field_index, kept};
use model::descriptors::descriptor_kind;
use model::instructions::Access;
use model::names::Member;
use model::turns::{Exception, Fault};
use model::values::Value;
use std::alloc::AllocError;

/// Which word of an object a reference names.
fn word_place(site: &Site<'_, '_>, member: &Member, birth: u32) -> Option<usize>
    ensures { result ≡ word_place site.now member.now birth }
{
    let field = site.program().classes().field(member)?;
    field_index(site.world().fields_at(birth), &field)
}

/// The same; `None` where the object is of no subclass of the class named. `AllocError` where memory runs out.
fn field_place(
    site: &Site<'_, '_>,
    member: &Member,
    birth: u32,
) -> Result<Option<usize>, AllocError>
    ensures { IfOk result (λ place. place ≡ field_place site.now member.now birth) }
{
    let class = site.world().class_at(site.alloc(), birth)?;
    let classes = site.program().classes();
    if classes.is_subtype(&class, member.class.as_bytes()) {
        Ok(word_place(site, member, birth))
    } else {
        Ok(None)
    }
}

#[tactic(auto, using(crate::proofs::PlainLemmas::plain))]
fn word_got(site: &Site<'_, '_>, member: &Member, birth: u32) -> Result<Completion, AllocError>
    ensures { IfOk result (λ c. reported site.now.world site.now.thread c
        ≡ plainly (word_got site.now birth (field_place site.now member.now birth))) }
{
    match field_place(site, member, birth)? {
        None => Ok(Completion::Faults(Fault::WrongClass)),
        Some(place) => site.pushes_if_room(1, site.world().word_at(birth, place)),
    }
}

fn word_put(
    site: &Site<'_, '_>,
    member: &Member,
    value: Value,
    birth: u32,
) -> Result<Completion, AllocError>
    ensures { IfOk result (λ c. reported site.now.world site.now.thread c
        ≡ plainly (word_put site.now member.now.descriptor value birth (field_place site.now member.now birth))) }
{
    match field_place(site, member, birth)? {
        None => Ok(Completion::Faults(Fault::WrongClass)),
        Some(place) => {
            let value = kept(member.descriptor.as_bytes(), value);
            site.pops(2, Change::Word(birth, place, value))
        }
    }
}

/// A field is read: a null, then F6, then F2.
fn field_got(site: &Site<'_, '_>, member: &Member) -> Result<Completion, AllocError>
    ensures { IfOk result (λ c. reported site.now.world site.now.thread c
        ≡ plainly (field_accessed site.now Get member.now)) }
{
    match ref_on(site.stack()) {
        Err(fault) => Ok(Completion::Faults(fault)),
        Ok(None) => Ok(raises(Exception::NullPointer)),
        Ok(Some(birth)) => word_got(site, member, birth),
    }
}

/// A field is written: the value lies above the object.
fn field_put(site: &Site<'_, '_>, member: &Member) -> Result<Completion, AllocError>
    ensures { IfOk result (λ c. reported site.now.world site.now.thread c
        ≡ plainly (field_accessed site.now Put member.now)) }
{
    let kind = descriptor_kind(member.descriptor.as_bytes());
    match value_on(kind, site.stack()) {
        Err(fault) => Ok(Completion::Faults(fault)),
        Ok(value) => match ref_on(below(site.stack(), 1)) {
            Err(fault) => Ok(Completion::Faults(fault)),
            Ok(None) => Ok(raises(Exception::NullPointer)),
            Ok(Some(birth)) => word_put(site, member, value, birth),
        },
    }
}

/// A field of an object is read or written. `AllocError` where memory runs out.
pub fn field_accessed(
    site: &Site<'_, '_>,
    access: Access,
    member: &Member,
) -> Result<Completion, AllocError>
    ensures { IfOk result (λ c. reported site.now.world site.now.thread c
        ≡ plainly (field_accessed site.now access member.now)) }
{
    match access {
        Access::Get => field_got(site, member),
        Access::Put => field_put(site, member),
    }
}
