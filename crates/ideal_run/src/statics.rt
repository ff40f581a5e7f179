//! `getstatic` and `putstatic` (JVMS 6.5).
ghost use Rattle.std.specs.Prelude.{◌≡◌, IfOk, Ok};
ghost use Rattle.model.specs.Table.Statics.{slot_of, static_got, static_put, static_accessed};
ghost use Rattle.ideal_run.specs.Completed.{reported, plainly};

use crate::completions::{Change, Completion, Site};
use crate::operands::value_on;
use crate::words::{field_index, kept};
use model::descriptors::descriptor_kind;
use model::instructions::Access;
use model::names::Member;
use model::turns::Fault;
use model::values::Value;
use std::alloc::AllocError;

/// The slot of the field to which a reference is resolved.
fn slot_of(site: &Site<'_, '_>, member: &Member) -> Option<usize>
    ensures { result ≡ slot_of site.now member.now }
{
    let field = site.program().classes().field(member)?;
    field_index(site.world().statics(), &field)
}

#[tactic(auto, using(crate::proofs::PlainLemmas::plain))]
fn static_got(site: &Site<'_, '_>, slot: Option<usize>) -> Result<Completion, AllocError>
    ensures { IfOk result (λ c. reported site.now.world site.now.thread c ≡ plainly (static_got site.now slot)) }
{
    match slot {
        None => Ok(Completion::Faults(Fault::WrongClass)),
        Some(slot) => site.pushes_if_room(0, site.world().slot_at(slot)),
    }
}

fn static_put(
    site: &Site<'_, '_>,
    descriptor: &[u8],
    value: Value,
    slot: Option<usize>,
) -> Result<Completion, AllocError>
    ensures { IfOk result (λ c. reported site.now.world site.now.thread c
        ≡ plainly (static_put site.now descriptor.now (Ok value) slot)) }
{
    match slot {
        None => Ok(Completion::Faults(Fault::WrongClass)),
        Some(slot) => site.pops(1, Change::Slot(slot, kept(descriptor, value))),
    }
}

/// A static field is read or written. `AllocError` where memory runs out.
pub fn static_accessed(
    site: &Site<'_, '_>,
    access: Access,
    member: &Member,
) -> Result<Completion, AllocError>
    ensures { IfOk result (λ c. reported site.now.world site.now.thread c
        ≡ plainly (static_accessed site.now access member.now)) }
{
    let slot = slot_of(site, member);
    match access {
        Access::Get => static_got(site, slot),
        Access::Put => {
            let descriptor = member.descriptor.as_bytes();
            match value_on(descriptor_kind(descriptor), site.stack()) {
                Err(fault) => Ok(Completion::Faults(fault)),
                Ok(value) => static_put(site, descriptor, value, slot),
            }
        }
    }
}
