//! `athrow` (JVMS 6.5).
ghost use Rattle.std.specs.Prelude.{◌≡◌, IfOk};
ghost use Rattle.model.specs.Table.Objects.{is_instance};
ghost use Rattle.model.specs.Table.Throws.{threw};
ghost use Rattle.ideal_run.specs.Completed.{reported, plainly};

use crate::completions::{Completion, Site, raises};
use crate::operands::ref_on;
use model::turns::{Exception, Fault};
use std::alloc::AllocError;

/// Whether the object of a birth is of a subclass of a type. `AllocError` where memory runs out.
pub fn is_instance(site: &Site<'_, '_>, name: &[u8], birth: u32) -> Result<bool, AllocError>
    ensures { IfOk result (λ is. is ≡ is_instance site.now name.now birth) }
{
    let class = site.world().class_at(site.alloc(), birth)?;
    Ok(site.program().classes().is_subtype(&class, name))
}

/// `athrow`: a null, then F6. `AllocError` where memory runs out.
pub fn threw(site: &Site<'_, '_>) -> Result<Completion, AllocError>
    ensures { IfOk result (λ c. reported site.now.world site.now.thread c ≡ plainly (threw site.now)) }
{
    match ref_on(site.stack()) {
        Err(fault) => Ok(Completion::Faults(fault)),
        Ok(None) => Ok(raises(Exception::NullPointer)),
        Ok(Some(birth)) => {
            if is_instance(site, b"java/lang/Throwable", birth)? {
                Ok(Completion::Throws(birth))
            } else {
                Ok(Completion::Faults(Fault::WrongClass))
            }
        }
    }
}
