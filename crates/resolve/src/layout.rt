//! The fields of objects (JVMS 2.4, 5.4.3).
ghost use Rattle.std.specs.Prelude.{◌≡◌, ◌++◌, reverse, IfOk, OnOk};
ghost use Rattle.std.specs.List.{flat_map};
ghost use Rattle.model.specs.Classes.Layout.{layout};
ghost use Rattle.model.specs.Classes.Search.{superclasses};
ghost use Rattle.resolve.specs.Layouts.{fields_in, fields_last_first};

use crate::classes::Classes;
use crate::found::Found;
use bitflags::Flags;
use model::flags::FieldFlags;
use model::listings::{Field, Listing};
use std::alloc::{AllocError, Global};

/// Adds those of a class's fields that its objects have, the last one first.
fn add_declared<'c>(
    fields: &mut Vec<Found<'c, Field>>,
    class: &'c Listing,
    declared: &'c [Field],
) -> Result<(), AllocError>
    ensures { OnOk result (fields.new.items ≡ fields.old.items ++ reverse (fields_in class.now.name declared.now)) }
{
    for n in (0..declared.len()).rev() {
        let member = &declared[n];
        if !member.flags.contains(FieldFlags::STATIC) {
            fields.push(Found { class, member })?;
        }
    }
    Ok(())
}

impl<'a> Classes<'a> {
    /// Adds the fields of an object of the class of a name, the last one first.
    fn add_fields<'c>(
        &'c self,
        fields: &mut Vec<Found<'c, Field>>,
        name: &[u8],
    ) -> Result<(), AllocError>
        ensures { OnOk result (fields.new.items
            ≡ fields.old.items ++ flat_map (fields_last_first self.now) (superclasses self.now name.now)) }
    {
        let mut next = name;
        for _ in 0..self.enough_steps() {
            match self.class_named(next) {
                Some(class) => {
                    add_declared(fields, class, &class.fields)?;
                    next = class.superclass.as_bytes();
                }
                None => return Ok(()),
            }
        }
        Ok(())
    }

    /// The fields of an object of the class of a name, in the order of its words: the superclass's first, each class's
    /// in the order of its file. `AllocError` where memory runs out.
    #[tactic(auto, using(crate::proofs::LayoutLemmas::turned))]
    pub fn layout(&self, alloc: Global, name: &[u8]) -> Result<Vec<Found<'_, Field>>, AllocError>
        ensures { IfOk result (λ fields. fields.items ≡ layout self.now name.now) }
    {
        let mut fields = Vec::new(alloc);
        self.add_fields(&mut fields, name)?;
        fields.reverse();
        Ok(fields)
    }
}
