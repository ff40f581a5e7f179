//! What calls that select a method by the object's class take, by their selectors.
ghost use Rattle.std.specs.Prelude.{◌≡◌, map, slice_get, IfOk};
ghost use Rattle.std.specs.Option.{option_copied};
ghost use Rattle.model.specs.Signatures.{argument_kinds};
ghost use Rattle.linking.specs.SelectorArguments.{lists, selector_arguments};

use crate::selectors::Selectors;
use model::descriptors::argument_kinds;
use model::values::Kind;
use resolve::classes::Classes;
use resolve::keys::NameKey;
use std::alloc::{AllocError, Global};
use std::marker::Model;

/// The kinds of the arguments of each selector, in order. A contract sees a list for each.
#[derive(Drop)]
pub struct SelectorArguments {
    kinds: Vec<Vec<Kind>>,
}

impl Model for SelectorArguments {
    ghost use Rattle.std.specs.Prelude.{List};
    ghost use Rattle.model.specs.declared.values.Kind.{Kind as KindOfValue};
    ghost use Rattle.linking.specs.SelectorArguments.{lists};

    ghost Value = { List (List KindOfValue) };

    ghost view = { λ a. lists a.kinds.items };
}

/// The kinds of the arguments that some descriptors take. `AllocError` where memory runs out, here and below.
fn kinds_of(
    alloc: Global,
    signatures: &[(NameKey<'_>, NameKey<'_>)],
) -> Result<Vec<Vec<Kind>>, AllocError>
    ensures { IfOk result (λ kinds. lists kinds.items ≡ map (λ s. argument_kinds s.1.bytes.now) signatures.now) }
{
    let mut kinds = Vec::new(alloc);
    for signature in signatures {
        kinds.push(argument_kinds(alloc, signature.1.bytes)?)?;
    }
    Ok(kinds)
}

impl SelectorArguments {
    /// The arguments of a program's selectors.
    pub fn new(alloc: Global, classes: &Classes<'_>) -> Result<SelectorArguments, AllocError>
        ensures { IfOk result (λ arguments. arguments ≡ selector_arguments classes.now) }
    {
        let selectors = Selectors::new(alloc, classes.program())?;
        let kinds = kinds_of(alloc, selectors.as_slice())?;
        Ok(SelectorArguments { kinds })
    }

    /// The kinds of the arguments of a selector. `None` where there is no such selector.
    pub fn of(&self, selector: u32) -> Option<&[Kind]>
        ensures { option_copied result ≡ slice_get self.now selector }
    {
        match self.kinds.get(selector as usize) {
            Some(kinds) => Some(kinds.as_slice()),
            None => None,
        }
    }
}
