//! Names that a text has many times, whose bytes are kept once.
ghost use Rattle.std.specs.Prelude.{◌≡◌};
ghost use Rattle.std.specs.Option.{IfSome};

use crate::bodies::Part;
use model::instructions::Instruction;
use model::names::{Member, Name};
use model::trees::{TextLine, Written};
use std::alloc::{AllocError, Global};

/// How many names are kept.
const PLACES: usize = 256;

/// Names that were read, for later ones of the same bytes to share these: at each place the last one of those whose
/// bytes lead there.
#[derive(Drop)]
pub struct SharedNames {
    places: Vec<Option<Name>>,
}

impl SharedNames {
    /// No names. `AllocError` where memory runs out.
    pub fn new(alloc: Global) -> Result<SharedNames, AllocError> {
        let mut places = Vec::with_capacity(alloc, PLACES)?;
        for _ in 0..PLACES {
            places.push(None)?;
        }
        Ok(SharedNames { places })
    }

    /// The same name, with the bytes of a kept one where that has the same; it is kept from then on.
    pub fn shared(&mut self, name: Name) -> Name
        ensures { result ≡ name }
    {
        match self.places.get_mut(place_of(name.as_bytes())) {
            Some(place) => shared_at(place, name),
            None => name,
        }
    }

    /// What a line of a body says, with shared names in a label and in an instruction that is no switch.
    pub fn shared_part(&mut self, part: Part) -> Part
        ensures { result ≡ part }
    {
        match part {
            Part::Line(TextLine::Label(name)) => Part::Line(TextLine::Label(self.shared(name))),
            Part::Line(TextLine::Instruction(instruction)) => {
                let instruction = self.shared_instruction(instruction);
                Part::Line(TextLine::Instruction(instruction))
            }
            other => other,
        }
    }

    fn shared_instruction(&mut self, instruction: Written) -> Written
        ensures { result ≡ instruction }
    {
        match instruction {
            Instruction::Branch(test, target) => Instruction::Branch(test, self.shared(target)),
            Instruction::Static(access, member) => {
                Instruction::Static(access, self.shared_member(member))
            }
            Instruction::Field(access, member) => {
                Instruction::Field(access, self.shared_member(member))
            }
            Instruction::Class(operation, name) => {
                Instruction::Class(operation, self.shared(name))
            }
            Instruction::Invoke(how, member) => {
                Instruction::Invoke(how, self.shared_member(member))
            }
            other => other,
        }
    }

    fn shared_member(&mut self, member: Member) -> Member
        ensures { result ≡ member }
    {
        let Member {
            class,
            name,
            descriptor,
        } = member;
        Member {
            class: self.shared(class),
            name: self.shared(name),
            descriptor: self.shared(descriptor),
        }
    }
}

/// The name, with the bytes of that at a place where these are the same; else it stands there from then on.
fn shared_at(place: &mut Option<Name>, name: Name) -> Name
    ensures { result ≡ name }
{
    if let Some(shared) = kept(place, name.as_bytes()) {
        return shared;
    }
    if let Ok(share) = name.share() {
        *place = Some(share);
    }
    name
}

/// A share of the name at a place, if that has these bytes.
fn kept(place: &Option<Name>, bytes: &[u8]) -> Option<Name>
    ensures { IfSome result (λ name. name ≡ bytes.now) }
{
    let Some(name) = place else {
        return None;
    };
    if name.as_bytes() != bytes {
        return None;
    }
    match name.share() {
        Ok(share) => Some(share),
        Err(_) => None,
    }
}

/// The place to which bytes lead.
fn place_of(bytes: &[u8]) -> usize {
    let mut sum = 0usize;
    for byte in bytes {
        sum = sum.wrapping_mul(31).wrapping_add(usize::from(*byte));
    }
    sum % PLACES
}
