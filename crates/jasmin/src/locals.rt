//! Locals after a mnemonic.
ghost use Rattle.std.specs.Prelude.{◌≡◌, None, Some, MatchResult};
ghost use Rattle.model.specs.Texts.Locals.{local_form, increment_form, increment_of, local_by};

use crate::errors::Fault;
use crate::operands::{both, only_natural};
use crate::written_numbers::{integer, natural};
use jasmin_words::words::Words;
use model::instructions::{Increment, Local, LocalAccess, Width};
use model::mnemonics::LocalMnemonic;

/// What is done to a local, by the mnemonic and its operands. `Width::Wide` asks for the wide form.
pub fn local_by(
    width: Width,
    mnemonic: LocalMnemonic,
    operands: Words<'_>,
) -> Result<LocalAccess, Fault>
    ensures { MatchResult result (λ access. local_by width mnemonic operands.entry
        ≡ Some access) (λ _. local_by width mnemonic operands.entry ≡ None) }
{
    match mnemonic {
        LocalMnemonic::Load(kind) => {
            let index = only_natural(operands, 65_535)?;
            Ok(LocalAccess::Load(kind, local_form(width, index)))
        }
        LocalMnemonic::Store(kind) => {
            let index = only_natural(operands, 65_535)?;
            Ok(LocalAccess::Store(kind, local_form(width, index)))
        }
        LocalMnemonic::Increment => {
            let (index, by) = both(operands)?;
            Ok(LocalAccess::Increment(increment(width, index, by)?))
        }
    }
}

/// A local in the wide form where that is asked for, or where its index asks for it.
fn local_form(width: Width, index: u16) -> Local
    ensures { result ≡ local_form width index }
{
    match width {
        Width::Narrow if index <= 255 => Local::Byte(index as u8),
        Width::Narrow | Width::Wide => Local::Wide(index),
    }
}

/// A local and what is added to it. Of the faults of both the lower one is reported.
fn increment(width: Width, index: &[u8], by: &[u8]) -> Result<Increment, Fault>
    ensures { MatchResult result (λ i. increment_of width (index.now, by.now)
        ≡ Some i) (λ _. increment_of width (index.now, by.now) ≡ None) }
{
    match (natural(index, 65_535), integer(by, -0x8000, 0x7fff)) {
        (Ok(index), Ok(by)) => Ok(increment_form(width, index, by as i16)),
        (Ok(_), Err(fault)) | (Err(fault), Ok(_)) => Err(fault),
        (Err(first), Err(second)) => Err(first.or_lower(second)),
    }
}

/// A local and what is added to it, in the wide form where that is asked for, or where one of both asks for it.
fn increment_form(width: Width, index: u16, by: i16) -> Increment
    ensures { result ≡ increment_form width index by }
{
    match width {
        Width::Narrow if index <= 255 && -128 <= by && by <= 127 => {
            Increment::Byte(index as u8, by as i8)
        }
        Width::Narrow | Width::Wide => Increment::Wide(index, by),
    }
}
