//! The operands after a mnemonic or a directive.
ghost use Rattle.std.specs.Prelude.{◌≡◌, ◌≢◌, ◌≤ℤ◌, None, Some, IfOk, MatchResult};
ghost use Rattle.model.specs.Texts.Instructions.{alone};
ghost use Rattle.model.specs.Texts.Operands.{only, both, only_number, only_natural};

use crate::errors::Fault;
use crate::written_numbers::{integer, natural};
use jasmin_words::words::Words;
use model::trees::Written;

/// An instruction that has no operand.
pub fn alone(instruction: Written, mut operands: Words<'_>) -> Result<Written, Fault>
    ensures { MatchResult result (λ i. alone instruction operands.entry
        ≡ Some i) (λ _. alone instruction operands.entry ≡ None) }
{
    match operands.next_word() {
        None => Ok(instruction),
        Some(_) => Err(Fault::Operand),
    }
}

/// The one operand.
pub fn only<'a>(mut operands: Words<'a>) -> Result<&'a [u8], Fault>
    ensures { MatchResult result (λ word. only operands.entry ≡ Some word.now) (λ _. only operands.entry ≡ None) }
{
    let word = operands.next_word().ok_or(Fault::Operand)?;
    match operands.next_word() {
        None => Ok(word),
        Some(_) => Err(Fault::Operand),
    }
}

/// The two operands.
pub fn both<'a>(mut operands: Words<'a>) -> Result<(&'a [u8], &'a [u8]), Fault>
    ensures { MatchResult result (λ words. both operands.entry
        ≡ Some (words.0.now, words.1.now)) (λ _. both operands.entry ≡ None) }
{
    let first = operands.next_word().ok_or(Fault::Operand)?;
    let second = operands.next_word().ok_or(Fault::Operand)?;
    match operands.next_word() {
        None => Ok((first, second)),
        Some(_) => Err(Fault::Operand),
    }
}

/// The one operand, a number from `low` to `high`.
pub fn only_number(operands: Words<'_>, low: i64, high: i64) -> Result<i64, Fault>
    ensures number { MatchResult result (λ z. only_number low high operands.entry
        ≡ Some z) (λ _. only_number low high operands.entry ≡ None) }
    ensures bounds { IfOk result (λ z. (low ≤ℤ z) × (z ≤ℤ high)) }
{
    integer(only(operands)?, low, high)
}

/// The one operand, a number without a sign, up to `high`.
pub fn only_natural(operands: Words<'_>, high: u16) -> Result<u16, Fault>
    ensures { MatchResult result (λ n. only_natural high operands.entry
        ≡ Some n) (λ _. only_natural high operands.entry ≡ None) }
{
    natural(only(operands)?, high)
}
