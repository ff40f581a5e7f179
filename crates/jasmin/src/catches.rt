//! The rows of a method's exception table.
ghost use Rattle.std.specs.Prelude.{◌≡◌, ◌≢◌, [], ◌∷◌, None, Some, MatchResult, MatchOption, ◌<◌, length};
ghost use Rattle.std.specs.Prelude.{◌&&◌, codes};
ghost use Rattle.std.specs.Option.{option_map};
ghost use Rattle.std.specs.Str.{bytes_eq};
ghost use Rattle.model.specs.Texts.Methods.{catch_of, catch_class, row_with};
ghost use Rattle.model.specs.Texts.Names.{is_part};

use crate::errors::Fault;
use crate::instructions::class_named;
use jasmin_words::words::Words;
use model::good_names::is_part;
use model::names::Name;
use model::trees::CatchRow;
use std::alloc::Global;

/// The words after a `.catch`.
#[derive(Clone, Copy)]
struct CatchWords<'a> {
    class: &'a [u8],
    from: &'a [u8],
    start: &'a [u8],
    to: &'a [u8],
    end: &'a [u8],
    using: &'a [u8],
    handler: &'a [u8],
}

/// A row: a class or `all`, and `from`, `to` and `using` with a label each.
pub fn catch_row(alloc: Global, operands: Words<'_>) -> Result<CatchRow, Fault>
    ensures { MatchResult result (λ row. catch_of operands.entry ≡ Some row) (λ e. e ≢ Fault.Memory
        → catch_of operands.entry ≡ None) }
{
    match catch_words(operands) {
        Some(words) if has_form(words) => row_of(alloc, words),
        _ => Err(Fault::Operand),
    }
}

/// The row that words of its form spell.
fn row_of(alloc: Global, words: CatchWords<'_>) -> Result<CatchRow, Fault>
    ensures { MatchResult result (λ row. option_map
        (row_with words.entry.start.now words.entry.end.now words.entry.handler.now)
        (catch_class words.entry.class.now) ≡ Some row) (λ e. e ≢ Fault.Memory
        → option_map (row_with words.entry.start.now words.entry.end.now words.entry.handler.now)
        (catch_class words.entry.class.now) ≡ None) }
{
    let class = catch_class(alloc, words.class)?;
    Ok(CatchRow {
        class,
        start: Name::copy_of(alloc, words.start)?,
        end: Name::copy_of(alloc, words.end)?,
        handler: Name::copy_of(alloc, words.handler)?,
    })
}

/// The next two words.
fn next_two<'a>(operands: &mut Words<'a>) -> Option<(&'a [u8], &'a [u8])>
    ensures { MatchOption result (length operands.old < 2) (λ words. operands.old
        ≡ words.0.now ∷ words.1.now ∷ operands.new) }
{
    let first = operands.next_word()?;
    let second = operands.next_word()?;
    Some((first, second))
}

/// The seven words of a row.
#[tactic(auto, using(crate::proofs::CatchLemmas::not_seven))]
fn catch_words<'a>(mut operands: Words<'a>) -> Option<CatchWords<'a>>
    ensures { MatchOption result (catch_of operands.entry ≡ None) (λ w. operands.entry
        ≡ w.class.now ∷ w.from.now ∷ w.start.now ∷ w.to.now ∷ w.end.now ∷ w.using.now ∷ w.handler.now ∷ []) }
{
    let class = operands.next_word()?;
    let (from, start) = next_two(&mut operands)?;
    let (to, end) = next_two(&mut operands)?;
    let (using, handler) = next_two(&mut operands)?;
    match operands.next_word() {
        None => Some(CatchWords {
            class,
            from,
            start,
            to,
            end,
            using,
            handler,
        }),
        Some(_) => None,
    }
}

/// Whether `from`, `to` and `using` stand where they should, each before a label.
fn has_form(words: CatchWords<'_>) -> bool
    ensures { result ≡ (bytes_eq words.entry.from.now (codes "from") && bytes_eq words.entry.to.now (codes "to")
        && bytes_eq words.entry.using.now (codes "using") && is_part words.entry.start.now
        && is_part words.entry.end.now && is_part words.entry.handler.now) }
{
    words.from == b"from".as_slice()
        && words.to == b"to".as_slice()
        && words.using == b"using".as_slice()
        && is_part(words.start)
        && is_part(words.end)
        && is_part(words.handler)
}

/// What a row takes: a class, or anything.
fn catch_class(alloc: Global, word: &[u8]) -> Result<Option<Name>, Fault>
    ensures { MatchResult result (λ class. catch_class word.now ≡ Some class) (λ e. e ≢ Fault.Memory
        → catch_class word.now ≡ None) }
{
    if word == b"all".as_slice() {
        return Ok(None);
    }
    Ok(Some(class_named(alloc, word)?))
}
