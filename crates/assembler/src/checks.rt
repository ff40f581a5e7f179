//! Tests of a method's switches and branches.
ghost use Rattle.std.specs.Prelude.{◌≡◌, ◌+ℤ◌, ◌-ℤ◌, ℕ, ℤ, pos, List, map, int_le};
ghost use Rattle.std.specs.List.{list_all};
ghost use Rattle.model.specs.Bytecode.Operands.{table_high};
ghost use Rattle.model.specs.Texts.Assembling.{switch_agrees, rise_from, keys_rise, branch_reaches, reaches};
ghost use Rattle.model.specs.Texts.Labels.{with_targets};
ghost use Rattle.model.specs.Texts.Widths.{widened};
ghost use Rattle.assembler.specs.Checks.{line_agrees};

use model::instructions::{Instruction, TableSwitch, Test, Width};
use model::listings::Placed;
use model::names::Name;
use model::trees::{TextLine, Written};

/// Whether each table among lines ends at the greatest int at most, and the keys of each lookup rise.
pub fn lines_agree(lines: &[TextLine]) -> bool
    ensures { (narrow : List ℤ) (f : List ℕ → ℕ) → result ≡ list_all (line_agrees narrow f) lines.now }
{
    for line in lines {
        match line {
            TextLine::Label(_) => {}
            TextLine::Instruction(instruction) => {
                if !switch_agrees(instruction) {
                    return false;
                }
            }
        }
    }
    true
}

fn switch_agrees(instruction: &Written) -> bool
    ensures { (narrow : List ℤ) (f : List ℕ → ℕ)
        → result ≡ switch_agrees (with_targets f (widened narrow instruction.now)) }
{
    match instruction {
        Instruction::TableSwitch(table) => table_ends(table),
        Instruction::LookupSwitch(lookup) => keys_rise(lookup.pairs.as_slice()),
        _ => true,
    }
}

/// Whether a table ends at the greatest int at most.
fn table_ends(table: &TableSwitch<Name>) -> bool
    ensures { (f : List ℕ → ℕ) → result ≡ int_le
        (table_high (record { low = table.now.low; targets = map f table.now.targets; default = f table.now.default }))
        (pos 2147483647) }
{
    ends(table.low, table.targets.len())
}

/// Whether so many ints from one up end at the greatest at most.
fn ends(low: i32, targets: usize) -> bool
    ensures { result ≡ int_le (low +ℤ pos targets -ℤ pos 1) (pos 2147483647) }
{
    targets <= 4_294_967_296 && i64::from(low) + targets as i64 <= 2_147_483_648
}

/// Whether keys rise, each above the one before it.
fn keys_rise(pairs: &[(i32, Name)]) -> bool
    ensures { (f : List ℕ → ℕ) → result ≡ keys_rise (map (λ p. (p.0, f p.1)) pairs.now) }
{
    match pairs {
        [] => true,
        [(first, _), rest @ ..] => rise_from(*first, rest),
    }
}

fn rise_from(first: i32, pairs: &[(i32, Name)]) -> bool
    ensures { (f : List ℕ → ℕ) → result ≡ rise_from first (map (λ p. (p.0, f p.1)) pairs.now) }
{
    let mut before = first;
    for (key, _) in pairs {
        if *key <= before {
            return false;
        }
        before = *key;
    }
    true
}

/// Whether each branch has bytes for its offset.
pub fn all_reach(instructions: &[Placed]) -> bool
    ensures { result ≡ list_all (λ p. reaches p.pc p.instruction) instructions.now }
{
    instructions.iter().all(|placed| reaches(placed))
}

fn reaches(placed: &Placed) -> bool
    ensures { result ≡ reaches placed.now.pc placed.now.instruction }
{
    match &placed.instruction {
        Instruction::Branch(test, target) => branch_reaches(
            *test,
            i64::from(*target) - i64::from(placed.pc),
        ),
        _ => true,
    }
}

fn branch_reaches(test: Test, way: i64) -> bool
    ensures { result ≡ branch_reaches test way }
{
    match test {
        Test::Always(Width::Wide) => true,
        _ => way >= -32_768 && way <= 32_767,
    }
}
