//! The numbers that `ldc` uses in a text, and those that go with it: the first 255 different ones.
ghost use Rattle.std.specs.Prelude.{◌≡◌, ◌∷◌, ◌++◌, ◌≤◌, ℤ, List, take, IfOk, OnOk, vec_len};
ghost use Rattle.model.specs.Texts.Widths.{is_among, different, used_before, used_in, used_in_body, used_in_methods};
ghost use Rattle.model.specs.Texts.Widths.{narrow_numbers};
ghost use Rattle.assembler.specs.Numbers.{numbers_with};

use model::instructions::{Constant, Instruction, Width};
use model::trees::{BodyTree, MethodTree, TextLine, Written};
use std::alloc::{AllocError, Global};

/// The numbers that `ldc` uses in the methods of a text, in their order.
pub fn used_in_methods(alloc: Global, methods: &[MethodTree]) -> Result<Vec<i32>, AllocError>
    ensures { IfOk result (λ used. used.items ≡ used_in_methods methods.now) }
{
    let mut used = Vec::new(alloc);
    for method in methods {
        add_body(&mut used, &method.body)?;
    }
    Ok(used)
}

/// Adds the numbers that `ldc` uses in a body.
fn add_body(used: &mut Vec<i32>, body: &Option<BodyTree>) -> Result<(), AllocError>
    ensures { OnOk result ((zs : List ℤ) → used.old.items ++ (used_in_body body.now ++ zs) ≡ used.new.items ++ zs) }
{
    match body {
        Some(body) => {
            let lines = &body.lines;
            add_lines(used, lines)
        }
        None => Ok(()),
    }
}

/// Adds the numbers that `ldc` uses in lines.
fn add_lines(used: &mut Vec<i32>, lines: &[TextLine]) -> Result<(), AllocError>
    ensures { OnOk result ((zs : List ℤ) → used.old.items ++ (used_in lines.now ++ zs) ≡ used.new.items ++ zs) }
{
    for line in lines {
        match line {
            TextLine::Label(_) => {}
            TextLine::Instruction(instruction) => add_instruction(used, instruction)?,
        }
    }
    Ok(())
}

/// Adds the number of an `ldc`.
fn add_instruction(used: &mut Vec<i32>, instruction: &Written) -> Result<(), AllocError>
    ensures { OnOk result ((xs zs : List ℤ)
        → used.old.items ++ (used_before instruction.now xs ++ zs) ≡ used.new.items ++ (xs ++ zs)) }
{
    match instruction {
        Instruction::Constant(Constant::Int(Width::Narrow, n)) => used.push(*n)?,
        _ => {}
    }
    Ok(())
}

/// The numbers that go with `ldc` in the methods of a text, in order of first use.
pub fn narrow_numbers(alloc: Global, methods: &[MethodTree]) -> Result<Vec<i32>, AllocError>
    ensures { IfOk result (λ numbers. numbers.items ≡ narrow_numbers methods.now) }
{
    let used = used_in_methods(alloc, methods)?;
    first_different(alloc, used.as_slice())
}

/// The first 255 different numbers.
fn first_different(alloc: Global, used: &[i32]) -> Result<Vec<i32>, AllocError>
    ensures { IfOk result (λ numbers. numbers.items ≡ take 255 (different used.now)) }
{
    let mut numbers = Vec::new(alloc);
    for n in used {
        note(&mut numbers, *n)?;
    }
    Ok(numbers)
}

/// Notes a number, unless it is noted already or 255 others are.
#[tactic(auto, using(crate::proofs::NarrowLemmas::notes))]
fn note(numbers: &mut Vec<i32>, n: i32) -> Result<(), AllocError>
    ensures noted { OnOk result ((zs : List ℤ)
        → numbers_with numbers.old.items (n ∷ zs) ≡ numbers_with numbers.new.items zs) }
    ensures few { OnOk result (vec_len numbers.old ≤ 255 → vec_len numbers.new ≤ 255) }
{
    if among(numbers.as_slice(), n) {
        return Ok(());
    }
    if numbers.len() >= 255 {
        return Ok(());
    }
    numbers.push(n)?;
    Ok(())
}

/// Whether a number is among others.
pub fn among(numbers: &[i32], n: i32) -> bool
    ensures { result ≡ is_among numbers.now n }
{
    numbers.iter().any(|m| *m == n)
}
