//! Programs in rows of words.
//!
//! A row has classes, with `; ` between them, of lines, with `|` between them. A line stands for itself, but for these:
//! `class A` and `interface A` have Object as superclass, or what is named after ` < `; `code 3 0 static f(IJ)V` is a
//! method that does nothing, with limits of locals and of stack; `main` is a method main that does nothing; `main:` is
//! the head of one, whose code and `end` follow.

use acceptance::accept;
use loader::programs::Program;
use model::listings::Listing;
use std::alloc::{AllocError, Global};
use std::fmt::Write;
use std::test::Fail;

const MAIN: &str =
    ".method public static main()V\n.limit locals 0\n.limit stack 0\nnop\nreturn\n.end method\n";

const HEAD: &str = ".method public static main()V\n.limit locals 3\n.limit stack 6\n";

/// The first word, and what is after it.
fn parted(words: &str) -> (&str, &str) {
    match words.split_once(" ") {
        Some(parts) => parts,
        None => (words, ""),
    }
}

/// Adds the head of a class or interface.
fn add_head(text: &mut String, word: &str, rest: &str) -> Result<(), AllocError> {
    let (name, above) = match rest.split_once(" < ") {
        Some(names) => names,
        None => (rest, "java/lang/Object"),
    };
    write!(text, ".{word} {name}\n.super {above}\n")
}

/// Adds a method that does nothing, given by its limits of locals and of stack.
fn add_method(text: &mut String, rest: &str) -> Result<(), AllocError> {
    let (locals, rest) = parted(rest);
    let (stack, method) = parted(rest);
    write!(
        text,
        ".method {method}\n.limit locals {locals}\n.limit stack {stack}\nnop\nreturn\n.end method\n"
    )
}

/// Adds what a line stands for.
fn add_line(text: &mut String, line: &str) -> Result<(), AllocError> {
    let (word, rest) = parted(line);
    match word {
        "class" | "interface" => add_head(text, word, rest),
        "code" => add_method(text, rest),
        "main" => text.push_str(MAIN),
        "main:" => text.push_str(HEAD),
        "end" => text.push_str(".end method\n"),
        _ => write!(text, "{line}\n"),
    }
}

/// The text of a class.
fn text_of(alloc: Global, class: &str) -> Result<String, AllocError> {
    let mut text = String::new(alloc);
    for line in class.split("|") {
        add_line(&mut text, line)?;
    }
    Ok(text)
}

fn listed(alloc: Global, class: &str) -> Result<Listing, Fail> {
    let text = text_of(alloc, class)?;
    let tree = jasmin::read(alloc, text.as_bytes())?;
    Ok(assembler::listing(alloc, tree)?)
}

/// The classes of a row.
pub fn classes(alloc: Global, row: &str) -> Result<Vec<Listing>, Fail> {
    let mut classes = Vec::new(alloc);
    for class in row.split("; ") {
        if !class.is_empty() {
            classes.push(listed(alloc, class)?)?;
        }
    }
    Ok(classes)
}

/// The program of a row, which no rule refuses.
pub fn program(alloc: Global, row: &str) -> Result<Program, Fail> {
    let classes = classes(alloc, row)?;
    accept(alloc, classes.as_slice())?;
    Ok(Program::new(alloc, classes)?)
}

/// Layers of two interfaces each, A1 and B1 first, each of them below both of the next layer.
fn add_layers(row: &mut String, count: usize) -> Result<(), AllocError> {
    for layer in 1..count {
        let next = layer + 1;
        for side in ["A", "B"] {
            write!(
                row,
                "; interface {side}{layer}|.implements A{next}|.implements B{next}"
            )?;
        }
    }
    write!(row, "; interface A{count}; interface B{count}")
}

/// A row of these.
pub fn layers(alloc: Global, count: usize) -> Result<String, AllocError> {
    let mut row = String::new(alloc);
    add_layers(&mut row, count)?;
    Ok(row)
}
