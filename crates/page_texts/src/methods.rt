//! The methods of a program, and the places of their instructions.
ghost use Rattle.std.specs.Prelude.{◌≡◌, ◌++◌, IfOk};
ghost use Rattle.page_texts.specs.Shown.{classes_lines, class_lines, method_line, methods_lines, places_text};
ghost use Rattle.page_texts.specs.Shown.{places_of};

use debug_texts::values::write_number;
use model::listings::{Code, Listing, Method, Placed};
use std::alloc::{AllocError, Global};

/// Adds the place of each instruction, each after a space.
fn write_places(text: &mut Vec<u8>, instructions: &[Placed]) -> Result<(), AllocError>
    ensures { IfOk result (λ _. text.new.items ≡ text.old.items ++ places_text instructions.now) }
{
    for placed in instructions {
        text.push(b' ')?;
        write_number(text, u32::from(placed.pc))?;
    }
    Ok(())
}

/// The same of code, if there is any.
fn write_code(text: &mut Vec<u8>, code: &Option<Code>) -> Result<(), AllocError>
    ensures { IfOk result (λ _. text.new.items ≡ text.old.items ++ places_of code.now) }
{
    match code {
        None => Ok(()),
        Some(code) => write_places(text, &code.instructions),
    }
}

/// Adds the line of a method.
fn write_method(text: &mut Vec<u8>, method: &Method) -> Result<(), AllocError>
    ensures { IfOk result (λ _. text.new.items ≡ text.old.items ++ method_line method.now) }
{
    text.extend_from_slice(b"method ")?;
    text.extend_from_slice(method.name.as_bytes())?;
    text.extend_from_slice(method.descriptor.as_bytes())?;
    write_code(text, &method.code)?;
    text.push(b'\n')?;
    Ok(())
}

fn write_methods(text: &mut Vec<u8>, methods: &[Method]) -> Result<(), AllocError>
    ensures { IfOk result (λ _. text.new.items ≡ text.old.items ++ methods_lines methods.now) }
{
    for method in methods {
        write_method(text, method)?;
    }
    Ok(())
}

/// Adds the lines of a class: its name, and its methods.
fn write_class(text: &mut Vec<u8>, class: &Listing) -> Result<(), AllocError>
    ensures { IfOk result (λ _. text.new.items ≡ text.old.items ++ class_lines class.now) }
{
    text.extend_from_slice(b"class ")?;
    text.extend_from_slice(class.name.as_bytes())?;
    text.push(b'\n')?;
    write_methods(text, &class.methods)
}

/// The classes of a program, each with the methods that it declares and the places of their instructions.
pub fn methods_answer(alloc: Global, program: &[Listing]) -> Result<Vec<u8>, AllocError>
    ensures { IfOk result (λ text. text.items ≡ classes_lines program.now) }
{
    let mut text = Vec::new(alloc);
    for class in program {
        write_class(&mut text, class)?;
    }
    Ok(text)
}
