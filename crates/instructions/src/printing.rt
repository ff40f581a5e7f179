//! The bytes that the machine's own methods print.
ghost use Rattle.std.specs.Prelude.{◌≡◌, ◌+◌, ◌++◌, ◌≤◌, length, vec_capacity};
ghost use Rattle.model.specs.Printing.{decimal_line, low_byte};

use itoa::Buffer;

/// How many bytes a number in decimal and its newline take.
pub fn line_length(number: i32) -> usize
    ensures value { result ≡ length (decimal_line number) }
    ensures short { result ≤ 41 }
{
    let mut buffer = Buffer::new();
    buffer.format(number).len() + 1
}

/// Adds a number in decimal and a newline to an output that has room for them. It takes no memory.
pub fn print_line(output: &mut Vec<u8>, number: i32)
    requires { length output.old.items + length (decimal_line number) ≤ vec_capacity output.old }
    ensures items { output.new.items ≡ output.old.items ++ decimal_line number }
    ensures capacity { vec_capacity output.old ≤ vec_capacity output.new }
{
    let mut buffer = Buffer::new();
    match output.extend_from_slice(buffer.format(number).as_bytes()) {
        Ok(()) => {}
        Err(_) => unreachable!(),
    }
    match output.push(b'\n') {
        Ok(()) => {}
        Err(_) => unreachable!(),
    }
}

/// How many bytes a long in decimal and its newline take.
pub fn long_line_length(number: i64) -> usize
    ensures value { result ≡ length (decimal_line number) }
    ensures short { result ≤ 41 }
{
    let mut buffer = Buffer::new();
    buffer.format(number).len() + 1
}

/// Adds a long in decimal and a newline to an output that has room for them. It takes no memory.
pub fn print_long_line(output: &mut Vec<u8>, number: i64)
    requires { length output.old.items + length (decimal_line number) ≤ vec_capacity output.old }
    ensures items { output.new.items ≡ output.old.items ++ decimal_line number }
    ensures capacity { vec_capacity output.old ≤ vec_capacity output.new }
{
    let mut buffer = Buffer::new();
    match output.extend_from_slice(buffer.format(number).as_bytes()) {
        Ok(()) => {}
        Err(_) => unreachable!(),
    }
    match output.push(b'\n') {
        Ok(()) => {}
        Err(_) => unreachable!(),
    }
}

/// Adds the low 8 bits of an int to an output that has room for a byte. It takes no memory.
pub fn print_low_byte(output: &mut Vec<u8>, number: i32)
    requires { length output.old.items + 1 ≤ vec_capacity output.old }
    ensures items { output.new.items ≡ output.old.items ++ low_byte number }
    ensures capacity { vec_capacity output.old ≤ vec_capacity output.new }
{
    match output.push((number.cast_unsigned() % 256) as u8) {
        Ok(()) => {}
        Err(_) => unreachable!(),
    }
}
