//! The machine's own methods that print a long and a byte; `acting` has that of an int.
ghost use Rattle.std.specs.Prelude.{◌≡◌, OnErr};
ghost use Rattle.model.specs.Frames.{int_on, long_on, running_frame};
ghost use Rattle.model.specs.Printing.{decimal_line, line_of, low_byte};
ghost use Rattle.model.specs.Table.Builtins.{prints_on};
ghost use Rattle.instructions.specs.Acting.{HasRoomFor, Keeps, Ready, Stays, Turns, site_at};

use crate::acting::Turned;
use crate::kinds::Course;
use crate::machines::Machine;
use crate::printing::{print_long_line, print_low_byte};
use loader::programs::Program;
use model::turns::Fault;

impl Machine {
    /// `vm/Sys/printl(J)V`: the long at the top in decimal and a newline, for which the output has room.
    pub(crate) fn print_long(&mut self, program: &Program, next: u16) -> Result<Turned, Fault>
        requires ready { Ready program.now self.old }
        requires room { HasRoomFor self.old (line_of decimal_line (long_on (running_frame self.old.frames).stack)) }
        ensures step { Turns program.now self.old self.new result
            (λ w. prints_on (site_at program.now self.old w next) decimal_line
            (long_on (running_frame self.old.frames).stack)) }
        ensures kept { OnErr result (Stays self.old self.new) }
        ensures keeps { Keeps program.now self.old self.new }
    {
        match self.frames.long() {
            Ok(number) => {
                print_long_line(&mut self.output, number);
                self.frames.discard(next, 1);
                Ok(Turned::to(Course::Live))
            }
            Err(fault) => Err(fault),
        }
    }

    /// `vm/Sys/putc(I)V`: the low 8 bits of the int at the top, for which the output has room.
    pub(crate) fn put_byte(&mut self, program: &Program, next: u16) -> Result<Turned, Fault>
        requires ready { Ready program.now self.old }
        requires room { HasRoomFor self.old (line_of low_byte (int_on (running_frame self.old.frames).stack)) }
        ensures step { Turns program.now self.old self.new result
            (λ w. prints_on (site_at program.now self.old w next) low_byte
            (int_on (running_frame self.old.frames).stack)) }
        ensures kept { OnErr result (Stays self.old self.new) }
        ensures keeps { Keeps program.now self.old self.new }
    {
        match self.frames.int() {
            Ok(number) => {
                print_low_byte(&mut self.output, number);
                self.frames.discard(next, 1);
                Ok(Turned::to(Course::Live))
            }
            Err(fault) => Err(fault),
        }
    }
}
