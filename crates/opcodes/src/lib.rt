//! The code of a method as bytes and as instructions, both ways (JVMS 4.7.3, 6.5).
#![tactic(auto)]

mod code;
mod decoding;
mod encoding;
mod error;
mod fields;
mod laws;
mod layout;
mod opcode_of;
mod put_switches;
mod reading;
mod starts;
mod switches;
mod tables;
mod writing;

pub use code::Code;
pub use decoding::decode;
pub use encoding::encode;
pub use error::OpError;
pub use laws::one_spelling;
pub use model::bytecode::{Instr, Located};
