//! Places in a program.

/// A method, by the place of its class in the program and its own place in the class.
#[derive(Clone, Copy, Debug, PartialEq, Eq)]
pub struct MethodPlace {
    pub class: usize,
    pub method: usize,
}

/// An instruction of a method, by its pc.
#[derive(Clone, Copy, Debug, PartialEq, Eq)]
pub struct CodePlace {
    pub method: MethodPlace,
    pub pc: u16,
}
