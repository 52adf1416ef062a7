//! Numbers of classes and names.

/// The number of a class: its place in the text. A system has at most 256 classes.
pub type ClassNumber = u8;

/// The number of a name: its place among the names of a program.
pub type NameNumber = u32;
