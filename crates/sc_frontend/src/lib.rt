//! What is made of a source text, from its bytes on.
//!
//! [`check_text`], [`check_parts`], [`load_text`] and [`print_text`] read the system of a text and check it, check each part
//! of it, make its program or print its canonical text; a [`Rejection`] says why a text isn't taken, and [`Refused`] which code
//! that has, and where.
#![tactic(auto)]

mod refused;
mod rejection;
mod texts;

pub use refused::Refused;
pub use rejection::Rejection;
pub use texts::{check_parts, check_text, load_text, print_text};
