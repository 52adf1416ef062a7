//! What each code means that the program answers, a page for each: [`find`] finds the page of a code, and [`list`]
//! lists the codes and their names. A page begins with a line of the code and the name, or of the name if there is
//! no code. Then it says what that means, with examples and their answers, and why it is so. Each example is a whole
//! text, indented.
//!
//! And what helps with a text that is no system, or with a name that isn't known: what is written in place of a
//! construct of Eiffel or of another language that isn't here, a word that is similar, what may be at a place, and
//! the construct that was meant to end. See [`explain_grammar`].
//!
//! What is said is for people: nothing else depends on it.
#![tactic(auto)]

mod beginning;
mod characters;
mod class_pages;
mod codes;
mod expected;
mod failure_pages;
mod foreign;
mod grammar;
mod grammar_pages;
mod instead;
mod layout;
mod lines;
mod lowering_pages;
mod margin;
mod nearest;
mod omitted;
mod reading;
mod record_pages;
mod related;
mod rule_pages;
mod spelling;
mod subject_pages;
mod text_pages;

pub use characters::explain_character;
pub use codes::{find, list};
pub use foreign::{push_instead_at, push_instead_of};
pub use grammar::explain_grammar;
pub use lines::Lines;
pub use nearest::{is_slip, push_meant, push_near_built_in, push_near_word};
pub use omitted::left_out;
pub use reading::{system_of, word_at};
pub use related::Related;
pub use sc_parse::let_go;
pub use spelling::binary_spelling;
