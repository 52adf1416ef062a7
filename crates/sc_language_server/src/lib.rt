//! The language server protocol 3.17, over a reader and a writer: what an editor is answered while a text is written.
//!
//! [`serve_editor`] reads messages and answers them until one says `exit` or the reader ends. Positions are in UTF-16.
//!
//! What a name means is what `sc_symbols` says.
#![tactic(auto)]

mod actions;
mod class_features;
mod colours;
mod completion;
mod declarations;
mod diagnostics;
mod earlier;
mod failure;
mod findings;
mod framing;
mod grouping;
mod hints;
mod hover;
mod layout;
mod name_requests;
mod naming;
mod opening;
mod outline;
mod parameters;
mod probing;
mod requests;
mod server;
mod serving;
mod signature;
mod systems;
mod tokens;
mod uris;
mod workspace;
mod written;

pub use serving::{Ending, serve_editor};
