//! The command `lsp`, as its help describes it.

use crate::arguments::Described;

const LSP_ABOUT: &str = "Answers an editor, by the language server protocol";

const LSP_LONG_ABOUT: &str = "\
Answers an editor, by the language server protocol 3.17 on standard input and output.

It is started by an editor. It shows all faults and warnings while a text is written,
what the code of a fault means, and the classes and features of a file, puts a file in
its layout, and writes a name in place of a slip. The open files are a system
together, or each is one alone if a class stands twice in them. A system of other
files is named in `initializationOptions.files`.";

const LSP_AFTER_HELP: &str = "\
Limits:
  those of `scoop check`; 16777216 bytes of a message

Exit status:
  0  it was shut down before it ended
  1  it wasn't
  2  an argument, standard input or the output is at fault
  5  memory ran out at the start";

/// The command `lsp`.
pub const LANGUAGE_SERVER: Described = Described {
    name: "lsp",
    about: LSP_ABOUT,
    long_about: LSP_LONG_ABOUT,
    after_help: LSP_AFTER_HELP,
    takes: &[],
};
