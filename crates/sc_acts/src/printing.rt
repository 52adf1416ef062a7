//! What is printed. A turn that prints asks nothing.
ghost use Rattle.std.specs.Prelude.{◌≡◌, OnOk, OnErr};
ghost use Rattle.std.specs.Fmt.{signed_decimal};
ghost use Rattle.sc_model.specs.Instructions.{boolean_text};
ghost use Rattle.sc_code.specs.Programs.{pool_of};
ghost use Rattle.sc_region.specs.Stores.{printed};
ghost use Rattle.sc_acts.specs.Tables.{listed};
ghost use Rattle.sc_region.specs.Calls.{on_top, past};

use crate::steps::pass;
use itoa::Buffer;
use sc_code::Program;
use sc_region::Store;
use std::alloc::AllocError;

/// Prints the last operand, an integer. Its error says that memory ran out, and nothing has changed then.
pub fn print_integer(store: &mut Store<'_>, value: i64) -> Result<(), AllocError>
    ensures ok { OnOk result (store.new ≡ on_top (past 1) (printed (signed_decimal value) store.old)) }
    ensures err { OnErr result (store.new ≡ store.old) }
{
    let mut buffer = Buffer::new();
    store.print(buffer.format(value).as_bytes())?;
    pass(store, 1);
    Ok(())
}

/// Prints the last operand, a truth value. Its error says that memory ran out, and nothing has changed then.
pub fn print_boolean(store: &mut Store<'_>, value: bool) -> Result<(), AllocError>
    ensures ok { OnOk result (store.new ≡ on_top (past 1) (printed (boolean_text value) store.old)) }
    ensures err { OnErr result (store.new ≡ store.old) }
{
    if value {
        store.print(b"True")?;
    } else {
        store.print(b"False")?;
    }
    pass(store, 1);
    Ok(())
}

/// The text of the number, or an empty one if there is none.
fn text_at(program: &Program, text: usize) -> &str
    ensures { result.now ≡ listed (pool_of program.now.image.pool).texts text }
{
    match program.pool().texts.get(text) {
        Some(text) => text.as_str(),
        None => "",
    }
}

/// Prints the text of the number, or nothing if there is none. Its error says that memory ran out, and nothing has
/// changed then.
pub fn print_text(store: &mut Store<'_>, text: usize) -> Result<(), AllocError>
    ensures ok { OnOk result (store.new ≡ on_top (past 0) (printed (listed (pool_of store.old.program.pool).texts text) store.old)) }
    ensures err { OnErr result (store.new ≡ store.old) }
{
    let program = store.program();
    store.print(text_at(program, text).as_bytes())?;
    pass(store, 0);
    Ok(())
}
