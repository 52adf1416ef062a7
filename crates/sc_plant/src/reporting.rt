//! The report of a run, joined from what its handlers printed without a copy of all of it.

ghost use Rattle.std.specs.Prelude.{◌≡◌, ◌++◌, IfOk, OnOk};
ghost use Rattle.sc_model.specs.Reports.{status_text};
ghost use Rattle.sc_world.specs.Reports.{handler_report};

use sc_model::Status;
use sc_world::code_of;
use std::alloc::{AllocError, Global};

/// A report, and after it the line and the output of one more handler, with a line feed. Of the report and the output
/// the shorter one is copied. The longer one's memory is that of the result.
///
/// # Errors
/// Memory ran out.
pub fn append_handler(
    alloc: Global,
    mut report: Vec<u8>,
    number: usize,
    status: Status,
    refused: u64,
    output: Vec<u8>,
) -> Result<Vec<u8>, AllocError>
    ensures { IfOk result (λ longer.
        longer.items ≡ report.items ++ handler_report number status refused output.items) }
{
    let beginning = format!(in alloc; "handler {number} ")?;
    report.extend_from_slice(beginning.as_bytes())?;
    push_status(&mut report, status)?;
    let length = output.len();
    let counts = format!(in alloc; " refused {refused} output {length}\n")?;
    report.extend_from_slice(counts.as_bytes())?;
    let mut longer = join(report, output)?;
    longer.extend_from_slice(b"\n")?;
    Ok(longer)
}

/// Two texts in order. The shorter one is copied into the other's memory, and then let go.
///
/// # Errors
/// Memory ran out.
fn join(mut front: Vec<u8>, mut back: Vec<u8>) -> Result<Vec<u8>, AllocError>
    ensures { IfOk result (λ both. both.items ≡ front.items ++ back.items) }
{
    let length = back.len();
    if length <= front.len() {
        front.extend_from_slice(back.as_slice())?;
        return Ok(front);
    }
    back.extend_from_slice(front.as_slice())?;
    back.rotate_left(length);
    Ok(back)
}

/// Adds a status as it is in a handler's line.
fn push_status(report: &mut Vec<u8>, status: Status) -> Result<(), AllocError>
    ensures { OnOk result (report.new.items ≡ report.old.items ++ status_text status) }
{
    match status {
        Status::Failed(why) => {
            report.extend_from_slice(b"failed ")?;
            report.extend_from_slice(code_of(why).as_bytes())
        }
        Status::Busy => report.extend_from_slice(b"busy"),
        Status::Waiting => report.extend_from_slice(b"waiting"),
        Status::Free => report.extend_from_slice(b"free"),
    }
}
