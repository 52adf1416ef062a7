//! What a run leaves, as text.

ghost use Rattle.std.specs.Prelude.{◌≡◌, ◌++◌, OnOk};
ghost use Rattle.sc_model.specs.Reports.{cause_code, end_text, line_feed, status_text};
ghost use Rattle.sc_world.specs.Reports.{handler_report};
ghost use Rattle.sc_world.specs.Reports as told;

use sc_model::{Cause, Status};
use std::alloc::{AllocError, Global};

/// Adds a handler's line, and its output with a line feed after it.
pub fn push_handler(
    alloc: Global,
    report: &mut Vec<u8>,
    number: usize,
    status: Status,
    refused: u64,
    output: &[u8],
) -> Result<(), AllocError>
    ensures { OnOk result (report.new.items ≡ report.old.items ++ handler_report number status refused output.now) }
{
    let beginning = format!(in alloc; "handler {number} ")?;
    report.extend_from_slice(beginning.as_bytes())?;
    push_status(report, status)?;
    let length = output.len();
    let counts = format!(in alloc; " refused {refused} output {length}\n")?;
    report.extend_from_slice(counts.as_bytes())?;
    report.extend_from_slice(output)?;
    report.extend_from_slice(b"\n")?;
    Ok(())
}

/// Whether a handler has something to do.
pub fn is_busy(status: Status) -> bool
    ensures { result ≡ told.is_busy status }
{
    matches!(status, Status::Busy)
}

/// Adds how the run has ended: with something left to do or not.
pub fn push_end(report: &mut Vec<u8>, is_busy: bool) -> Result<(), AllocError>
    ensures { OnOk result (report.new.items ≡ report.old.items ++ (end_text is_busy ++ line_feed)) }
{
    if is_busy {
        report.extend_from_slice(b"stopped limit\n")
    } else {
        report.extend_from_slice(b"stopped idle\n")
    }
}

fn push_status(report: &mut Vec<u8>, status: Status) -> Result<(), AllocError>
    ensures { OnOk result (report.new.items ≡ report.old.items ++ status_text status) }
{
    match status {
        Status::Failed(why) => {
            report.extend_from_slice(b"failed ")?;
            report.extend_from_slice(code_of(why).as_bytes())
        }
        Status::Busy => report.extend_from_slice(b"busy"),
        Status::Waiting => report.extend_from_slice(b"waiting"),
        Status::Free => report.extend_from_slice(b"free"),
    }
}

/// The code of a failure in a report.
pub fn code_of(why: Cause) -> &'static str
    ensures { result.now ≡ cause_code why }
{
    match why {
        Cause::Invariant => "F1",
        Cause::Postcondition => "F2",
        Cause::Check => "F3",
        Cause::Precondition => "F4",
        Cause::Overflow => "F5",
        Cause::DivideByZero => "F6",
        Cause::UnsetEntity => "F7",
        Cause::SupplierFailed => "F8",
        Cause::TooManyHandlers => "F9",
        Cause::TooManyObjects => "F10",
        Cause::StackFull => "F11",
        Cause::QueueFull => "F12",
        Cause::NotHeld => "F13",
        Cause::ForeignObject => "F14",
        Cause::VoidTarget => "F15",
        Cause::BadCode => "F16",
    }
}
