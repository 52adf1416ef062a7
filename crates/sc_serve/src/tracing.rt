//! The report on a run's turns as they are made.

use crate::progress::Tell;
use sc_arguments::Trace;
use sc_audit::RecordLine;
use sc_code::Program;
use sc_explain_run::{Played, Told, Tracer};
use sc_lockpass::Version;
use sc_source::source::Source;
use std::alloc::{AllocError, Global};

/// Reports the turns of a run that people follow.
#[derive(Drop)]
pub struct Tracing<'w, 'r, T> {
    /// Shows the report.
    pub teller: &'w mut T,
    /// Makes the turns once more, if they are to be reported.
    pub tracer: Option<Tracer<'r>>,
    /// How many lines of the record were gone through.
    seen: usize,
    /// Whether memory was refused to what was to be reported.
    pub is_lacking: bool,
}

impl<'w, 'r, T: Tell> Tracing<'w, 'r, T> {
    /// In front of the first turn.
    pub fn new(teller: &'w mut T, tracer: Option<Tracer<'r>>) -> Self {
        Tracing {
            teller,
            tracer,
            seen: 0,
            is_lacking: false,
        }
    }

    /// Reports the lines of a record that weren't gone through, if turns are reported.
    pub fn follow(&mut self, lines: &[RecordLine]) {
        if self.tracer.is_none() {
            return;
        }
        for line in lines.get(self.seen..).unwrap_or(&[]) {
            self.tell_line(*line);
        }
        self.seen = lines.len();
    }

    fn tell_line(&mut self, line: RecordLine) {
        if self.is_lacking {
            return;
        }
        let Some(tracer) = &mut self.tracer else {
            return;
        };
        match tracer.play(line) {
            Ok(told) => {
                if !told.is_empty() {
                    self.teller.tell(told.as_slice())
                }
            }
            Err(_) => self.is_lacking = true,
        }
    }
}

/// Reports the turns of a record, if that is asked for.
#[inline(never)]
pub fn tell_turns<T: Tell>(
    alloc: Global,
    played: Played<'_>,
    trace: Option<Trace>,
    teller: &mut T,
) -> Result<(), AllocError> {
    let tracer = tracer_of(alloc, played.source, played.program, played.version, trace)?;
    let mut tracing = Tracing::new(teller, tracer);
    tracing.follow(played.lines);
    let is_lacking = tracing.is_lacking;
    drop(tracing);
    if is_lacking {
        return Err(AllocError);
    }
    Ok(())
}

/// A tracer that makes the turns of a run once more, if they are to be reported.
pub fn tracer_of<'r>(
    alloc: Global,
    source: &'r Source,
    program: &'r Program,
    version: Version,
    trace: Option<Trace>,
) -> Result<Option<Tracer<'r>>, AllocError> {
    let told = match trace {
        None => return Ok(None),
        Some(Trace::All) => Told::All,
        Some(Trace::Print) => Told::Printed,
    };
    match Tracer::open(alloc, source, program, version, told) {
        Ok(tracer) => Ok(Some(tracer)),
        Err(error) => Err(error),
    }
}
