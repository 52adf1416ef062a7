//! The reports that runs end with.
ghost use Rattle.std.specs.Prelude.{◌≡◌, ◌<◌, ◌↔◌, ◌++◌, ◌∷◌, [], IfOk, IsTrue, OnOk, Some, length, map, slice_get, vec_len};
ghost use Rattle.std.specs.Option.{option_map};
ghost use Rattle.sc_interning.specs.Tables.{values_of};

use sc_interning::{Probe, Table};
use std::alloc::{AllocError, Global};
use std::hash::{FoldHasher, Hasher};

/// How many runs ended with a report, and the seed of the first of them.
#[derive(Clone, Copy)]
struct Count {
    runs: u32,
    seed: u64,
}

/// A report that runs ended with.
#[derive(Clone, Copy)]
pub struct Outcome<'o> {
    pub report: &'o [u8],
    /// How many runs ended with it.
    pub runs: u32,
    /// The seed of the first of them.
    pub seed: u64,
}

/// The different reports that runs ended with, in the order in which they came.
#[derive(Drop)]
pub struct Outcomes {
    pub(crate) reports: Table<Vec<u8>>,
    counts: Vec<Count>,
    ghost counted: { vec_len counts ≡ length (values_of reports) },
}

impl Outcomes {
    ghost use Rattle.sc_chance.specs.Outcomes.{Adds, reports_of};

    /// None yet.
    ///
    /// # Errors
    /// Memory ran out.
    pub fn new(alloc: Global) -> Result<Outcomes, AllocError>
        ensures { IfOk result (λ outcomes. reports_of outcomes ≡ []) }
    {
        Ok(Outcomes {
            reports: Table::new(alloc)?,
            counts: Vec::new(alloc),
        })
    }

    /// How many there are.
    pub fn len(&self) -> u32
        ensures { result ≡ length (reports_of self.now) }
    {
        self.reports.len()
    }

    /// The first one, if there is one.
    pub fn first(&self) -> Option<&[u8]>
        ensures { option_map (λ report. report.now) result ≡ slice_get (reports_of self.now) 0 }
    {
        match self.reports.values().first() {
            Some(report) => Some(report.as_slice()),
            None => None,
        }
    }

    /// The outcome of this number, from 0.
    pub fn outcome(&self, number: u32) -> Outcome<'_>
        requires { number < length (reports_of self.now) }
        ensures { slice_get (reports_of self.now) number ≡ Some result.report.now }
    {
        let Count { runs, seed } = self.counts[number as usize];
        Outcome {
            report: self.reports.value(number).as_slice(),
            runs,
            seed,
        }
    }

    /// Counts a run by this seed that ended with this report.
    ///
    /// # Errors
    /// Memory ran out.
    pub fn count(&mut self, report: Vec<u8>, seed: u64) -> Result<(), AllocError>
        ensures { OnOk result (Adds report.items (reports_of self.old) (reports_of self.new)) }
    {
        let hash = hash_of(&report);
        let sought = SoughtReport {
            reports: &self.reports,
            report: &report,
        };
        match self.reports.find(hash, &sought) {
            Some(number) => {
                let count = &mut self.counts[number as usize];
                count.runs = count.runs.saturating_add(1);
                Ok(())
            }
            None => self.push(report, hash, Count { runs: 1, seed }),
        }
    }

    /// Adds a report with this hash and count.
    fn push(&mut self, report: Vec<u8>, hash: u32, count: Count) -> Result<(), AllocError>
        ensures { OnOk result (reports_of self.new ≡ reports_of self.old ++ report.items ∷ []) }
    {
        self.counts.reserve(1)?;
        self.reports.push(report, hash)?;
        self.counts.push_reserved(count);
        Ok(())
    }
}

/// A hash of a report. No contract says which number it is.
fn hash_of(report: &[u8]) -> u32 {
    let mut hasher = FoldHasher::default();
    hasher.write(report);
    let hash = hasher.finish();
    ((hash ^ (hash >> 32)) % (1 << 32)) as u32
}

/// A report that is looked for among others.
#[derive(Clone, Copy)]
struct SoughtReport<'s> {
    reports: &'s Table<Vec<u8>>,
    report: &'s [u8],
}

impl Probe for SoughtReport<'_> {
    ghost count = { λ s. length (values_of s.reports.now) };

    ghost Fits = { λ s number. slice_get (map (λ v. v.items) (values_of s.reports.now)) number ≡ Some s.report.now };

    fn fits(&self, number: u32) -> bool {
        are_same(self.reports.value(number), self.report)
    }
}

/// Whether two reports are equal.
fn are_same(report: &[u8], other: &[u8]) -> bool
    ensures { IsTrue result ↔ report.now ≡ other.now }
{
    report == other
}
