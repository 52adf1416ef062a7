//! The results of tests.

ghost use Rattle.std.specs.Prelude.{◌≡◌, count_by};
ghost use Rattle.sc_test_cases.specs.Lines as spec;

/// How a test came out.
#[derive(Clone, Copy)]
pub enum Outcome {
    /// Its run passes.
    Passes,
    /// It passes in every order of turns.
    AlwaysPasses,
    /// It fails by this number of turns.
    FailsAfter(u64),
    /// Some order of its turns goes on for ever, and none was found in which it fails.
    GoesOn,
    /// No order was found in which it fails, and not every order was played, or it isn't known whether each ends.
    Undecided,
}

/// The result of a test.
#[derive(Drop)]
pub struct TestResult {
    /// What the test is called: `CLASS.procedure`.
    pub name: String,
    pub outcome: Outcome,
    /// Why it fails, as far as that is asked for.
    pub note: Vec<u8>,
}

/// What an outcome is counted as.
#[derive(Clone, Copy)]
pub enum Verdict {
    Passed,
    Failed,
    Undecided,
}

/// How many results have this verdict.
pub fn count(results: &[TestResult], verdict: Verdict) -> usize
    ensures { result ≡ spec.count_of verdict results.now }
{
    let mut count = 0;
    for result in results {
        if has_verdict(result.outcome, verdict) {
            count += 1;
        }
    }
    count
}

/// Whether an outcome has this verdict.
fn has_verdict(outcome: Outcome, verdict: Verdict) -> bool
    ensures { result ≡ spec.has_verdict verdict outcome }
{
    match outcome {
        Outcome::Passes | Outcome::AlwaysPasses => matches!(verdict, Verdict::Passed),
        Outcome::FailsAfter(_) | Outcome::GoesOn => matches!(verdict, Verdict::Failed),
        Outcome::Undecided => matches!(verdict, Verdict::Undecided),
    }
}
