//! What is answered to `test`.

ghost use Rattle.std.specs.Prelude.{◌≡◌, ◌∷◌, ◌++◌, [], IfOk, None, OnOk, map};
ghost use Rattle.sc_class.specs.View.{root_of};
ghost use Rattle.sc_frontend.specs.Texts.{IsLoaded};
ghost use Rattle.sc_lower.specs.Lowerings.{image_of};
ghost use Rattle.sc_source.specs.Source.{joined};
ghost use Rattle.sc_serve.specs.Served.{IsFormatted};
ghost use Rattle.sc_serve.specs.Tests as spec;
ghost use Rattle.sc_serve.specs.Tests.{IsTestOfSource, IsTestOn, IsTestShaped, IsTested, shape_of};

use crate::folder::Folder;
use crate::json::made;
use crate::progress::Tell;
use crate::serve::{Answer, Exit, Fault, answer_explained, answer_unread, root_if};
use crate::trial::try_test;
use sc_arguments::{Format, TestFormat, TestOptions};
use sc_class::Root;
use sc_code::Program;
use sc_explain_text::Lines;
use sc_frontend::load_text;
use sc_search::Watch;
use sc_source::files::{Files, read_source};
use sc_source::source::Source;
use sc_test_cases::{
    TestResult, Verdict, count, json_object, junit_refusal, junit_report, result_lines, tap_lines,
    tap_refusal, tests_of_text,
};
use std::alloc::{AllocError, Global};
use std::sync::Wait;
use std::thread::Threads;
use std::time::Clock;

/// What is made of a test.
#[derive(Drop)]
pub enum Tested<'a> {
    /// It is played.
    Played(TestResult),
    /// The system is refused.
    Refused(Answer<'a>),
}

/// Plays the tests of the system of the named files.
#[inline(never)]
pub fn answer_tests<'a, R: Threads + Wait + Clock + Sync, F: Files, W: Watch + Tell>(
    rt: &R,
    alloc: Global,
    options: &TestOptions<'a>,
    files: &F,
    names: &[&'a str],
    watch: &mut W,
) -> Result<Answer<'a>, Fault<'a>>
    ensures answer { let named = map (λ name. name.now) names.now in
        let held = map (λ name. F.bytes_of files.now name.now) names.now in
        IfOk result (λ answer. IsTestOn options.now named held answer.text.items answer.exit) }
    ensures shaped { IfOk result (IsTestShaped options.now) }
{
    let answer = test_files(rt, alloc, options, files, names, watch)?;
    shaped(alloc, options, answer)
}

/// Whether the results of tests are written as lines, or something in place of them is.
pub fn shape_of(format: TestFormat) -> Format
    ensures { result ≡ shape_of format }
{
    match format {
        TestFormat::Text => Format::Text,
        TestFormat::Json | TestFormat::Tap | TestFormat::Junit => Format::Json,
    }
}

/// The results of the tests, or a refusal of the system as a line.
fn test_files<'a, R: Threads + Wait + Clock + Sync, F: Files, W: Watch + Tell>(
    rt: &R,
    alloc: Global,
    options: &TestOptions<'a>,
    files: &F,
    names: &[&'a str],
    watch: &mut W,
) -> Result<Answer<'a>, Fault<'a>>
    ensures answer { let named = map (λ name. name.now) names.now in
        let held = map (λ name. F.bytes_of files.now name.now) names.now in
        IfOk result (λ answer. IsTestOn options.now named held answer.text.items answer.exit) }
    ensures shaped { IfOk result (IsTestShaped options.now) }
{
    match read_source(alloc, files, names) {
        Ok(source) => {
            let folder = Folder::new(files, options.folder, names);
            test_source(rt, alloc, options, &source, &folder, watch)
        }
        Err(fault) => answer_unread(alloc, names, fault, options.is_explained),
    }
}

/// The answer in the format that is asked for, which a refusal isn't in yet.
fn shaped<'a>(
    alloc: Global,
    options: &TestOptions<'_>,
    mut answer: Answer<'a>,
) -> Result<Answer<'a>, Fault<'a>>
    ensures { IfOk result (IsFormatted (shape_of options.now.format) answer.entry) }
{
    if answer.object.is_none() {
        answer.object = refusal_object(alloc, options.format, answer.text.as_slice())?;
    }
    Ok(answer)
}

/// The line of a refusal in the format that is asked for, if that is one of tests alone.
fn refusal_object(
    alloc: Global,
    format: TestFormat,
    line: &[u8],
) -> Result<Option<Vec<u8>>, AllocError>
    ensures { shape_of format ≡ Format.Text → IfOk result (λ object. object ≡ None) }
{
    match format {
        TestFormat::Text | TestFormat::Json => Ok(None),
        TestFormat::Tap => made(tap_refusal(alloc, line)),
        TestFormat::Junit => made(junit_refusal(alloc, line)),
    }
}

/// Plays the tests of the system of a source text.
fn test_source<'a, R: Threads + Wait + Clock + Sync, F: Files, W: Watch + Tell>(
    rt: &R,
    alloc: Global,
    options: &TestOptions<'a>,
    source: &Source,
    folder: &Folder<'_, 'a, F>,
    watch: &mut W,
) -> Result<Answer<'a>, Fault<'a>>
    ensures answer { IfOk result (λ answer.
        IsTestOfSource options.now source.now answer.text.items answer.exit) }
    ensures shaped { IfOk result (IsTestShaped options.now) }
{
    match tests_of_text(alloc, source.text(), options.class) {
        Ok(tests) => test_all(rt, alloc, options, source, tests.as_slice(), folder, watch),
        Err(rejection) => {
            let root = default_root(alloc)?;
            let explained = root_if(options.is_explained, &root);
            answer_explained(alloc, source, &rejection, explained)
        }
    }
}

/// The root that a refusal is explained for if the tests aren't known.
fn default_root(alloc: Global) -> Result<Root, AllocError> {
    Ok(Root {
        class: String::from_str(alloc, "application")?,
        procedure: String::from_str(alloc, "make")?,
    })
}

/// Plays the tests of the system of a source text that are run from these roots, until one is refused.
fn test_all<'a, R: Threads + Wait + Clock + Sync, F: Files, W: Watch + Tell>(
    rt: &R,
    alloc: Global,
    options: &TestOptions<'a>,
    source: &Source,
    roots: &[Root],
    folder: &Folder<'_, 'a, F>,
    watch: &mut W,
) -> Result<Answer<'a>, Fault<'a>>
    ensures answer { spec.AreListed (joined source.now) options.now (map root_of roots.now) →
        IfOk result (λ answer. IsTestOfSource options.now source.now answer.text.items answer.exit) }
    ensures shaped { IfOk result (IsTestShaped options.now) }
{
    let mut results = Vec::new(alloc);
    for root in roots {
        let tested = test_from(rt, alloc, options, source, root, folder, watch)?;
        match tested {
            Tested::Played(result) => push_result(&mut results, result)?,
            Tested::Refused(answer) => return Ok(answer),
        }
    }
    answer_results(alloc, options, results.as_slice())
}

/// Adds the result of a test.
fn push_result(results: &mut Vec<TestResult>, test: TestResult) -> Result<(), AllocError>
    ensures { OnOk result (results.new.items ≡ results.old.items ++ test ∷ []) }
{
    results.push(test)?;
    Ok(())
}

/// Plays the test of the system of a source text that is run from this root.
#[inline(never)]
fn test_from<'a, R: Threads + Wait + Clock + Sync, F: Files, W: Watch + Tell>(
    rt: &R,
    alloc: Global,
    options: &TestOptions<'a>,
    source: &Source,
    root: &Root,
    folder: &Folder<'_, 'a, F>,
    watch: &mut W,
) -> Result<Tested<'a>, Fault<'a>>
    ensures { IfOk result (IsTested options.now source.now (root_of root.now)) }
{
    match load_text(alloc, source.text(), root) {
        Ok(program) => {
            let tested = test_loaded(rt, alloc, &program, options, source, root, folder, watch);
            drop(program);
            tested
        }
        Err(rejection) => {
            let explained = root_if(options.is_explained, root);
            let answer = answer_explained(alloc, source, &rejection, explained)?;
            Ok(Tested::Refused(answer))
        }
    }
}

/// Plays the program of a test that is run from this root.
fn test_loaded<'a, R: Threads + Wait + Clock + Sync, F: Files, W: Watch + Tell>(
    rt: &R,
    alloc: Global,
    program: &Program,
    options: &TestOptions<'_>,
    source: &Source,
    root: &Root,
    folder: &Folder<'_, 'a, F>,
    watch: &mut W,
) -> Result<Tested<'a>, Fault<'a>>
    ensures { IsLoaded (joined source.now) (root_of root.now) (image_of program.now) →
        IfOk result (IsTested options.now source.now (root_of root.now)) }
{
    let test = try_test(rt, alloc, program, options, source, root, folder, watch)?;
    Ok(Tested::Played(test))
}

/// The answer to `test` if the tests have these results.
#[inline(never)]
fn answer_results<'a>(
    alloc: Global,
    options: &TestOptions<'_>,
    results: &[TestResult],
) -> Result<Answer<'a>, Fault<'a>>
    ensures answer { IfOk result (λ answer. spec.TellsResults results.now answer.text.items answer.exit) }
    ensures shaped { IfOk result (IsTestShaped options.now) }
{
    let text = result_lines(alloc, results)?;
    let object = object_of(alloc, options.format, results)?;
    let note = note_of(alloc, options, results);
    Ok(Answer {
        text,
        object,
        exit: exit_of(results),
        note,
        record: None,
        beside: None,
    })
}

/// What the program ends with if the tests have these results.
fn exit_of(results: &[TestResult]) -> Exit
    ensures { result ≡ spec.exit_of_tests results.now }
{
    if count(results, Verdict::Failed) != 0 {
        Exit::Failed
    } else if count(results, Verdict::Undecided) != 0 {
        Exit::Undecided
    } else {
        Exit::Done
    }
}

/// The results in place of their lines, if another format than text is asked for.
fn object_of(
    alloc: Global,
    format: TestFormat,
    results: &[TestResult],
) -> Result<Option<Vec<u8>>, AllocError>
    ensures { shape_of format ≡ Format.Text → IfOk result (λ object. object ≡ None) }
{
    match format {
        TestFormat::Text => Ok(None),
        TestFormat::Json => made(json_object(alloc, results)),
        TestFormat::Tap => made(tap_lines(alloc, results)),
        TestFormat::Junit => made(junit_report(alloc, results)),
    }
}

/// What is said beside the results: that there is no test, and of text also why tests fail.
fn note_of(
    alloc: Global,
    options: &TestOptions<'_>,
    results: &[TestResult],
) -> Result<Vec<u8>, AllocError> {
    let mut lines = Lines::new(alloc);
    if results.is_empty() {
        lines.fill_name("no test in ~\n", options.class.unwrap_or("any class"));
        lines.push("a test is a creation procedure without formals whose name begins with `test`\n")
    }
    if matches!(options.format, TestFormat::Text) {
        for result in results {
            push_note(&mut lines, result)
        }
    }
    lines.finish()
}

/// Adds why a test fails, below its name.
fn push_note(lines: &mut Lines, test: &TestResult) {
    if !test.note.is_empty() {
        lines.fill_name("~:\n", test.name.as_str());
        lines.push_bytes(test.note.as_slice())
    }
}
