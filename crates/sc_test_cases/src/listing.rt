//! The tests of a system.

ghost use Rattle.std.specs.Prelude.{◌≡◌, ◌∷◌, ◌++◌, [], IfErr, IfOk, OnOk, map};
ghost use Rattle.std.specs.Option.{option_map};
ghost use Rattle.sc_tree.specs.View.{class_of, name_of, system_of};
ghost use Rattle.sc_class.specs.Faults.ClassRules as class_rules;
ghost use Rattle.sc_class.specs.View.{root_of};
ghost use Rattle.sc_frontend.specs.Texts.{IsRead, IsUnreadable};
ghost use Rattle.sc_test_cases.specs.Tests as spec;
ghost use Rattle.sc_test_cases.specs.Tests.{AreTestsOf, IsAtFaultFor, IsRefusedFor};

use sc_class::{ClassFault, Root, tables};
use sc_frontend::Rejection;
use sc_parse::{let_go, parse};
use sc_text::lex;
use sc_tree::{Class, Name, System};
use std::alloc::{AllocError, Global};

/// The tests of the system of a source text, in order: those of the class of this name, in any letter case, or of all
/// classes.
///
/// # Errors
///
/// The text isn't grammatical, its classes have a fault, or memory ran out.
#[inline(never)]
pub fn tests_of_text(alloc: Global, text: &str, class: Option<&str>) -> Result<Vec<Root>, Rejection>
    ensures tests { let chosen = option_map (λ name. name.now) class.entry in
        IfOk result (λ tests. AreTestsOf text.now chosen (map root_of tests.items)) }
    ensures refused { IfErr result (IsRefusedFor text.now) }
{
    let system = read(alloc, text)?;
    let tests = tests_of(alloc, &system, class);
    let_go(system);
    Ok(tests?)
}

/// The system of a source text.
fn read(alloc: Global, text: &str) -> Result<System, Rejection>
    ensures read { IfOk result (λ system. IsRead text.now (system_of system)) }
    ensures refused { IfErr result (IsUnreadable text.now) }
{
    let tokens = lex(alloc, text)?;
    Ok(parse(alloc, tokens.as_slice())?)
}

/// The tests of a system.
fn tests_of(alloc: Global, system: &System, chosen: Option<&str>) -> Result<Vec<Root>, ClassFault>
    ensures tests { let chosen = option_map (λ name. name.now) chosen.entry in
        IfOk result (λ tests. map root_of tests.items ≡ spec.tests_of (system_of system.now) chosen) }
    ensures fault { IfErr result (IsAtFaultFor (system_of system.now)) }
{
    let mut tests = Vec::new(alloc);
    for class in &system.classes {
        push_tests(alloc, &mut tests, system, class, chosen)?;
    }
    Ok(tests)
}

/// Whether the tests of a class are chosen.
fn is_chosen(alloc: Global, class: &Class, chosen: Option<&str>) -> Result<bool, AllocError>
    ensures { let chosen = option_map (λ name. name.now) chosen.entry in
        IfOk result (λ is. is ≡ spec.is_chosen chosen (class_of class.now)) }
{
    match chosen {
        Some(name) => {
            let name = name.to_ascii_lowercase(alloc)?;
            Ok(name.as_str() == class.name.as_str())
        }
        None => Ok(true),
    }
}

/// Adds the tests of a class, if they are chosen.
fn push_tests(
    alloc: Global,
    tests: &mut Vec<Root>,
    system: &System,
    class: &Class,
    chosen: Option<&str>,
) -> Result<(), ClassFault>
    ensures tests { let chosen = option_map (λ name. name.now) chosen.entry in
        OnOk result (map root_of tests.new.items
        ≡ map root_of tests.old.items ++ spec.tests_if_chosen (system_of system.now) chosen (class_of class.now)) }
    ensures fault { IfErr result (IsAtFaultFor (system_of system.now)) }
{
    if !is_chosen(alloc, class, chosen)? {
        return Ok(());
    }
    for creator in &class.creators {
        push_test(alloc, tests, system, class, creator)?;
    }
    Ok(())
}

/// Adds the test that a creation procedure of a class is, if it is one.
fn push_test(
    alloc: Global,
    tests: &mut Vec<Root>,
    system: &System,
    class: &Class,
    creator: &Name,
) -> Result<(), ClassFault>
    ensures tests { OnOk result (map root_of tests.new.items
        ≡ map root_of tests.old.items ++ spec.test_if_any (system_of system.now) (class_of class.now) (name_of creator.now)) }
    ensures fault { IfErr result (IsAtFaultFor (system_of system.now)) }
{
    if !creator.as_str().as_bytes().starts_with(b"test") {
        return Ok(());
    }
    let root = Root {
        class: String::from_str(alloc, class.name.as_str())?,
        procedure: String::from_str(alloc, creator.as_str())?,
    };
    if can_run_from(alloc, system, &root)? {
        push_root(tests, root)?;
    }
    Ok(())
}

/// Adds the root of a test.
fn push_root(tests: &mut Vec<Root>, root: Root) -> Result<(), AllocError>
    ensures { OnOk result (tests.new.items ≡ tests.old.items ++ root ∷ []) }
{
    tests.push(root)?;
    Ok(())
}

/// Whether a system can be run from this root.
fn can_run_from(alloc: Global, system: &System, root: &Root) -> Result<bool, ClassFault>
    ensures root { IfOk result (λ can. can ≡ class_rules.has_root (system_of system.now) (root_of root.now)) }
    ensures fault { IfErr result (IsAtFaultFor (system_of system.now)) }
{
    match tables(alloc, system, root) {
        Ok(_) => Ok(true),
        Err(ClassFault::NoRoot) => Ok(false),
        Err(fault) => Err(fault),
    }
}
