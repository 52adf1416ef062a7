//! What is made of a source text: its check, its program and its canonical text.

ghost use Rattle.std.specs.Prelude.{◌≡◌, List, ℕ, IfErr, IfOk, IsOk, MatchResult, OnOk, Some, map};
ghost use Rattle.sc_tree.specs.Bare.{bare_system};
ghost use Rattle.sc_tree.specs.Plain as plain;
ghost use Rattle.sc_tree.specs.View.{system_of};
ghost use Rattle.sc_tree.specs.Canonical.{canonical_text};
ghost use Rattle.sc_class.specs.View.{root_of};
ghost use Rattle.sc_class.specs.SystemIn.{root_in, system_in};
ghost use Rattle.sc_check.specs.CheckedTables.{tables_of};
ghost use Rattle.sc_lower.specs.Lowerings.{image_of};
ghost use Rattle.sc_frontend.specs.Refusals as refusals;
ghost use Rattle.sc_frontend.specs.Texts.{AreAllOf, IsAccepted, IsAtFault, IsExamined, IsLoaded, IsNotRunFor, IsPrinted, IsRead, IsRefusedFor, IsRunnable, IsSound, IsSpelled, IsUnreadable, MustBeAccepted, MustBeRun};

use crate::refused::{Refused, by_classes, by_rule};
use crate::rejection::Rejection;
use sc_check::{Checked, check};
use sc_class::{ClassFault, Root, class_faults, tables};
use sc_code::Program;
use sc_faults::all_faults;
use sc_lower::lower;
use sc_parse::{let_go, parse};
use sc_rules::Fault;
use sc_text::lex;
use sc_tree::{System, print_system};
use std::alloc::{AllocError, Global};

/// Checks the system of a source text.
pub fn check_text(alloc: Global, text: &str, root: &Root) -> Result<(), Rejection>
    ensures accepted { IsOk result → IsAccepted text.now (root_of root.now) }
    ensures refused { IfErr result (IsRefusedFor text.now (root_of root.now)) }
    ensures complete { MustBeAccepted text.now (root_of root.now) → IfErr result (λ e. e ≡ Rejection.OutOfMemory) }
{
    let system = read(alloc, text)?;
    let answer = check_system(alloc, &system, root);
    let_go(system);
    answer
}

/// Checks each part of the system of a source text on its own: all reasons for which it is refused.
pub fn check_parts(alloc: Global, text: &str, root: &Root) -> Result<Vec<Refused>, Rejection>
    ensures listed { IfOk result (λ refused. IsExamined text.now (root_of root.now) refused.items) }
    ensures refused { IfErr result (IsUnreadable text.now) }
{
    let system = read(alloc, text)?;
    let answer = list_faults(alloc, &system, root);
    let_go(system);
    Ok(answer?)
}

/// Checks the system of a source text: its program.
pub fn load_text(alloc: Global, text: &str, root: &Root) -> Result<Program, Rejection>
    ensures loaded { IfOk result (λ program. IsLoaded text.now (root_of root.now) (image_of program)) }
    ensures refused { IfErr result (IsNotRunFor text.now (root_of root.now)) }
    ensures complete { MustBeRun text.now (root_of root.now) → IfErr result (λ e. e ≡ Rejection.OutOfMemory) }
{
    let system = read(alloc, text)?;
    let answer = load_system(alloc, &system, root);
    let_go(system);
    answer
}

/// The canonical text of the system of a source text, which isn't checked.
pub fn print_text(alloc: Global, text: &str) -> Result<Vec<u8>, Rejection>
    ensures printed { IfOk result (λ output. IsPrinted text.now output.items) }
    ensures refused { IfErr result (IsUnreadable text.now) }
    ensures complete { (tree : plain.System) → IsSpelled text.now tree
        → MatchResult result (λ output. output.items ≡ canonical_text tree) (λ e. e ≡ Rejection.OutOfMemory) }
{
    let system = read(alloc, text)?;
    let output = print_read(alloc, &system);
    let_go(system);
    output
}

/// The system of a source text.
fn read(alloc: Global, text: &str) -> Result<System, Rejection>
    ensures read { IfOk result (λ system. IsRead text.now (system_of system)) }
    ensures refused { IfErr result (IsUnreadable text.now) }
    ensures found { (tree : plain.System) → IsSpelled text.now tree
        → MatchResult result (λ system. bare_system (system_of system) ≡ tree) (λ e. e ≡ Rejection.OutOfMemory) }
{
    let tokens = lex(alloc, text)?;
    Ok(parse(alloc, tokens.as_slice())?)
}

/// The canonical text of the system.
fn print_read(alloc: Global, system: &System) -> Result<Vec<u8>, Rejection>
    ensures printed { IfOk result (λ output. output.items ≡ canonical_text (system_of system.now)) }
    ensures memory { IfErr result (λ e. e ≡ Rejection.OutOfMemory) }
{
    Ok(print_system(alloc, system)?)
}

/// Checks the system.
fn check_system(alloc: Global, system: &System, root: &Root) -> Result<(), Rejection>
    ensures sound { IsOk result → IsSound (system_of system.now) (root_of root.now) }
    ensures fault { IfErr result (IsAtFault (system_of system.now) (root_of root.now)) }
{
    match judge(alloc, system, root) {
        Ok(_) => Ok(()),
        Err(rejection) => Err(rejection),
    }
}

/// All reasons for which the system is refused: its class faults, or its faults by the rules if nothing is at fault in its
/// classes.
fn list_faults(alloc: Global, system: &System, root: &Root) -> Result<Vec<Refused>, AllocError>
    ensures { IfOk result (λ refused. AreAllOf (system_of system.now) (root_of root.now) refused.items) }
{
    match tables(alloc, system, root) {
        Ok(classes) => {
            let faults = all_faults(alloc, &classes)?;
            refused_by_rules(alloc, faults.as_slice())
        }
        Err(fault) => match fault {
            ClassFault::OutOfMemory => Err(AllocError),
            _ => {
                let faults = class_faults(alloc, system, root)?;
                refused_by_classes(alloc, faults.as_slice())
            }
        },
    }
}

/// The refusals for these class faults, in their order.
fn refused_by_classes(alloc: Global, faults: &[ClassFault]) -> Result<Vec<Refused>, AllocError>
    ensures { IfOk result (λ refused. map Some refused.items ≡ map refusals.by_classes faults.now) }
{
    let mut refused = Vec::new(alloc);
    for fault in faults {
        let Some(one) = by_classes(*fault) else {
            return Err(AllocError);
        };
        refused.push(one)?;
    }
    Ok(refused)
}

/// The refusals for these faults by the rules, in their order.
fn refused_by_rules(alloc: Global, faults: &[Fault]) -> Result<Vec<Refused>, AllocError>
    ensures { IfOk result (λ refused. refused.items ≡ map refusals.by_rule faults.now) }
{
    let mut refused = Vec::new(alloc);
    for fault in faults {
        refused.push(by_rule(*fault))?;
    }
    Ok(refused)
}

/// The program of the system, of whatever text it is.
fn load_system(alloc: Global, system: &System, root: &Root) -> Result<Program, Rejection>
    ensures loaded { (text : List ℕ) → IsRead text (system_of system.now)
        → IfOk result (λ program. IsLoaded text (root_of root.now) (image_of program)) }
    ensures refused { (text : List ℕ) → IsRead text (system_of system.now)
        → IfErr result (IsNotRunFor text (root_of root.now)) }
    ensures complete { IsRunnable (system_of system.now) (root_of root.now)
        → IfErr result (λ e. e ≡ Rejection.OutOfMemory) }
{
    let checked = judge(alloc, system, root)?;
    Ok(lower(alloc, checked)?)
}

/// The system, if it has no fault; else the fault: one of its classes first, then one in a class.
fn judge<'s>(alloc: Global, system: &'s System, root: &Root) -> Result<Checked<'s>, Rejection>
    ensures sound { OnOk result (IsSound (system_of system.now) (root_of root.now)) }
    ensures of_it { IfOk result (λ checked. system_in (tables_of checked) ≡ system_of system.now) }
    ensures rooted { IfOk result (λ checked. root_in (tables_of checked) ≡ root_of root.now) }
    ensures fault { IfErr result (IsAtFault (system_of system.now) (root_of root.now)) }
{
    let classes = tables(alloc, system, root)?;
    Ok(check(alloc, classes)?)
}
