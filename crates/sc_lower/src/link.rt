//! Links operations: what an operation names gets its number in the tables.

ghost use Rattle.std.specs.Prelude.{◌≡◌, ◌<◌, true, Some, IfOk, OnOk, map, slice_get};
ghost use Rattle.std.specs.Option.{option_map, option_copied};
ghost use Rattle.sc_lower.specs.Fitting.{AllFit, fits};
ghost use Rattle.sc_lower.specs.Pools.{pool_in, Grows, IsCallAt, IsCreationAt};
ghost use Rattle.sc_code.specs.View.{named, operation_of, test_of};
ghost use Rattle.sc_code.specs.Operations as plain;
ghost use Rattle.sc_code.specs.declared.site.Heads as heads;
ghost use Rattle.sc_routines.specs.Unlinked.{operation_in, unlinked, unlinked_call, unlinked_creation};

use crate::link_pools::add;
use crate::link_tables::Linker;
use sc_code::{
    CallSite, ClassNumber, CreationSite, Heads, NameNumber, ObjectTest, Operation, TestedType,
};
use sc_routines::{SitedOperation, UnlinkedCall, UnlinkedCreation, UnlinkedOperation};
use std::alloc::AllocError;

/// The number of a name.
#[tactic(auto, using(crate::proofs::Growth::growing))]
fn name<'s>(linker: &mut Linker<'s>, text: &'s str) -> Result<NameNumber, AllocError>
    ensures found { IfOk result (λ number. slice_get (pool_in linker.new).names number ≡ Some text.now) }
    ensures grows { OnOk result (Grows (pool_in linker.old) (pool_in linker.new)) }
{
    linker.names.number(text)
}

/// The number of a new text.
#[tactic(auto, using(crate::proofs::Growth::growing))]
fn text(linker: &mut Linker<'_>, text: &str) -> Result<usize, AllocError>
    ensures found { IfOk result (λ number. slice_get (pool_in linker.new).texts number ≡ Some text.now) }
    ensures grows { OnOk result (Grows (pool_in linker.old) (pool_in linker.new)) }
{
    let text = String::from_str(linker.alloc, text)?;
    add(&mut linker.texts, text)
}

/// The number of a new call.
#[tactic(auto, using(crate::proofs::Growth::growing))]
fn call<'s>(linker: &mut Linker<'s>, call: &UnlinkedCall<'s>) -> Result<usize, AllocError>
    requires { call.now.count < 17 }
    ensures found { IfOk result (λ number. IsCallAt number (pool_in linker.new) (unlinked_call call.now)) }
    ensures grows { OnOk result (Grows (pool_in linker.old) (pool_in linker.new)) }
{
    let name = name(linker, call.name)?;
    let site = CallSite {
        name,
        count: call.count,
        gives: call.gives,
        is_own: call.is_own,
        passes: call.passes,
    };
    add(&mut linker.calls, site)
}

/// The number of the name of a creation's procedure, if it has one.
#[tactic(auto, using(crate::proofs::Growth::growing))]
fn procedure<'s>(
    linker: &mut Linker<'s>,
    procedure: Option<&'s str>,
) -> Result<Option<NameNumber>, AllocError>
    ensures found { IfOk result (λ number. named (pool_in linker.new).names number ≡ Some (option_copied procedure.entry)) }
    ensures grows { OnOk result (Grows (pool_in linker.old) (pool_in linker.new)) }
{
    match procedure {
        None => Ok(None),
        Some(text) => Ok(Some(name(linker, text)?)),
    }
}

/// The number of a new creation.
#[tactic(auto, using(crate::proofs::Growth::growing))]
fn creation<'s>(
    linker: &mut Linker<'s>,
    creation: &UnlinkedCreation<'s>,
) -> Result<usize, AllocError>
    requires few_actuals { creation.now.count < 17 }
    requires small_class { creation.now.class < 256 }
    ensures found { IfOk result (λ number. IsCreationAt number (pool_in linker.new) (unlinked_creation creation.now)) }
    ensures grows { OnOk result (Grows (pool_in linker.old) (pool_in linker.new)) }
{
    let procedure = procedure(linker, creation.procedure)?;
    let site = CreationSite {
        class: creation.class as ClassNumber,
        procedure,
        count: creation.count,
        passes: creation.passes,
    };
    add(&mut linker.creations, site)
}

/// The number of a new object test.
#[tactic(auto, using(crate::proofs::Growth::growing))]
fn object_test(
    linker: &mut Linker<'_>,
    tested: Option<TestedType>,
    slot: usize,
) -> Result<usize, AllocError>
    ensures found { IfOk result (λ number. slice_get (pool_in linker.new).tests number ≡ Some (record { tested = tested; slot = slot })) }
    ensures grows { OnOk result (Grows (pool_in linker.old) (pool_in linker.new)) }
{
    add(&mut linker.tests, ObjectTest { tested, slot })
}

/// The number of a new list of formals.
#[tactic(auto, using(crate::proofs::Growth::growing))]
fn demand(linker: &mut Linker<'_>, formals: &[usize]) -> Result<usize, AllocError>
    ensures found { IfOk result (λ number. slice_get (pool_in linker.new).demands number ≡ Some formals.now) }
    ensures grows { OnOk result (Grows (pool_in linker.old) (pool_in linker.new)) }
{
    let formals = Vec::from_slice(linker.alloc, formals)?;
    add(&mut linker.demands, formals)
}

/// The number of a new separate block.
#[tactic(auto, using(crate::proofs::Growth::growing))]
fn block(linker: &mut Linker<'_>, first: usize, count: usize) -> Result<usize, AllocError>
    requires { count < 17 }
    ensures found { IfOk result (λ number. slice_get (pool_in linker.new).blocks number ≡ Some (record { first = first; count = count })) }
    ensures grows { OnOk result (Grows (pool_in linker.old) (pool_in linker.new)) }
{
    add(&mut linker.blocks, Heads { first, count })
}

/// Links an operation.
#[tactic(auto, using(crate::proofs::Growth::growing))]
fn link<'s>(
    linker: &mut Linker<'s>,
    operation: &UnlinkedOperation<'s>,
) -> Result<Operation, AllocError>
    requires { fits (unlinked operation.now) ≡ true }
    ensures linked { IfOk result (λ linked. operation_of (pool_in linker.new) linked ≡ Some (unlinked operation.now)) }
    ensures grows { OnOk result (Grows (pool_in linker.old) (pool_in linker.new)) }
{
    match operation {
        UnlinkedOperation::PushAttribute {
            name: text,
            is_attached,
        } => {
            let name = name(linker, text)?;
            Ok(Operation::PushAttribute {
                is_attached: *is_attached,
                name,
            })
        }
        UnlinkedOperation::Test { tested, slot } => Ok(Operation::Test(object_test(
            linker, *tested, *slot,
        )?)),
        UnlinkedOperation::CallRoutine(site) => Ok(Operation::CallRoutine(call(linker, site)?)),
        UnlinkedOperation::CallFeature(site) => Ok(Operation::CallFeature(call(linker, site)?)),
        UnlinkedOperation::StoreAttribute(text) => Ok(Operation::StoreAttribute(name(
            linker, text,
        )?)),
        UnlinkedOperation::PrintText(string) => Ok(Operation::PrintText(text(linker, string)?)),
        UnlinkedOperation::Demand(formals) => Ok(Operation::Demand(demand(linker, formals)?)),
        UnlinkedOperation::Create(site) => Ok(Operation::Create(creation(linker, site)?)),
        UnlinkedOperation::CreateHandler(site) => Ok(Operation::CreateHandler(creation(
            linker, site,
        )?)),
        UnlinkedOperation::Open { first, count } => Ok(Operation::Open(block(
            linker, *first, *count,
        )?)),
        UnlinkedOperation::PushInteger(number) => Ok(Operation::PushInteger(*number)),
        UnlinkedOperation::PushBoolean(truth) => Ok(Operation::PushBoolean(*truth)),
        UnlinkedOperation::PushVoid => Ok(Operation::PushVoid),
        UnlinkedOperation::PushCurrent => Ok(Operation::PushCurrent),
        UnlinkedOperation::PushResult { is_attached } => Ok(Operation::PushResult {
            is_attached: *is_attached,
        }),
        UnlinkedOperation::PushSlot { slot, is_attached } => Ok(Operation::PushSlot {
            is_attached: *is_attached,
            slot: *slot,
        }),
        UnlinkedOperation::PushOld(number) => Ok(Operation::PushOld(*number)),
        UnlinkedOperation::ApplyUnary(operator) => Ok(Operation::ApplyUnary(*operator)),
        UnlinkedOperation::ApplyBinary(operator) => Ok(Operation::ApplyBinary(*operator)),
        UnlinkedOperation::Decide { operator, passed } => Ok(Operation::Decide {
            operator: *operator,
            passed: *passed,
        }),
        UnlinkedOperation::Conclude => Ok(Operation::Conclude),
        UnlinkedOperation::StoreSlot(slot) => Ok(Operation::StoreSlot(*slot)),
        UnlinkedOperation::StoreResult => Ok(Operation::StoreResult),
        UnlinkedOperation::Initialize { slot, value } => Ok(Operation::Initialize {
            value: *value,
            slot: *slot,
        }),
        UnlinkedOperation::KeepOld => Ok(Operation::KeepOld),
        UnlinkedOperation::Print => Ok(Operation::Print),
        UnlinkedOperation::SkipIfFalse(passed) => Ok(Operation::SkipIfFalse(*passed)),
        UnlinkedOperation::Jump(passed) => Ok(Operation::Jump(*passed)),
        UnlinkedOperation::EndLoop(back) => Ok(Operation::EndLoop(*back)),
        UnlinkedOperation::Expect(why) => Ok(Operation::Expect(*why)),
        UnlinkedOperation::Start => Ok(Operation::Start),
        UnlinkedOperation::Leave => Ok(Operation::Leave),
        UnlinkedOperation::Exit => Ok(Operation::Exit),
    }
}

/// Links the operations of a routine.
pub fn link_all<'s>(
    linker: &mut Linker<'s>,
    code: &[SitedOperation<'s>],
) -> Result<Vec<Operation>, AllocError>
    requires { AllFit (map operation_in code.now) }
    ensures linked { IfOk result (λ operations. map (operation_of (pool_in linker.new)) operations.items ≡ map (λ o. Some (operation_in o)) code.now) }
    ensures grows { OnOk result (Grows (pool_in linker.old) (pool_in linker.new)) }
{
    let mut operations = Vec::with_capacity(linker.alloc, code.len())?;
    for sited in code {
        operations.push(link(linker, &sited.operation)?)?;
    }
    Ok(operations)
}
