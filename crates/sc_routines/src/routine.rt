//! A whole routine: its precondition, its `old`s, its locals' defaults, its body, its postcondition and its exit.

ghost use Rattle.std.specs.Prelude.{◌≡◌, ◌++◌, IfOk, OnOk, length, map};
ghost use Rattle.sc_tree.specs.View.{clause_of, declaration_of, type_if_any};
ghost use Rattle.sc_rules.specs.declared.entity_types.entity_type.EntityType.{EntityType};
ghost use Rattle.sc_typing.specs.Views.{entity_of};
ghost use Rattle.sc_class.specs.SystemIn.{system_in};
ghost use Rattle.sc_model.specs.Olds as model;
ghost use Rattle.sc_model.specs.Routines.{text_of};
ghost use Rattle.sc_code.specs.Emitted as emitted;
ghost use Rattle.sc_code.specs.Room.{routine_blocks, routine_olds};
ghost use Rattle.sc_routines.specs.Parts.{contract_code, own_code};
ghost use Rattle.sc_routines.specs.Settings.{setting_in, with_olds};
ghost use Rattle.sc_routines.specs.Sources.{source_in};
ghost use Rattle.sc_routines.specs.Told.{contract_depth, own_depth, own_slots};

use crate::calls::known_type;
use crate::code::Code;
use crate::instructions::needs::Needs;
use crate::routine::body::lower_body;
use crate::routine::olds::{lower_olds, olds_of_clauses};
use crate::routine::postcondition::lower_postcondition;
use crate::routine::precondition::lower_precondition;
use crate::routine::source::RoutineSource;
use crate::setting::Setting;
use crate::unlinked::UnlinkedOperation;
use sc_class::Tables;
use sc_code::{SiteKind, TextSite};
use sc_rules::entity_types::EntityType;
use sc_text::Span;
use sc_tree::{Clause, Routine};
use sc_typing::{Entity, Purity, RoutineContext, add_formals, result_type};
use std::alloc::{AllocError, Global};

pub mod body;
pub mod formals;
pub mod olds;
pub mod postcondition;
pub mod precondition;
pub mod source;

/// A routine in flat code whose names have no numbers yet.
#[derive(Drop)]
pub struct LoweredRoutine<'s> {
    pub code: Code<'s>,
    /// How many operands it needs at most.
    pub depth: usize,
    /// How many slots it needs.
    pub slots: usize,
    /// How many `old`s its postcondition has.
    pub olds: usize,
    /// How many of its separate blocks are open at once at most.
    pub blocks: usize,
}

/// What a routine needs.
#[derive(Clone, Copy)]
struct RoutineNeeds {
    depth: usize,
    slots: usize,
    olds: usize,
    blocks: usize,
}

/// What the part in front of a routine's locals needs.
#[derive(Clone, Copy)]
struct Opening {
    depth: usize,
    olds: usize,
}

/// Where a text of the routine is lowered, when these `old`s are kept.
fn setting_of<'t, 's>(
    alloc: Global,
    tables: &'t Tables<'s>,
    purity: &'t Purity<'t, 's>,
    source: &RoutineSource<'s>,
    class: usize,
    text: &'s Routine,
    olds: Vec<EntityType>,
) -> Setting<'t, 's>
    ensures { let s = system_in tables.now in setting_in result ≡ emitted.setting s (source_in s source.now)
        (text_of s class (map declaration_of text.now.formals.items) (type_if_any text.now.result_type)) olds.items }
{
    Setting {
        context: RoutineContext {
            alloc,
            tables,
            class,
            formals: &text.formals,
            result: result_type(tables, &text.result_type),
            purity,
        },
        result: known_type(result_type(tables, &source.routine.result_type)),
        olds,
    }
}

/// Lowers the precondition and the `old`s of the contract of the routine with this name. The types of the `old`s join
/// those of the setting.
fn lower_opening<'s>(
    setting: &mut Setting<'_, 's>,
    names: &mut Vec<Entity<'s>>,
    code: &mut Code<'s>,
    name: Span,
    precondition: &'s [Clause],
    postcondition: &'s [Clause],
) -> Result<Opening, AllocError>
    ensures code { let h = setting_in setting.old in let n = map entity_of names.old.items in
        OnOk result (code.new ≡ code.old ++ contract_code h n (map clause_of precondition.now) (map clause_of postcondition.now)) }
    ensures names { OnOk result (map entity_of names.new.items ≡ map entity_of names.old.items) }
    ensures setting { let h = setting_in setting.old in let n = map entity_of names.old.items in
        OnOk result (setting_in setting.new ≡ with_olds h n (model.olds_of_clauses (map clause_of postcondition.now))) }
    ensures depth { let h = setting_in setting.old in let n = map entity_of names.old.items in
        IfOk result (λ o. o.depth ≡ contract_depth h n (map clause_of precondition.now) (map clause_of postcondition.now)) }
    ensures olds { IfOk result (λ o. o.olds ≡ length (model.olds_of_clauses (map clause_of postcondition.now))) }
{
    let required = lower_precondition(setting, names, code, name, precondition)?;
    let olds = olds_of_clauses(setting.context.alloc, postcondition)?;
    let kept = lower_olds(setting, names, code, &olds)?;
    Ok(Opening {
        depth: required.max(kept),
        olds: olds.len(),
    })
}

/// Lowers a routine.
pub fn lower_routine<'s>(
    alloc: Global,
    tables: &Tables<'s>,
    source: &RoutineSource<'s>,
) -> Result<LoweredRoutine<'s>, AllocError>
    ensures code { let s = system_in tables.now in IfOk result (λ r. r.code ≡ emitted.routine_code s (source_in s source.now)) }
    ensures depth { let s = system_in tables.now in IfOk result (λ r. r.depth ≡ emitted.routine_depth s (source_in s source.now)) }
    ensures slots { let s = system_in tables.now in IfOk result (λ r. r.slots ≡ emitted.routine_slots s (source_in s source.now)) }
    ensures olds { let s = system_in tables.now in IfOk result (λ r. r.olds ≡ routine_olds (source_in s source.now)) }
    ensures blocks { let s = system_in tables.now in IfOk result (λ r. r.blocks ≡ routine_blocks (source_in s source.now)) }
{
    let purity = Purity::NotAsked;
    lower_source(alloc, tables, &purity, source)
}

/// Lowers a routine's text with a test of pure functions that is never used.
fn lower_source<'t, 's>(
    alloc: Global,
    tables: &'t Tables<'s>,
    purity: &'t Purity<'t, 's>,
    source: &RoutineSource<'s>,
) -> Result<LoweredRoutine<'s>, AllocError>
    ensures code { let s = system_in tables.now in IfOk result (λ r. r.code ≡ emitted.routine_code s (source_in s source.now)) }
    ensures depth { let s = system_in tables.now in IfOk result (λ r. r.depth ≡ emitted.routine_depth s (source_in s source.now)) }
    ensures slots { let s = system_in tables.now in IfOk result (λ r. r.slots ≡ emitted.routine_slots s (source_in s source.now)) }
    ensures olds { let s = system_in tables.now in IfOk result (λ r. r.olds ≡ routine_olds (source_in s source.now)) }
    ensures blocks { let s = system_in tables.now in IfOk result (λ r. r.blocks ≡ routine_blocks (source_in s source.now)) }
{
    let mut names = Vec::new(alloc);
    add_formals(tables, &source.routine.formals, &mut names)?;
    let mut code = Code::new(alloc);
    let needs = lower_texts(alloc, tables, purity, source, &mut names, &mut code)?;
    Ok(LoweredRoutine {
        code,
        depth: needs.depth,
        slots: needs.slots,
        olds: needs.olds,
        blocks: needs.blocks,
    })
}

/// Lowers the contract and the body of a routine whose formals are known, and its exit.
fn lower_texts<'t, 's>(
    alloc: Global,
    tables: &'t Tables<'s>,
    purity: &'t Purity<'t, 's>,
    source: &RoutineSource<'s>,
    names: &mut Vec<Entity<'s>>,
    code: &mut Code<'s>,
) -> Result<RoutineNeeds, AllocError>
    requires { let s = system_in tables.now in map entity_of names.old.items ≡ emitted.formals_of s (source_in s source.now) }
    ensures code { let s = system_in tables.now in OnOk result (code.new ≡ code.old ++ emitted.routine_code s (source_in s source.now)) }
    ensures depth { let s = system_in tables.now in IfOk result (λ n. n.depth ≡ emitted.routine_depth s (source_in s source.now)) }
    ensures slots { let s = system_in tables.now in IfOk result (λ n. n.slots ≡ emitted.routine_slots s (source_in s source.now)) }
    ensures olds { let s = system_in tables.now in IfOk result (λ n. n.olds ≡ routine_olds (source_in s source.now)) }
    ensures blocks { let s = system_in tables.now in IfOk result (λ n. n.blocks ≡ routine_blocks (source_in s source.now)) }
{
    let kept = source.contract;
    let none = Vec::new(alloc);
    let class = source.contract_class;
    let mut contract = setting_of(alloc, tables, purity, source, class, kept, none);
    let opening = lower_opening(
        &mut contract,
        names,
        code,
        source.span,
        &kept.precondition,
        &kept.postcondition,
    )?;
    let body = lower_own_text(alloc, tables, purity, source, &contract.olds, names, code)?;
    let closing = lower_postcondition(&contract, names, code, &kept.postcondition)?;
    let kind = SiteKind::End;
    let span = source.span;
    code.push(TextSite { span, kind }, UnlinkedOperation::Exit)?;
    Ok(RoutineNeeds {
        depth: opening.depth.max(body.depth.max(closing)),
        slots: body.slots,
        olds: opening.olds,
        blocks: body.blocks,
    })
}

/// Lowers the defaults of a routine's locals and its body, where its formals are known and `old`s of these types are kept.
fn lower_own_text<'t, 's>(
    alloc: Global,
    tables: &'t Tables<'s>,
    purity: &'t Purity<'t, 's>,
    source: &RoutineSource<'s>,
    olds: &[EntityType],
    names: &mut Vec<Entity<'s>>,
    code: &mut Code<'s>,
) -> Result<Needs, AllocError>
    ensures code { let s = system_in tables.now in let r = source_in s source.now in let n = map entity_of names.old.items in
        OnOk result (code.new ≡ code.old ++ own_code s r olds.now n) }
    ensures names { OnOk result (map entity_of names.new.items ≡ map entity_of names.old.items) }
    ensures depth { let s = system_in tables.now in let r = source_in s source.now in let n = map entity_of names.old.items in
        IfOk result (λ l. l.depth ≡ own_depth s r olds.now n) }
    ensures slots { let s = system_in tables.now in let r = source_in s source.now in let n = map entity_of names.old.items in
        IfOk result (λ l. l.slots ≡ own_slots s r olds.now n) }
    ensures blocks { let s = system_in tables.now in IfOk result (λ l. l.blocks ≡ routine_blocks (source_in s source.now)) }
{
    let own = source.routine;
    let olds = Vec::from_slice(alloc, olds)?;
    let inside = setting_of(alloc, tables, purity, source, source.class, own, olds);
    lower_body(&inside, names, code, &own.locals, &own.body)
}
