//! Features and classes: the first rule that fails (ECMA-367, 8.5, 8.8 and 8.20).

ghost use Rattle.std.specs.Prelude.{◌≡◌, map};
ghost use Rattle.sc_tree.specs.Plain as plain;
ghost use Rattle.sc_tree.specs.View.{clause_of, class_of, declaration_of, feature_of, instrs_of, kind_of, name_of, routine_of, type_if_any};
ghost use Rattle.sc_rules.specs.Names as spec;
ghost use Rattle.sc_rules.specs.SystemRules as rules;
ghost use Rattle.sc_rules.specs.Judging as judging;
ghost use Rattle.sc_rules.specs.JudgingSystem as judging_system;
ghost use Rattle.sc_typing.specs.Marks.{is_marked};
ghost use Rattle.sc_typing.specs.Views.{routine_in};
ghost use Rattle.sc_class.specs.SystemIn.{system_in};
ghost use Rattle.sc_typing.specs.Judges.{Passes};
ghost use Rattle.sc_check.specs.Internal.Parts as parts;

use crate::declarations::formulas::{clause_span, judge_form, may_be_formula};
use crate::instructions::conditions::{judge_clause, judge_clauses};
use crate::instructions::judge_instructions;
use sc_class::{ClassId, Tables};
use sc_rules::{Context, Rule};
use sc_tree::{
    Class, Clause, Declaration, DeclaredType, Feature, FeatureKind, Instr, Name, Routine,
};
use sc_typing::{
    CheckFault, Purity, RoutineContext, add_formals, add_locals, judge_type, refusal, required,
    result_type,
};
use std::alloc::Global;

pub mod formulas;

/// The class whose text is judged, by its number, with the tables of its system and the marks of pure functions.
#[derive(Drop)]
pub struct ClassText<'t, 's> {
    pub alloc: Global,
    pub tables: &'t Tables<'s>,
    pub purity: &'t Purity<'t, 's>,
    pub class: usize,
}

/// Judges the types of declarations, one after the other, whose tags may name these formals.
fn judge_declarations(
    tables: &Tables,
    formals: &[Declaration],
    declarations: &[Declaration],
) -> Result<(), CheckFault>
    ensures { Passes (judging_system.judge_declarations (system_in tables.now) (map declaration_of formals.now)
        (map declaration_of declarations.now)) result }
{
    for declaration in declarations {
        judge_type(tables, formals, &declaration.declared_type)?;
    }
    Ok(())
}

/// Judges the type of Result, if one is declared.
fn judge_result_type(tables: &Tables, declared: &Option<DeclaredType>) -> Result<(), CheckFault>
    ensures { Passes (judging_system.judge_result_type (system_in tables.now) (type_if_any declared.now)) result }
{
    match declared {
        None => Ok(()),
        Some(declared) => judge_type(tables, &[], declared),
    }
}

/// Whether it is an attribute or a function.
#[tactic(auto, unfolding(sc_tree::specs::View::kind_of))]
fn is_query(kind: &FeatureKind) -> bool
    ensures { result ≡ rules.is_query (kind_of kind.now) }
{
    match kind {
        FeatureKind::Attribute(_) => true,
        FeatureKind::Routine(routine) => match &routine.result_type {
            None => false,
            Some(_) => true,
        },
    }
}

/// Judges the text of a routine after its types: precondition, locals, body and postcondition.
fn judge_text<'s>(
    routine: &RoutineContext<'_, 's>,
    precondition: &[Clause],
    locals: &'s [Declaration],
    body: &'s [Instr],
    postcondition: &[Clause],
) -> Result<(), CheckFault>
    ensures { Passes (parts.judge_text (routine_in routine.now) (map clause_of precondition.now)
        (map declaration_of locals.now) (instrs_of body.now) (map clause_of postcondition.now)) result }
{
    let mut names = Vec::new(routine.alloc);
    add_formals(routine.tables, routine.formals, &mut names)?;
    judge_clauses(routine, Context::Require, &names, precondition)?;
    judge_declarations(routine.tables, routine.formals, locals)?;
    let known = names.len();
    add_locals(routine.tables, routine.formals, locals, &mut names)?;
    judge_instructions(routine, &mut names, body)?;
    names.truncate(known);
    judge_clauses(routine, Context::Ensure, &names, postcondition)
}

impl<'t, 's> ClassText<'t, 's> {
    /// A routine of the class with these formals and this result type.
    fn context(
        &self,
        formals: &'s [Declaration],
        declared: &Option<DeclaredType>,
    ) -> RoutineContext<'t, 's>
        ensures { routine_in result
            ≡ spec.routine_context (system_in self.now.tables.now) (is_marked self.now.purity.now) self.now.class
            (map declaration_of formals.now) (type_if_any declared.now) }
    {
        RoutineContext {
            alloc: self.alloc,
            tables: self.tables,
            class: self.class,
            formals,
            result: result_type(self.tables, declared),
            purity: self.purity,
        }
    }

    /// Judges a routine: its types, precondition, locals, body and postcondition.
    #[tactic(auto, unfolding(sc_tree::specs::View::kind_of))]
    fn judge_routine(&self, declared: &'s Routine) -> Result<(), CheckFault>
        ensures { Passes (judging_system.judge_feature (system_in self.now.tables.now) (is_marked self.now.purity.now)
            self.now.class (plain.Routine (routine_of declared.now))) result }
    {
        judge_declarations(self.tables, &declared.formals, &declared.formals)?;
        judge_result_type(self.tables, &declared.result_type)?;
        let routine = self.context(&declared.formals, &declared.result_type);
        judge_text(
            &routine,
            &declared.precondition,
            &declared.locals,
            &declared.body,
            &declared.postcondition,
        )
    }

    /// Judges a feature.
    #[tactic(auto, unfolding(sc_tree::specs::View::kind_of))]
    fn judge_feature(&self, kind: &'s FeatureKind) -> Result<(), CheckFault>
        ensures { Passes (judging_system.judge_feature (system_in self.now.tables.now) (is_marked self.now.purity.now)
            self.now.class (kind_of kind.now)) result }
    {
        match kind {
            FeatureKind::Attribute(declared) => judge_type(self.tables, &[], declared),
            FeatureKind::Routine(routine) => self.judge_routine(routine),
        }
    }

    /// Judges a clause of the invariant.
    #[tactic(auto, unfolding(sc_tree::specs::View::clause_of))]
    pub fn judge_invariant(&self, clause: &Clause) -> Result<(), CheckFault>
        ensures { Passes (judging_system.judge_invariant (system_in self.now.tables.now)
            (is_marked self.now.purity.now) self.now.class (clause_of clause.now)) result }
    {
        let is_formula = may_be_formula(self.tables, self.class, &clause.condition);
        let routine = self.context(&[], &None);
        let judged = judge_clause(&routine, Context::Invariant, &[], clause);
        judge_form(is_formula, clause_span(clause), judged)
    }

    /// Judges a name that the class lists under `create`.
    #[tactic(auto, unfolding(sc_tree::specs::View::feature_of))]
    pub fn judge_creator(&self, name: &Name) -> Result<(), CheckFault>
        ensures { Passes (judging_system.judge_creator (system_in self.now.tables.now) self.now.class
            (name_of name.now)) result }
    {
        match self
            .tables
            .feature(ClassId::Declared(self.class), name.as_str())
        {
            None => Err(refusal(Rule::UnknownName, name.span)),
            Some(entry) => { required(!is_query(&entry.feature.kind), Rule::ResultType, name.span) }
        }
    }

    /// Judges the names that the class lists under `create`, one after the other.
    fn judge_creators(&self, names: &[Name]) -> Result<(), CheckFault>
        ensures { Passes (judging.judge_each (judging_system.judge_creator (system_in self.now.tables.now)
            self.now.class) (map name_of names.now)) result }
    {
        for name in names {
            self.judge_creator(name)?;
        }
        Ok(())
    }

    /// Judges the features of the class, one after the other.
    #[tactic(auto, unfolding(sc_tree::specs::View::feature_of))]
    fn judge_features(&self, features: &'s [Feature]) -> Result<(), CheckFault>
        ensures { Passes (judging.judge_each (parts.judge_declared (system_in self.now.tables.now)
            (is_marked self.now.purity.now) self.now.class) (map feature_of features.now)) result }
    {
        for feature in features {
            self.judge_feature(&feature.kind)?;
        }
        Ok(())
    }

    /// Judges the clauses of the invariant, one after the other.
    fn judge_invariants(&self, clauses: &[Clause]) -> Result<(), CheckFault>
        ensures { Passes (judging.judge_each (judging_system.judge_invariant (system_in self.now.tables.now)
            (is_marked self.now.purity.now) self.now.class) (map clause_of clauses.now)) result }
    {
        for clause in clauses {
            self.judge_invariant(clause)?;
        }
        Ok(())
    }

    /// Judges the text of the class: its `create` list, its features, then its invariant.
    #[tactic(auto, unfolding(sc_tree::specs::View::class_of))]
    pub fn judge_class(&self, text: &'s Class) -> Result<(), CheckFault>
        ensures { Passes (judging_system.judge_class (system_in self.now.tables.now) (is_marked self.now.purity.now)
            self.now.class (class_of text.now)) result }
    {
        self.judge_creators(&text.creators)?;
        self.judge_features(&text.features)?;
        self.judge_invariants(&text.invariant)
    }
}
