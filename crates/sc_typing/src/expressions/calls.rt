//! Calls: what is judged at the target and at the name (ECMA-367, 8.7, 8.22 and 8.23).

ghost use Rattle.std.specs.Prelude.{◌≡◌, ◌&&◌, map, not};
ghost use Rattle.std.specs.Option.{option_map};
ghost use Rattle.sc_tree.specs.Plain as plain;
ghost use Rattle.sc_tree.specs.View.{target_of};
ghost use Rattle.sc_class.specs.View.{entry_of};
ghost use Rattle.sc_rules.specs.Names as names;
ghost use Rattle.sc_rules.specs.Typing as spec;
ghost use Rattle.sc_rules.specs.Judging as judging;
ghost use Rattle.sc_typing.specs.Views.{routine_in, formals_in, actual_in, meaning_in, signature_in, typing_of};
ghost use Rattle.sc_class.specs.SystemIn.{system_in};
ghost use Rattle.sc_typing.specs.Judges as judges;
ghost use Rattle.sc_typing.specs.Judges.{Judges, Passes};

use crate::declarations::types::is_controlled_tag;
use crate::expressions::actuals::count;
use crate::expressions::positions::wants_pure;
use crate::expressions::typing::{JudgedActual, Typing, is_either_separate, is_foreign_type};
use crate::fault::{CheckFault, refusal, required};
use crate::routine_context::{Formals, Meaning, RoutineContext, Signature};
use sc_class::FeatureEntry;
use sc_rules::entity_types::EntityType;
use sc_rules::{Context, Rule, Use};
use sc_text::Span;
use sc_tree::Expr;

/// A target that has a type is attached and controlled.
fn judge_target(span: Span, target: Option<EntityType>) -> Result<(), CheckFault>
    ensures { Passes (judging.judge_target span target) result }
{
    match target {
        None => Ok(()),
        Some(target) => {
            required(target.attached, Rule::TargetDetachable, span)?;
            required(
                is_controlled_tag(target.tag),
                Rule::TargetUncontrolled,
                span,
            )
        }
    }
}

/// What is found of a target, as what is called sees it: a call on one that isn't of the current handler is separate.
pub fn judge_receiver(span: Span, target: Typing) -> Result<Typing, CheckFault>
    ensures { Judges typing_of (judges.judge_received span (typing_of target)) result }
{
    judge_target(span, target.entity_type)?;
    Ok(Typing {
        entity_type: target.entity_type,
        is_separate: is_either_separate(target.is_separate, is_foreign_type(target.entity_type)),
    })
}

/// A query is a value, a procedure an instruction.
fn judge_use(
    usage: Use,
    gives: Option<Option<EntityType>>,
    span: Span,
) -> Result<Option<EntityType>, CheckFault>
    ensures { Judges (λ t. t) (judging.judge_use usage gives span) result }
{
    match usage {
        Use::Value => match gives {
            None => Err(refusal(Rule::ResultType, span)),
            Some(given) => Ok(given),
        },
        Use::Instruction => match gives {
            None => Ok(None),
            Some(_) => Err(refusal(Rule::ResultType, span)),
        },
    }
}

/// Whether there is a target before a dot.
fn is_qualified(target: &Option<Box<Expr>>) -> bool
    ensures { result ≡ names.is_qualified (target_of target.now) }
{
    match target {
        None => false,
        Some(_) => true,
    }
}

/// Whether a feature may be called there: on a target a secret one may not.
fn is_exported_to(target: &Option<Box<Expr>>, is_secret: bool) -> bool
    ensures { result ≡ not (names.is_qualified (target_of target.now) && is_secret) }
{
    !(is_qualified(target) && is_secret)
}

/// The place of a call, and how it is used.
#[derive(Drop)]
pub struct CallContext<'a> {
    pub context: Context,
    pub usage: Use,
    /// The target, if there is one before a dot.
    pub target: &'a Option<Box<Expr>>,
    /// The place of its name.
    pub span: Span,
}

/// The formals of what is called.
fn formals_of<'s>(meaning: &Meaning<'s>) -> Formals<'s>
    ensures { (s : plain.System) → formals_in s result ≡ judging.formals_of (meaning_in s meaning.now) }
{
    match meaning {
        Meaning::Unknown | Meaning::TargetUntyped => Formals::Declared(&[]),
        Meaning::Named(signature) => signature.formals,
    }
}

impl<'t, 's> RoutineContext<'t, 's> {
    /// The type of the target as what is called sees it.
    fn target_of(&self, meaning: &Meaning) -> EntityType
        ensures { (s : plain.System) → result ≡ judging.target_of (routine_in self.now) (meaning_in s meaning.now) }
    {
        match meaning {
            Meaning::Unknown | Meaning::TargetUntyped => self.current(),
            Meaning::Named(signature) => signature.target,
        }
    }

    /// Whether it may be called there: contracts, `check` and `old` call pure functions alone.
    #[tactic(auto, unfolding(sc_tree::specs::View::feature_of))]
    fn may_call(&self, context: Context, routine: Option<FeatureEntry>) -> bool
        ensures { result ≡ spec.may_call (routine_in self.now) context
            (option_map (λ e. names.routine_of (entry_of e)) routine.entry) }
    {
        match routine {
            None => true,
            Some(entry) => {
                !wants_pure(context)
                    || self
                        .purity
                        .is_pure(entry.class, entry.feature.name.as_str())
            }
        }
    }

    /// Judges the name of a call with this number of actuals, if it has this signature.
    fn judge_signature(
        &self,
        site: &CallContext,
        signature: &Signature,
        actuals: usize,
    ) -> Result<Option<EntityType>, CheckFault>
        ensures { Judges (λ t. t) (judging.judge_name (routine_in self.now) site.now.context site.now.usage
            (target_of site.now.target.now) (names.named (signature_in (system_in self.now.tables.now) signature.now))
            actuals site.now.span) result }
    {
        let span = site.span;
        required(actuals == count(signature.formals), Rule::WrongArity, span)?;
        let given = judge_use(site.usage, signature.gives, span)?;
        required(
            self.may_call(site.context, signature.routine),
            Rule::ImpureContract,
            span,
        )?;
        required(
            is_exported_to(site.target, signature.is_secret),
            Rule::NotExported,
            span,
        )?;
        Ok(given)
    }

    /// Judges the name of a call with this number of actuals.
    fn judge_name(
        &self,
        site: &CallContext,
        meaning: &Meaning,
        actuals: usize,
    ) -> Result<Option<EntityType>, CheckFault>
        ensures { Judges (λ t. t) (judging.judge_name (routine_in self.now) site.now.context site.now.usage
            (target_of site.now.target.now) (meaning_in (system_in self.now.tables.now) meaning.now) actuals
            site.now.span) result }
    {
        match meaning {
            Meaning::Unknown => Err(refusal(Rule::UnknownName, site.span)),
            Meaning::TargetUntyped => Ok(None),
            Meaning::Named(signature) => self.judge_signature(site, signature, actuals),
        }
    }

    /// Judges the actuals and the name of a call, where this is meant and its target is this receiver.
    pub fn judge_actuals_and_name(
        &self,
        site: &CallContext,
        meaning: &Meaning,
        found: &[JudgedActual],
        receiver: Typing,
    ) -> Result<Typing, CheckFault>
        ensures { Judges typing_of (judging.judge_actuals_and_name (routine_in self.now) site.now.context
            site.now.usage (target_of site.now.target.now) (meaning_in (system_in self.now.tables.now) meaning.now)
            site.now.span (map actual_in found.now) (typing_of receiver)) result }
    {
        let is_separate = self.judge_actuals(
            site.context,
            receiver.entity_type,
            self.target_of(meaning),
            formals_of(meaning),
            found,
        )?;
        let entity_type = self.judge_name(site, meaning, found.len())?;
        Ok(Typing {
            entity_type,
            is_separate: is_either_separate(receiver.is_separate, is_separate),
        })
    }
}
