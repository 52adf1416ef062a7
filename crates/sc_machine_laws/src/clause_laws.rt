//! Laws of evaluations by their parts, and of the steps that they are made of. Each is the contract of a function that
//! does nothing.
ghost use Rattle.sc_machine_laws.specs.Formulas.{FormulasAreSteps, InvariantsAreSteps};
ghost use Rattle.sc_machine_laws.specs.ClauseLaws.{AnswersAreLocal, EvaluationsAreLocal, EvaluationsMayAskMore, StepExtends, StepOfContract, StepKeepsNoOld, TextsAreWithoutOld, TextsAreWithoutTests, TrueEvaluationsHold};

/// A clause whose evaluation by its parts, text by text, ends with True holds in the world.
pub fn true_evaluations_hold()
    ensures { TrueEvaluationsHold }
{}

/// What a call gives depends on the objects of those handlers alone that may be asked.
pub fn answers_are_local()
    ensures { AnswersAreLocal }
{}

/// So does the evaluation of a clause.
pub fn evaluations_are_local()
    ensures { EvaluationsAreLocal }
{}

/// An evaluation stays one where more handlers may be asked.
pub fn evaluations_may_ask_more()
    ensures { EvaluationsMayAskMore }
{}

/// A step of a task without `old` doesn't depend on what follows it, nor on the values of `old`s.
pub fn steps_extend()
    ensures { StepExtends }
{}

/// Tasks without `old` leave such tasks.
pub fn steps_stay_without_old()
    ensures { StepKeepsNoOld }
{}

/// In an accepted system neither the body of a routine nor its precondition has an `old`.
pub fn texts_are_without_old()
    ensures { TextsAreWithoutOld }
{}

/// A step of a contract's task leads to such tasks and changes neither names nor Result nor objects. All that is seen
/// of it is a call, the start of the body, a refusal or a failure.
pub fn contracts_step()
    ensures { StepOfContract }
{}

/// In an accepted system no contract has an object test.
pub fn contracts_are_without_tests()
    ensures { TextsAreWithoutTests }
{}

/// An expression of a class invariant is a formula: its silent steps end with a truth value exactly if that is the
/// formula's truth over the attributes of Current, and in an overflow or a division by zero exactly if it has none.
/// They are steps of a text in which the attributes are read: none is hidden by an entity, or attached and still
/// Void.
pub fn formulas_are_steps()
    ensures { FormulasAreSteps }
{}

/// So an object meets its class invariant exactly where the steps of each clause, with the object as Current, end with
/// True.
pub fn invariants_are_steps()
    ensures { InvariantsAreSteps }
{}
