//! The code of what has no parts, and what follows the operand of an object test.

ghost use Rattle.std.specs.Prelude.{◌≡◌, ◌+◌, ◌++◌, ◌∷◌, [], IfOk, OnOk, Some, length, map, slice_get};
ghost use Rattle.std.specs.Option.{option_map};
ghost use Rattle.sc_tree.specs.View.{name_of, type_if_any};
ghost use Rattle.sc_class.specs.SystemIn.{system_in};
ghost use Rattle.sc_rules.specs.entity_types.Conformance.{boolean, integer, void};
ghost use Rattle.sc_rules.specs.Names as rules;
ghost use Rattle.sc_typing.specs.Views.{entity_of};
ghost use Rattle.sc_code.specs.Emitted as emitted;
ghost use Rattle.sc_code.specs.Operations as plain;
ghost use Rattle.sc_routines.specs.Parts as parts;
ghost use Rattle.sc_code.specs.Places as places;
ghost use Rattle.sc_routines.specs.Named.{own_named};
ghost use Rattle.sc_routines.specs.Settings.{setting_in};
ghost use Rattle.sc_routines.specs.Told.{told_of_leaf, type_behind};
ghost use Rattle.sc_routines.specs.Unlinked.{unlinked};
ghost use Rattle.sc_code.specs.View.{tested_of};

use crate::calls::known_type;
use crate::code::Code;
use crate::known_names::tested_type;
use crate::lowered::Lowered;
use crate::own_feature::OwnFeature;
use crate::setting::Setting;
use crate::sums::sum;
use crate::unlinked::UnlinkedOperation;
use sc_code::{SiteKind, TestedType, TextSite};
use sc_rules::Role;
use sc_rules::entity_types::EntityType;
use sc_text::Span;
use sc_tree::{DeclaredType, Name};
use sc_typing::{Entity, Meaning};
use std::alloc::AllocError;

/// The result of lowering a leaf whose value has this type, if that is known.
pub fn leaf(value: Option<EntityType>, olds: usize) -> Lowered
    ensures { result ≡ record { value = value; depth = 1; olds = olds; slots = 0 } }
{
    Lowered {
        value,
        depth: 1,
        olds,
        slots: 0,
    }
}

/// Adds the operation of a constant or of Current, whose value is of this type.
fn push_leaf<'s>(
    code: &mut Code<'s>,
    span: Span,
    operation: UnlinkedOperation<'s>,
    value: EntityType,
    olds: usize,
) -> Result<Lowered, AllocError>
    ensures code { OnOk result (code.new ≡ code.old ++ unlinked operation.entry ∷ []) }
    ensures told { IfOk result (λ l. l ≡ told_of_leaf (Some value) olds) }
{
    let kind = SiteKind::Constant;
    code.push(TextSite { span, kind }, operation)?;
    Ok(leaf(Some(value), olds))
}

/// Adds that an integer is pushed.
pub fn push_integer(
    code: &mut Code,
    span: Span,
    value: i64,
    olds: usize,
) -> Result<Lowered, AllocError>
    ensures code { OnOk result (code.new ≡ code.old ++ plain.PushInteger value ∷ []) }
    ensures told { IfOk result (λ l. l ≡ told_of_leaf (Some integer) olds) }
{
    let operation = UnlinkedOperation::PushInteger(value);
    push_leaf(code, span, operation, EntityType::integer(), olds)
}

/// Adds that a truth value is pushed.
pub fn push_boolean(
    code: &mut Code,
    span: Span,
    value: bool,
    olds: usize,
) -> Result<Lowered, AllocError>
    ensures code { OnOk result (code.new ≡ code.old ++ plain.PushBoolean value ∷ []) }
    ensures told { IfOk result (λ l. l ≡ told_of_leaf (Some boolean) olds) }
{
    let operation = UnlinkedOperation::PushBoolean(value);
    push_leaf(code, span, operation, EntityType::boolean(), olds)
}

/// Adds that Void is pushed.
pub fn push_void(code: &mut Code, span: Span, olds: usize) -> Result<Lowered, AllocError>
    ensures code { OnOk result (code.new ≡ code.old ++ plain.PushVoid ∷ []) }
    ensures told { IfOk result (λ l. l ≡ told_of_leaf (Some void) olds) }
{
    let operation = UnlinkedOperation::PushVoid;
    push_leaf(code, span, operation, EntityType::void(), olds)
}

/// Adds a type, if it is known.
pub fn push_type(types: &mut Vec<EntityType>, value: Option<EntityType>) -> Result<(), AllocError>
    ensures { OnOk result (types.new.items ≡ types.old.items ++ places.with_type value []) }
{
    if let Some(value) = value {
        types.push(value)?;
    }
    Ok(())
}

/// Adds that the entity in the slot is read, if its type is known.
pub fn push_slot(
    code: &mut Code,
    site: TextSite,
    slot: usize,
    value: Option<EntityType>,
) -> Result<(), AllocError>
    ensures { OnOk result (code.new ≡ code.old ++ parts.slot_code slot value) }
{
    match value {
        None => Ok(()),
        Some(value) => code.push(
            site,
            UnlinkedOperation::PushSlot {
                slot,
                is_attached: value.attached,
            },
        ),
    }
}

/// Adds that an attribute of Current is read, if its type is known.
pub fn push_attribute<'s>(
    code: &mut Code<'s>,
    site: TextSite,
    name: &'s str,
    value: Option<EntityType>,
) -> Result<(), AllocError>
    ensures { OnOk result (code.new ≡ code.old ++ emitted.attribute_code name.now value) }
{
    match value {
        None => Ok(()),
        Some(value) => code.push(
            site,
            UnlinkedOperation::PushAttribute {
                name,
                is_attached: value.attached,
            },
        ),
    }
}

impl<'t, 's> Setting<'t, 's> {
    /// Adds that Current is pushed.
    pub fn push_current(
        &self,
        olds: usize,
        code: &mut Code<'s>,
        span: Span,
    ) -> Result<Lowered, AllocError>
        ensures code { OnOk result (code.new ≡ code.old ++ plain.PushCurrent ∷ []) }
        ensures told { IfOk result (λ l. l ≡ told_of_leaf (Some (rules.current (places.here (setting_in self.now)))) olds) }
    {
        let operation = UnlinkedOperation::PushCurrent;
        push_leaf(code, span, operation, self.context.current(), olds)
    }

    /// Adds that Result is read.
    pub fn lower_result(
        &self,
        olds: usize,
        code: &mut Code<'s>,
        span: Span,
    ) -> Result<Lowered, AllocError>
        ensures code { OnOk result (code.new ≡ code.old ++ emitted.result_code self.now.result) }
        ensures told { IfOk result (λ l. l ≡ record { value = places.known_type self.now.context.result; depth = 1; olds = olds; slots = 0 }) }
    {
        if let Some(value) = self.result {
            let kind = SiteKind::Result;
            let is_attached = value.attached;
            let operation = UnlinkedOperation::PushResult { is_attached };
            code.push(TextSite { span, kind }, operation)?;
        }
        Ok(leaf(known_type(self.context.result), olds))
    }

    /// Adds that the next `old` is read.
    pub fn lower_old(
        &self,
        olds: usize,
        code: &mut Code<'s>,
        span: Span,
    ) -> Result<Lowered, AllocError>
        ensures code { OnOk result (code.new ≡ code.old ++ plain.PushOld olds ∷ []) }
        ensures told { IfOk result (λ l. l ≡ record { value = slice_get self.now.olds.items olds; depth = 1; olds = olds + 1; slots = 0 }) }
    {
        let kind = SiteKind::Old;
        code.push(TextSite { span, kind }, UnlinkedOperation::PushOld(olds))?;
        Ok(leaf(self.olds.get(olds).copied(), sum(olds, 1)?))
    }

    /// What a name of the class is.
    pub fn own_feature(&self, name: &str) -> OwnFeature
        ensures { result ≡ own_named (setting_in self.now) name.now }
    {
        match self.context.qualified_meaning(self.context.current(), name) {
            Meaning::Unknown | Meaning::TargetUntyped => OwnFeature::Unknown,
            Meaning::Named(signature) => {
                let given = known_type(signature.gives);
                match signature.routine {
                    None => OwnFeature::Attribute(given),
                    Some(_) => OwnFeature::Routine(given),
                }
            }
        }
    }

    /// The type of the feature of this name after a target of this type, if both are known.
    pub fn feature_type(&self, name: &str, target: Option<EntityType>) -> Option<EntityType>
        ensures { result ≡ type_behind (system_in self.now.context.tables.now) name.now target }
    {
        match self.context.qualified_meaning(target?, name) {
            Meaning::Unknown | Meaning::TargetUntyped => None,
            Meaning::Named(signature) => known_type(signature.gives),
        }
    }

    /// The type that an object test tests for, or any object if no type is named.
    fn tested(&self, names: &[Entity], declared: &Option<DeclaredType>) -> Option<TestedType>
        ensures { option_map tested_of result ≡ emitted.tested (setting_in self.now) (map entity_of names.now) (type_if_any declared.now) }
    {
        match declared {
            None => None,
            Some(_) => match self.context.test_type(declared, None) {
                None => None,
                Some(asked) => Some(tested_type(names, asked)),
            },
        }
    }

    /// The type of the name of an object test.
    fn test_type(
        &self,
        declared: &Option<DeclaredType>,
        tested: Option<EntityType>,
    ) -> Option<EntityType>
        ensures { result ≡ rules.test_type (places.here (setting_in self.now)) (type_if_any declared.now) tested }
    {
        self.context.test_type(declared, tested)
    }

    /// Adds an object test after its operand, and brings its name into scope.
    pub fn close_test(
        &self,
        names: &mut Vec<Entity<'s>>,
        code: &mut Code<'s>,
        span: Span,
        declared: &Option<DeclaredType>,
        name: &'s Name,
        tested: Lowered,
    ) -> Result<Lowered, AllocError>
        ensures code { OnOk result (code.new ≡ code.old ++ parts.test_code (setting_in self.now)
            (map entity_of names.old.items) (type_if_any declared.now) (length names.old.items)) }
        ensures names { OnOk result (map entity_of names.new.items ≡ parts.with_tested (setting_in self.now)
            (type_if_any declared.now) tested.value (name_of name.now).text (map entity_of names.old.items)) }
        ensures told { IfOk result (λ l. l ≡ record { value = Some boolean; depth = tested.depth; olds = tested.olds; slots = length names.old.items + 1 }) }
    {
        let kind = SiteKind::ObjectTest;
        code.push(
            TextSite { span, kind },
            UnlinkedOperation::Test {
                tested: self.tested(names, declared),
                slot: names.len(),
            },
        )?;
        names.push(Entity {
            name: name.as_str(),
            entity_type: self.test_type(declared, tested.value),
            role: Role::Test,
        })?;
        Ok(Lowered {
            value: Some(EntityType::boolean()),
            depth: tested.depth,
            olds: tested.olds,
            slots: names.len(),
        })
    }
}
