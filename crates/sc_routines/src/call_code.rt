//! Calls with no target.

ghost use Rattle.std.specs.Prelude.{◌≡◌, ◌+◌, ◌++◌, IfOk, OnOk, length, map, max};
ghost use Rattle.sc_tree.specs.View.{exprs_of, name_of};
ghost use Rattle.sc_class.specs.SystemIn.{system_in};
ghost use Rattle.sc_model.specs.Olds.{olds_of_each};
ghost use Rattle.sc_typing.specs.Views.{entity_of};
ghost use Rattle.sc_routines.specs.Named as named;
ghost use Rattle.sc_code.specs.Places as places;
ghost use Rattle.sc_routines.specs.Parts.{feature_call_code, routine_call_code};
ghost use Rattle.sc_routines.specs.Settings.{setting_in};
ghost use Rattle.sc_routines.specs.Told.{told_of_feature_call, told_of_leaf, type_behind};

use crate::code::Code;
use crate::known_names::slot_named;
use crate::leaves::{leaf, push_attribute, push_slot};
use crate::lowered::{Lowered, LoweredActuals};
use crate::olds::olds_in_each;
use crate::own_feature::OwnFeature;
use crate::setting::Setting;
use crate::sums::sum;
use crate::text_sites::call_site;
use sc_code::TextSite;
use sc_rules::entity_types::EntityType;
use sc_tree::Call;
use sc_typing::Entity;
use std::alloc::AllocError;

impl<'t, 's> Setting<'t, 's> {
    /// What the routine of Current gives that the name is of, if it is one.
    pub fn routine_named(&self, names: &[Entity], name: &str) -> Option<Option<EntityType>>
        ensures { result ≡ named.routine_given (places.slot_named name.now (map entity_of names.now)) (named.own_named (setting_in self.now) name.now) }
    {
        match slot_named(name, names) {
            Some(_) => None,
            None => match self.own_feature(name) {
                OwnFeature::Unknown | OwnFeature::Attribute(_) => None,
                OwnFeature::Routine(value) => Some(value),
            },
        }
    }

    /// Adds the reading of a name that is no routine, and returns its type.
    fn push_read(
        &self,
        names: &[Entity],
        code: &mut Code<'s>,
        site: TextSite,
        name: &'s str,
    ) -> Result<Option<EntityType>, AllocError>
        ensures code { OnOk result (code.new ≡ code.old ++ named.code_named (setting_in self.now) (map entity_of names.now) name.now) }
        ensures told { IfOk result (λ t. t ≡ named.type_named (setting_in self.now) (map entity_of names.now) name.now) }
    {
        if let Some((slot, value)) = slot_named(name, names) {
            push_slot(code, site, slot, value)?;
            return Ok(value);
        }
        match self.own_feature(name) {
            OwnFeature::Attribute(value) => {
                push_attribute(code, site, name, value)?;
                Ok(value)
            }
            OwnFeature::Unknown | OwnFeature::Routine(_) => Ok(None),
        }
    }

    /// Adds the code of a name that is no routine's. Actuals that it has aren't lowered.
    pub fn lower_read(
        &self,
        names: &[Entity],
        olds: usize,
        code: &mut Code<'s>,
        call: &'s Call,
    ) -> Result<Lowered, AllocError>
        ensures code { OnOk result (code.new ≡ code.old ++ named.code_named (setting_in self.now) (map entity_of names.now) (name_of call.now.name).text) }
        ensures told { IfOk result (λ l. l ≡ told_of_leaf (named.type_named (setting_in self.now) (map entity_of names.now) (name_of call.now.name).text)
            (olds + length (olds_of_each (exprs_of call.now.actuals.items)))) }
    {
        let value = self.push_read(names, code, call_site(call), call.name.as_str())?;
        let passed = olds_in_each(self.context.alloc, &call.actuals)?;
        Ok(leaf(value, sum(olds, passed)?))
    }

    /// Adds a call of a routine of Current after its actuals.
    pub fn close_routine_call(
        &self,
        code: &mut Code<'s>,
        call: &'s Call,
        value: Option<EntityType>,
        actuals: &LoweredActuals,
    ) -> Result<Lowered, AllocError>
        ensures code { OnOk result (code.new ≡ code.old ++ routine_call_code (setting_in self.now) call.now actuals.now.types.items) }
        ensures told { IfOk result (λ l. l ≡ record { value = value; depth = max 1 actuals.now.depth; olds = actuals.now.olds; slots = 0 }) }
    {
        let name = call.name.as_str();
        let site = call_site(call);
        self.push_routine_call(code, site, name, &actuals.types, call.actuals.len())?;
        Ok(Lowered {
            value,
            depth: actuals.depth.max(1),
            olds: actuals.olds,
            slots: 0,
        })
    }

    /// Adds a call of a feature after its target and its actuals.
    pub fn close_feature_call(
        &self,
        code: &mut Code<'s>,
        call: &'s Call,
        target: Lowered,
        actuals: &LoweredActuals,
    ) -> Result<Lowered, AllocError>
        ensures code { OnOk result (code.new ≡ code.old ++ feature_call_code (setting_in self.now) call.now target.value actuals.now.types.items) }
        ensures told { IfOk result (λ l. l ≡ told_of_feature_call
            (type_behind (system_in self.now.context.tables.now) (name_of call.now.name).text target.value) target actuals.now) }
    {
        let name = call.name.as_str();
        self.push_feature_call(
            code,
            call_site(call),
            name,
            target.value,
            &actuals.types,
            call.actuals.len(),
        )?;
        Ok(Lowered {
            value: self.feature_type(name, target.value),
            depth: target.depth.max(sum(actuals.depth, 1)?),
            olds: actuals.olds,
            slots: 0,
        })
    }
}
