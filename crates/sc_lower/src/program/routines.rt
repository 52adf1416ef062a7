//! The code of all routines of a system.

ghost use Rattle.std.specs.Prelude.{◌≡◌, ◌≤◌, ◌<◌, ◌+◌, ◌++◌, None, IfErr, IfOk, IfSome, OnOk, length, map};
ghost use Rattle.std.specs.Option.{option_map, option_map_or};
ghost use Rattle.sc_tree.specs.View.{feature_of};
ghost use Rattle.sc_class.specs.SystemIn.{system_in};
ghost use Rattle.sc_class.specs.Tables.Features.{declared_in};
ghost use Rattle.sc_class.specs.View.{entry_of};
ghost use Rattle.sc_rules.specs.SystemRules.{WellFormed};
ghost use Rattle.sc_typing.specs.FeatureNumbers.{all_features};
ghost use Rattle.sc_lower.specs.declared.refusal.LoweringFault.TheVariants.{CodeTooLong};
ghost use Rattle.sc_code.specs.declared.program.RoutineCode.{RoutineCode};
ghost use Rattle.sc_lower.specs.Pools.{pool_in};
ghost use Rattle.sc_code.specs.Programs.{code_length, codes_of, routine_in};

use crate::link_tables::Linker;
use crate::program::routine_code::feature_code;
use crate::refusal::LoweringFault;
use sc_class::{FeatureEntry, Tables};
use sc_code::RoutineCode;
use sc_tree::Feature;
use std::alloc::{AllocError, Global};

/// The code of the features, and how many instructions it has.
#[derive(Drop)]
pub struct Routines {
    pub codes: Vec<Option<RoutineCode>>,
    pub instructions: u32,
}

/// Adds the features of the class at the number.
fn add_features<'s>(
    features: &mut Vec<FeatureEntry<'s>>,
    class: usize,
    declared: &'s [Feature],
) -> Result<(), AllocError>
    ensures { OnOk result (map entry_of features.new.items ≡ map entry_of features.old.items ++ map (declared_in class) (map feature_of declared.now)) }
{
    for feature in declared {
        features.push(FeatureEntry { class, feature })?;
    }
    Ok(())
}

/// All features, in the order of the text.
pub fn features_in_order<'s>(
    alloc: Global,
    tables: &Tables<'s>,
) -> Result<Vec<FeatureEntry<'s>>, AllocError>
    ensures { IfOk result (λ features. map entry_of features.items ≡ all_features (system_in tables.now)) }
{
    let classes = tables.classes();
    let mut features = Vec::new(alloc);
    for class in 0..classes.len() {
        add_features(&mut features, class, &classes[class].features)?;
    }
    Ok(features)
}

/// How many instructions the code of a feature has.
fn length_of(code: &Option<RoutineCode>) -> usize
    ensures { result ≡ option_map_or (λ (code : RoutineCode). length code.operations.items) code.now 0 }
{
    match code {
        None => 0,
        Some(code) => code.operations.len(),
    }
}

/// The number of instructions with `more` further ones, if there may be that many.
fn counted(instructions: u32, more: usize, most: u32) -> Option<u32>
    requires { instructions ≤ most }
    ensures counted { IfSome result (λ total. total ≡ instructions + more) }
    ensures fits { IfSome result (λ total. total ≤ most) }
    ensures too_many { result ≡ None → most < instructions + more }
{
    if more > (most - instructions) as usize {
        None
    } else {
        Some(instructions + more as u32)
    }
}

/// The code of the features of a system, if it has at most `most` instructions.
pub fn lower_routines<'s>(
    alloc: Global,
    tables: &Tables<'s>,
    linker: &mut Linker<'s>,
    features: &[FeatureEntry<'s>],
    most: u32,
) -> Result<Routines, LoweringFault>
    requires in_order { map entry_of features.now ≡ all_features (system_in tables.now) }
    requires well_formed { WellFormed (system_in tables.now) }
    ensures codes { let s = system_in tables.now in
        IfOk result (λ routines. map (option_map (routine_in (pool_in linker.new))) routines.codes.items ≡ codes_of s (all_features s)) }
    ensures instructions { IfOk result (λ routines. routines.instructions ≡ code_length (system_in tables.now)) }
    ensures fits { IfOk result (λ routines. routines.instructions ≤ most) }
    ensures too_long { IfErr result (λ refusal. refusal ≡ CodeTooLong → most < code_length (system_in tables.now)) }
{
    let mut codes = Vec::with_capacity(alloc, features.len())?;
    let mut instructions = 0;
    for entry in features {
        let code = feature_code(alloc, tables, linker, *entry)?;
        let Some(total) = counted(instructions, length_of(&code), most) else {
            return Err(LoweringFault::CodeTooLong);
        };
        instructions = total;
        codes.push(code)?;
    }
    Ok(Routines {
        codes,
        instructions,
    })
}
