//! What the laws of regions rest on, each the contract of a function that does nothing.
ghost use Rattle.sc_refines_world.specs.regions.Laws.{NewStoresStand, ProgramsServe};

use sc_class::heir_laws::{features_differ, features_without_a_parent, found_features_stand};

/// The tables of a program serve its system, where that has no fault and its types are declared without fault.
pub fn programs_serve()
    ensures { ProgramsServe }
{
    features_without_a_parent();
    features_differ();
    found_features_stand();
}

/// A new store represents the half of a handler to which nothing was posted yet.
pub fn new_stores_stand()
    ensures { NewStoresStand }
{}
