//! The entities that are known in a part of a text.

ghost use Rattle.std.specs.Prelude.{◌≡◌, ◌++◌, IfOk, OnOk, map};
ghost use Rattle.sc_tree.specs.View.{declaration_of, routine_of};
ghost use Rattle.sc_class.specs.SystemIn.{system_in};
ghost use Rattle.sc_typing.specs.Views.{entity_of};
ghost use Rattle.sc_symbols.specs.Scopes as spec;
ghost use Rattle.sc_symbols.specs.Internal.{scope_of};

use sc_class::Tables;
use sc_text::Span;
use sc_tree::{Declaration, Routine};
use sc_typing::{Entity, add_formals, add_locals};
use std::alloc::{AllocError, Global};

/// The entities that are known, in the order in which they became known.
#[derive(Drop)]
pub struct Scope<'s> {
    pub names: Vec<Entity<'s>>,
    /// The places of their declarations.
    pub places: Vec<Span>,
}

impl<'s> Scope<'s> {
    /// Nothing is known.
    pub fn new(alloc: Global) -> Scope<'s>
        ensures { scope_of result ≡ spec.no_scope }
    {
        Scope {
            names: Vec::new(alloc),
            places: Vec::new(alloc),
        }
    }

    /// A copy, in memory of its own.
    pub fn copied(&self, alloc: Global) -> Result<Self, AllocError>
        ensures { IfOk result (λ scope. scope_of scope ≡ scope_of self.now) }
    {
        Ok(Scope {
            names: Vec::from_slice(alloc, &self.names)?,
            places: Vec::from_slice(alloc, &self.places)?,
        })
    }

    /// Makes an entity known that is declared at this place.
    pub fn push(&mut self, known: Entity<'s>, place: Span) -> Result<(), AllocError>
        ensures { OnOk result (scope_of self.new ≡ spec.known_too (scope_of self.old) (entity_of known.entry) place) }
    {
        self.names.push(known)?;
        self.places.push(place)?;
        Ok(())
    }

    /// How many entities come before the first one of this name, if there is one.
    pub fn number(&self, name: &str) -> Option<usize>
        ensures { result ≡ spec.number_named name.now (scope_of self.now).entities }
    {
        number_named(name, &self.names)
    }
}

/// How many entities come before the first one of this name, if there is one.
fn number_named(name: &str, names: &[Entity]) -> Option<usize>
    ensures { result ≡ spec.number_named name.now (map entity_of names.now) }
{
    for index in 0..names.len() {
        if names[index].name == name {
            return Some(index);
        }
    }
    None
}

/// Adds the places of declarations.
fn add_places(declarations: &[Declaration], places: &mut Vec<Span>) -> Result<(), AllocError>
    ensures { OnOk result (places.new.items
        ≡ places.old.items ++ spec.declared_places (map declaration_of declarations.now)) }
{
    for declaration in declarations {
        places.push(declaration.name.span)?;
    }
    Ok(())
}

/// What the contract of a routine with these formals knows.
pub fn scope_of_formals<'s>(
    alloc: Global,
    tables: &Tables,
    formals: &'s [Declaration],
) -> Result<Scope<'s>, AllocError>
    ensures { IfOk result (λ scope. scope_of scope
        ≡ spec.scope_of_formals (system_in tables.now) (map declaration_of formals.now)) }
{
    let mut scope = Scope::new(alloc);
    add_formals(tables, formals, &mut scope.names)?;
    add_places(formals, &mut scope.places)?;
    Ok(scope)
}

/// What the body of a routine knows.
pub fn scope_of_body<'s>(
    alloc: Global,
    tables: &Tables,
    routine: &'s Routine,
) -> Result<Scope<'s>, AllocError>
    ensures { IfOk result (λ scope. scope_of scope
        ≡ spec.scope_of_body (system_in tables.now) (routine_of routine.now)) }
{
    let mut scope = scope_of_formals(alloc, tables, &routine.formals)?;
    add_locals(tables, &routine.formals, &routine.locals, &mut scope.names)?;
    add_places(&routine.locals, &mut scope.places)?;
    Ok(scope)
}
