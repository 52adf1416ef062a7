//! The objects of a handler.
ghost use Rattle.std.specs.Prelude.{◌≤◌, vec_len};

use crate::equality::same_objects;
use crate::program::{class_at, defaults};
use crate::value::Value;
use sc_code::{ClassNumber, Program};
use std::alloc::{AllocError, Global};
use std::marker::Model;

/// An object: the number of its class, and its attributes by number. It takes 32 bytes, and 16 for each attribute.
#[derive(Drop)]
pub struct Object {
    pub class: ClassNumber,
    pub attributes: Vec<Value>,
    ghost few: { vec_len attributes ≤ 256 },
}

impl Object {
    ghost use Rattle.std.specs.Prelude.{◌≡◌, IfOk};
    ghost use Rattle.sc_region.specs.Objects.{object_of, with_slot};
    ghost use Rattle.sc_region.specs.Classes.{fresh_object};

    /// A new object of the class of the number: each attribute has its default.
    pub fn fresh(alloc: Global, program: &Program, class: ClassNumber) -> Result<Object, AllocError>
        ensures { IfOk result (λ object. object_of object ≡ fresh_object program.now.image class) }
    {
        let attributes = match class_at(program, class) {
            Some(code) => defaults(alloc, code)?,
            None => Vec::new(alloc),
        };
        Ok(Object { class, attributes })
    }

    /// A copy. Its error says that memory ran out.
    fn copy(&self, alloc: Global) -> Result<Object, AllocError>
        ensures { IfOk result (λ object. object_of object ≡ object_of self.now) }
    {
        Ok(Object {
            class: self.class,
            attributes: Vec::from_slice(alloc, &self.attributes)?,
        })
    }

    /// Writes the value to the attribute at the number, if there is one.
    fn write(&mut self, slot: usize, value: Value)
        ensures { object_of self.new ≡ with_slot slot value (object_of self.old) }
    {
        if slot < self.attributes.len() {
            self.attributes[slot] = value;
        }
    }
}

/// The objects of a handler, by number from 1.
#[derive(Drop)]
pub struct Objects {
    items: Vec<Object>,
}

impl Model for Objects {
    ghost use Rattle.std.specs.Prelude.{List, map};
    ghost use Rattle.sc_region.specs.Objects as m;
    ghost use Rattle.sc_region.specs.Objects.{object_of};

    ghost Value = { List m.PlainObject };

    ghost view = { λ objects. map object_of objects.items.items };
}

impl Objects {
    ghost use Rattle.std.specs.Prelude.{◌≡◌, ◌-◌, ◌++◌, ◌↔◌, [], ◌∷◌, IfOk, IsTrue, OnOk, OnErr, length, take};
    ghost use Rattle.std.specs.Option.{option_map};
    ghost use Rattle.std.specs.Borrow.{sem};
    ghost use Rattle.sc_region.specs.Lending.{LendsObject};
    ghost use Rattle.sc_region.specs.Objects.{PlainObject, object_of, object_numbered, attribute_of, with_attribute};

    pub fn new(alloc: Global) -> Objects
        ensures { result ≡ [] }
    {
        Objects {
            items: Vec::new(alloc),
        }
    }

    /// A copy. Its error says that memory ran out.
    pub fn copy(&self, alloc: Global) -> Result<Objects, AllocError>
        ensures { IfOk result (λ objects. objects ≡ self.now) }
    {
        let mut items = Vec::with_capacity(alloc, self.items.len())?;
        for object in &self.items {
            items.push(object.copy(alloc)?)?;
        }
        Ok(Objects { items })
    }

    pub fn len(&self) -> usize
        ensures { result ≡ length self.now }
    {
        self.items.len()
    }

    /// One more object.
    pub fn push(&mut self, object: Object) -> Result<(), AllocError>
        ensures ok { OnOk result (self.new ≡ self.old ++ object_of object ∷ []) }
        ensures err { OnErr result (self.new ≡ self.old) }
    {
        self.items.push(object)?;
        Ok(())
    }

    /// The last object goes.
    pub fn pop(&mut self)
        ensures { self.new ≡ take (length self.old - 1) self.old }
    {
        self.items.pop();
    }

    /// The object of the number.
    #[inline(always)]
    pub fn get(&self, number: usize) -> Option<&Object>
        ensures { option_map (λ object. object_of object.now) result ≡ object_numbered number self.now }
    {
        if number == 0 {
            return None;
        }
        self.items.get(number - 1)
    }

    /// The object of the number, to be changed.
    #[inline(always)]
    pub fn get_mut(&mut self, number: usize) -> Option<&mut Object>
        ensures* writes_back { sem 𝓛 (LendsObject self.entry number result) }
        ensures value { option_map (λ object. object_of object.now) result ≡ object_numbered number self.old }
    {
        let place = number.wrapping_sub(1);
        self.items.get_mut(place)
    }

    /// The class of the object of the number.
    #[inline(always)]
    pub fn class_of(&self, number: usize) -> Option<ClassNumber>
        ensures { result ≡ option_map (λ (o : PlainObject). o.class) (object_numbered number self.now) }
    {
        Some(self.get(number)?.class)
    }

    /// The attribute of the object at these numbers.
    #[inline(always)]
    pub fn read(&self, number: usize, slot: usize) -> Option<Value>
        ensures { result ≡ attribute_of number slot self.now }
    {
        self.get(number)?.attributes.get(slot).copied()
    }

    /// Writes the value to the attribute of the object at these numbers, if there is one.
    pub fn write(&mut self, number: usize, slot: usize, value: Value)
        ensures { self.new ≡ with_attribute number slot value self.old }
    {
        if number != 0 && number <= self.items.len() {
            self.items[number - 1].write(slot, value);
        }
    }

    /// Whether they are equal.
    pub fn is_same(&self, other: &Objects) -> bool
        ensures { IsTrue result ↔ self.now ≡ other.now }
    {
        same_objects(&self.items, &other.items)
    }
}
