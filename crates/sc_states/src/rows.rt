//! Lists of values by number, in one memory.
ghost use Rattle.std.specs.Prelude.{◌≡◌, ◌≤◌, ◌<◌, ◌+◌, ◌++◌, ◌∷◌, [], Some, OnOk, get_or, length, slice_get, slice_range, vec_capacity};
ghost use Rattle.sc_states.specs.Cuts.{IsCut, IsCut-prop, start_at};

use std::alloc::{AllocError, Global};

/// Lists of values by number, in the order in which they were pushed.
#[derive(Drop)]
pub struct Rows<T: Copy> {
    /// For each list the place where it ends. It begins where the list before it ends.
    pub(crate) ends: Vec<u32>,
    /// The values of all lists.
    pub(crate) flat: Vec<T>,
    ghost lie: { IsCut 0 ends.items (length flat.items) } by { IsCut-prop 0 ends.items (length flat.items) },
}

impl<T: Copy> Rows<T> {
    ghost use Rattle.sc_states.specs.RowViews.{HasRoom, rows_of, total_of};

    /// No lists.
    pub fn new(alloc: Global) -> Rows<T>
        ensures { rows_of result ≡ [] }
    {
        Rows {
            ends: Vec::new(alloc),
            flat: Vec::new(alloc),
        }
    }

    /// How many lists there are.
    pub fn len(&self) -> usize
        ensures { result ≡ length (rows_of self.now) }
    {
        self.ends.len()
    }

    /// How many values all lists have, at most 4,294,967,295.
    pub fn total(&self) -> u32
        ensures { result ≡ total_of self.now }
    {
        self.flat.len().min(u32::MAX as usize) as u32
    }

    /// The list of the number.
    pub fn row(&self, number: u32) -> &[T]
        requires { number < length (rows_of self.now) }
        ensures { slice_get (rows_of self.now) number ≡ Some result.now }
    {
        part(&self.flat, self.start(number), self.end(number))
    }

    /// The place where the list of the number ends.
    fn end(&self, number: u32) -> u32
        requires { number < length (rows_of self.now) }
        ensures { result ≡ get_or self.now.ends.items number 0 }
    {
        self.ends[number as usize]
    }

    /// The place where the list of the number begins.
    fn start(&self, number: u32) -> u32
        requires { number < length (rows_of self.now) }
        ensures { result ≡ start_at 0 self.now.ends.items number }
    {
        if number == 0 {
            0
        } else {
            self.ends[(number - 1) as usize]
        }
    }

    /// Makes room for one more list, of this number of values.
    ///
    /// # Errors
    /// Memory ran out, or there would be more than 4,294,967,295 values.
    pub fn make_room(&mut self, count: usize) -> Result<(), AllocError>
        ensures rows { rows_of self.new ≡ rows_of self.old }
        ensures room { OnOk result (HasRoom self.new count) }
    {
        if count > u32::MAX as usize || self.flat.len() > u32::MAX as usize - count {
            return Err(AllocError);
        }
        self.ends.reserve(1)?;
        self.flat.reserve(count)?;
        Ok(())
    }

    /// Adds a list that there is room for.
    pub fn push(&mut self, row: &[T])
        requires { HasRoom self.old (length row.now) }
        ensures { rows_of self.new ≡ rows_of self.old ++ row.now ∷ [] }
    {
        self.ends
            .push_reserved((self.flat.len() + row.len()) as u32);
        append(&mut self.flat, row);
    }
}

/// The values from one place to another.
fn part<T: Copy>(flat: &[T], from: u32, end: u32) -> &[T]
    requires up { from ≤ end }
    requires within { end ≤ length flat.now }
    ensures { result.now ≡ slice_range flat.now from end }
{
    &flat[from as usize..end as usize]
}

/// Adds values for which there is room.
fn append<T: Copy>(flat: &mut Vec<T>, row: &[T])
    requires { length flat.old.items + length row.now ≤ vec_capacity flat.old }
    ensures { flat.new.items ≡ flat.old.items ++ row.now }
{
    for value in row {
        flat.push_reserved(*value);
    }
}
