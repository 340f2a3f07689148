// A row by value: at most so many items, with no memory of their own elsewhere. Behind them lie blanks, so that the cells tell
// no more than the items do.
ghost use Rattle.std.specs.Prelude.{◌≡◌, ◌+◌, ◌-◌, ◌≤◌, [], ◌++◌, length, take, drop, replicate, slice_get, slice_set, ⊤};
ghost use Rattle.frames.specs.Rows.{fitting, push_answer, pushed};

use crate::refusal::Refusal;
use std::alloc::AllocError;
use std::marker::Model;

// What lies in a cell that holds no item.
// (d): std's `Default` names a relation that its value holds, and the invariant and the inverse of a row need the value itself.
pub trait Blank: Copy {
    ghost blank: { Self };

    fn blank() -> Self
        ensures { result ≡ blank };
}

impl Blank for u16 {
    ghost blank = { 0 };

    fn blank() -> u16 {
        0
    }
}

// A library has no heap: plain cells with a length.
#[derive(Copy, PartialEq, Eq, Debug)]
pub struct Row<T: Blank, const N: usize> {
    cells: [T; N],
    len: usize,
}

impl<T: Blank, const N: usize> Model for Row<T, N> {
    ghost use Rattle.std.specs.Prelude.{◌≡◌, ℕ, ◌-◌, ◌≤◌, List, ◌++◌, take, length, replicate};

    ghost Value = { List T };

    ghost view = { λ r. take r.len r.cells };

    ghost invariant = { λ r. (r.len ≤ N) × (length r.cells ≡ N) × (r.cells ≡ take r.len r.cells ++ replicate (N - r.len) T.blank) };

    ghost inverse = { λ xs. record { cells = xs ++ replicate (N - length xs) T.blank; len = length xs } };
}

// (c): a derived one of a generic type with a model is not proved.
impl<T: Blank, const N: usize> Clone for Row<T, N> {
    ghost is_clone = { λ a b. b ≡ a };

    ghost is_infallible = { λ _. ⊤ };

    fn clone(&self) -> Result<Row<T, N>, AllocError> {
        Ok(*self)
    }
}

impl<T: Blank, const N: usize> Row<T, N> {
    pub fn new() -> Row<T, N>
        ensures { result ≡ [] }
    {
        Row {
            cells: [T::blank(); N],
            len: 0,
        }
    }

    // One item more. A full row refuses it and stays as it is.
    pub fn push(&mut self, item: T) -> Result<(), Refusal>
        ensures answer { result ≡ push_answer N self.old }
        ensures items { self.new ≡ pushed N item self.old }
    {
        if self.len == N {
            return Err(Refusal::TooLong);
        }
        self.cells[self.len] = item;
        self.len += 1;
        Ok(())
    }

    // The items of `front` and then those of `back`, refused where they are too many.
    pub fn of_parts(front: &[T], back: &[T]) -> Result<Row<T, N>, Refusal>
        ensures { result ≡ fitting N (front.now ++ back.now) }
    {
        if front.len() > N {
            return Err(Refusal::TooLong);
        }
        if back.len() > N - front.len() {
            return Err(Refusal::TooLong);
        }
        Ok(Row {
            cells: laid(front, back),
            len: front.len() + back.len(),
        })
    }

    pub fn of_slice(items: &[T]) -> Result<Row<T, N>, Refusal>
        ensures { result ≡ fitting N items.now }
    {
        Row::of_parts(items, &[])
    }

    // Another item at a place; past the last nothing changes.
    pub fn set(&mut self, place: usize, item: T)
        ensures { self.new ≡ slice_set self.old place item }
    {
        if place < self.len {
            self.cells[place] = item;
        }
    }

    // The item at a place, counted from 0.
    pub fn get(&self, place: usize) -> Option<T>
        ensures { result ≡ slice_get self.now place }
    {
        self.cells[..self.len].get(place).copied()
    }

    // All cells, also those behind the items.
    pub fn cells(&self) -> &[T]
        ensures { result.now ≡ self.now ++ replicate (N - length self.now) T.blank }
    {
        self.cells.as_slice()
    }

    pub fn as_slice(&self) -> &[T]
        ensures items { result.now ≡ self.now }
        ensures few { length result.now ≤ N }
    {
        &self.cells[..self.len]
    }
}

// The items, written over the cells from a place on.
fn write<T: Blank>(cells: &mut [T], place: usize, items: &[T])
    requires { place + length items.now ≤ length cells.old }
    ensures { cells.new ≡ take place cells.old ++ (items.now ++ drop (place + length items.now) cells.old) }
{
    let end = place + items.len();
    cells[place..end].copy_from_slice(items);
}

// Both parts, and blanks behind them.
fn laid<T: Blank, const N: usize>(front: &[T], back: &[T]) -> [T; N]
    requires { length front.now + length back.now ≤ N }
    ensures { result ≡ (front.now ++ back.now) ++ replicate (N - (length front.now + length back.now)) T.blank }
{
    let mut cells = [T::blank(); N];
    write(&mut cells, 0, front);
    write(&mut cells, front.len(), back);
    cells
}
