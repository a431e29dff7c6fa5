//! Short lists that lie in the value itself, so that a copy of it is a copy of the list.
#![tactic(auto)]

ghost use Rattle.std.specs.Prelude.{[], length, slice_range, take, ◌+◌, ◌++◌, ◌-◌, ◌<◌, ◌∷◌, ◌≡◌, ◌≤◌};

use std::marker::Model;

/// A list of at most `N` items. A place to spare holds whatever stood there last.
#[derive(Clone, Copy, Drop)]
pub struct Short<T, const N: usize> {
    cells: [T; N],
    len: usize,
}

impl<T, const N: usize> Model for Short<T, N> {
    ghost use Rattle.std.proofs.Common.{length-take-le, subst, sym, take-append-drop};
    ghost use Rattle.std.specs.Prelude.{drop, length, take, ◌++◌, ◌≡◌, ◌≤◌};
    ghost use Rattle.bk_short.specs.Short.{Short as Seen, short_code};

    ghost Value = { Seen T };

    ghost coded = { short_code T.code };

    ghost view = { λ s. record { items = take s.len s.cells; spare = drop s.len s.cells } };

    ghost invariant = { λ s. (s.len ≤ N) × (length s.cells ≡ N) };

    ghost inverse = { λ s. record { cells = s.items ++ s.spare; len = length s.items } };

    ghost inverse_ok = { λ s h i. record {
      cells = take-append-drop s.len s.cells i;
      len = length-take-le s.len s.cells (subst (λ n. s.len ≤ n) (sym h.1) h.0) i;
    } };
}

impl<T: Copy + Default, const N: usize> Short<T, N> {
    /// No item.
    #[inline]
    pub fn new() -> Short<T, N>
        ensures { result.items ≡ [] }
    {
        Short {
            cells: Default::default(),
            len: 0,
        }
    }
}

impl<T: Copy, const N: usize> Short<T, N> {
    /// The first `len` of these cells, which are at least as many.
    #[inline(always)]
    pub fn of(cells: [T; N], len: usize) -> Short<T, N>
        requires { len ≤ N }
        ensures { result.items ≡ take len cells }
    {
        Short { cells, len }
    }

    /// The items.
    #[inline]
    pub fn as_slice(&self) -> &[T]
        ensures items { result.now ≡ self.now.items }
        ensures few { length result.now ≤ N }
    {
        &self.cells[..self.len]
    }

    /// How many there are.
    #[inline]
    pub fn len(&self) -> usize
        ensures value { result ≡ length self.now.items }
        ensures few { result ≤ N }
    {
        self.len
    }

    /// Appends an item. There must be room.
    #[inline]
    pub fn push(&mut self, item: T)
        requires { length self.old.items < N }
        ensures { self.new.items ≡ self.old.items ++ item ∷ [] }
    {
        self.cells[self.len] = item;
        self.len += 1;
    }

    /// Takes the last item away. There must be one.
    #[inline]
    pub fn pop(&mut self)
        requires { 0 < length self.old.items }
        ensures { self.new.items ≡ take (length self.old.items - 1) self.old.items }
    {
        self.len -= 1;
    }

    /// Appends the items of another list. There must be room for all its `W` places, which are copied whatever its
    /// length is.
    #[inline(always)]
    pub fn append<const W: usize>(&mut self, other: &Short<T, W>)
        requires { length self.old.items + W ≤ N }
        ensures { self.new.items ≡ self.old.items ++ other.now.items }
    {
        let cells = &mut self.cells[..];
        cells[self.len..self.len + W].copy_from_slice(&other.cells[..]);
        self.len += other.len;
    }

    /// The items from place `start` up to place `end`, as a list of their own with `W` places, which must be enough.
    /// From `start` on this list must have `W` places too, whatever stands there, since all are copied.
    #[inline(always)]
    pub fn part<const W: usize>(&self, start: usize, end: usize) -> Short<T, W>
        requires order { start ≤ end }
        requires within { end ≤ length self.now.items }
        requires few { end - start ≤ W }
        requires room { start + W ≤ N }
        ensures { result.items ≡ slice_range self.now.items start end }
    {
        let cells = &self.cells[..];
        match cells[start..].first_chunk() {
            Some(cells) => Short {
                cells: *cells,
                len: end - start,
            },
            None => unreachable!(),
        }
    }

    /// Keeps the first `len` items, or all if there are no more.
    #[inline]
    pub fn truncate(&mut self, len: usize)
        ensures { self.new.items ≡ take len self.old.items }
    {
        if len < self.len {
            self.len = len;
        }
    }
}
