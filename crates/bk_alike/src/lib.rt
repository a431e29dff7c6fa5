//! Canonical tilings of one size, put together; and lines of codes that are listed, with what is written behind them:
//! groups of one size, or pairs that make a square.
#![tactic(auto)]

ghost use Rattle.std.specs.List.{position_or_len};
ghost use Rattle.std.specs.Prelude.{IfOk, OnErr, OnOk, [], length, map, slice_get, ◌++◌, ◌<◌, ◌∷◌, ◌≡◌, ◌≤◌, ◌↔◌};
ghost use Rattle.bk_tiling.specs.Tiling.{Tiling as Tiled};
ghost use Rattle.bk_sym.specs.Canonical.{IsCanonicalOf};
ghost use Rattle.bk_alike.specs.Alike.{alike_groups, group_of, size_eq, sizes, with_size};
ghost use Rattle.bk_alike.specs.Grouped.{with_place};
ghost use Rattle.indexmap.specs.IndexMap.{keys, values};

mod closing;
mod item;
mod laws;
mod list_run;
mod listed;
mod pairs;

use bk_pair::{KeptTiling, Kind};
use bk_sym::canonical;
use bk_tiling::Tiling;
use indexmap::IndexMap;
pub use item::KeptItem;
pub use laws::lines_have_one_listing;
pub use list_run::list_lines;
use std::alloc::{AllocError, Global};
use std::marker::Model;

// At most so many items are kept.
const MOST_ITEMS: usize = 16_384;

/// Why an item is not kept.
#[derive(Clone, Copy)]
pub enum AddFault {
    /// 16,384 items are kept.
    Full,
    /// Memory is wanting.
    NoMemory,
}

/// What is written behind the lines of a list.
#[derive(Clone, Copy)]
pub enum Wanted {
    /// The items, grouped by size.
    Groups,
    /// The pairs of items that are laid together to a square.
    Pairs(Kind),
}

/// Items with their canonical tilings, grouped by the sizes of these. It is seen as the list of the items.
#[derive(Drop)]
pub struct Alike {
    items: Vec<KeptItem>,
    groups: IndexMap<(u64, u64), Vec<u32>>,
    alloc: Global,
}

impl Model for Alike {
    ghost use Rattle.std.specs.Prelude.{List, map};
    ghost use Rattle.bk_alike.specs.declared.item.KeptItem.{KeptItem};

    ghost Value = { List KeptItem };

    ghost use Rattle.indexmap.specs.IndexMap.{keys, values};
    ghost use Rattle.bk_alike.specs.Grouped.{IsGrouped};

    ghost view = { λ a. a.items.items };

    ghost invariant = { λ a. IsGrouped a.items.items (keys a.groups) (map (λ group. group.items) (values a.groups)) };
}

impl Alike {
    /// No items. It takes no memory.
    pub fn new(alloc: Global) -> Alike
        ensures { result ≡ [] }
    {
        Alike {
            items: Vec::new(alloc),
            groups: IndexMap::new(alloc),
            alloc,
        }
    }

    /// Keeps the canonical tiling of a tiling with its line, as the last item. `Full` comes exactly if 16,384 items are
    /// kept, and `NoMemory` only if memory is wanting. A refusal changes nothing.
    pub fn add(&mut self, line: u64, tiling: &Tiling) -> Result<(), AddFault>
        ensures full { result ≡ Err AddFault.Full ↔ (MOST_ITEMS ≤ length self.old) }
        ensures kept { OnOk result ((c : Tiled) × IsCanonicalOf tiling.now c
            × (self.new ≡ self.old ++ record { line = line; tiling = c } ∷ [])) }
        ensures unchanged { OnErr result (self.new ≡ self.old) }
    {
        let n = self.items.len();
        if n >= MOST_ITEMS {
            return Err(AddFault::Full);
        }
        let kept = canonical(tiling);
        let size = (kept.width(), kept.height());
        if push_item(self.alloc, &mut self.items, line, &kept).is_err() {
            return Err(AddFault::NoMemory);
        }
        if put_in_group(self.alloc, &mut self.groups, size, n as u32).is_err() {
            self.items.truncate(n);
            return Err(AddFault::NoMemory);
        }
        Ok(())
    }

    /// How many items are kept.
    pub fn len(&self) -> usize
        ensures value { result ≡ length self.now }
        ensures few { length self.now ≤ MOST_ITEMS }
    {
        self.items.len()
    }

    /// The item at a place, from 0: its line, and its canonical tiling. There must be an item at the place.
    pub fn item(&self, i: usize) -> (u64, &KeptTiling)
        requires { i < length self.now }
        ensures { (item : _) × (slice_get self.now i ≡ Some item) × (result.0 ≡ item.line)
            × (result.1.now ≡ item.tiling) }
    {
        let item = &self.items[i];
        (item.line, &item.tiling)
    }

    /// How many groups there are: one for each size.
    pub fn groups(&self) -> usize
        ensures { result ≡ length (alike_groups self.now) }
    {
        self.groups.len()
    }

    /// The size of a group: the width and the height of its canonical tilings. Groups are numbered from 0 in the order
    /// of their first items, and there must be a group of this number.
    pub fn size(&self, g: usize) -> (u64, u64)
        requires { g < length (alike_groups self.now) }
        ensures { slice_get (sizes self.now) g ≡ Some result }
    {
        match self.groups.get_index(g) {
            Some((size, _group)) => *size,
            None => unreachable!(),
        }
    }

    /// The items of a group, as ascending places from 0. Groups are numbered as for `size`, and there must be a group
    /// of this number.
    pub fn members(&self, g: usize) -> &[u32]
        requires { g < length (alike_groups self.now) }
        ensures { slice_get (alike_groups self.now) g ≡ Some result.now }
    {
        let group = &self.groups[g];
        group.as_slice()
    }

    /// The items of a size, as ascending places from 0: none, if no canonical tiling has the size. The size is looked
    /// up by its hash.
    pub fn of_size(&self, size: (u64, u64)) -> &[u32]
        ensures value { result.now ≡ group_of self.now size }
        ensures few { length self.now ≤ MOST_ITEMS }
    {
        match self.groups.get_index_of(&size) {
            Some(g) => self.members(g),
            None => &[],
        }
    }
}

// Appends an item with this canonical tiling.
fn push_item(
    alloc: Global,
    items: &mut Vec<KeptItem>,
    line: u64,
    tiling: &Tiling,
) -> Result<(), AllocError>
    ensures pushed { OnOk result (items.new.items
        ≡ items.old.items ++ record { line = line; tiling = tiling.now } ∷ []) }
    ensures same { OnErr result (items.new.items ≡ items.old.items) }
{
    let tiling = KeptTiling::new(alloc, tiling)?;
    items.push(KeptItem { line, tiling })?;
    Ok(())
}

// Puts a place into the group of a size, or into a new one at the end.
fn put_in_group(
    alloc: Global,
    groups: &mut IndexMap<(u64, u64), Vec<u32>>,
    size: (u64, u64),
    place: u32,
) -> Result<(), AllocError>
    ensures sizes { OnOk result (keys groups.new ≡ with_size (keys groups.old) size) }
    ensures groups { OnOk result (map (λ group. group.items) (values groups.new)
        ≡ with_place (map (λ group. group.items) (values groups.old))
        (position_or_len (size_eq size) (keys groups.old)) place) }
    ensures same_sizes { OnErr result (keys groups.new ≡ keys groups.old) }
    ensures same_groups { OnErr result (map (λ group. group.items) (values groups.new)
        ≡ map (λ group. group.items) (values groups.old)) }
{
    let Some(g) = groups.get_index_of(&size) else {
        let group = Vec::from_slice(alloc, &[place])?;
        groups.insert(size, group)?;
        return Ok(());
    };
    groups[g].push(place)?;
    Ok(())
}
