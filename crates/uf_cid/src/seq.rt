//! Lists that a caller hands on.
ghost use Rattle.std.specs.Prelude.{◌≡◌, [], ◌∷◌, ◌++◌, length, IfOk, OnOk, OnErr, slice_get};
ghost use Rattle.std.specs.Option.{option_copied};

use crate::{Cid, Memory, Text};
use std::alloc::Global;
use std::marker::Model;

/// A list with its own allocator. Contracts see it as the list of its items.
#[derive(Drop)]
pub struct Seq<V> {
    alloc: Global,
    items: Vec<V>,
}

impl<V> Model for Seq<V> {
    ghost use Rattle.std.specs.Prelude.{List};
    ghost use Rattle.std.specs.Coded.{coded_list};

    ghost Value = { List V };

    ghost coded = { coded_list V.code };

    ghost view = { λ s. s.items.items };
}

impl<V> Seq<V> {
    /// The empty list.
    pub fn new(alloc: Global) -> Self
        ensures { result ≡ [] }
    {
        Seq {
            alloc,
            items: Vec::new(alloc),
        }
    }

    /// The item at a place, counted from 0.
    pub fn get(&self, place: usize) -> Option<&V>
        ensures { option_copied result ≡ slice_get self.now place }
    {
        self.items.get(place)
    }

    /// How many items there are.
    pub fn len(&self) -> usize
        ensures { result ≡ length self.now }
    {
        self.items.len()
    }

    /// The items, in order.
    pub fn as_slice(&self) -> &[V]
        ensures { result.now ≡ self.now }
    {
        self.items.as_slice()
    }
}

impl<V: Drop> Seq<V> {
    /// Puts an item at the end; out of memory, the list stays as it was.
    pub fn push(&mut self, item: V) -> Result<(), Memory>
        ensures ok { OnOk result (self.new ≡ self.old ++ item ∷ []) }
        ensures err { OnErr result (self.new ≡ self.old) }
    {
        self.items.push(item)?;
        Ok(())
    }
}

/// A list of texts.
pub type Texts = Seq<Text>;

/// A list of CIDs.
pub type Cids = Seq<Cid>;

/// A list of numbers of bytes.
pub type Sizes = Seq<u64>;

/// A value that can be copied where there is memory for it.
pub trait Copied {
    fn copied(&self) -> Result<Self, Memory>
        ensures { IfOk result (λ copy. copy ≡ self.now) };
}

impl Copied for u64 {
    fn copied(&self) -> Result<Self, Memory> {
        Ok(*self)
    }
}

impl Copied for Cid {
    fn copied(&self) -> Result<Self, Memory> {
        Ok(*self)
    }
}

impl Copied for Text {
    fn copied(&self) -> Result<Self, Memory> {
        self.copy()
    }
}

impl<V: Copied + Drop> Seq<V> {
    /// The same list again.
    pub fn copy(&self) -> Result<Self, Memory>
        ensures { IfOk result (λ copy. copy ≡ self.now) }
    {
        let mut copy = Seq::new(self.alloc);
        for item in self.items.iter() {
            copy.push(item.copied()?)?;
        }
        Ok(copy)
    }
}
