ghost use Rattle.std.specs.Prelude.{◌≡◌, List, [], ◌∷◌, ◌++◌, length, OnOk, OnErr, IfOk, slice_get};
ghost use Rattle.std.specs.Option.{option_copied};

use crate::ids::{FragId, Piece};
use crate::memory::{Mem, NoMemory};
use std::alloc::Global;
use std::marker::Model;

/// Items whose copies are equal to them.
pub trait Copied: Drop {
    /// The same items once more.
    fn copy_all(alloc: Global, items: &[Self]) -> Mem<Vec<Self>>
        ensures { IfOk result (λ copies. copies.items ≡ items.now) };
}

impl Copied for u8 {
    fn copy_all(alloc: Global, items: &[u8]) -> Mem<Vec<u8>> {
        Ok(Vec::from_slice(alloc, items)?)
    }
}

impl Copied for u32 {
    fn copy_all(alloc: Global, items: &[u32]) -> Mem<Vec<u32>> {
        Ok(Vec::from_slice(alloc, items)?)
    }
}

impl Copied for FragId {
    fn copy_all(alloc: Global, items: &[FragId]) -> Mem<Vec<FragId>> {
        Ok(Vec::from_slice(alloc, items)?)
    }
}

impl Copied for Piece {
    fn copy_all(alloc: Global, items: &[Piece]) -> Mem<Vec<Piece>> {
        Ok(Vec::from_slice(alloc, items)?)
    }
}

/// Items, which contracts see as a list.
#[derive(Drop)]
pub struct ItemList<T> {
    items: Vec<T>,
}

/// Bytes.
pub type ByteList = ItemList<u8>;

/// The lengths of shares, in bytes.
pub type LenList = ItemList<u32>;

/// Names of fragments.
pub type FragList = ItemList<FragId>;

/// The pieces of a batch, in the order in which its bytes lie in them.
pub type PieceList = ItemList<Piece>;

impl<T> Model for ItemList<T> {
    ghost Value = { List T };

    ghost view = { λ a. a.items.items };
}

impl<T: Drop> ItemList<T> {
    /// The empty list.
    pub fn new(alloc: Global) -> Mem<ItemList<T>>
        ensures { IfOk result (λ list. list ≡ []) }
    {
        Ok(ItemList {
            items: Vec::new(alloc),
        })
    }

    /// The list of these items, which takes no memory.
    pub fn of(items: Vec<T>) -> ItemList<T>
        ensures { result ≡ items.items }
    {
        ItemList { items }
    }

    /// The items of the list, which takes no memory.
    pub fn into_items(self) -> Vec<T>
        ensures { result.items ≡ self }
    {
        self.items
    }

    pub fn push(&mut self, item: T) -> Mem<()>
        ensures ok { OnOk result (self.new ≡ self.old ++ item ∷ []) }
        ensures err { OnErr result (self.new ≡ self.old) }
    {
        self.items.push(item)?;
        Ok(())
    }

    pub fn len(&self) -> usize
        ensures { result ≡ length self.now }
    {
        self.items.len()
    }

    pub fn slice(&self) -> &[T]
        ensures { result.now ≡ self.now }
    {
        self.items.as_slice()
    }

    /// The item at place `i`, from 0.
    pub fn get(&self, i: usize) -> Option<&T>
        ensures { option_copied result ≡ slice_get self.now i }
    {
        self.items.get(i)
    }
}

impl<T: Copied> ItemList<T> {
    pub fn copy(&self, alloc: Global) -> Mem<ItemList<T>>
        ensures { IfOk result (λ list. list ≡ self.now) }
    {
        ItemList::from_slice(alloc, self.items.as_slice())
    }

    pub fn from_slice(alloc: Global, items: &[T]) -> Mem<ItemList<T>>
        ensures { IfOk result (λ list. list ≡ items.now) }
    {
        Ok(ItemList {
            items: T::copy_all(alloc, items)?,
        })
    }
}
