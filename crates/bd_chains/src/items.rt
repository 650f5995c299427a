//! The values on a list, one after the other.

ghost use Rattle.std.specs.{Prelude.{◌≡◌, List}, Iterator.{YieldsFirst, item_count}};
ghost use Rattle.slab.specs.Slab.{get};
ghost use Rattle.bd_chains.specs.Walk.{walk};

use crate::links::Item;
use slab::Slab;
use std::marker::Model;

// What stands in a slot.
fn item_at<T: Copy>(items: &Slab<Item<T>>, x: usize) -> Option<Item<T>>
    ensures { result ≡ get items.now x }
{
    items.get(x).copied()
}

/// The values on a list, in the order in which they came.
#[derive(Drop)]
pub struct Items<'a, T> {
    pub(crate) items: &'a Slab<Item<T>>,
    // The slot of the next one.
    pub(crate) at: Option<usize>,
    // There are no more than this.
    pub(crate) left: usize,
}

impl<'a, T> Model for Items<'a, T> {
    ghost Value = { List T };

    ghost view = { λ m. walk m.items.now m.left m.at };
}

impl<T: Copy> Iterator for Items<'_, T> {
    type Item = T;

    ghost next_gives = { YieldsFirst (λ s. s) };

    ghost remaining = { item_count (λ s. s) };

    fn next(&mut self) -> Option<T> {
        if self.left == 0 {
            return None;
        }
        let at = self.at?;
        let item = item_at(self.items, at)?;
        self.at = item.next;
        self.left -= 1;
        Some(item.held.value)
    }
}
