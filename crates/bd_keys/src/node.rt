//! A node of the tree.

ghost use Rattle.std.specs.Prelude.{◌≡◌, ◌<◌, replicate};
ghost use Rattle.bd_keys.specs.Keys.{spread};

use crate::key::WordKey;

/// A key, and where those go on that are not it.
#[derive(Clone, Copy)]
pub(crate) struct Node {
    pub(crate) key: WordKey,
    // The first of the three bits of a key's number that tell which child it goes to: three further at each step.
    pub(crate) bit: u8,
    // Indexes of nodes, or 0 where there is none: the root is nobody's child.
    pub(crate) children: [u32; 8],
}

impl Node {
    ghost use Rattle.bd_keys.specs.Walk.{way, toward, linked};

    /// A node with nothing below it.
    pub(crate) fn new(key: WordKey, bit: u8) -> Node
        ensures { result ≡ record { key = key; bit = bit; children = replicate 8 0 } }
    {
        Node {
            key,
            bit,
            children: [0; 8],
        }
    }

    // Which child a key goes to from here.
    fn way(&self, k: WordKey) -> usize
        ensures { result ≡ way self.now (spread k) }
    {
        // Near the root the three bits are all in the lower half.
        if self.bit <= 61 {
            return ((k.low() >> self.bit) % 8) as usize;
        }
        self.far_way(k)
    }

    // The same far from the root.
    #[inline(never)]
    fn far_way(&self, k: WordKey) -> usize
        ensures { result ≡ way self.now (spread k) }
    {
        let number = k.spread();
        // Past its 128 bits a number has no more.
        if self.bit > 127 {
            return 0;
        }
        ((number >> self.bit) % 8) as usize
    }

    /// The child that a key goes to, or 0.
    pub(crate) fn toward(&self, k: WordKey) -> u32
        ensures { result ≡ toward self.now (spread k) }
    {
        self.children[self.way(k)]
    }

    /// A child comes where a key goes.
    pub(crate) fn link(&mut self, k: WordKey, child: u32)
        ensures { self.new ≡ linked self.old (spread k) child }
    {
        let way = self.way(k);
        self.children[way] = child;
    }
}
