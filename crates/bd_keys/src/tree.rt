//! The tree: the place of each key.

ghost use Rattle.std.specs.Prelude.{◌≡◌, ◌≤◌, ◌<◌, ◌+◌, ◌^◌, ◌++◌, ◌∷◌, [], length, get_or, vec_len, vec_capacity, Some, None, is_some, if◌then◌else◌, IfOk, IfErr, OnOk, OnErr};
ghost use Rattle.bd_keys.specs.{Keys.{place_in}, Walk.{blank, leaf, keys, next, end_of}, Tree.{IsTree}};

use crate::key::WordKey;
use crate::node::Node;
use std::alloc::{AllocError, Global};

// As many nodes as 32 bits can name.
const MOST: usize = 0x1_0000_0000;

// The node after one on the walk to a key: none at the key's own, and none where no more go that way.
fn next(nodes: &[Node], at: usize, k: WordKey) -> Option<usize>
    requires within { at < length nodes.now }
    requires tree { IsTree nodes.now }
    ensures { result ≡ next nodes.now at k }
{
    let node = &nodes[at];
    if node.key.is(k) {
        return None;
    }
    match node.toward(k) {
        0 => None,
        child => Some(child as usize),
    }
}

// Where the walk to a key ends: at its own node, or at the one that a new node of the key comes under. Each node is
// three bits further than the one before, so there are 44 at most.
fn end(nodes: &[Node], k: WordKey) -> usize
    requires root { 0 < length nodes.now }
    requires tree { IsTree nodes.now }
    ensures end { result ≡ end_of nodes.now k }
    ensures within { result < length nodes.now }
{
    let mut at = 0;
    while let Some(child) = next(nodes, at, k) {
        at = child;
    }
    at
}

// Finds the place of a key: the walk ends at its node, or at another key's where it has none.
fn index_of(nodes: &[Node], k: WordKey) -> Option<usize>
    requires { IsTree nodes.now }
    ensures { result ≡ place_in (keys nodes.now) k }
{
    if nodes.is_empty() {
        return None;
    }
    let at = end(nodes, k);
    if nodes[at].key == k { Some(at) } else { None }
}

// Makes the way to the coming node of a new key from the one that it comes under, and tells its bit.
fn hang(nodes: &mut Vec<Node>, at: usize, k: WordKey) -> u8
    requires tree { IsTree nodes.old.items }
    requires room { length nodes.old.items < 2 ^ 32 }
    requires new { place_in (keys nodes.old.items) k ≡ None }
    requires end { at ≡ end_of nodes.old.items k }
    requires within { at < length nodes.old.items }
    ensures tree { IsTree (nodes.new.items ++ leaf k result ∷ []) }
    ensures keys { keys nodes.new.items ≡ keys nodes.old.items }
    ensures len { vec_len nodes.new ≡ vec_len nodes.old }
    ensures capacity { vec_capacity nodes.new ≡ vec_capacity nodes.old }
{
    let child = nodes.len() as u32;
    let parent = &mut nodes[at];
    parent.link(k, child);
    parent.bit + 3
}

// Finds the place of a key, or makes the way to its coming node, of which it then tells the bit.
fn find_or_hang(nodes: &mut Vec<Node>, k: WordKey) -> Result<usize, u8>
    requires tree { IsTree nodes.old.items }
    requires room { length nodes.old.items < 2 ^ 32 }
    ensures found { IfOk result (λ at. place_in (keys nodes.old.items) k ≡ Some at) }
    ensures kept { OnOk result (nodes.new ≡ nodes.old) }
    ensures new { OnErr result (place_in (keys nodes.old.items) k ≡ None) }
    ensures tree { IfErr result (λ bit. IsTree (nodes.new.items ++ leaf k bit ∷ [])) }
    ensures keys { keys nodes.new.items ≡ keys nodes.old.items }
    ensures len { vec_len nodes.new ≡ vec_len nodes.old }
    ensures capacity { vec_capacity nodes.new ≡ vec_capacity nodes.old }
{
    if nodes.is_empty() {
        return Err(0);
    }
    let at = end(nodes, k);
    if nodes[at].key == k {
        return Ok(at);
    }
    Err(hang(nodes, at, k))
}

/// Keys, each at its place: a tree by their bits, three at each node, whose nodes stay.
#[derive(Drop)]
pub(crate) struct Tree {
    pub(crate) nodes: Vec<Node>,
    ghost stands: { IsTree nodes.items },
}

impl Tree {
    ghost use Rattle.bd_keys.specs.Room.{tree_room};

    pub(crate) fn new(alloc: Global) -> Tree
        ensures { keys result.nodes.items ≡ [] }
    {
        Tree {
            nodes: Vec::new(alloc),
        }
    }

    /// How many more keys fit in.
    pub(crate) fn room(&self) -> usize
        ensures { result ≡ tree_room self.now }
    {
        self.nodes.capacity().min(MOST) - self.nodes.len()
    }

    /// Makes room for so many more.
    pub(crate) fn reserve(&mut self, more: usize) -> Result<(), AllocError>
        ensures same { self.new.nodes.items ≡ self.old.nodes.items }
        ensures room { OnOk result (more ≤ tree_room self.new) }
        ensures uses { tree_room self.old ≤ tree_room self.new }
    {
        if more > MOST - self.nodes.len() {
            return Err(AllocError);
        }
        self.nodes.reserve(more)
    }

    /// Finds the place of a key, if it is there.
    pub(crate) fn find(&self, k: WordKey) -> Option<usize>
        ensures { result ≡ place_in (keys self.now.nodes.items) k }
    {
        index_of(&self.nodes, k)
    }

    /// The key at a place, of those that there are.
    pub(crate) fn key(&self, at: usize) -> WordKey
        requires { at < length self.now.nodes.items }
        ensures { result ≡ get_or (keys self.now.nodes.items) at blank }
    {
        self.nodes[at].key
    }

    /// Finds the place of a key, by one walk. Where it has none it comes to the end.
    pub(crate) fn put(&mut self, k: WordKey) -> Option<usize>
        requires { 1 ≤ tree_room self.old }
        ensures found { result ≡ place_in (keys self.old.nodes.items) k }
        ensures keys { keys self.new.nodes.items
            ≡ (if is_some result then keys self.old.nodes.items else keys self.old.nodes.items ++ k ∷ []) }
        ensures uses { tree_room self.old ≤ tree_room self.new + (if is_some result then 0 else 1) }
    {
        match find_or_hang(&mut self.nodes, k) {
            Ok(at) => Some(at),
            Err(bit) => {
                self.nodes.push_reserved(Node::new(k, bit));
                None
            }
        }
    }
}
