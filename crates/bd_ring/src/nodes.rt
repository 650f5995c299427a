//! What there is of each number: of the ring that it names, and of the one that stands in a ring.

ghost use Rattle.std.specs.Prelude.{ℕ, ◌≡◌, ◌==◌, ◌<◌, ◌&&◌, nat_lt, Option, length, Some, None, if◌then◌else◌};
ghost use Rattle.bd_chains.specs.Rows.{hits};
ghost use Rattle.bd_ring.specs.Rings.{node_at, is_used, ring_of, next_at, prev_at, spot, placed, with_next, with_prev};

/// Of a ring its two ends, and of one that stands in a ring its place.
#[derive(Clone, Copy)]
pub struct Node {
    // The number is somebody's.
    pub used: bool,
    pub first: Option<u32>,
    pub last: Option<u32>,
    // Where the one stands, if it does, and between whom.
    pub ring: Option<u32>,
    pub prev: Option<u32>,
    pub next: Option<u32>,
}

/// Of a number that isn't there.
pub(crate) const BLANK: Node = Node {
    used: false,
    first: None,
    last: None,
    ring: None,
    prev: None,
    next: None,
};

/// The node of a number.
#[inline(always)]
pub(crate) fn look_at(nodes: &Vec<Node>, k: u32) -> Node
    ensures { result ≡ node_at nodes.now.items k }
{
    match nodes.get(k as usize) {
        Some(node) => *node,
        None => BLANK,
    }
}

/// A number has this node from now on, if it is there.
#[inline(always)]
pub(crate) fn write(nodes: &mut Vec<Node>, k: u32, node: Node)
    ensures writes { (j : ℕ) → node_at nodes.new.items j ≡ (if nat_lt k (length nodes.old.items) && (k == j) then node else node_at nodes.old.items j) }
    ensures len { length nodes.new.items ≡ length nodes.old.items }
{
    if let Some(slot) = nodes.get_mut(k as usize) {
        *slot = node;
    }
}

/// One stands between these in a ring from now on, or in none.
#[inline(always)]
pub(crate) fn set_place(
    nodes: &mut Vec<Node>,
    k: u32,
    ring: Option<u32>,
    prev: Option<u32>,
    next: Option<u32>,
)
    ensures writes { (j : ℕ) → node_at nodes.new.items j
        ≡ (if nat_lt k (length nodes.old.items) && (k == j) then placed ring prev next (node_at nodes.old.items k) else node_at nodes.old.items j) }
    ensures len { length nodes.new.items ≡ length nodes.old.items }
{
    if let Some(node) = nodes.get_mut(k as usize) {
        node.ring = ring;
        node.prev = prev;
        node.next = next;
    }
}

// Which node says what comes after one in a ring, or first in it; and before it, or last.
#[inline(always)]
fn spot_of(ring: u32, at: Option<u32>) -> u32
    ensures { result ≡ spot ring at }
{
    match at {
        Some(x) => x,
        None => ring,
    }
}

#[inline(always)]
fn write_next(nodes: &mut Vec<Node>, k: u32, at: Option<u32>, to: Option<u32>)
    ensures writes { (j : ℕ) → node_at nodes.new.items j
        ≡ (if nat_lt k (length nodes.old.items) && (k == j) then with_next at to (node_at nodes.old.items k) else node_at nodes.old.items j) }
    ensures len { length nodes.new.items ≡ length nodes.old.items }
{
    if let Some(node) = nodes.get_mut(k as usize) {
        match at {
            Some(_) => node.next = to,
            None => node.first = to,
        }
    }
}

#[inline(always)]
fn write_prev(nodes: &mut Vec<Node>, k: u32, at: Option<u32>, to: Option<u32>)
    ensures writes { (j : ℕ) → node_at nodes.new.items j
        ≡ (if nat_lt k (length nodes.old.items) && (k == j) then with_prev at to (node_at nodes.old.items k) else node_at nodes.old.items j) }
    ensures len { length nodes.new.items ≡ length nodes.old.items }
{
    if let Some(node) = nodes.get_mut(k as usize) {
        match at {
            Some(_) => node.prev = to,
            None => node.last = to,
        }
    }
}

/// Writes who comes after one in a ring, or first in it.
#[inline(always)]
pub(crate) fn set_next(nodes: &mut Vec<Node>, ring: u32, at: Option<u32>, to: Option<u32>)
    ensures nexts { spot ring at < length nodes.old.items → (m : ℕ) (o : Option ℕ) → next_at nodes.new.items m o
        ≡ (if hits ring at m o then to else next_at nodes.old.items m o) }
    ensures prevs { (m : ℕ) (o : Option ℕ) → prev_at nodes.new.items m o ≡ prev_at nodes.old.items m o }
    ensures rings { (k : ℕ) → ring_of nodes.new.items k ≡ ring_of nodes.old.items k }
    ensures used { (k : ℕ) → is_used nodes.new.items k ≡ is_used nodes.old.items k }
    ensures len { length nodes.new.items ≡ length nodes.old.items }
{
    write_next(nodes, spot_of(ring, at), at, to);
}

/// Writes who comes before one in a ring, or last in it.
#[inline(always)]
pub(crate) fn set_prev(nodes: &mut Vec<Node>, ring: u32, at: Option<u32>, to: Option<u32>)
    ensures prevs { spot ring at < length nodes.old.items → (m : ℕ) (o : Option ℕ) → prev_at nodes.new.items m o
        ≡ (if hits ring at m o then to else prev_at nodes.old.items m o) }
    ensures nexts { (m : ℕ) (o : Option ℕ) → next_at nodes.new.items m o ≡ next_at nodes.old.items m o }
    ensures rings { (k : ℕ) → ring_of nodes.new.items k ≡ ring_of nodes.old.items k }
    ensures used { (k : ℕ) → is_used nodes.new.items k ≡ is_used nodes.old.items k }
    ensures len { length nodes.new.items ≡ length nodes.old.items }
{
    write_prev(nodes, spot_of(ring, at), at, to);
}
