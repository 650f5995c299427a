//! Many rings: a number is of a ring, and of one that may stand in a ring of another number.

ghost use Rattle.std.specs.Prelude.{ℕ, ◌≡◌, ◌==◌, ◌<◌, ◌≤◌, ◌^◌, ◌⊎◌, ◌++◌, ◌∷◌, [], ◌&&◌, true, false, length, Some, None, IfSome, IfNone, is_none, vec_len, vec_capacity, if◌then◌else◌};
ghost use Rattle.bd_keys.specs.Tables.{Makes, Tells};
ghost use Rattle.bd_ring.specs.Turns.{after_enter, after_turn, after_pass};
ghost use Rattle.bd_ring.specs.Rings.{Orders, nobody, with_ring, without_one, next_in, is_used, ring_of, next_at, may_enter, Stands, AllUsed, AreSound, GrowsAtNeed, StaysOut};

use crate::nodes::{BLANK, Node, look_at, set_next, set_place, set_prev, write};
use std::alloc::Global;

/// Those that want turns, in many rings, each once at most and in one ring alone.
#[derive(Drop)]
pub struct Rings {
    pub(crate) nodes: Vec<Node>,
    // The number that was given back last, of those that nobody has; its node names the one before it.
    pub(crate) free: Option<u32>,
    ghost sound: { ∥ AreSound nodes.items free ∥₁ },
}

// One comes last in a ring.
#[inline(always)]
fn append(nodes: &mut Vec<Node>, ring: u32, one: u32)
    ensures stands { (f : Orders) → Stands nodes.old.items f → is_used nodes.old.items ring ≡ true → one < length nodes.old.items
        → ring_of nodes.old.items one ≡ None → Stands nodes.new.items (with_ring f ring (after_enter (f ring) one)) }
    ensures idle { (f : Orders) → Stands nodes.old.items f → is_used nodes.old.items ring ≡ true → one < length nodes.old.items
        → ring_of nodes.old.items one ≡ None → (k : ℕ) → (k ≡ one → ⊥) → ring_of nodes.old.items k ≡ None → StaysOut nodes.old.items nodes.new.items k }
    ensures used { (k : ℕ) → is_used nodes.new.items k ≡ is_used nodes.old.items k }
    ensures len { length nodes.new.items ≡ length nodes.old.items }
{
    let last = look_at(nodes, ring).last;
    set_place(nodes, one, Some(ring), last, None);
    set_next(nodes, ring, last, Some(one));
    set_prev(nodes, ring, None, Some(one));
}

// One stands in no ring any more.
#[inline(always)]
fn leave_ring(nodes: &mut Vec<Node>, one: u32)
    ensures stands { Makes (Stands nodes.old.items) (Stands nodes.new.items) (λ f. without_one f one) }
    ensures idle { (f : Orders) → Stands nodes.old.items f → (k : ℕ) → ring_of nodes.old.items k ≡ None → StaysOut nodes.old.items nodes.new.items k }
    ensures out { ring_of nodes.new.items one ≡ None }
    ensures used { (k : ℕ) → is_used nodes.new.items k ≡ is_used nodes.old.items k }
    ensures len { length nodes.new.items ≡ length nodes.old.items }
{
    let node = look_at(nodes, one);
    let Some(ring) = node.ring else {
        return;
    };
    set_place(nodes, one, None, None, None);
    set_next(nodes, ring, node.prev, node.next);
    set_prev(nodes, ring, node.next, node.prev);
}

impl Rings {
    /// No rings. Takes no memory.
    pub fn new(alloc: Global) -> Rings
        ensures stands { Stands result.nodes.items nobody }
        ensures none { (k : ℕ) → is_used result.nodes.items k ≡ false }
    {
        Rings {
            nodes: Vec::new(alloc),
            free: None,
        }
    }

    /// A number that nobody has: in its ring nobody stands, and it stands in none. None where there is no memory for it, or no such number.
    pub fn add(&mut self) -> Option<u32>
        ensures stands { Makes (Stands self.old.nodes.items) (Stands self.new.nodes.items) (λ f. f) }
        ensures fresh { IfSome result (λ n. is_used self.old.nodes.items n ≡ false) }
        ensures alone { IfSome result (λ n. ring_of self.new.nodes.items n ≡ None) }
        ensures used { IfSome result (λ n. (k : ℕ) → is_used self.new.nodes.items k
            ≡ (if n == k then true else is_used self.old.nodes.items k)) }
        ensures none { IfNone result (self.new.nodes.items ≡ self.old.nodes.items) }
        // One that was given back comes first: there is none more, and none is refused, while any number is nobody's.
        ensures again { GrowsAtNeed self.old.nodes.items self.new.nodes.items }
        ensures all { IfNone result (AllUsed self.old.nodes.items) }
        // Memory was asked for, and there was no room; or there are no more numbers.
        ensures grown { IfNone result ((vec_capacity self.old.nodes ≤ vec_len self.old.nodes) ⊎ (2 ^ 32 ≤ vec_len self.old.nodes)) }
    {
        let Some(n) = self.free else {
            let n = u32::try_from(self.nodes.len()).ok()?;
            self.nodes
                .push(Node {
                    used: true,
                    ..BLANK
                })
                .ok()?;
            return Some(n);
        };
        let node = look_at(&self.nodes, n);
        self.free = node.next;
        write(
            &mut self.nodes,
            n,
            Node {
                used: true,
                prev: None,
                next: None,
                ..node
            },
        );
        Some(n)
    }

    /// A number is given back: it leaves its ring, and may be somebody else's from now on. Refused where anybody stands in its own ring.
    pub fn remove(&mut self, one: u32) -> bool
        ensures which { result ≡ (is_used self.old.nodes.items one && is_none (next_at self.old.nodes.items one None)) }
        ensures stands { Makes (Stands self.old.nodes.items) (Stands self.new.nodes.items) (λ f. if result then without_one f one else f) }
        ensures used { (k : ℕ) → is_used self.new.nodes.items k ≡ (if result && (one == k) then false else is_used self.old.nodes.items k) }
    {
        let node = look_at(&self.nodes, one);
        if !node.used || node.first.is_some() {
            return false;
        }
        leave_ring(&mut self.nodes, one);
        let node = look_at(&self.nodes, one);
        write(
            &mut self.nodes,
            one,
            Node {
                used: false,
                next: self.free,
                ..node
            },
        );
        self.free = Some(one);
        true
    }

    /// One wants a turn in a ring, behind all others. Refused where it stands in a ring already.
    pub fn enter(&mut self, ring: u32, one: u32) -> bool
        ensures which { result ≡ may_enter self.old.nodes.items ring one }
        ensures stands { Makes (Stands self.old.nodes.items) (Stands self.new.nodes.items)
            (λ f. if result then with_ring f ring (after_enter (f ring) one) else f) }
        ensures used { (k : ℕ) → is_used self.new.nodes.items k ≡ is_used self.old.nodes.items k }
    {
        let node = look_at(&self.nodes, one);
        if !look_at(&self.nodes, ring).used || !node.used || node.ring.is_some() {
            return false;
        }
        append(&mut self.nodes, ring, one);
        true
    }

    /// One wants no turn any more.
    pub fn leave(&mut self, one: u32)
        ensures stands { Makes (Stands self.old.nodes.items) (Stands self.new.nodes.items) (λ f. without_one f one) }
        ensures used { (k : ℕ) → is_used self.new.nodes.items k ≡ is_used self.old.nodes.items k }
    {
        leave_ring(&mut self.nodes, one);
    }

    /// Whose turn it is in a ring.
    pub fn first(&self, ring: u32) -> Option<u32>
        ensures { Tells (Stands self.now.nodes.items) result (λ f. next_in (f ring)) }
    {
        look_at(&self.nodes, ring).first
    }

    /// Whose turn it is in a ring. That one wants none until it says so again.
    pub fn take(&mut self, ring: u32) -> Option<u32>
        ensures turn { Tells (Stands self.old.nodes.items) result (λ f. next_in (f ring)) }
        ensures stands { Makes (Stands self.old.nodes.items) (Stands self.new.nodes.items)
            (λ f. with_ring f ring (after_turn (f ring))) }
        ensures used { (k : ℕ) → is_used self.new.nodes.items k ≡ is_used self.old.nodes.items k }
    {
        let first = self.first(ring)?;
        leave_ring(&mut self.nodes, first);
        Some(first)
    }

    /// Whose turn it would be in a ring is passed over, and goes behind all others.
    pub fn pass(&mut self, ring: u32) -> Option<u32>
        ensures turn { Tells (Stands self.old.nodes.items) result (λ f. next_in (f ring)) }
        ensures stands { Makes (Stands self.old.nodes.items) (Stands self.new.nodes.items)
            (λ f. with_ring f ring (after_pass (f ring))) }
        ensures used { (k : ℕ) → is_used self.new.nodes.items k ≡ is_used self.old.nodes.items k }
    {
        let first = self.first(ring)?;
        leave_ring(&mut self.nodes, first);
        append(&mut self.nodes, ring, first);
        Some(first)
    }
}
