//! Whose turn it is, as C has it told: rings beside an engine, over numbers that they give.
ghost use Rattle.std.specs.{Prelude.{◌≡◌, Some, None, false, IfOk, IfErr, MatchOption}, Borrow.{sem}};
ghost use Rattle.bd_ring.specs.contracts.rings.Rings.{the_row as rings_row};
ghost use Rattle.bd_c.specs.declared.held.Held.TheVariants.{Rings as held_rings};
ghost use Rattle.bd_c.specs.declared.status.Status.TheVariants.{NoMemory};
ghost use Rattle.bd_c.specs.{Status.{Reports}, Misuse.{IsMisuse}, Behind.{Of, Over, IsThere, IsRings, rings_of}, Lending.{LendsAs}};
ghost use Rattle.bd_c.specs.Turns.{RingsOpen, AreNobodys, AddsNumber, Removes, Enters, Leaves, TellsFirst, Looks, Takes, Passes};

use crate::handles::Handle;
use crate::held::Held;
use crate::opening::{boxed, free, put_made};
use crate::status::Status;
use bd_ring::Rings;
use std::alloc::Global;

impl Handle {
    /// The rings that are behind the handle, if it is for such.
    pub(crate) fn rings(&mut self) -> Option<&mut Rings>
        ensures* lends { sem 𝓛 (LendsAs rings_row held_rings self.entry result) }
        ensures rings { MatchOption result (IsRings self.old.held → ⊥) (λ r. self.old.held ≡ Some (held_rings r.now)) }
    {
        match self.held()? {
            Held::Rings(rings) => Some(rings),
            _ => None,
        }
    }
}

// No rings, in a box.
fn open_rings(alloc: Global) -> Result<Box<Held>, Status>
    ensures ok { IfOk result (λ b. Of rings_of (Some b.value) AreNobodys) }
    ensures refused { IfErr result (λ s. s ≡ NoMemory) }
{
    boxed(alloc, Held::Rings(Rings::new(alloc)))
}

// Tells a number, if there is one.
fn tell(told: Option<u32>, out: &mut u32) -> bool
    ensures { TellsFirst told out.old out.new result }
{
    match told {
        Some(number) => {
            *out = number;
            true
        }
        None => false,
    }
}

fn add_number(rings: &mut Rings, number: &mut u32) -> Status
    ensures { AddsNumber rings.old rings.new number.old number.new result }
{
    match rings.add() {
        Some(added) => {
            *number = added;
            Status::Done
        }
        None => Status::NoMemory,
    }
}

fn remove_number(rings: &mut Rings, number: u32) -> bool
    ensures { Removes rings.old rings.new number result }
{
    rings.remove(number)
}

fn enter(rings: &mut Rings, ring: u32, one: u32) -> bool
    ensures { Enters rings.old rings.new ring one result }
{
    rings.enter(ring, one)
}

fn leave(rings: &mut Rings, one: u32)
    ensures { Leaves rings.old rings.new one }
{
    rings.leave(one);
}

fn tell_first(rings: &Rings, ring: u32, one: &mut u32) -> bool
    ensures { Looks rings.now ring one.old one.new result }
{
    tell(rings.first(ring), one)
}

fn take_first(rings: &mut Rings, ring: u32, one: &mut u32) -> bool
    ensures { Takes rings.old rings.new ring one.old one.new result }
{
    tell(rings.take(ring), one)
}

fn pass_first(rings: &mut Rings, ring: u32) -> bool
    ensures { Passes rings.old rings.new ring result }
{
    rings.pass(ring).is_some()
}

/// Makes a handle's rings: no number is anybody's. The handle has to have nothing.
#[tactic(auto, using(crate::proofs::Behind::none_there))]
#[unsafe(no_mangle)]
pub extern "C" fn hullpippin_rings_new(alloc: Global, rings: &mut Handle) -> u32
    ensures begins { rings.old.held ≡ None → Reports result (RingsOpen rings.new.held) }
    ensures misuse { IsThere rings.old.held → IsMisuse result rings.old.held rings.new.held }
{
    if rings.is_there() {
        return Status::Misuse.number();
    }
    put_made(rings, open_rings(alloc))
}

/// Tells a number that is the caller's from now on: of a ring in which nobody stands, and of one that stands in none.
#[unsafe(no_mangle)]
pub extern "C" fn hullpippin_rings_add(rings: &mut Handle, number: &mut u32) -> u32
    ensures adds { IsRings rings.old.held → Reports result (λ s. Over rings_of rings.old.held rings.new.held (λ x y.
        AddsNumber x y number.old number.new s)) }
    ensures misuse { (IsRings rings.old.held → ⊥) → IsMisuse result rings.old.held rings.new.held }
{
    match rings.rings() {
        Some(all) => add_number(all, number).number(),
        None => Status::Misuse.number(),
    }
}

/// A number is given back, and leaves its ring, unless anybody stands in its own one. Answers whether it was.
#[unsafe(no_mangle)]
pub extern "C" fn hullpippin_rings_remove(rings: &mut Handle, number: u32) -> bool
    ensures removes { IsRings rings.old.held → Over rings_of rings.old.held rings.new.held (λ x y. Removes x y number result) }
    ensures misuse { (IsRings rings.old.held → ⊥) → (result ≡ false) × (rings.new.held ≡ rings.old.held) }
{
    match rings.rings() {
        Some(all) => remove_number(all, number),
        None => false,
    }
}

/// One comes into a ring, behind all others, unless it stands in one. Answers whether it came.
#[unsafe(no_mangle)]
pub extern "C" fn hullpippin_rings_enter(rings: &mut Handle, ring: u32, one: u32) -> bool
    ensures enters { IsRings rings.old.held → Over rings_of rings.old.held rings.new.held (λ x y. Enters x y ring one result) }
    ensures misuse { (IsRings rings.old.held → ⊥) → (result ≡ false) × (rings.new.held ≡ rings.old.held) }
{
    match rings.rings() {
        Some(all) => enter(all, ring, one),
        None => false,
    }
}

/// One leaves the ring that it stands in, if it does.
#[unsafe(no_mangle)]
pub extern "C" fn hullpippin_rings_leave(rings: &mut Handle, one: u32)
    ensures leaves { IsRings rings.old.held → Over rings_of rings.old.held rings.new.held (λ x y. Leaves x y one) }
    ensures misuse { (IsRings rings.old.held → ⊥) → rings.new.held ≡ rings.old.held }
{
    if let Some(all) = rings.rings() {
        leave(all, one);
    }
}

/// Tells whose turn it is in a ring. Answers whether anybody stands there.
#[unsafe(no_mangle)]
pub extern "C" fn hullpippin_rings_first(rings: &mut Handle, ring: u32, one: &mut u32) -> bool
    ensures same { rings.new.held ≡ rings.old.held }
    ensures tells { IsRings rings.old.held → Of rings_of rings.old.held (λ x. Looks x ring one.old one.new result) }
    ensures misuse { (IsRings rings.old.held → ⊥) → (result ≡ false) × (one.new ≡ one.old) }
{
    match rings.rings() {
        Some(all) => tell_first(all, ring, one),
        None => false,
    }
}

/// Tells whose turn it is in a ring, and takes it out. Answers whether anybody stood there.
#[unsafe(no_mangle)]
pub extern "C" fn hullpippin_rings_take(rings: &mut Handle, ring: u32, one: &mut u32) -> bool
    ensures takes { IsRings rings.old.held → Over rings_of rings.old.held rings.new.held (λ x y. Takes x y ring one.old one.new result) }
    ensures misuse { (IsRings rings.old.held → ⊥) → (result ≡ false) × (rings.new.held ≡ rings.old.held) × (one.new ≡ one.old) }
{
    match rings.rings() {
        Some(all) => take_first(all, ring, one),
        None => false,
    }
}

/// Whose turn it would be in a ring goes behind all others. Answers whether anybody stands there.
#[unsafe(no_mangle)]
pub extern "C" fn hullpippin_rings_pass(rings: &mut Handle, ring: u32) -> bool
    ensures passes { IsRings rings.old.held → Over rings_of rings.old.held rings.new.held (λ x y. Passes x y ring result) }
    ensures misuse { (IsRings rings.old.held → ⊥) → (result ≡ false) × (rings.new.held ≡ rings.old.held) }
{
    match rings.rings() {
        Some(all) => pass_first(all, ring),
        None => false,
    }
}

/// Lets go of rings, if there are any. The handle then has nothing.
#[unsafe(no_mangle)]
pub extern "C" fn hullpippin_free_rings(alloc: Global, rings: &mut Handle)
    ensures { rings.new.held ≡ None }
{
    free(alloc, rings);
}
