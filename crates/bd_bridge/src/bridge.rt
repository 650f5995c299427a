//! The bridge: an engine, those who wait, and who of them is to be looked at.

ghost use Rattle.std.specs.Prelude.{ℕ, ◌≡◌, ◌⊎◌, ◌==◌, ◌&&◌, ◌<◌, ◌≤◌, ◌+◌, ◌-◌, Some, None, [], true, false, IsTrue, IsSome, if◌then◌else◌, MatchOption, IfOk, IfSome, IsNone, OnOk, OnErr, option_map, vec_len, vec_capacity};
ghost use Rattle.bd_bridge.specs.{Suspects.{is_suspect, suspects_in}, Waiting.{at, seats_in}, Reached.{names}};
ghost use Rattle.bd_bridge.specs.Forgotten.{NobodyIsForgotten, NobodyIsForgottenBut, IsInformed, IsLeft};
ghost use Rattle.bd_bridge.specs.{Settled.{HasSettled}, Due.{Fits, IsRight}, Signals.{IsDue, WaitsAfter, IsMade, answered, signals_of, seat_of, after_signal, awake, awakened, world_after, world_then}};
ghost use Rattle.bd_bridge.specs.declared.{signal.Signal.TheVariants.{Bell}, due.Due.TheVariants.{Nothing}};

use crate::due::Due;
use crate::engine::{Engine, Reached};
use crate::reach::{mark_reached, mark_resting, mark_seat};
use crate::resting::Resting;
use crate::signal::Signal;
use crate::suspects::Suspects;
use crate::waiters::{Reading, Waiter, Waiters};
use std::alloc::{AllocError, Global};

/// An engine, those who wait for something to read, and who of them is to be looked at.
#[derive(Drop)]
pub struct Bridge<E> {
    pub engine: E,
    pub(crate) waiters: Waiters,
    pub(crate) suspects: Suspects,
    pub(crate) resting: Resting,
    pub(crate) reached: Reached,
}

impl<E: Engine> Bridge<E> {
    /// Nobody waits, of so many seats. Errors: memory was refused.
    pub fn new(alloc: Global, engine: E, seats: u32) -> Result<Bridge<E>, AllocError>
    where
        E: Drop,
        ensures engine { IfOk result (λ b. b.engine ≡ engine) }
        ensures watched { IfOk result (λ b. (h : E.World) → NobodyIsForgotten (E.Sees h) (E.IsOf h) (E.CanRest h) b.waiters b.suspects b.resting) }
        ensures nobody { IfOk result (λ b. (t : ℕ) → at b.waiters t ≡ None) }
        ensures seats { IfOk result (λ b. seats_in b.waiters ≡ seats) }
    {
        let waiters = Waiters::new(alloc, seats)?;
        Ok(Bridge {
            engine,
            waiters,
            suspects: Suspects::new(alloc, seats)?,
            resting: Resting::none(),
            reached: Reached {
                lists: Vec::new(alloc),
                any: true,
            },
        })
    }

    /// How a seat's thread waits.
    pub fn waiter(&self, seat: u32) -> Option<Waiter>
        ensures { result ≡ at self.now.waiters seat }
    {
        self.waiters.get(seat)
    }

    // How it does, or would.
    #[inline(always)]
    fn waiter_or_new(&self, seat: u32) -> Waiter
        ensures of { (h : E.World) → E.Follows self.now.engine h → NobodyIsForgotten (E.Sees h) (E.IsOf h) (E.CanRest h) self.now.waiters self.now.suspects self.now.resting → E.IsOf h seat result.process }
        ensures known { IfSome (at self.now.waiters seat) (λ w. result ≡ w) }
        ensures new { IsNone (at self.now.waiters seat) → (result.reads ≡ None) × (result.has_doorbell ≡ false) × (result.is_rung ≡ false) }
    {
        match self.waiters.get(seat) {
            Some(waiter) => waiter,
            None => Waiter {
                process: self.engine.process_of(seat),
                reads: None,
                has_doorbell: false,
                is_rung: false,
            },
        }
    }

    // A seat's thread waits so from now on, and is to be looked at.
    #[inline(always)]
    fn put(&mut self, alloc: Global, seat: u32, waiter: Waiter) -> Result<(), AllocError>
        requires { seat < seats_in self.old.waiters }
        ensures watched { (h : E.World) → NobodyIsForgotten (E.Sees h) (E.IsOf h) (E.CanRest h) self.old.waiters self.old.suspects self.old.resting → E.IsOf h seat waiter.process
            → NobodyIsForgotten (E.Sees h) (E.IsOf h) (E.CanRest h) self.new.waiters self.new.suspects self.new.resting }
        ensures waits { OnOk result ((t : ℕ) → at self.new.waiters t ≡ (if t == seat then Some waiter else at self.old.waiters t)) }
        ensures err { OnErr result ((t : ℕ) → at self.new.waiters t ≡ at self.old.waiters t) }
        ensures engine { self.new.engine ≡ self.old.engine }
        ensures seats { seats_in self.new.waiters ≡ seats_in self.old.waiters }
    {
        self.waiters.insert(alloc, seat, waiter)?;
        self.mark_again(seat);
        Ok(())
    }

    /// A seat's thread waits in a read from now on, and its doorbell stays as it is. Errors: memory was refused, and all wait as before.
    #[inline(always)]
    pub fn wait(&mut self, alloc: Global, seat: u32, reading: Reading) -> Result<(), AllocError>
        requires { seat < seats_in self.old.waiters }
        ensures watched { (h : E.World) → E.Follows self.old.engine h → NobodyIsForgotten (E.Sees h) (E.IsOf h) (E.CanRest h) self.old.waiters self.old.suspects self.old.resting
            → NobodyIsForgotten (E.Sees h) (E.IsOf h) (E.CanRest h) self.new.waiters self.new.suspects self.new.resting }
        ensures waits { OnOk result (option_map (λ (w : _). w.reads) (at self.new.waiters seat) ≡ Some (Some reading)) }
        ensures doorbell { OnOk result (IfSome (at self.old.waiters seat) (λ o. option_map (λ (w : _). w.has_doorbell) (at self.new.waiters seat) ≡ Some o.has_doorbell)) }
        ensures rung { OnOk result (IfSome (at self.old.waiters seat) (λ o. option_map (λ (w : _). w.is_rung) (at self.new.waiters seat) ≡ Some o.is_rung)) }
        // Who hasn't waited so far has none.
        ensures new { OnOk result (IsNone (at self.old.waiters seat) → option_map (λ (w : _). w.has_doorbell) (at self.new.waiters seat) ≡ Some false) }
        ensures silent { OnOk result (IsNone (at self.old.waiters seat) → option_map (λ (w : _). w.is_rung) (at self.new.waiters seat) ≡ Some false) }
        ensures others { (t : ℕ) → (t ≡ seat → ⊥) → at self.new.waiters t ≡ at self.old.waiters t }
        ensures err { OnErr result ((t : ℕ) → at self.new.waiters t ≡ at self.old.waiters t) }
        ensures engine { self.new.engine ≡ self.old.engine }
        ensures seats { seats_in self.new.waiters ≡ seats_in self.old.waiters }
    {
        let waiter = self.waiter_or_new(seat);
        let waiter = Waiter {
            reads: Some(reading),
            ..waiter
        };
        self.waiters.insert(alloc, seat, waiter)?;
        self.see(seat, waiter, reading);
        Ok(())
    }

    // Who has begun to wait is to be looked at, unless it has nothing to read, or that is left to it and takes no other's place.
    #[inline(always)]
    fn see(&mut self, seat: u32, waiter: Waiter, reading: Reading)
        requires seat { seat < seats_in self.old.waiters }
        requires waits { at self.old.waiters seat ≡ Some waiter }
        requires reads { waiter.reads ≡ Some reading }
        ensures watched { (h : E.World) → E.Follows self.old.engine h → NobodyIsForgottenBut seat (E.Sees h) (E.IsOf h) (E.CanRest h) self.old.waiters self.old.suspects self.old.resting
            → NobodyIsForgotten (E.Sees h) (E.IsOf h) (E.CanRest h) self.new.waiters self.new.suspects self.new.resting }
        ensures waiters { self.new.waiters ≡ self.old.waiters }
        ensures engine { self.new.engine ≡ self.old.engine }
    {
        if self.resting.has_place() && self.can_be_left(seat, waiter, reading) {
            if let Some(other) = self.resting.add(seat) {
                mark_seat(&mut self.suspects, &self.waiters, other);
            }
            return;
        }
        if waiter.is_rung || self.engine.is_ready(seat) {
            self.mark_again(seat);
        }
    }

    /// A seat's thread has a doorbell from now on, which is silent. Errors: memory was refused, and it has none.
    pub fn give_doorbell(&mut self, alloc: Global, seat: u32) -> Result<(), AllocError>
        requires { seat < seats_in self.old.waiters }
        ensures watched { (h : E.World) → E.Follows self.old.engine h → NobodyIsForgotten (E.Sees h) (E.IsOf h) (E.CanRest h) self.old.waiters self.old.suspects self.old.resting
            → NobodyIsForgotten (E.Sees h) (E.IsOf h) (E.CanRest h) self.new.waiters self.new.suspects self.new.resting }
        ensures waits { OnOk result (option_map (λ (w : _). w.has_doorbell) (at self.new.waiters seat) ≡ Some true) }
        ensures silent { OnOk result (option_map (λ (w : _). w.is_rung) (at self.new.waiters seat) ≡ Some false) }
        ensures reads { OnOk result (IfSome (at self.old.waiters seat) (λ o. option_map (λ (w : _). w.reads) (at self.new.waiters seat) ≡ Some o.reads)) }
        // Who hasn't waited so far waits in no read.
        ensures new { OnOk result (IsNone (at self.old.waiters seat) → option_map (λ (w : _). w.reads) (at self.new.waiters seat) ≡ Some None) }
        ensures others { (t : ℕ) → (t ≡ seat → ⊥) → at self.new.waiters t ≡ at self.old.waiters t }
        ensures err { OnErr result ((t : ℕ) → at self.new.waiters t ≡ at self.old.waiters t) }
        ensures engine { self.new.engine ≡ self.old.engine }
        ensures seats { seats_in self.new.waiters ≡ seats_in self.old.waiters }
    {
        let waiter = self.waiter_or_new(seat);
        self.put(
            alloc,
            seat,
            Waiter {
                has_doorbell: true,
                is_rung: false,
                ..waiter
            },
        )
    }

    /// A seat's thread waits no more in a read, as where that was interrupted. Its doorbell stays.
    pub fn stop_reading(&mut self, seat: u32)
        requires { seat < seats_in self.old.waiters }
        ensures watched { (h : E.World) → NobodyIsForgotten (E.Sees h) (E.IsOf h) (E.CanRest h) self.old.waiters self.old.suspects self.old.resting
            → NobodyIsForgotten (E.Sees h) (E.IsOf h) (E.CanRest h) self.new.waiters self.new.suspects self.new.resting }
        ensures waits { MatchOption (at self.old.waiters seat) ((t : ℕ) → at self.new.waiters t ≡ at self.old.waiters t)
            (λ w. (t : ℕ) → at self.new.waiters t ≡ (if t == seat then awake w else at self.old.waiters t)) }
        ensures engine { self.new.engine ≡ self.old.engine }
        ensures seats { seats_in self.new.waiters ≡ seats_in self.old.waiters }
    {
        if let Some(waiter) = self.waiters.get(seat) {
            self.awake(seat, waiter);
        }
    }

    /// A seat's thread waits no more, neither in a read nor by a doorbell.
    pub fn stop_waiting(&mut self, seat: u32)
        ensures watched { (h : E.World) → NobodyIsForgotten (E.Sees h) (E.IsOf h) (E.CanRest h) self.old.waiters self.old.suspects self.old.resting
            → NobodyIsForgotten (E.Sees h) (E.IsOf h) (E.CanRest h) self.new.waiters self.new.suspects self.new.resting }
        ensures gone { (t : ℕ) → at self.new.waiters t ≡ (if t == seat then None else at self.old.waiters t) }
        ensures engine { self.new.engine ≡ self.old.engine }
        ensures seats { seats_in self.new.waiters ≡ seats_in self.old.waiters }
    {
        self.waiters.remove(seat);
    }

    /// Makes a step. Whoever waits and may have something to read by it, or nothing any more, is looked at from now on, the
    /// thread that made it among them. Who leaves its process by the step may not wait.
    #[inline(always)]
    pub fn step(&mut self, seat: u32, step: E::Step, kept: &mut E::Kept) -> E::Outcome
        requires acts { IsSome (at self.old.waiters seat) → E.IsCommand step }
        requires seat { seat < seats_in self.old.waiters }
        ensures follows { (h : E.World) → E.Follows self.old.engine h → E.Follows self.new.engine (E.stepped h seat step (E.answer result kept.new)) }
        ensures watched { (h : E.World) → E.Follows self.old.engine h → NobodyIsForgotten (E.Sees h) (E.IsOf h) (E.CanRest h) self.old.waiters self.old.suspects self.old.resting
            → (let h' = E.stepped h seat step (E.answer result kept.new) in NobodyIsForgotten (E.Sees h') (E.IsOf h') (E.CanRest h') self.new.waiters self.new.suspects self.new.resting) }
        ensures waiters { self.new.waiters ≡ self.old.waiters }
        ensures made { E.Made self.old.engine kept.old seat step result self.new.engine kept.new }
    {
        let outcome = self.engine.step(seat, step, kept, &mut self.reached);
        mark_seat(&mut self.suspects, &self.waiters, seat);
        mark_reached(&mut self.suspects, &self.waiters, &self.reached);
        mark_resting(&mut self.suspects, &self.waiters, &mut self.resting);
        outcome
    }

    // A seat that waits is to be looked at.
    #[inline(always)]
    fn mark_again(&mut self, seat: u32)
        requires { seat < seats_in self.old.waiters }
        ensures watched { (h : E.World) → NobodyIsForgottenBut seat (E.Sees h) (E.IsOf h) (E.CanRest h) self.old.waiters self.old.suspects self.old.resting
            → NobodyIsForgotten (E.Sees h) (E.IsOf h) (E.CanRest h) self.new.waiters self.new.suspects self.new.resting }
        ensures again { is_suspect self.new.suspects seat ≡ true }
        ensures waiters { self.new.waiters ≡ self.old.waiters }
        ensures reached { self.new.reached ≡ self.old.reached }
        ensures engine { self.new.engine ≡ self.old.engine }
    {
        let seats = self.waiters.seats();
        self.suspects.add(seat, seats);
    }

    // Who waits in a read does so no more. It waits on by its doorbell, if it has one, and is then looked at again.
    #[inline(always)]
    fn awake(&mut self, seat: u32, waiter: Waiter)
        requires { at self.old.waiters seat ≡ Some waiter }
        ensures watched { (h : E.World) → NobodyIsForgottenBut seat (E.Sees h) (E.IsOf h) (E.CanRest h) self.old.waiters self.old.suspects self.old.resting
            → NobodyIsForgotten (E.Sees h) (E.IsOf h) (E.CanRest h) self.new.waiters self.new.suspects self.new.resting }
        ensures waits { (t : ℕ) → at self.new.waiters t ≡ (if t == seat then awake waiter else at self.old.waiters t) }
        ensures again { IsSome (at self.new.waiters seat) → is_suspect self.new.suspects seat ≡ true }
        ensures reached { self.new.reached ≡ self.old.reached }
        ensures engine { self.new.engine ≡ self.old.engine }
        ensures seats { seats_in self.new.waiters ≡ seats_in self.old.waiters }
    {
        if waiter.has_doorbell {
            self.waiters.set(
                seat,
                Waiter {
                    reads: None,
                    ..waiter
                },
            );
            self.mark_again(seat);
        } else {
            self.waiters.stop(seat);
        }
    }

    // Whether who waits in a read is to be told of this, which it has just read.
    #[inline(always)]
    fn has_to_wake(&self, seat: u32, reading: Reading, outcome: &E::Outcome, kept: &E::Kept) -> bool
        ensures { result ≡ false → (reading.defers ≡ true)
            × ((h : E.World) → E.Follows self.now.engine h → E.CanWait h seat (E.answer outcome.now kept.now)) }
    {
        !reading.defers || !self.engine.can_wait(seat, outcome, kept)
    }

    // Who waits in a read does so no more where it is woken, and else is looked at again.
    #[inline(always)]
    fn settle_read(&mut self, seat: u32, waiter: Waiter, wakes: bool)
        requires { at self.old.waiters seat ≡ Some waiter }
        ensures watched { (h : E.World) → NobodyIsForgottenBut seat (E.Sees h) (E.IsOf h) (E.CanRest h) self.old.waiters self.old.suspects self.old.resting
            → NobodyIsForgotten (E.Sees h) (E.IsOf h) (E.CanRest h) self.new.waiters self.new.suspects self.new.resting }
        ensures waits { (t : ℕ) → at self.new.waiters t ≡ (if wakes && (seat == t) then awakened (at self.old.waiters t) else at self.old.waiters t) }
        ensures again { IsSome (at self.new.waiters seat) → is_suspect self.new.suspects seat ≡ true }
        ensures reached { self.new.reached ≡ self.old.reached }
        ensures engine { self.new.engine ≡ self.old.engine }
        ensures seats { seats_in self.new.waiters ≡ seats_in self.old.waiters }
    {
        if wakes {
            self.awake(seat, waiter);
        } else {
            self.mark_again(seat);
        }
    }

    // Answers a read that waits, or reads ahead for it. More may be there: a list that still has something isn't named.
    #[inline(always)]
    fn serve(
        &mut self,
        seat: u32,
        waiter: Waiter,
        reading: Reading,
        kept: &mut E::Kept,
    ) -> Option<Signal<E::Outcome>>
        requires waits { at self.old.waiters seat ≡ Some waiter }
        requires reads { waiter.reads ≡ Some reading }
        ensures some { IsSome result }
        ensures follows { IfSome result (λ x. (h : E.World) → E.Follows self.old.engine h → E.Follows self.new.engine (world_after E.has_read h (answered E.answer kept.new x))) }
        ensures watched { IfSome result (λ x. (h : E.World) → E.Follows self.old.engine h → NobodyIsForgottenBut seat (E.Sees h) (E.IsOf h) (E.CanRest h) self.old.waiters self.old.suspects self.old.resting
            → (let h' = world_after E.has_read h (answered E.answer kept.new x) in NobodyIsForgotten (E.Sees h') (E.IsOf h') (E.CanRest h') self.new.waiters self.new.suspects self.new.resting)) }
        ensures waits { IfSome result (λ x. (t : ℕ) → at self.new.waiters t ≡ after_signal (answered E.answer kept.new x) t (at self.old.waiters t)) }
        ensures due { IfSome result (λ x. (h : E.World) → E.Follows self.old.engine h → E.Sees h seat true
            → IsDue (E.Sees h) (WaitsAfter E.has_read E.CanWait h) (at self.old.waiters seat) (answered E.answer kept.new x)) }
        ensures of { IfSome result (λ x. seat_of (answered E.answer kept.new x) ≡ seat) }
        ensures made { IfSome result (λ x. IsMade E.MadeRead self.old.engine kept.old (at self.old.waiters seat) x self.new.engine kept.new) }
        ensures seats { seats_in self.new.waiters ≡ seats_in self.old.waiters }
    {
        let read = self
            .engine
            .read(seat, reading.room, kept, &mut self.reached);
        let wakes = self.has_to_wake(seat, reading, &read, kept);
        self.settle_read(seat, waiter, wakes);
        mark_reached(&mut self.suspects, &self.waiters, &self.reached);
        mark_resting(&mut self.suspects, &self.waiters, &mut self.resting);
        Some(Signal::Read { seat, read, wakes })
    }

    // Notes whether a seat that is looked at has something to read, which has changed, and tells its doorbell.
    #[inline(always)]
    fn ring(&mut self, seat: u32, waiter: Waiter, ready: bool) -> Option<Signal<E::Outcome>>
        requires waits { at self.old.waiters seat ≡ Some waiter }
        requires quiet { ready ≡ true → waiter.reads ≡ None }
        ensures watched { (h : E.World) → E.Sees h seat ready → NobodyIsForgottenBut seat (E.Sees h) (E.IsOf h) (E.CanRest h) self.old.waiters self.old.suspects self.old.resting
            → NobodyIsForgotten (E.Sees h) (E.IsOf h) (E.CanRest h) self.new.waiters self.new.suspects self.new.resting }
        ensures engine { self.new.engine ≡ self.old.engine }
        ensures seats { seats_in self.new.waiters ≡ seats_in self.old.waiters }
        ensures is { result ≡ Some (Bell seat ready) }
        ensures waits { IfSome result (λ x. (t : ℕ) → at self.new.waiters t ≡ after_signal x t (at self.old.waiters t)) }
    {
        self.waiters.set(
            seat,
            Waiter {
                is_rung: ready,
                ..waiter
            },
        );
        Some(Signal::Bell { seat, rings: ready })
    }

    // What a seat that is looked at is due.
    #[inline(always)]
    fn judge(&self, seat: u32) -> Due
        ensures fits { Fits (at self.now.waiters seat) result }
        ensures right { (h : E.World) → E.Follows self.now.engine h → IsRight (E.Sees h) (at self.now.waiters seat) seat result }
    {
        let Some(waiter) = self.waiters.get(seat) else {
            return Due::Nothing;
        };
        let ready = self.engine.is_ready(seat);
        if let Some(reading) = waiter.reads {
            if ready {
                return Due::Reading { waiter, reading };
            }
        }
        if waiter.is_rung == ready {
            Due::Nothing
        } else {
            Due::Ringing {
                waiter,
                rings: ready,
            }
        }
    }

    // Gives a seat the signal that it is due, if any.
    #[inline(always)]
    fn tell(&mut self, seat: u32, due: Due, kept: &mut E::Kept) -> Option<Signal<E::Outcome>>
        requires { Fits (at self.old.waiters seat) due }
        ensures seats { seats_in self.new.waiters ≡ seats_in self.old.waiters }
        ensures none { IsNone result → due ≡ Nothing }
        ensures made { IfSome result (λ x. IsMade E.MadeRead self.old.engine kept.old (at self.old.waiters seat) x self.new.engine kept.new) }
        ensures of { IfSome result (λ x. seat_of (answered E.answer kept.new x) ≡ seat) }
        ensures waits { IfSome result (λ x. (t : ℕ) → at self.new.waiters t ≡ after_signal (answered E.answer kept.new x) t (at self.old.waiters t)) }
        ensures due { IfSome result (λ x. (h : E.World) → E.Follows self.old.engine h → IsRight (E.Sees h) (at self.old.waiters seat) seat due
            → IsDue (E.Sees h) (WaitsAfter E.has_read E.CanWait h) (at self.old.waiters seat) (answered E.answer kept.new x)) }
        ensures follows { IfSome result (λ x. (h : E.World) → E.Follows self.old.engine h → E.Follows self.new.engine (world_after E.has_read h (answered E.answer kept.new x))) }
        ensures watched { IfSome result (λ x. (h : E.World) → E.Follows self.old.engine h → IsRight (E.Sees h) (at self.old.waiters seat) seat due
            → NobodyIsForgottenBut seat (E.Sees h) (E.IsOf h) (E.CanRest h) self.old.waiters self.old.suspects self.old.resting
            → (let h' = world_after E.has_read h (answered E.answer kept.new x) in NobodyIsForgotten (E.Sees h') (E.IsOf h') (E.CanRest h') self.new.waiters self.new.suspects self.new.resting)) }
    {
        match due {
            Due::Nothing => None,
            Due::Ringing { waiter, rings } => self.ring(seat, waiter, rings),
            Due::Reading { waiter, reading } => self.serve(seat, waiter, reading, kept),
        }
    }

    // Whether a seat that waits in a read is left what it has to read.
    #[inline(always)]
    fn can_be_left(&self, seat: u32, waiter: Waiter, reading: Reading) -> bool
        requires { waiter.reads ≡ Some reading }
        ensures { result ≡ true → (h : E.World) → E.Follows self.now.engine h → IsLeft (E.CanRest h) seat waiter }
    {
        reading.leaves && !waiter.is_rung && self.engine.can_rest(seat)
    }

    // The same of one that is due a read.
    #[inline(always)]
    fn is_left(&self, seat: u32, due: &Due) -> bool
        requires { Fits (at self.now.waiters seat) due.now }
        ensures { result ≡ true → (h : E.World) → E.Follows self.now.engine h
            → (w : _) → at self.now.waiters seat ≡ Some w → IsLeft (E.CanRest h) seat w }
    {
        match due {
            Due::Reading { waiter, reading } => self.can_be_left(seat, *waiter, *reading),
            _ => false,
        }
    }

    // Looks at a seat: who is due something by that, and what. Who is left what it has may take the place of another, which is looked
    // at instead and isn't left it any more.
    #[inline(always)]
    fn weigh(&mut self, seat: u32) -> Option<(u32, Due)>
        ensures waiters { self.new.waiters ≡ self.old.waiters }
        ensures engine { self.new.engine ≡ self.old.engine }
        ensures suspects { self.new.suspects ≡ self.old.suspects }
        ensures fits { IfSome result (λ x. Fits (at self.old.waiters x.0) x.1) }
        ensures right { IfSome result (λ x. (h : E.World) → E.Follows self.old.engine h → IsRight (E.Sees h) (at self.old.waiters x.0) x.0 x.1) }
        ensures something { IfSome result (λ x. x.1 ≡ Nothing → ⊥) }
        ensures but { IfSome result (λ x. (h : E.World) → E.Follows self.old.engine h
            → NobodyIsForgottenBut seat (E.Sees h) (E.IsOf h) (E.CanRest h) self.old.waiters self.old.suspects self.old.resting
            → NobodyIsForgottenBut x.0 (E.Sees h) (E.IsOf h) (E.CanRest h) self.old.waiters self.old.suspects self.new.resting) }
        ensures watched { IsNone result → (h : E.World) → E.Follows self.old.engine h
            → NobodyIsForgottenBut seat (E.Sees h) (E.IsOf h) (E.CanRest h) self.old.waiters self.old.suspects self.old.resting
            → NobodyIsForgotten (E.Sees h) (E.IsOf h) (E.CanRest h) self.old.waiters self.old.suspects self.new.resting }
    {
        let due = self.judge(seat);
        if !due.is_something() {
            return None;
        }
        if !self.is_left(seat, &due) {
            return Some((seat, due));
        }
        let other = self.resting.add(seat)?;
        let due = self.judge(other);
        if due.is_something() {
            Some((other, due))
        } else {
            None
        }
    }

    // Looks at so many seats at most, until one is due something: who, and what.
    #[inline(always)]
    fn next_due(&mut self, looks: u32) -> Option<(u32, Due)>
        ensures waiters { self.new.waiters ≡ self.old.waiters }
        ensures engine { self.new.engine ≡ self.old.engine }
        ensures fits { IfSome result (λ x. Fits (at self.old.waiters x.0) x.1) }
        ensures right { IfSome result (λ x. (h : E.World) → E.Follows self.old.engine h → IsRight (E.Sees h) (at self.old.waiters x.0) x.0 x.1) }
        ensures something { IfSome result (λ x. x.1 ≡ Nothing → ⊥) }
        ensures but { IfSome result (λ x. (h : E.World) → E.Follows self.old.engine h → NobodyIsForgotten (E.Sees h) (E.IsOf h) (E.CanRest h) self.old.waiters self.old.suspects self.old.resting
            → NobodyIsForgottenBut x.0 (E.Sees h) (E.IsOf h) (E.CanRest h) self.old.waiters self.new.suspects self.new.resting) }
        ensures watched { IsNone result → (h : E.World) → E.Follows self.old.engine h → NobodyIsForgotten (E.Sees h) (E.IsOf h) (E.CanRest h) self.old.waiters self.old.suspects self.old.resting
            → NobodyIsForgotten (E.Sees h) (E.IsOf h) (E.CanRest h) self.old.waiters self.new.suspects self.new.resting }
        ensures progress { IsNone result → suspects_in self.old.suspects ≤ looks → suspects_in self.new.suspects ≡ 0 }
        // Where there are more, they are fewer by each look.
        ensures fewer { IsNone result → suspects_in self.new.suspects ≤ suspects_in self.old.suspects - looks }
    {
        for look in 0..looks {
            let seat = self.suspects.take()?;
            if let Some(due) = self.weigh(seat) {
                return Some(due);
            }
        }
        None
    }

    // Looks at one seat, by which one gets one signal where somebody is due it.
    #[inline(always)]
    fn look(&mut self, seat: u32, kept: &mut E::Kept) -> Option<Signal<E::Outcome>>
        ensures seats { seats_in self.new.waiters ≡ seats_in self.old.waiters }
        ensures none { IsNone result → (self.new.waiters ≡ self.old.waiters) × (self.new.suspects ≡ self.old.suspects) × (self.new.engine ≡ self.old.engine) }
        ensures waits { IfSome result (λ x. (t : ℕ) → at self.new.waiters t ≡ after_signal (answered E.answer kept.new x) t (at self.old.waiters t)) }
        ensures due { IfSome result (λ x. (h : E.World) → E.Follows self.old.engine h
            → IsDue (E.Sees h) (WaitsAfter E.has_read E.CanWait h) (at self.old.waiters (seat_of (answered E.answer kept.new x))) (answered E.answer kept.new x)) }
        ensures told { IfSome result (λ x. (h : E.World) → E.Follows self.old.engine h
            → NobodyIsForgottenBut seat (E.Sees h) (E.IsOf h) (E.CanRest h) self.old.waiters self.old.suspects self.old.resting
            → (let h' = world_after E.has_read h (answered E.answer kept.new x) in E.Follows self.new.engine h' × NobodyIsForgotten (E.Sees h') (E.IsOf h') (E.CanRest h') self.new.waiters self.new.suspects self.new.resting)) }
        ensures untold { IsNone result → (h : E.World) → E.Follows self.old.engine h
            → NobodyIsForgottenBut seat (E.Sees h) (E.IsOf h) (E.CanRest h) self.old.waiters self.old.suspects self.old.resting
            → NobodyIsForgotten (E.Sees h) (E.IsOf h) (E.CanRest h) self.new.waiters self.new.suspects self.new.resting }
    {
        match self.weigh(seat) {
            None => None,
            Some((other, due)) => self.tell(other, due, kept),
        }
    }

    // The answers of signals are taken from where they are kept, one after the other.
    #[inline(always)]
    fn taken(&self, signal: Signal<E::Outcome>, kept: &mut E::Kept) -> Signal<E::Answer>
        ensures { result ≡ answered E.answer kept.old signal }
    {
        match signal {
            Signal::Read { seat, read, wakes } => Signal::Read {
                seat,
                read: self.engine.take(read, kept),
                wakes,
            },
            Signal::Bell { seat, rings } => Signal::Bell { seat, rings },
        }
    }

    /// Looks at so many seats at most, and tells what signals that has come to, the first first. Whether nobody is left to
    /// be looked at. What is kept of a read is taken into its signal.
    pub fn settle(
        &mut self,
        looks: usize,
        kept: &mut E::Kept,
        signals: &mut Vec<Signal<E::Answer>>,
    ) -> bool
        requires room { vec_len signals.old + looks ≤ vec_capacity signals.old }
        requires none { signals.old.items ≡ [] }
        // Each signal was due, nobody is woken twice, whoever gets none waits as before, and nobody is forgotten.
        ensures on { (h : E.World) → E.Follows self.old.engine h → NobodyIsForgotten (E.Sees h) (E.IsOf h) (E.CanRest h) self.old.waiters self.old.suspects self.old.resting
            → HasSettled E.Follows E.Sees E.IsOf E.has_read E.CanWait E.CanRest h self.old.waiters signals.new.items self.new.engine self.new.waiters self.new.suspects self.new.resting }
        // Where nobody is left, nobody waits in a read who has something to read, and each doorbell rings just where there is something; but
        // for who waits in a read that leaves what can rest, and has nothing else.
        ensures settled { IsTrue result → (h : E.World) → E.Follows self.old.engine h → NobodyIsForgotten (E.Sees h) (E.IsOf h) (E.CanRest h) self.old.waiters self.old.suspects self.old.resting
            → (let h' = world_then E.has_read h signals.new.items in (t : ℕ) (w : _) → at self.new.waiters t ≡ Some w → IsInformed (E.Sees h') t w ⊎ IsLeft (E.CanRest h') t w) }
        // Looks that come to no signal come to an end.
        ensures progress { signals.new.items ≡ [] → suspects_in self.old.suspects ≤ looks → IsTrue result }
        ensures fewer { signals.new.items ≡ [] → suspects_in self.new.suspects ≤ suspects_in self.old.suspects - looks }
        ensures capacity { vec_capacity signals.new ≡ vec_capacity signals.old }
        ensures seats { seats_in self.new.waiters ≡ seats_in self.old.waiters }
    {
        for look in 0..looks {
            match self.suspects.take() {
                None => return true,
                Some(seat) => {
                    if let Some(signal) = self.look(seat, kept) {
                        signals.push_reserved(self.taken(signal, kept));
                    }
                }
            }
        }
        self.suspects.is_empty()
    }

    /// Looks at so many seats at most, until one of them gets a signal: that, if there was one. As `settle`, of which it makes
    /// as much as comes to one signal.
    #[inline(always)]
    pub fn settle_one(&mut self, looks: u32, kept: &mut E::Kept) -> Option<Signal<E::Outcome>>
        ensures on { (h : E.World) → E.Follows self.old.engine h → NobodyIsForgotten (E.Sees h) (E.IsOf h) (E.CanRest h) self.old.waiters self.old.suspects self.old.resting
            → HasSettled E.Follows E.Sees E.IsOf E.has_read E.CanWait E.CanRest h self.old.waiters (signals_of (option_map (answered E.answer kept.new) result)) self.new.engine self.new.waiters self.new.suspects self.new.resting }
        ensures unmade { IsNone result → (self.new.engine ≡ self.old.engine) × (kept.new ≡ kept.old) }
        ensures made { IfSome result (λ x. IsMade E.MadeRead self.old.engine kept.old (at self.old.waiters (seat_of x)) x self.new.engine kept.new) }
        ensures progress { IsNone result → suspects_in self.old.suspects ≤ looks → suspects_in self.new.suspects ≡ 0 }
        // Where there are more, they are fewer by each look.
        ensures fewer { IsNone result → suspects_in self.new.suspects ≤ suspects_in self.old.suspects - looks }
        ensures seats { seats_in self.new.waiters ≡ seats_in self.old.waiters }
    {
        match self.next_due(looks) {
            None => None,
            Some((seat, due)) => self.tell(seat, due, kept),
        }
    }

    /// Whether nobody is left to be looked at.
    pub fn is_settled(&self) -> bool
        ensures settled { IsTrue result → (h : E.World) → NobodyIsForgotten (E.Sees h) (E.IsOf h) (E.CanRest h) self.now.waiters self.now.suspects self.now.resting
            → (t : ℕ) (w : _) → at self.now.waiters t ≡ Some w → IsInformed (E.Sees h) t w ⊎ IsLeft (E.CanRest h) t w }
        ensures empty { suspects_in self.now.suspects ≡ 0 → IsTrue result }
    {
        self.suspects.is_empty()
    }

    /// How many seats there are.
    pub fn seats(&self) -> u32
        ensures { result ≡ seats_in self.now.waiters }
    {
        self.waiters.seats()
    }

    /// How many seats are to be looked at, some perhaps twice.
    pub fn suspects(&self) -> usize
        ensures { result ≡ suspects_in self.now.suspects }
    {
        self.suspects.len()
    }
}
