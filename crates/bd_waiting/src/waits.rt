//! How a thread waits, and which calls of the bridge tell it that.

ghost use Rattle.std.specs.Prelude.{◌≡◌, ◌==◌, ◌&&◌, ◌||◌, not};
ghost use Rattle.bd_waiting.specs.Waits.{waits_on as it_waits_on, is_apart as it_is_apart, is_concerned as it_is_concerned, place_of, placed, reads_for, wanted_of, calls_of, stopped_by, planned, noted, taken_over, retired, told_anew, rings_for, herald_changes};

use bd_reader::Facts;

/// Which calls of the bridge are to be made, in this order: one of the two that stop, then the others.
#[repr(C)]
#[derive(Clone, Copy, Debug, PartialEq, Eq)]
pub struct Calls {
    /// It waits no more.
    pub stops_waiting: bool,
    /// It waits in a read no more.
    pub stops_reading: bool,
    /// It has a doorbell.
    pub gives_bell: bool,
    /// It waits in a read ..
    pub reads: bool,
    /// .. with this limit ..
    pub limit: u32,
    /// .. and that much it need not be told before a reply.
    pub defers: u32,
}

/// What the bridge was told of a thread.
#[repr(C)]
#[derive(Clone, Copy, Debug, PartialEq, Eq)]
pub struct Told {
    /// It has a doorbell.
    pub has_bell: bool,
    /// It waits in a read ..
    pub reads: bool,
    /// .. with this limit ..
    pub limit: u32,
    /// .. and that much it need not be told before a reply.
    pub defers: u32,
}

/// How a thread waits.
#[repr(C)]
#[derive(Clone, Copy, Debug, PartialEq, Eq)]
pub struct Waits {
    /// It has a seat.
    pub has_seat: bool,
    /// It has a doorbell.
    pub polls: bool,
    /// It waits in a read ..
    pub is_reading: bool,
    /// .. and what that is answered with is there.
    pub is_woken: bool,
    /// It stands among its process's idle threads ..
    pub is_idle: bool,
    /// .. and is the one of them that the bridge is told of.
    pub is_herald: bool,
    /// Its doorbell rings, as the bridge has told.
    pub rings: bool,
    pub told: Told,
    /// What is to be told now.
    pub calls: Calls,
}

/// Where a thread stands among its process's idle ones.
#[derive(Clone, Copy, Debug, PartialEq, Eq)]
pub enum Place {
    Nowhere,
    First,
    Last,
}

const NOTHING: Told = Told {
    has_bell: false,
    reads: false,
    limit: 0,
    defers: 0,
};

// What is left to be read along with what comes behind it.
const LEAVES: u32 = 2;

impl Told {
    #[inline(always)]
    fn calls_to(&self, wanted: &Told) -> Calls
        ensures { result ≡ calls_of self.now wanted.now }
    {
        let stops_waiting = self.has_bell && !wanted.has_bell;
        let is_known = self.reads && !stops_waiting;
        let is_same = is_known && self.limit == wanted.limit && self.defers == wanted.defers;
        Calls {
            stops_waiting,
            stops_reading: is_known && !wanted.reads,
            gives_bell: wanted.has_bell && !self.has_bell,
            reads: wanted.reads && !is_same,
            limit: wanted.limit,
            defers: wanted.defers,
        }
    }

    #[inline(always)]
    fn stop(&mut self, calls: &Calls)
        ensures { self.new ≡ stopped_by calls.now self.old }
    {
        self.has_bell = self.has_bell && !calls.stops_waiting;
        self.reads = self.reads && !calls.stops_waiting && !calls.stops_reading;
    }
}

impl Waits {
    // Its read is still to be answered.
    #[inline(always)]
    fn waits_on(&self) -> bool
        ensures { result ≡ it_waits_on self.now }
    {
        self.is_reading && !self.is_woken
    }

    // No other one is told of in its place.
    #[inline(always)]
    fn is_apart(&self) -> bool
        ensures { result ≡ it_is_apart self.now }
    {
        self.has_seat && !(self.is_idle && !self.is_herald)
    }

    // What others do may bring it something, or it has something.
    #[inline(always)]
    fn is_concerned(&self, facts: &Facts, calling: u32, has_own: bool) -> bool
        ensures { result ≡ it_is_concerned facts.now calling has_own }
    {
        calling != 0 || facts.is_idle || has_own
    }

    #[inline(always)]
    fn place(&self, is_idle: bool, has_own: bool) -> Place
        ensures { result ≡ place_of is_idle has_own self.now }
    {
        if !self.has_seat || !is_idle {
            return Place::Nowhere;
        }
        if self.waits_on() {
            return Place::First;
        }
        if self.polls && !has_own {
            return Place::Last;
        }
        Place::Nowhere
    }

    #[inline(always)]
    fn put_among(&mut self, place: Place, is_alone: bool)
        ensures { self.new ≡ placed place is_alone self.old }
    {
        let (is_idle, is_herald) = match place {
            Place::Nowhere => (false, false),
            Place::First => (true, true),
            Place::Last => (true, is_alone),
        };
        self.is_idle = is_idle;
        self.is_herald = is_herald;
    }

    // What the bridge is to know of it. In whose read no return finds room, that is told by a bell.
    #[inline(always)]
    fn wanted(&self, facts: &Facts, calling: u32, has_own: bool) -> Told
        ensures { result ≡ wanted_of facts.now calling has_own self.now }
    {
        let is_apart = self.is_apart();
        let waits = is_apart && self.waits_on();
        let reads = waits && facts.has_room;
        let polls = is_apart && self.polls && self.is_concerned(facts, calling, has_own);
        Told {
            has_bell: polls || (waits && !reads),
            reads,
            limit: facts.limit,
            defers: if facts.defers { LEAVES } else { 0 },
        }
    }

    #[inline(always)]
    fn put_calls(&mut self, wanted: &Told)
        ensures { self.new ≡ planned wanted.now self.old }
    {
        let calls = self.told.calls_to(wanted);
        self.told.stop(&calls);
        self.calls = calls;
    }

    /// It waits otherwise than before: where it stands now, and what the bridge is told. `is_alone` is whether nobody else is idle,
    /// `is_ending` whether its process ends.
    #[inline(always)]
    pub fn note(
        &mut self,
        facts: &Facts,
        calling: u32,
        has_own: bool,
        is_alone: bool,
        is_ending: bool,
    ) -> Place
        ensures place { result ≡ place_of (facts.now.is_idle && not is_ending) has_own self.old }
        ensures noted { self.new ≡ noted facts.now calling has_own is_alone is_ending self.old }
    {
        let place = self.place(facts.is_idle && !is_ending, has_own);
        self.put_among(place, is_alone);
        let wanted = self.wanted(facts, calling, has_own);
        self.put_calls(&wanted);
        place
    }

    /// It is the one that the bridge is told of from now on.
    #[inline(always)]
    pub fn take_over(&mut self, facts: &Facts, calling: u32, has_own: bool)
        ensures { self.new ≡ taken_over facts.now calling has_own self.old }
    {
        self.is_herald = true;
        let wanted = self.wanted(facts, calling, has_own);
        self.put_calls(&wanted);
    }

    /// Another one is told of in its place, but where it has something of its own: then it stands there no more.
    #[inline(always)]
    pub fn hand_over(&mut self, has_own: bool)
        ensures { self.new ≡ retired has_own self.old }
    {
        let wanted = if has_own { self.told } else { NOTHING };
        self.is_idle = !has_own;
        self.is_herald = false;
        self.put_calls(&wanted);
    }

    /// The bridge is told of it as if it had been told nothing yet.
    #[inline(always)]
    pub fn tell_anew(&mut self, facts: &Facts, calling: u32, has_own: bool)
        ensures { self.new ≡ told_anew facts.now calling has_own self.old }
    {
        let stops = self.told.calls_to(&NOTHING);
        let wanted = self.wanted(facts, calling, has_own);
        self.told = NOTHING;
        self.calls = Calls {
            stops_waiting: stops.stops_waiting,
            stops_reading: stops.stops_reading,
            ..NOTHING.calls_to(&wanted)
        };
    }

    /// Whether its doorbell is to ring. `all_ring` is whether those of the idle ones are to; `is_there` whether its read has something.
    #[inline(always)]
    pub fn is_to_ring(&self, all_ring: bool, is_there: bool) -> bool
        ensures { result ≡ rings_for all_ring is_there self.now }
    {
        let is_told = if self.is_idle { all_ring } else { self.rings };
        self.has_seat && (is_told || is_there)
    }
}

/// Whether who stands first among a process's idle threads becomes the one of them that the bridge is told of; `is_same` is whether it is.
#[inline(always)]
pub fn changes_herald(is_same: bool, is_ending: bool) -> bool
    ensures { result ≡ herald_changes is_same is_ending }
{
    !is_same && !is_ending
}
