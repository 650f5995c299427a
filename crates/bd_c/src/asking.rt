//! The calls of a seat, whose answers it keeps.
ghost use Rattle.std.specs.Prelude.{◌≡◌, ◌≤◌, [], length, vec_capacity, Some, None, OnOk};
ghost use Rattle.bd_space.specs.declared.step.Request.TheVariants.{Write};
ghost use Rattle.bd_driver.specs.declared.outcome.Outcome.TheVariants.{Back};
ghost use Rattle.bd_c.specs.{Told.{told_of}, Seats.{Stays, IsSame, HasRoom, IsPlace, Keeps, Asks, AsksAgain, given_back, Looks, Posts, Serves, Collects, Withdraws}};

use crate::answers::Told;
use crate::seat::OwnedSeat;
use crate::status::Status;
use bd_driver::{Outcome, Page, Served, Why};
use bd_space::{Answer, Bytes, Request};
use std::alloc::AllocError;
use std::mem::replace;

// Takes the request that came back, if one did; else what is there stays.
fn take_request(latest: &mut Option<Outcome>) -> Option<Request>
    ensures taken { result ≡ given_back latest.old }
    ensures stays { result ≡ None → latest.new ≡ latest.old }
{
    match latest.take() {
        Some(Outcome::Back { request, why: _ }) => Some(request),
        other => {
            *latest = other;
            None
        }
    }
}

// Whatever came before, an answer can be written there.
#[inline(always)]
fn make_place(latest: &mut Option<Outcome>)
    ensures { IsPlace latest.new }
{
    match latest {
        Some(Outcome::Done { .. }) => {}
        _ => put_place(latest),
    }
}

#[inline(never)]
fn put_place(latest: &mut Option<Outcome>)
    ensures { IsPlace latest.new }
{
    *latest = Some(Outcome::Done {
        answer: Answer::Set,
        from: 0,
        to: 0,
    });
}

// These bytes in the memory that is there, for which it has room. None is left.
fn taken(room: &mut Vec<u8>, bytes: &[u8]) -> Bytes
    requires empty { room.old.items ≡ [] }
    requires room { length bytes.now ≤ vec_capacity room.old }
    ensures same { room.new.items ≡ [] }
    ensures bytes { result ≡ bytes.now }
{
    let none = Vec::new(*room.allocator());
    let mut copy = replace(room, none);
    copy.extend_from_slice(bytes).unwrap();
    Bytes::new(copy)
}

impl OwnedSeat {
    // Keeps what a call came to, and tells it. Put into its callers, so that an outcome is moved once.
    #[inline(always)]
    fn keep(&mut self, outcome: Outcome, told: &mut Told)
        ensures kept { self.new ≡ record self.old { latest = Some outcome } }
        ensures told { told.new ≡ told_of outcome }
    {
        // Told from where it is kept: else it is read in pieces before it is moved there.
        self.latest = Some(outcome);
        let Some(latest) = &self.latest else {
            unreachable!()
        };
        *told = Told::of(latest);
    }

    // Keeps and tells that a request came back. On its own: else each call clears room for an outcome that few come to.
    #[inline(never)]
    fn keep_back(&mut self, request: Request, why: Why, told: &mut Told)
        ensures kept { self.new ≡ record self.old { latest = Some (Back request why) } }
        ensures told { told.new ≡ told_of (Back request why) }
    {
        self.keep(Outcome::Back { request, why }, told);
    }

    /// Has the driver run a request, and keeps and tells the outcome. Nothing is done while a request is handed over.
    // Put into the call that C makes most: the answer is written where it is kept.
    #[inline(always)]
    pub(crate) fn run(&mut self, request: Request, told: &mut Told) -> Status
        ensures stays { Stays self.old self.new }
        ensures asks { Asks self.old self.new request result told.old told.new }
    {
        if self.seat.is_waiting() {
            return Status::Waiting;
        }
        make_place(&mut self.latest);
        let Some(latest) = &mut self.latest else {
            unreachable!()
        };
        let Outcome::Done { answer, from, to } = latest else {
            unreachable!()
        };
        match self.keyed.driver.run(&mut self.seat, &request, answer) {
            Ok(span) => {
                *from = span.from;
                *to = span.to;
                *told = Told::done(answer, u64::from(span.from), u64::from(span.to));
            }
            Err(why) => self.keep_back(request, why, told),
        }
        Status::Done
    }

    // Room for a copy of the bytes of a write, should it come back. It stays with the seat.
    #[inline(always)]
    fn make_room(&mut self, stream: &[u8], area: &[u8]) -> Result<(), AllocError>
        ensures same { IsSame self.old self.new }
        ensures room { OnOk result (HasRoom self.new stream.now area.now) }
    {
        self.stream.reserve(stream.len())?;
        self.area.reserve(area.len())
    }

    // Keeps and tells that a write came back, with copies of its bytes, for which room was made. On its own, as `keep_back`.
    #[inline(never)]
    fn keep_write(&mut self, stream: &[u8], area: &[u8], why: Why, told: &mut Told)
        requires { HasRoom self.old stream.now area.now }
        ensures stays { Stays self.old self.new }
        ensures seat { self.new.seat ≡ self.old.seat }
        ensures keeps { Keeps self.new (Back (Write stream.now area.now) why) told.new }
    {
        let request = Request::Write {
            stream: taken(&mut self.stream, stream),
            area: taken(&mut self.area, area),
        };
        self.keep(Outcome::Back { request, why }, told);
    }

    /// Has the driver run a write, as `run` does, whose bytes are lent. They are copied only where the write comes back.
    #[inline(always)]
    pub(crate) fn write(&mut self, stream: &[u8], area: &[u8], told: &mut Told) -> Status
        ensures stays { Stays self.old self.new }
        ensures asks { Asks self.old self.new (Write stream.now area.now) result told.old told.new }
    {
        if self.seat.is_waiting() {
            return Status::Waiting;
        }
        if self.make_room(stream, area).is_err() {
            return Status::NoMemory;
        }
        make_place(&mut self.latest);
        let Some(latest) = &mut self.latest else {
            unreachable!()
        };
        let Outcome::Done { answer, from, to } = latest else {
            unreachable!()
        };
        match self
            .keyed
            .driver
            .write(&mut self.seat, stream, area, answer)
        {
            Ok(span) => {
                *from = span.from;
                *to = span.to;
                *told = Told::done(answer, u64::from(span.from), u64::from(span.to));
            }
            Err(why) => self.keep_write(stream, area, why, told),
        }
        Status::Done
    }

    /// Has the driver run a request, and keeps and tells the outcome. Nothing is done while a request is handed over.
    #[inline(never)]
    pub(crate) fn call(&mut self, request: Request, told: &mut Told) -> Status
        ensures stays { Stays self.old self.new }
        ensures asks { Asks self.old self.new request result told.old told.new }
    {
        if self.seat.is_waiting() {
            return Status::Waiting;
        }
        self.run(request, told)
    }

    /// Has the driver run the request that the latest call gave back. Its bytes aren't copied again.
    pub(crate) fn again(&mut self, told: &mut Told) -> Status
        ensures stays { Stays self.old self.new }
        ensures again { AsksAgain self.old self.new result told.old told.new }
    {
        if self.seat.is_waiting() {
            return Status::Waiting;
        }
        let Some(request) = take_request(&mut self.latest) else {
            return Status::NoSuchRequest;
        };
        let outcome = self.keyed.driver.call(&mut self.seat, request);
        self.keep(outcome, told);
        Status::Done
    }

    /// Looks at the driver's page, by one load.
    pub(crate) fn look(&mut self) -> Page
        ensures stays { Stays self.old self.new }
        ensures looks { Looks self.old self.new result }
    {
        self.keyed.driver.look(&mut self.seat)
    }

    /// Hands a request over, unless one is handed over already.
    pub(crate) fn post(&mut self, request: Request) -> Status
        ensures stays { Stays self.old self.new }
        ensures posts { Posts self.old self.new request result }
    {
        if self.seat.is_waiting() {
            return Status::Waiting;
        }
        self.keyed.driver.post(&mut self.seat, request);
        Status::Done
    }

    /// Runs what all seats have handed over.
    pub(crate) fn serve(&mut self) -> Served
        ensures stays { Stays self.old self.new }
        ensures serves { Serves self.old self.new result }
    {
        self.keyed.driver.serve(&mut self.seat)
    }

    /// Fetches the answer to what was handed over, and keeps and tells it. Nothing is done while nothing is handed over.
    pub(crate) fn collect(&mut self, told: &mut Told) -> Status
        ensures stays { Stays self.old self.new }
        ensures collects { Collects self.old self.new result told.old told.new }
    {
        if !self.seat.is_waiting() {
            return Status::NotWaiting;
        }
        let outcome = self.keyed.driver.collect(&mut self.seat);
        self.keep(outcome, told);
        Status::Done
    }

    /// Takes back what was handed over, and keeps and tells the outcome. Nothing is done while nothing is handed over.
    pub(crate) fn withdraw(&mut self, told: &mut Told) -> Status
        ensures stays { Stays self.old self.new }
        ensures withdraws { Withdraws self.old self.new result told.old told.new }
    {
        if !self.seat.is_waiting() {
            return Status::NotWaiting;
        }
        let outcome = self.keyed.driver.withdraw(&mut self.seat);
        self.keep(outcome, told);
        Status::Done
    }
}
