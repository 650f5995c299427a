//! What C calls of a seat.
ghost use Rattle.std.specs.Prelude.{◌≡◌, false};
ghost use Rattle.bd_space.specs.declared.step.Request.TheVariants.{Open, Attach, SetManager, SetSpam, Write, Read, ExitThread, ExitProcess};
ghost use Rattle.bd_c.specs.{Status.{Reports}, Misuse.{IsMisuse}, Behind.{Of, IsSeat, seat_of}, Flags.{ByFlag}};
ghost use Rattle.bd_c.specs.{Seats.{OverSeat, AsksAt, AsksAgain, Looks}, Parts.{bytes_of, notes_of, Fetches, TellsNote}};
ghost use Rattle.bd_c.specs.Pages.{page_told};
ghost use Rattle.bd_driver.specs.declared.page.Page.{Page};

use crate::answers::Told;
use crate::handles::Handle;
use crate::pages::PageTold;
use crate::parts::{NoteTold, bytes_of, fill, notes_of, tell_note};
use crate::requests::flag_of;
use crate::status::Status;
use bd_space::Request;

// Makes a request of the seat that is behind the handle, and answers the number of the call's status.
#[inline(always)]
fn ask(seat: &mut Handle, request: Request, told: &mut Told) -> u32
    ensures asks { IsSeat seat.old.held → Reports result (AsksAt seat.old.held seat.new.held request told.old told.new) }
    ensures misuse { (IsSeat seat.old.held → ⊥) → IsMisuse result seat.old.held seat.new.held × (told.new ≡ told.old) }
{
    match seat.seat() {
        Some(seat) => seat.call(request, told).number(),
        None => Status::Misuse.number(),
    }
}

/// Opens a process with one thread, the seat's.
#[unsafe(no_mangle)]
pub extern "C" fn hullpippin_open(
    seat: &mut Handle,
    pid: u32,
    euid: u32,
    window: u32,
    told: &mut Told,
) -> u32
    ensures asks { IsSeat seat.old.held → Reports result (AsksAt seat.old.held seat.new.held (Open pid euid window) told.old told.new) }
    ensures misuse { (IsSeat seat.old.held → ⊥) → IsMisuse result seat.old.held seat.new.held × (told.new ≡ told.old) }
{
    ask(seat, Request::Open { pid, euid, window }, told)
}

/// Makes the seat a further thread of a live process.
#[unsafe(no_mangle)]
pub extern "C" fn hullpippin_attach(seat: &mut Handle, pid: u32, told: &mut Told) -> u32
    ensures asks { IsSeat seat.old.held → Reports result (AsksAt seat.old.held seat.new.held (Attach pid) told.old told.new) }
    ensures misuse { (IsSeat seat.old.held → ⊥) → IsMisuse result seat.old.held seat.new.held × (told.new ≡ told.old) }
{
    ask(seat, Request::Attach { pid }, told)
}

/// Makes the seat's process the context manager.
#[unsafe(no_mangle)]
pub extern "C" fn hullpippin_manager(seat: &mut Handle, told: &mut Told) -> u32
    ensures asks { IsSeat seat.old.held → Reports result (AsksAt seat.old.held seat.new.held SetManager told.old told.new) }
    ensures misuse { (IsSeat seat.old.held → ⊥) → IsMisuse result seat.old.held seat.new.held × (told.new ≡ told.old) }
{
    ask(seat, Request::SetManager, told)
}

/// Has the seat's process told of its own one-way flooding where it is 1, and no longer where it is 0.
#[tactic(auto, using(crate::proofs::Answering::flag_refused, crate::proofs::Answering::flag_asks))]
#[unsafe(no_mangle)]
pub extern "C" fn hullpippin_set_spam(seat: &mut Handle, on: u32, told: &mut Told) -> u32
    ensures asks { IsSeat seat.old.held → Reports result (ByFlag on (λ on. AsksAt seat.old.held seat.new.held (SetSpam on))
        seat.old.held seat.new.held told.old told.new) }
    ensures misuse { (IsSeat seat.old.held → ⊥) → IsMisuse result seat.old.held seat.new.held × (told.new ≡ told.old) }
{
    let Some(seat) = seat.seat() else {
        return Status::Misuse.number();
    };
    match flag_of(on) {
        Ok(on) => seat.call(Request::SetSpam { on }, told).number(),
        Err(status) => status.number(),
    }
}

/// Runs the commands of a stream, whose parcels are cut from the area.
#[unsafe(no_mangle)]
pub extern "C" fn hullpippin_write(
    seat: &mut Handle,
    stream: &[u8],
    area: &[u8],
    told: &mut Told,
) -> u32
    ensures asks { IsSeat seat.old.held → Reports result (AsksAt seat.old.held seat.new.held (Write stream.now area.now) told.old told.new) }
    ensures misuse { (IsSeat seat.old.held → ⊥) → IsMisuse result seat.old.held seat.new.held × (told.new ≡ told.old) }
{
    let Some(seat) = seat.seat() else {
        return Status::Misuse.number();
    };
    seat.write(stream, area, told).number()
}

/// Reads returns, whose bytes stay with the seat.
#[unsafe(no_mangle)]
pub extern "C" fn hullpippin_read(seat: &mut Handle, limit: u32, told: &mut Told) -> u32
    ensures asks { IsSeat seat.old.held → Reports result (AsksAt seat.old.held seat.new.held (Read limit) told.old told.new) }
    ensures misuse { (IsSeat seat.old.held → ⊥) → IsMisuse result seat.old.held seat.new.held × (told.new ≡ told.old) }
{
    let Some(seat) = seat.seat() else {
        return Status::Misuse.number();
    };
    seat.run(Request::Read { limit }, told).number()
}

/// Ends the seat's thread.
#[unsafe(no_mangle)]
pub extern "C" fn hullpippin_exit_thread(seat: &mut Handle, told: &mut Told) -> u32
    ensures asks { IsSeat seat.old.held → Reports result (AsksAt seat.old.held seat.new.held ExitThread told.old told.new) }
    ensures misuse { (IsSeat seat.old.held → ⊥) → IsMisuse result seat.old.held seat.new.held × (told.new ≡ told.old) }
{
    ask(seat, Request::ExitThread, told)
}

/// Ends the seat's process with all its threads.
#[unsafe(no_mangle)]
pub extern "C" fn hullpippin_exit_process(seat: &mut Handle, told: &mut Told) -> u32
    ensures asks { IsSeat seat.old.held → Reports result (AsksAt seat.old.held seat.new.held ExitProcess told.old told.new) }
    ensures misuse { (IsSeat seat.old.held → ⊥) → IsMisuse result seat.old.held seat.new.held × (told.new ≡ told.old) }
{
    ask(seat, Request::ExitProcess, told)
}

/// Makes the request that the seat's latest call gave back.
#[unsafe(no_mangle)]
pub extern "C" fn hullpippin_again(seat: &mut Handle, told: &mut Told) -> u32
    ensures again { IsSeat seat.old.held → Reports result (λ s.
        OverSeat seat.old.held seat.new.held (λ x y. AsksAgain x y s told.old told.new)) }
    ensures misuse { (IsSeat seat.old.held → ⊥) → IsMisuse result seat.old.held seat.new.held × (told.new ≡ told.old) }
{
    let Some(seat) = seat.seat() else {
        return Status::Misuse.number();
    };
    seat.again(told).number()
}

/// Copies a part of the bytes that the seat's latest call got, if all of them fit: 0 the returns, 1 the data, 2 the
/// offsets. Answers how many they are.
#[unsafe(no_mangle)]
pub extern "C" fn hullpippin_answer_bytes(seat: &mut Handle, part: u32, out: &mut [u8]) -> usize
    ensures same { seat.new.held ≡ seat.old.held }
    ensures fetches { IsSeat seat.old.held
        → Of seat_of seat.old.held (λ x. Fetches (bytes_of part x.latest) out.old out.new result) }
    ensures misuse { (IsSeat seat.old.held → ⊥) → (result ≡ 0) × (out.new ≡ out.old) }
{
    match seat.seat() {
        Some(seat) => fill(out, bytes_of(&seat.latest, part)),
        None => 0,
    }
}

/// Tells a note of the seat's latest call, if there is one at the index.
#[unsafe(no_mangle)]
pub extern "C" fn hullpippin_answer_note(
    seat: &mut Handle,
    index: usize,
    note: &mut NoteTold,
) -> bool
    ensures same { seat.new.held ≡ seat.old.held }
    ensures tells { IsSeat seat.old.held
        → Of seat_of seat.old.held (λ x. TellsNote (notes_of x.latest) index note.old note.new result) }
    ensures misuse { (IsSeat seat.old.held → ⊥) → (result ≡ false) × (note.new ≡ note.old) }
{
    match seat.seat() {
        Some(seat) => tell_note(notes_of(&seat.latest), index, note),
        None => false,
    }
}

/// The page, as one load finds it.
#[unsafe(no_mangle)]
pub extern "C" fn hullpippin_look(seat: &mut Handle, page: &mut PageTold)
    ensures looks { IsSeat seat.old.held
        → (p : Page) × (page.new ≡ page_told p) × OverSeat seat.old.held seat.new.held (λ x y. Looks x y p) }
    ensures misuse { (IsSeat seat.old.held → ⊥) → (seat.new.held ≡ seat.old.held) × (page.new ≡ page.old) }
{
    if let Some(seat) = seat.seat() {
        *page = PageTold::of(seat.look());
    }
}

/// The seats that have something to read, as one load of the page finds them: bit i for seat i.
#[unsafe(no_mangle)]
pub extern "C" fn hullpippin_ready(seat: &mut Handle) -> u32
    ensures looks { IsSeat seat.old.held
        → (p : Page) × (result ≡ p.ready) × OverSeat seat.old.held seat.new.held (λ x y. Looks x y p) }
    ensures misuse { (IsSeat seat.old.held → ⊥) → (result ≡ 0) × (seat.new.held ≡ seat.old.held) }
{
    match seat.seat() {
        Some(seat) => seat.look().ready,
        None => 0,
    }
}
