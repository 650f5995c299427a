//! What C calls to know whom of a process it is told of the objects that its threads send.
ghost use Rattle.std.specs.Prelude.{◌≡◌, None, false, length};
ghost use Rattle.bd_sendings.specs.Sendings.{told_of as who_is_told, is_before as comes_before_it};
ghost use Rattle.bd_c.specs.{Status.{Reports}, Misuse.{IsMisuse}, Behind.{Of, Over, IsThere, IsSendings, sendings_of}};
ghost use Rattle.bd_c.specs.Sendings.{sending_given, SendingsOpen, NotesParcel, EndsThread, TellsSenderFor};

use crate::handles::Handle;
use crate::opening::{free, put_made};
use crate::sendings::{SendingInC, end_thread, note_parcel, open_sendings, tell_sender};
use crate::status::Status;
use std::alloc::Global;

/// Makes a handle's sendings: nothing is known to be sent. The handle has to have nothing.
#[tactic(auto, using(crate::proofs::Behind::none_there))]
#[unsafe(no_mangle)]
pub extern "C" fn hullpippin_sendings_new(alloc: Global, sendings: &mut Handle) -> u32
    ensures begins { sendings.old.held ≡ None → Reports result (SendingsOpen sendings.new.held) }
    ensures misuse { IsThere sendings.old.held → IsMisuse result sendings.old.held sendings.new.held }
{
    if sendings.is_there() {
        return Status::Misuse.number();
    }
    put_made(sendings, open_sendings(alloc))
}

/// A parcel was taken: its objects are sent, in their order.
#[unsafe(no_mangle)]
pub extern "C" fn hullpippin_sendings_note(
    sendings: &mut Handle,
    sending: &SendingInC,
    body: &[u8],
    offsets: &[u8],
)
    ensures notes { IsSendings sendings.old.held → Over sendings_of sendings.old.held sendings.new.held (λ x y.
        NotesParcel x y (sending_given sending.now) body.now offsets.now) }
    ensures misuse { (IsSendings sendings.old.held → ⊥) → sendings.new.held ≡ sendings.old.held }
{
    if let Some(all) = sendings.sendings() {
        note_parcel(all, sending, body, offsets);
    }
}

/// A thread has read that all was taken that it has sent: nothing of that is known from then on. Answers whether nothing of anybody's is.
#[unsafe(no_mangle)]
pub extern "C" fn hullpippin_sendings_end(sendings: &mut Handle, thread: u32) -> bool
    ensures ends { IsSendings sendings.old.held → Over sendings_of sendings.old.held sendings.new.held (λ x y. EndsThread x y thread result) }
    ensures misuse { (IsSendings sendings.old.held → ⊥) → (result ≡ false) × (sendings.new.held ≡ sendings.old.held) }
{
    match sendings.sendings() {
        Some(all) => end_thread(all, thread),
        None => false,
    }
}

/// Who is told what the engine tells a thread of an object: that one itself, or another that has sent it before.
#[unsafe(no_mangle)]
pub extern "C" fn hullpippin_sendings_told(sendings: &mut Handle, thread: u32, ptr: u64) -> u32
    ensures same { sendings.new.held ≡ sendings.old.held }
    ensures tells { IsSendings sendings.old.held → Of sendings_of sendings.old.held (λ x. result ≡ who_is_told thread ptr x.known.items) }
    ensures misuse { (IsSendings sendings.old.held → ⊥) → result ≡ thread }
{
    match sendings.sendings() {
        Some(all) => all.told_of(thread, ptr),
        None => thread,
    }
}

/// How many objects are known to be sent.
#[unsafe(no_mangle)]
pub extern "C" fn hullpippin_sendings_count(sendings: &mut Handle) -> usize
    ensures same { sendings.new.held ≡ sendings.old.held }
    ensures tells { IsSendings sendings.old.held → Of sendings_of sendings.old.held (λ x. result ≡ length x.known.items) }
    ensures misuse { (IsSendings sendings.old.held → ⊥) → result ≡ 0 }
{
    match sendings.sendings() {
        Some(all) => all.count(),
        None => 0,
    }
}

/// Tells who has sent the object at a place, where another thread has, and this one is told of it. Answers whether it is so.
#[unsafe(no_mangle)]
pub extern "C" fn hullpippin_sendings_sender(
    sendings: &mut Handle,
    thread: u32,
    index: usize,
    sender: &mut u32,
) -> bool
    ensures same { sendings.new.held ≡ sendings.old.held }
    ensures tells { IsSendings sendings.old.held → Of sendings_of sendings.old.held (λ x. TellsSenderFor x thread index sender.old sender.new result) }
    ensures misuse { (IsSendings sendings.old.held → ⊥) → (result ≡ false) × (sender.new ≡ sender.old) }
{
    match sendings.sendings() {
        Some(all) => tell_sender(all, thread, index, sender),
        None => false,
    }
}

/// Whether what a thread is told of one object goes before what it is told of another.
#[unsafe(no_mangle)]
pub extern "C" fn hullpippin_sendings_before(
    sendings: &mut Handle,
    thread: u32,
    one: u64,
    other: u64,
) -> bool
    ensures same { sendings.new.held ≡ sendings.old.held }
    ensures tells { IsSendings sendings.old.held → Of sendings_of sendings.old.held (λ x. result ≡ comes_before_it thread one other x.known.items) }
    ensures misuse { (IsSendings sendings.old.held → ⊥) → result ≡ false }
{
    match sendings.sendings() {
        Some(all) => all.is_before(thread, one, other),
        None => false,
    }
}

/// Lets go of sendings, if there are any. The handle then has nothing.
#[unsafe(no_mangle)]
pub extern "C" fn hullpippin_free_sendings(alloc: Global, sendings: &mut Handle)
    ensures { sendings.new.held ≡ None }
{
    free(alloc, sendings);
}
