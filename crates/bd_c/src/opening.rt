//! What is behind a handle, taken out and put back.
ghost use Rattle.std.specs.Prelude.{◌≡◌, Some, None, IfOk, IfErr, MatchResult};
ghost use Rattle.bd_c.specs.{declared.held.Held.{Held}, declared.status.Status.TheVariants.{Done, NoMemory}};
ghost use Rattle.bd_c.specs.{Behind.{IsThere}, Status.{number_of}};

use crate::handles::Handle;
use crate::held::Held;
use crate::loose::Loose;
use crate::status::Status;
use std::alloc::Global;

fn open(alloc: Global, h: Handle) -> Loose<Held, Global>
    requires { IsThere h.held }
    ensures { (x : Held) → h.held ≡ Some x → result.value ≡ x }
{
    let Handle { at } = h;
    Loose {
        at: at as *mut Held,
        alloc,
    }
}

fn close(l: Loose<Held, Global>) -> Handle
    ensures { result.held ≡ Some l.value }
{
    let Loose { at, alloc } = l;
    Handle { at: at as *mut u8 }
}

fn empty() -> Handle
    ensures { result.held ≡ None }
{
    Handle {
        at: std::ptr::null_mut(),
    }
}

/// What is to be behind a handle, in a box.
pub(crate) fn boxed(alloc: Global, held: Held) -> Result<Box<Held>, Status>
    ensures ok { IfOk result (λ b. b.value ≡ held) }
    ensures refused { IfErr result (λ s. s ≡ NoMemory) }
{
    match Box::new(alloc, held) {
        Ok(held) => Ok(held),
        Err(_) => Err(Status::NoMemory),
    }
}

/// Takes out what is behind the handle, which then has nothing.
pub(crate) fn take(alloc: Global, handle: &mut Handle) -> Box<Held>
    requires { IsThere handle.old.held }
    ensures held { handle.old.held ≡ Some result.value }
    ensures empty { handle.new.held ≡ None }
{
    open(alloc, std::mem::replace(handle, empty())).into_box()
}

/// Lets go of what is behind the handle, if anything is.
pub(crate) fn free(alloc: Global, handle: &mut Handle)
    ensures { handle.new.held ≡ None }
{
    if handle.is_there() {
        drop(take(alloc, handle));
    }
}

/// Puts it behind the handle. What was there is forgotten: there must be nothing.
pub(crate) fn put(handle: &mut Handle, held: Box<Held>)
    requires { handle.old.held ≡ None }
    ensures { handle.new.held ≡ Some held.value }
{
    *handle = close(Loose::of(held));
}

/// Puts what was made behind the handle, which must have nothing, or tells why there is nothing to be put.
pub(crate) fn put_made(handle: &mut Handle, made: Result<Box<Held>, Status>) -> u32
    requires { handle.old.held ≡ None }
    ensures { MatchResult made
        (λ b. (result ≡ number_of Done) × (handle.new.held ≡ Some b.value))
        (λ s. (result ≡ number_of s) × (handle.new.held ≡ None)) }
{
    match made {
        Ok(held) => {
            put(handle, held);
            Status::Done.number()
        }
        Err(status) => status.number(),
    }
}
