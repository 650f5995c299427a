//! What C hands over, as a request.
ghost use Rattle.std.specs.Prelude.{◌≡◌, Some, IfOk, IfErr};
ghost use Rattle.bd_space.specs.declared.step.Request.TheVariants.{Write};
ghost use Rattle.bd_c.specs.{Requests.{request_of, IsNoRequest}, Flags.{flag_of, IsNoFlag}};

use crate::status::Status;
use bd_space::{Bytes, Request};
use std::alloc::{AllocError, Global};

/// A request without its bytes. A field that the kind has no use for isn't looked at.
#[repr(C)]
#[derive(Clone, Copy)]
pub struct RequestGiven {
    /// 1 open, 2 attach, 3 become the manager, 4 write, 5 read, 6 end the thread, 7 end the process, 8 set reports of
    /// flooding.
    pub kind: u32,
    /// The pid of the process that is opened or attached to.
    pub pid: u32,
    /// The effective user id of the process that is opened.
    pub euid: u32,
    /// The size of the window of the process that is opened, in bytes.
    pub window: u32,
    /// How many bytes of returns are read at most.
    pub limit: u32,
    /// Whether flooding is to be reported: 1 where it is, 0 where it isn't any more.
    pub on: u32,
}

/// A copy of the bytes, in memory of its own.
pub(crate) fn copied(alloc: Global, from: &[u8]) -> Result<Bytes, AllocError>
    ensures { IfOk result (λ b. b ≡ from.now) }
{
    Ok(Bytes::new(from.to_vec(alloc)?))
}

/// A write, with its bytes in memory of its own.
pub(crate) fn write(alloc: Global, stream: &[u8], area: &[u8]) -> Result<Request, AllocError>
    ensures { IfOk result (λ r. r ≡ Write stream.now area.now) }
{
    let stream = copied(alloc, stream)?;
    let area = copied(alloc, area)?;
    Ok(Request::Write { stream, area })
}

/// Whether reports of flooding are to be set. It comes as a number since C may hand over any byte for a bool.
pub(crate) fn flag_of(on: u32) -> Result<bool, Status>
    ensures ok { IfOk result (λ b. flag_of on ≡ Some b) }
    ensures refused { IfErr result (IsNoFlag on) }
{
    match on {
        0 => Ok(false),
        1 => Ok(true),
        _ => Err(Status::NoSuchRequest),
    }
}

/// The request that C gives by these fields and bytes.
pub(crate) fn request_of(
    alloc: Global,
    given: &RequestGiven,
    stream: &[u8],
    area: &[u8],
) -> Result<Request, Status>
    ensures ok { IfOk result (λ r. request_of given.now stream.now area.now ≡ Some r) }
    ensures refused { IfErr result (IsNoRequest given.now stream.now area.now) }
{
    match given.kind {
        1 => Ok(Request::Open {
            pid: given.pid,
            euid: given.euid,
            window: given.window,
        }),
        2 => Ok(Request::Attach { pid: given.pid }),
        3 => Ok(Request::SetManager),
        4 => match write(alloc, stream, area) {
            Ok(request) => Ok(request),
            Err(_) => Err(Status::NoMemory),
        },
        5 => Ok(Request::Read { limit: given.limit }),
        6 => Ok(Request::ExitThread),
        7 => Ok(Request::ExitProcess),
        8 => Ok(Request::SetSpam {
            on: flag_of(given.on)?,
        }),
        _ => Err(Status::NoSuchRequest),
    }
}
