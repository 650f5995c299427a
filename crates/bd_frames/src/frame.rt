//! A frame, and what a table keeps beside it.

ghost use Rattle.std.specs.Prelude.{◌≡◌, ◌==◌, ◌&&◌};
ghost use Rattle.bd_space.specs.Frames as spec;
ghost use Rattle.bd_frames.specs.Linked as linked;
ghost use Rattle.bd_frames.specs.Words.{lost_frame, left_frame};

use bd_space::{Frame, Server};

/// A frame, and what is linked to it.
#[derive(Clone, Copy, Debug)]
pub struct Row {
    pub frame: Frame,
    /// A bound: no older frame of its caller was made later, unless nothing is known of that thread's stack.
    pub caller: Option<u64>,
    /// The same of its server.
    pub server: Option<u64>,
    /// How many frames have it as their parent.
    pub children: u64,
}

/// A call is served by the thread of this seat.
pub fn serves(seat: u32, server: Server) -> bool
    ensures { result ≡ spec.serves seat server }
{
    matches!(server, Server::Serving(t) if t == seat)
}

pub(crate) fn takes_part(frame: &Frame, seat: u32) -> bool
    ensures { result ≡ spec.takes_part seat frame.now }
{
    frame.caller == Some(seat) || serves(seat, frame.server)
}

/// Its server has gone, and no child is counted.
pub(crate) fn is_abandoned(row: &Row) -> bool
    ensures { result ≡ (spec.is_gone row.now.frame.server && (row.now.children == 0)) }
{
    matches!(row.frame.server, Server::Gone) && row.children == 0
}

/// The bound of the older frames of the thread, which takes part in this one.
pub(crate) fn below_of(seat: u32, row: &Row) -> Option<u64>
    ensures { result ≡ linked.below_of seat row.now }
{
    if row.frame.caller == Some(seat) {
        row.caller
    } else {
        row.server
    }
}

/// Who serves the frame's call, unless it is its caller: that is led on as such.
pub(crate) fn other_server(frame: Frame) -> Option<u32>
    ensures { result ≡ linked.other_server frame }
{
    match frame.server {
        Server::Serving(seat) if frame.caller != Some(seat) => Some(seat),
        _ => None,
    }
}

/// The frame's call has lost who would have served it.
pub(crate) fn frame_lost(frame: Frame) -> Frame
    ensures { result ≡ lost_frame frame }
{
    match frame.server {
        Server::Pending => Frame {
            server: Server::Gone,
            ..frame
        },
        _ => frame,
    }
}

/// The frame, once the thread is gone from it, as caller and as server.
pub(crate) fn frame_without(seat: u32, frame: Frame) -> Frame
    ensures { result ≡ left_frame seat frame }
{
    let caller = frame.caller.filter(|c| *c != seat);
    if serves(seat, frame.server) {
        Frame {
            caller,
            server: Server::Gone,
            ..frame
        }
    } else {
        Frame { caller, ..frame }
    }
}
