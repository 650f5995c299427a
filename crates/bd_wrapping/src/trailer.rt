//! What stands behind a parcel that goes through the engine as more data than its client sent.

ghost use Rattle.std.specs.Prelude.{◌≡◌, ◌<◌, ◌≤◌, ◌+◌, ◌-◌, ◌/◌, ◌%◌, ◌^◌, ◌++◌, length, take, drop, replicate, true, false, IfSome, IfNone};
ghost use Rattle.bd_wrapping.specs.Trailers.{round_8 as rounded, is_clear as it_is_clear, trailer_at, trailer_bytes, trailer_in as found_in, wrapped_size, has_room as it_has_room, IsPut};

use bd_uapi::numbers::{put_u32, put_u64, u32_at, u64_at};

/// A parcel as its client sent it, and how it goes.
#[repr(C)]
#[derive(Clone, Copy, Debug, PartialEq, Eq)]
pub struct Trailer {
    /// How many bytes of data it has, ..
    pub body: u64,
    /// .. of offsets, ..
    pub offsets: u64,
    /// .. and of buffers.
    pub buffers: u64,
    /// The place of the step that sends it.
    pub step: u64,
    /// How many descriptors go with it.
    pub descriptors: u32,
    /// The effective uid of who sends it.
    pub euid: u32,
}

/// How many bytes a trailer has.
const TRAILER: usize = 48;

// `trailer` and a 0, as a number.
const MARK: u64 = 0x0072_656c_6961_7274;

/// The next multiple of 8 of what is small.
pub(crate) fn round_8(n: u64) -> u64
    requires { n < 2 ^ 33 }
    ensures { result ≡ rounded n }
{
    (n + 7) / 8 * 8
}

// Whether no object that the engine knows reaches behind a place: by the last one.
fn is_clear(offsets: &[u8], place: usize) -> bool
    ensures { result ≡ it_is_clear offsets.now place }
{
    if offsets.len() < 8 {
        return true;
    }
    let last = u64_at(offsets, 8 * (offsets.len() / 8 - 1)) as usize;
    last <= place && place - last >= 24
}

// The trailer at a place.
fn read(bytes: &[u8], at: usize) -> Trailer
    requires { at + 48 ≤ length bytes.now }
    ensures { result ≡ trailer_at at bytes.now }
{
    let (low, high) = (u32_at(bytes, at + 24), u32_at(bytes, at + 36));
    Trailer {
        body: u64_at(bytes, at),
        offsets: u64_at(bytes, at + 8),
        buffers: u64_at(bytes, at + 16),
        step: low as u64 + high as u64 * 0x1_0000_0000,
        descriptors: u32_at(bytes, at + 28),
        euid: u32_at(bytes, at + 32),
    }
}

/// The trailer of data, as the engine has it, with the offsets of the objects that it knows. None where it has none.
pub fn trailer_in(body: &[u8], offsets: &[u8]) -> Option<Trailer>
    ensures { result ≡ found_in body.now offsets.now }
{
    if body.len() < TRAILER {
        return None;
    }
    let at = body.len() - TRAILER;
    if u64_at(body, at + 40) != MARK || !is_clear(offsets, at) {
        return None;
    }
    Some(read(body, at))
}

// How much stands before the trailer, each part up to a multiple of 8, if there is room for all of that.
fn size_in(laid: usize, trailer: &Trailer, room: usize) -> Option<usize>
    ensures none { IfNone result (it_has_room laid trailer.now room ≡ false) }
    ensures some { IfSome result (λ n. (it_has_room laid trailer.now room ≡ true) × (n ≡ wrapped_size trailer.now) × (laid ≤ n) × (n + 48 ≤ room)) }
{
    let most = u32::MAX as u64;
    if trailer.body > most || trailer.offsets > most || trailer.buffers > most {
        return None;
    }
    let size = (round_8(trailer.body) + round_8(trailer.offsets) + trailer.buffers) as usize;
    if size < laid || room < size + TRAILER {
        return None;
    }
    Some(size)
}

// Zeros from one place to another.
fn clear(out: &mut [u8], from: usize, to: usize)
    requires order { from ≤ to }
    requires room { to ≤ length out.old }
    ensures { out.new ≡ take from out.old ++ replicate (to - from) 0 ++ drop to out.old }
{
    out[from..to].fill(0);
}

fn low(step: u64) -> u32
    ensures { result ≡ step % 2 ^ 32 }
{
    (step % 0x1_0000_0000) as u32
}

fn high(step: u64) -> u32
    ensures { result ≡ step / 2 ^ 32 }
{
    (step / 0x1_0000_0000) as u32
}

// Writes it from a place on.
fn write(out: &mut [u8], at: usize, trailer: &Trailer)
    requires { at + 48 ≤ length out.old }
    ensures { out.new ≡ take at out.old ++ trailer_bytes trailer.now ++ drop (at + 48) out.old }
{
    put_u64(out, at, trailer.body);
    put_u64(out, at + 8, trailer.offsets);
    put_u64(out, at + 16, trailer.buffers);
    put_u32(out, at + 24, low(trailer.step));
    put_u32(out, at + 28, trailer.descriptors);
    put_u32(out, at + 32, trailer.euid);
    put_u32(out, at + 36, high(trailer.step));
    put_u64(out, at + 40, MARK);
}

/// Behind the first `laid` bytes, which are a parcel as it is laid out, puts zeros as far as its buffers' room goes, and its trailer behind
/// that: how much there is then. None where there isn't that much room, or less than was laid out, and nothing is written.
pub fn put_trailer(out: &mut [u8], laid: usize, trailer: &Trailer) -> Option<usize>
    ensures { IsPut laid trailer.now out.old out.new result }
{
    let Some(size) = size_in(laid, trailer, out.len()) else {
        return None;
    };
    clear(out, laid, size);
    write(out, size, trailer);
    Some(size + TRAILER)
}
