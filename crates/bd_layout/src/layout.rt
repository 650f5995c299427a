//! A parcel, object by object.

ghost use Rattle.std.specs.Prelude.{◌≡◌, ◌≤◌, ◌<◌, ◌+◌, ◌*◌, ◌++◌, ◌^◌, [], ◌∷◌, length, vec_len, IfOk, IfSome, OnSome};
ghost use Rattle.bd_layout.specs.declared.fixup.Fixup.TheVariants.{Pointer};
ghost use Rattle.bd_layout.specs.Writable.{outward_from, claimed_first, claimed, EndWithin, IsClaim};
ghost use Rattle.bd_layout.specs.Plans.{Plan, padding, aligned, with_buffer, with_fixup, numbers_at, pointed, pointer, descriptor, array, IsNext, LiesWithin};

use crate::{Fixup, OpenBuffer};
use bd_uapi::numbers::{u32_at, u64_at};
use std::alloc::AllocError;
use std::collections::LinkedList;
use std::marker::Model;

/// How a parcel is laid out. `lay_out` makes it.
#[derive(Drop)]
pub struct Layout {
    pub(crate) bytes: Vec<u8>,
    pub(crate) reach: usize,
    pub(crate) used: usize,
    pub(crate) taken: usize,
    pub(crate) writable: LinkedList<OpenBuffer>,
    pub(crate) fixups: Vec<Fixup>,
    pub(crate) known: Vec<u64>,
}

impl Model for Layout {
    ghost use Rattle.bd_layout.specs.Plans.{Plan, IsSound};

    ghost Value = { Plan };

    ghost view = { λ l. record { bytes = l.bytes.items; reach = l.reach; used = l.used; taken = l.taken; writable = l.writable; fixups = l.fixups.items; known = l.known.items } };

    ghost invariant = { λ l. IsSound (record { bytes = l.bytes.items; reach = l.reach; used = l.used; taken = l.taken; writable = l.writable; fixups = l.fixups.items; known = l.known.items }) };
}

// Closes all buffers inside of an object's, or all, where that isn't open.
fn close_inside(writable: &mut LinkedList<OpenBuffer>, index: usize)
    ensures { writable.new ≡ outward_from index writable.old }
{
    while let Some(buffer) = writable.front() {
        if buffer.index == index {
            return;
        }
        writable.pop_front();
    }
}

// Claims bytes of the innermost buffer: tells where that lies.
fn claim_innermost(
    writable: &mut LinkedList<OpenBuffer>,
    end: usize,
    offset: usize,
    size: usize,
) -> Result<Option<usize>, AllocError>
    requires { EndWithin end writable.old }
    ensures claim { IfOk result (λ place. IsClaim place writable.new (claimed_first offset size writable.old)) }
    ensures within { EndWithin end writable.new }
    ensures inside { IfOk result (λ place. IfSome place (λ place. 0 < size → place + offset + size ≤ end)) }
{
    let Some(buffer) = writable.pop_front() else {
        return Ok(None);
    };
    if offset < buffer.least {
        return Ok(None);
    }
    if size > 0 && (buffer.length < size || buffer.length - size < offset) {
        return Ok(None);
    }
    let least = offset + size;
    writable.push_front(OpenBuffer { least, ..buffer })?;
    Ok(Some(buffer.place))
}

// The same of the buffer of an object.
#[tactic(auto, using(crate::proofs::Within::within_outward))]
fn claim(
    writable: &mut LinkedList<OpenBuffer>,
    end: usize,
    parent: usize,
    offset: usize,
    size: usize,
) -> Result<Option<usize>, AllocError>
    requires { EndWithin end writable.old }
    ensures claim { IfOk result (λ place. IsClaim place writable.new (claimed parent offset size writable.old)) }
    ensures within { EndWithin end writable.new }
    ensures inside { IfOk result (λ place. IfSome place (λ place. 0 < size → place + offset + size ≤ end)) }
{
    close_inside(writable, parent);
    claim_innermost(writable, end, offset, size)
}

// How far it is to a multiple of 8.
fn padding_of(length: usize) -> usize
    ensures { result ≡ padding length }
{
    (8 - length % 8) % 8
}

// Appends bytes, and zeros up to a multiple of 8.
pub(crate) fn append(bytes: &mut Vec<u8>, part: &[u8]) -> Result<(), AllocError>
    ensures ok { IfOk result (λ _. bytes.new.items ≡ bytes.old.items ++ aligned part.now) }
    ensures longer { vec_len bytes.old ≤ vec_len bytes.new }
    ensures room { IfOk result (λ _. vec_len bytes.old + length part.now ≤ vec_len bytes.new) }
{
    bytes.extend_from_slice(part)?;
    bytes.extend_from_slice(&[0; 8][..padding_of(part.len())])?;
    Ok(())
}

impl Layout {
    // The next bytes of the room follow.
    #[tactic(auto, using(crate::proofs::Within::end_within_more, crate::proofs::Within::all_within_more))]
    fn add_buffer(&mut self, room: &[u8], size: usize) -> Result<(), AllocError>
        requires inside { self.old.used + size ≤ length room.now }
        requires few { length room.now < 2 ^ 32 }
        ensures added { IfOk result (λ _. self.new ≡ with_buffer size room.now self.old) }
        ensures longer { length self.old.bytes ≤ length self.new.bytes }
        ensures room { IfOk result (λ _. length self.old.bytes + size ≤ length self.new.bytes) }
    {
        append(&mut self.bytes, &room[self.used..self.used + size])?;
        self.used += size + padding_of(size);
        Ok(())
    }

    // Something is to be written once the parcel has its place.
    #[tactic(auto, using(crate::proofs::Within::all_within_and))]
    fn add_fixup(&mut self, fixup: Fixup) -> Result<(), AllocError>
        requires { LiesWithin (length self.old.bytes) fixup }
        ensures added { IfOk result (λ _. self.new ≡ with_fixup fixup self.old) }
        ensures bytes { self.new.bytes ≡ self.old.bytes }
    {
        self.fixups.push(fixup)?;
        Ok(())
    }

    // The address of a buffer goes into its parent.
    fn point(
        &mut self,
        has_parent: bool,
        parent: usize,
        offset: usize,
        to: usize,
    ) -> Result<bool, AllocError>
        requires { to ≤ length self.old.bytes }
        ensures pointed { IfOk result (λ ok. IsNext ok self.new (pointed has_parent parent offset to self.old)) }
        ensures bytes { self.new.bytes ≡ self.old.bytes }
    {
        if !has_parent {
            self.writable.clear();
            return Ok(true);
        }
        if offset % 4 != 0 {
            return Ok(false);
        }
        match claim(&mut self.writable, self.bytes.len(), parent, offset, 8)? {
            Some(place) => {
                self.add_fixup(Fixup::Pointer {
                    at: place + offset,
                    to,
                })?;
                Ok(true)
            }
            None => Ok(false),
        }
    }

    // A PTR object: its buffer follows, and its address goes where it belongs.
    pub(crate) fn pointer(
        &mut self,
        body: &[u8],
        room: &[u8],
        index: usize,
        at: usize,
    ) -> Result<bool, AllocError>
        requires whole { at + 40 ≤ length body.now }
        requires begun { length body.now ≤ length self.old.bytes }
        requires few { length room.now < 2 ^ 32 }
        ensures next { IfOk result (λ ok. IsNext ok self.new (pointer body.now room.now index at self.old)) }
        ensures longer { length self.old.bytes ≤ length self.new.bytes }
    {
        let length = u64_at(body, at + 16) as usize;
        if room.len() < self.used || room.len() - self.used < length {
            return Ok(false);
        }
        let place = self.bytes.len();
        self.add_buffer(room, length)?;
        self.add_fixup(Fixup::Pointer {
            at: at + 8,
            to: place,
        })?;
        let has_parent = u32_at(body, at + 4) % 2 == 1;
        let parent = u64_at(body, at + 24) as usize;
        let offset = u64_at(body, at + 32) as usize;
        if !self.point(has_parent, parent, offset, place)? {
            return Ok(false);
        }
        if at == 0 {
            self.writable.clear();
            return Ok(true);
        }
        self.writable.push_front(OpenBuffer {
            index,
            place,
            length,
            least: 0,
        })?;
        Ok(true)
    }

    // An FD object takes the next descriptor.
    pub(crate) fn descriptor(&mut self, count: usize, at: usize) -> Result<bool, AllocError>
        requires { at + 16 ≤ length self.old.bytes }
        ensures next { IfOk result (λ ok. IsNext ok self.new (descriptor count at self.old)) }
        ensures bytes { self.new.bytes ≡ self.old.bytes }
    {
        if count <= self.taken {
            return Ok(false);
        }
        self.taken += 1;
        self.add_fixup(Fixup::Descriptor { at: at + 8 })?;
        Ok(true)
    }

    // An FDA object takes the next `more` descriptors.
    pub(crate) fn array(
        &mut self,
        more: usize,
        parent: usize,
        offset: usize,
        count: usize,
    ) -> Result<bool, AllocError>
        requires { count < 2 ^ 32 }
        ensures next { IfOk result (λ ok. IsNext ok self.new (array more parent offset count self.old)) }
        ensures bytes { self.new.bytes ≡ self.old.bytes }
    {
        if count < self.taken || count - self.taken < more || (more != 0 && offset % 4 != 0) {
            return Ok(false);
        }
        self.taken += more;
        let end = self.bytes.len();
        let Some(place) = claim(&mut self.writable, end, parent, offset, 4 * more)? else {
            return Ok(false);
        };
        if more > 0 {
            self.add_fixup(Fixup::Descriptors {
                at: place + offset,
                count: more,
            })?;
        }
        Ok(true)
    }
}
