//! Where a parcel lies in a client's memory, and where it goes.

ghost use Rattle.std.specs.Prelude.{◌≡◌};
ghost use Rattle.bd_wrapping.specs.Areas.{is_inside as it_is_inside, parts_of as parts_of_it};

use crate::trailer::round_8;

/// Where a client says that the parts of its parcel lie in its area, and how much each is. The room for buffers follows the offsets, from a
/// multiple of 8 on.
#[repr(C)]
#[derive(Clone, Copy)]
pub struct Asked {
    pub body: u64,
    pub body_size: u64,
    pub offsets: u64,
    pub offsets_size: u64,
    pub buffers_size: u64,
}

/// A part of a parcel: where it lies in the area, where it goes to, and how much it is.
#[repr(C)]
#[derive(Clone, Copy)]
pub struct Part {
    pub from: u64,
    pub to: u64,
    pub size: u64,
}

/// All parts of a parcel, which go one behind the other, each to a multiple of 8.
#[repr(C)]
#[derive(Clone, Copy)]
pub struct Parts {
    pub body: Part,
    pub offsets: Part,
    pub buffers: Part,
}

fn is_inside(place: u64, size: u64, area: u32) -> bool
    ensures { result ≡ it_is_inside place size area }
{
    let area = area as u64;
    size <= area && place <= area - size
}

/// The parts of a parcel that lies in an area of so many bytes, and has so many objects at most. None where it isn't all inside, or takes more
/// bytes than the area, or its room for buffers is no multiple of 8.
pub fn parts_of(asked: &Asked, area: u32, objects: u32) -> Option<Parts>
    ensures { result ≡ parts_of_it asked.now area objects }
{
    if asked.offsets_size > 8 * objects as u64 || asked.buffers_size % 8 != 0 {
        return None;
    }
    if !is_inside(asked.body, asked.body_size, area)
        || !is_inside(asked.offsets, asked.offsets_size, area)
    {
        return None;
    }
    let from = round_8(asked.offsets + asked.offsets_size);
    if !is_inside(from, asked.buffers_size, area) {
        return None;
    }
    let offsets_to = round_8(asked.body_size);
    let to = offsets_to + round_8(asked.offsets_size);
    if to + asked.buffers_size > area as u64 {
        return None;
    }
    Some(Parts {
        body: Part {
            from: asked.body,
            to: 0,
            size: asked.body_size,
        },
        offsets: Part {
            from: asked.offsets,
            to: offsets_to,
            size: asked.offsets_size,
        },
        buffers: Part {
            from,
            to,
            size: asked.buffers_size,
        },
    })
}
