//! Parcels and trailers that were worked out by hand.

use crate::same::{holds, same};
use bd_uapi::codes::{BINDER, FD};
use bd_uapi::numbers::{put_u32, put_u64};
use bd_wrapping::{Asked, Trailer, Way, parts_of, put_trailer, trailer_in, way_of};
use std::test::Fail;

const SENT: Trailer = Trailer {
    body: 25,
    offsets: 8,
    buffers: 16,
    step: 0x1234_5678_9abc,
    descriptors: 2,
    euid: 1000,
};

#[test]
fn a_trailer_is_found_as_it_was_put(rt: HostRuntime) -> Result<(), Fail> {
    let mut bytes = [0x41; 112];
    // 32 of data, 8 of offsets, 16 of buffers, 48 of the trailer.
    let got = put_trailer(&mut bytes, 44, &SENT);
    same(&rt, "its end", got, Some(104));
    same(&rt, "the byte before it", bytes[43], 0x41);
    same(&rt, "the first zero", bytes[44], 0);
    same(&rt, "the last zero", bytes[55], 0);
    same(&rt, "the byte behind it", bytes[104], 0x41);
    let got = trailer_in(&bytes[..104], &[]);
    same(&rt, "what is found", got, Some(SENT));
    same(&rt, "a byte less", trailer_in(&bytes[..103], &[]), None);
    // An object from byte 32 on ends where the trailer begins; from 36 on it reaches into that.
    let before = trailer_in(&bytes[..104], &[32, 0, 0, 0, 0, 0, 0, 0]);
    same(&rt, "behind an object", before, Some(SENT));
    let within = trailer_in(&bytes[..104], &[36, 0, 0, 0, 0, 0, 0, 0]);
    same(&rt, "an object in it", within, None);
    Ok(())
}

#[test]
fn what_has_no_room_stays(rt: HostRuntime) -> Result<(), Fail> {
    let mut bytes = [0x41; 103];
    let got = put_trailer(&mut bytes, 44, &SENT);
    same(&rt, "a byte lacks", got, None);
    same(&rt, "the last byte stays", bytes[102], 0x41);
    let mut more = [0x41; 200];
    let got = put_trailer(&mut more, 57, &SENT);
    same(&rt, "more was laid out", got, None);
    Ok(())
}

#[test]
fn a_parcel_goes_its_way(rt: HostRuntime) -> Result<(), Fail> {
    let first = [0; 8];
    let mut data = [0; 72];
    put_u32(&mut data, 0, BINDER);
    let got = way_of(&data, &first, 1, false);
    same(&rt, "one may go", got, Way::Plain);
    let got = way_of(&data, &first, 0, false);
    same(&rt, "none may go", got, Way::Lost);
    let got = way_of(&data, &first, 1, true);
    same(&rt, "it tells a uid", got, Way::Wrapped);
    put_u32(&mut data, 0, FD);
    let got = way_of(&data, &first, 0, false);
    same(&rt, "a descriptor", got, Way::Wrapped);
    let got = way_of(&data, &first[..7], 0, false);
    same(&rt, "no whole offset", got, Way::Plain);
    put_u32(&mut data, 0, BINDER);
    put_u64(&mut data, 64, 0x0072_656c_6961_7274);
    let got = way_of(&data, &first, 1, false);
    same(&rt, "it ends as if it were wrapped", got, Way::Wrapped);
    Ok(())
}

#[test]
fn a_part_outside_of_the_area_is_not_copied(rt: HostRuntime) -> Result<(), Fail> {
    let asked = Asked {
        body: 3,
        body_size: 10,
        offsets: 16,
        offsets_size: 8,
        buffers_size: 8,
    };
    let parts = parts_of(&asked, 32, 1).ok_or("it isn't inside")?;
    let body = (parts.body.from, parts.body.to, parts.body.size);
    same(&rt, "the data", body, (3, 0, 10));
    let got = (parts.offsets.from, parts.offsets.to);
    same(&rt, "the offsets", got, (16, 16));
    let got = (parts.buffers.from, parts.buffers.to);
    same(&rt, "the buffers", got, (24, 24));
    let is_so = parts_of(&asked, 31, 1).is_none();
    holds(&rt, "the area is too small", is_so);
    let is_so = parts_of(&asked, 32, 0).is_none();
    holds(&rt, "there are too many objects", is_so);
    let odd = Asked {
        buffers_size: 4,
        ..asked
    };
    let is_so = parts_of(&odd, 64, 1).is_none();
    holds(&rt, "the buffers are no multiple of 8", is_so);
    let far = Asked {
        body: u64::MAX,
        ..asked
    };
    holds(&rt, "the data is far away", parts_of(&far, 64, 1).is_none());
    Ok(())
}
