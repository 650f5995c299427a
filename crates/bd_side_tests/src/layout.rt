//! Parcels whose layout was worked out by hand from the driver's rule.

use crate::same::{holds, same};
use bd_layout::lay_out;
use bd_uapi::codes::{FD, FDA, PTR};
use bd_uapi::numbers::{put_u32, put_u64, u64_at};
use std::test::Fail;

// Behind eight bytes a buffer of 16 bytes, in which the addresses of two others belong: of 64 bytes at its front, of one
// byte at `second`.
fn family(second: u64) -> [u8; 128] {
    let mut data = [0; 128];
    put_u32(&mut data, 8, PTR);
    put_u64(&mut data, 24, 16);
    put_u32(&mut data, 48, PTR);
    put_u32(&mut data, 52, 1);
    put_u64(&mut data, 64, 64);
    put_u32(&mut data, 88, PTR);
    put_u32(&mut data, 92, 1);
    put_u64(&mut data, 104, 1);
    put_u64(&mut data, 120, second);
    data
}

const OFFSETS: [u8; 24] = [
    8, 0, 0, 0, 0, 0, 0, 0, 48, 0, 0, 0, 0, 0, 0, 0, 88, 0, 0, 0, 0, 0, 0, 0,
];

#[test]
fn addresses_go_where_they_belong(rt: HostRuntime) -> Result<(), Fail> {
    let sent = lay_out(rt.alloc(), &family(8), &OFFSETS, &[0x41; 96], 0)
        .ok()
        .ok_or("memory")?;
    let layout = sent.ok_or("it is refused")?;
    // The data, the offsets at 128, then the buffers at 152, 168 and 232; the last one's byte, and seven zeros.
    let mut bytes = [0; 240];
    assert_eq!(rt; layout.bytes().len(), 240);
    bytes.copy_from_slice(layout.bytes());
    same(&rt, "the last buffer", u64_at(&bytes, 232), 0x41);
    layout.put_fixups(&mut bytes, 0x7000);
    for (at, to) in [(16, 152), (56, 168), (152, 168), (96, 232), (160, 232)] {
        assert_eq!(rt; u64_at(&bytes, at), 0x7000 + to, "at {at}");
    }
    Ok(())
}

#[test]
fn none_is_put_over_another(rt: HostRuntime) -> Result<(), Fail> {
    // The same place, half of it, no multiple of 4, behind the end of the buffer.
    for second in [0, 4, 9, 12] {
        let sent = lay_out(rt.alloc(), &family(second), &OFFSETS, &[0x41; 96], 0)
            .ok()
            .ok_or("memory")?;
        assert!(rt; sent.is_none(), "at {second}");
    }
    Ok(())
}

// A buffer of 64 bytes, into which two numbers of descriptors belong, and a descriptor of its own.
fn descriptors() -> [u8; 104] {
    let mut data = [0; 104];
    put_u32(&mut data, 8, PTR);
    put_u64(&mut data, 24, 64);
    put_u32(&mut data, 48, FDA);
    put_u64(&mut data, 56, 2);
    put_u64(&mut data, 72, 8);
    put_u32(&mut data, 80, FD);
    data
}

#[test]
fn descriptors_have_places(rt: HostRuntime) -> Result<(), Fail> {
    let places = [
        8, 0, 0, 0, 0, 0, 0, 0, 48, 0, 0, 0, 0, 0, 0, 0, 80, 0, 0, 0, 0, 0, 0, 0,
    ];
    let few = lay_out(rt.alloc(), &descriptors(), &places, &[0x41; 64], 2)
        .ok()
        .ok_or("memory")?;
    holds(&rt, "two are too few", few.is_none());
    let sent = lay_out(rt.alloc(), &descriptors(), &places, &[0x41; 64], 4)
        .ok()
        .ok_or("memory")?;
    let layout = sent.ok_or("it is refused")?;
    same(&rt, "how many it takes", layout.taken(), 3);
    same(&rt, "objects of the engine", layout.known().len(), 0);
    same(&rt, "fix-ups", layout.fixups().len(), 3);
    // The data, the offsets at 104, the buffer at 128.
    let mut bytes = [0; 192];
    assert_eq!(rt; layout.bytes().len(), 192);
    bytes.copy_from_slice(layout.bytes());
    layout.put_fixups(&mut bytes, 0x7000);
    same(&rt, "the address", u64_at(&bytes, 16), 0x7000 + 128);
    same(&rt, "both of the array", u64_at(&bytes, 128 + 8), u64::MAX);
    same(&rt, "its own", u64_at(&bytes, 80 + 8), 0xffff_ffff);
    Ok(())
}
