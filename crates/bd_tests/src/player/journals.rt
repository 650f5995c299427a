//! The journal of the shortest run, written and judged, as it is, as it was before there were reports of flooding, and as it is of many seats.

use super::playing::{checked, history_of, written};
use crate::same::same;
use bd_journal::read_journal;
use bd_uapi::MOST_SEATS;
use bd_uapi::numbers::put_u32;
use std::alloc::Global;
use std::process::Abort;
use std::test::Fail;

// As docs/FORMATS.md has it.
const JOURNAL: [u8; 42] = [
    0x42, 0x4e, 0x44, 0x4a, 0x30, 0x30, 0x30, 0x32, 1, 0, 0, 0, 1, 0, 0, 0, 0, 0, 0, 0, 13, 0, 0,
    0, 0, 100, 0, 0, 0, 0xe8, 3, 0, 0, 0, 0x10, 0, 0, 1, 0, 0, 0, 0,
];

// The kinds of journals, by the last byte of what they begin with, and the most seats of each.
const KINDS: [(u8, u32); 2] = [(0x31, 16), (0x32, MOST_SEATS)];

// The same journal, of another kind.
fn of_kind(kind: u8) -> [u8; 42] {
    let mut journal = JOURNAL;
    journal[7] = kind;
    journal
}

#[test]
fn writes_the_shortest(rt: HostRuntime) -> Result<(), Fail> {
    let history = history_of(rt.alloc(), "seats 1\n0 open 100 1000 4096")?;
    let journal = written(rt.alloc(), &history)?;
    same(&rt, "the journal", journal.as_slice(), JOURNAL.as_slice());
    Ok(())
}

#[test]
fn judges(rt: HostRuntime) {
    for (kind, _) in KINDS {
        let lawful = of_kind(kind);
        checked(rt.alloc(), &lawful).expect(&rt, "lawful", "lawful 1\n", "", 0);
        let mut unlawful = lawful;
        unlawful[25] = 0;
        checked(rt.alloc(), &unlawful).expect(&rt, "unlawful", "unlawful 0\n", "", 1);
    }
}

// These bytes are no journal.
fn see_none(rt: &(impl Abort + Alloc<A = Global>), name: &str, bytes: &[u8]) {
    checked(rt.alloc(), bytes).expect(rt, name, "", "fault: journal\n", 1);
}

#[test]
fn reads_no_beginning(rt: HostRuntime) {
    for (kind, _) in KINDS {
        let journal = of_kind(kind);
        for len in 0..journal.len() {
            see_none(&rt, "a beginning", &journal[..len]);
        }
    }
}

#[test]
fn reads_no_other_kind(rt: HostRuntime) {
    for kind in [0x30, 0x33] {
        see_none(&rt, "another kind", &of_kind(kind));
    }
}

// A number of entries that the bytes don't bear out.
#[test]
fn trusts_no_count(rt: HostRuntime) {
    let mut journal = JOURNAL;
    for at in 12..16 {
        journal[at] = 0xff;
    }
    see_none(&rt, "a count", &journal[..16]);
}

// Each kind has its own most seats.
#[test]
fn reads_as_many_seats_as_its_kind_has(rt: HostRuntime) {
    for (kind, most) in KINDS {
        for seats in 0..MOST_SEATS + 2 {
            let mut journal = of_kind(kind);
            journal[8] = seats as u8;
            if 1 <= seats && seats <= most {
                checked(rt.alloc(), &journal).expect(&rt, "seats", "lawful 1\n", "", 0);
            } else {
                see_none(&rt, "seats", &journal);
            }
        }
    }
}

// The journal of a run whose second step sets reports of flooding: the step ends with whether they are on.
const SPAM: &str = "seats 1\n0 open 100 1000 4096\n0 spam 1\n";

// Where the second entry has its step's kind, behind the first entry, its own seat and the step's length.
const KIND_OF_STEP: usize = 42 + 4 + 4;

#[test]
fn reads_reports_of_flooding_in_the_later_kind_alone(rt: HostRuntime) -> Result<(), Fail> {
    let history = history_of(rt.alloc(), SPAM)?;
    let mut journal = written(rt.alloc(), &history)?;
    let step = [7, 1].as_slice();
    let told = journal.get(KIND_OF_STEP..KIND_OF_STEP + 2);
    same(&rt, "the step", told.ok_or("a second step")?, step);
    checked(rt.alloc(), &journal).expect(&rt, "on", "lawful 2\n", "", 0);
    for (byte, value) in [(KIND_OF_STEP + 1, 2), (7, 0x31)] {
        let mut changed = journal.to_vec(rt.alloc())?;
        if byte < changed.len() {
            changed[byte] = value;
        }
        see_none(&rt, "no such step", &changed);
    }
    Ok(())
}

// The same step of the last of 200 seats, as docs/FORMATS.md has it.
const WIDE: [u8; 46] = [
    0x42, 0x4e, 0x44, 0x4a, 0x30, 0x30, 0x30, 0x33, 200, 0, 0, 0, 1, 0, 0, 0, 0, 0, 0, 0, 199, 0,
    0, 0, 13, 0, 0, 0, 0, 100, 0, 0, 0, 0xe8, 3, 0, 0, 0, 0x10, 0, 0, 1, 0, 0, 0, 0,
];

#[test]
fn judges_the_record_of_many_seats(rt: HostRuntime) {
    checked(rt.alloc(), &WIDE).expect(&rt, "lawful", "lawful 1\n", "", 0);
    let mut unlawful = WIDE;
    unlawful[29] = 0;
    checked(rt.alloc(), &unlawful).expect(&rt, "unlawful", "unlawful 0\n", "", 1);
    for len in 0..WIDE.len() {
        see_none(&rt, "a beginning", &WIDE[..len]);
    }
}

#[test]
fn writes_the_record_of_many_seats(rt: HostRuntime) -> Result<(), Fail> {
    let record = read_journal(rt.alloc(), &WIDE)?;
    let journal = written(rt.alloc(), &record)?;
    same(&rt, "the journal", journal.as_slice(), WIDE.as_slice());
    Ok(())
}

// So many seats, and whether a journal of this kind has them: those of a driver it leaves to the kind before.
const MANY: [(u32, bool); 5] = [
    (1, false),
    (MOST_SEATS, false),
    (MOST_SEATS + 1, true),
    (65536, true),
    (65537, false),
];

#[test]
fn reads_more_seats_than_a_driver_s(rt: HostRuntime) {
    for (seats, is_read) in MANY {
        let mut journal = WIDE;
        put_u32(&mut journal, 8, seats);
        put_u32(&mut journal, 20, seats - 1);
        if is_read {
            checked(rt.alloc(), &journal).expect(&rt, "many seats", "lawful 1\n", "", 0);
        } else {
            see_none(&rt, "seats", &journal);
        }
    }
}
