//! The heading of a journal.

ghost use Rattle.std.specs.Prelude.{◌≡◌, IfErr};
ghost use Rattle.bd_spelling.specs.Reading.{Gives};
ghost use Rattle.bd_journal.specs.Reading.{count_from, heading_from, seats_from};
ghost use Rattle.bd_spelling.specs.declared.fault.ReadError.TheVariants.{Malformed};

use crate::versions::{least_seats, most_seats, version_at};
use bd_spelling::{ReadError, Version, long_at, word_at};

// What stands before the entries, and the bytes behind it.
#[derive(Drop)]
pub struct Heading<'a> {
    pub version: Version,
    pub seats: u32,
    // How many entries there are, as it says.
    pub count: u64,
    pub rest: &'a [u8],
}

// The number of seats in the heading, if a journal of this version may have so many.
#[tactic(auto, unfolding(crate::specs::Reading::seats_from))]
fn seats_at(version: Version, bytes: &[u8]) -> Result<(u32, &[u8]), ReadError>
    ensures given { Gives (λ x. (x.0, x.1.now)) result (seats_from version bytes.now) }
    ensures error { IfErr result (λ e. e ≡ Malformed) }
{
    let (seats, rest) = word_at(bytes)?;
    if seats < least_seats(version) || seats > most_seats(version) {
        return Err(ReadError::Malformed);
    }
    Ok((seats, rest))
}

// The number of entries in the heading: four bytes, eight in the third version.
fn count_at(version: Version, bytes: &[u8]) -> Result<(u64, &[u8]), ReadError>
    ensures given { Gives (λ x. (x.0, x.1.now)) result (count_from version bytes.now) }
    ensures error { IfErr result (λ e. e ≡ Malformed) }
{
    match version {
        Version::One | Version::Two => {
            let (count, rest) = word_at(bytes)?;
            Ok((u64::from(count), rest))
        }
        Version::Three => long_at(bytes),
    }
}

// The heading that the bytes begin with.
#[tactic(auto, unfolding(crate::specs::Reading::heading_from))]
pub fn heading_at(bytes: &[u8]) -> Result<Heading<'_>, ReadError>
    ensures given { Gives (λ h. (h.version, h.seats, h.count, h.rest.now)) result (heading_from bytes.now) }
    ensures error { IfErr result (λ e. e ≡ Malformed) }
{
    let Some((version, rest)) = version_at(bytes) else {
        return Err(ReadError::Malformed);
    };
    let (seats, rest) = seats_at(version, rest)?;
    let (count, rest) = count_at(version, rest)?;
    Ok(Heading {
        version,
        seats,
        count,
        rest,
    })
}
