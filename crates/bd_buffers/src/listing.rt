//! Where live buffers were made.

ghost use Rattle.std.specs.Prelude.{◌≡◌, ◌<◌, ◌≤◌, ◌++◌, AllPairs, find, length, nat_le, OnOk, OnErr};
ghost use Rattle.bd_buffers.specs.{Homes.{Forgets}, Rows.{live_places}};

use crate::home::home_key;
use crate::record::Record;
use crate::rows::{first_row, is_live};
use bd_keys::WordMap;
use std::alloc::AllocError;

/// Appends the places at which the live buffers of these rows were made, oldest first.
#[tactic(auto, using(crate::proofs::Made::refused, crate::proofs::Live::one_there))]
pub(crate) fn list_made(rows: &[Record], places: &mut Vec<u64>) -> Result<(), AllocError>
    ensures listed { OnOk result (places.new.items ≡ places.old.items ++ live_places rows.now) }
    // Memory was asked for: there is a live buffer.
    ensures grown { OnErr result (1 ≤ length (live_places rows.now)) }
{
    for row in rows {
        if is_live(row) {
            places.push(row.made)?;
        }
    }
    Ok(())
}

/// Where the first live buffer that was made at this place or behind it was made. Found by halves, past the empty rows there.
#[tactic(auto, using(crate::proofs::Live::no_more, crate::proofs::Standing::found_of))]
pub(crate) fn next_from(rows: &[Record], from: u64) -> Option<u64>
    requires order { AllPairs (λ a b. a.made < b.made) rows.now }
    ensures { result ≡ find (λ n. nat_le from n) (live_places rows.now) }
{
    for i in first_row(rows, from)..rows.len() {
        if is_live(&rows[i]) {
            return Some(rows[i].made);
        }
    }
    None
}

/// Forgets the homes of the live buffers of these rows, and no others.
pub(crate) fn forget(homes: &mut WordMap<u64>, rows: &[Record])
    ensures { Forgets (live_places rows.now) homes.old homes.new }
{
    for gone in rows {
        if is_live(gone) {
            let _home = homes.remove(home_key(gone.made));
        }
    }
}
