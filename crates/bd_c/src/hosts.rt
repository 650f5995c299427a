//! A new driver, and the history of one that has ended, as they come behind a handle.
ghost use Rattle.std.specs.Prelude.{◌≡◌, Some, IfOk, IfErr};
ghost use Rattle.bd_c.specs.{Behind.{Of, IsDriver, driver_of}, Hosts.{Opens, IsRefusal}, Drivers.{Finishes}};
ghost use Rattle.bd_c.specs.{declared.held.Held.TheVariants.{Driver}, declared.status.Status.TheVariants.{Misuse}};

use crate::held::Held;
use crate::host::Host;
use crate::opening::boxed;
use crate::status::Status;
use std::alloc::Global;

/// A new driver with this key, in a box.
pub(crate) fn open_host(alloc: Global, count: u32, key: u64) -> Result<Box<Held>, Status>
    ensures ok { IfOk result (λ b. Of driver_of (Some b.value) (Opens count key)) }
    ensures refused { IfErr result (IsRefusal count) }
{
    let host = Host::new(alloc, count, key)?;
    boxed(alloc, Held::Driver(host))
}

// What comes in the driver's place, and whether it is its history.
fn ended(host: Host) -> (Held, Status)
    ensures { Finishes (Some (Driver host)) (Some result.0) result.1 }
{
    match host.finish() {
        Ok(history) => (Held::History(history), Status::Done),
        Err(host) => (Held::Driver(host), Status::SeatsAway),
    }
}

impl Held {
    /// In the driver's place comes its history, once all seats are there. What isn't a driver stays.
    pub(crate) fn finish(&mut self) -> Status
        ensures finishes { IsDriver (Some self.old) → Finishes (Some self.old) (Some self.new) result }
        ensures misuse { (IsDriver (Some self.old) → ⊥) → (result ≡ Misuse) × (self.new ≡ self.old) }
    {
        match std::mem::replace(self, Held::Nothing) {
            Held::Driver(host) => {
                let (held, status) = ended(host);
                *self = held;
                status
            }
            other => {
                *self = other;
                Status::Misuse
            }
        }
    }
}
