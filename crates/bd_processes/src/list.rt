//! Processes in a list in which identities rise.

ghost use Rattle.std.specs.Prelude.{◌≡◌, ◌<◌, ◌==◌, true, false, nat_le, find, All, IfSome, MatchOption, length, slice_index_or};
ghost use Rattle.std.specs.List.{list_all};
ghost use Rattle.bd_space.specs.Seats as seats;
ghost use Rattle.bd_space.specs.{Steps.{is_pid}, declared.space.Process.{Process}};
ghost use Rattle.bd_processes.specs.Order.{IsRising};

use bd_space::Process;

// The index of the process with this identity. Found by halves.
#[inline(never)]
fn index_of(processes: &[Process], made: u64) -> Option<usize>
    ensures within { IfSome result (λ i. i < length processes.now) }
    ensures found { IsRising processes.now → MatchOption result
        (All (λ q. (q.made == made) ≡ false) processes.now)
        (λ i. (d : Process) → (slice_index_or processes.now i d).made ≡ made) }
{
    processes.binary_search_by_key(&made, |q| q.made).ok()
}

/// The index of the process with this identity: this one, where it stands there.
#[inline(always)]
pub(crate) fn index_at(processes: &[Process], guess: usize, made: u64) -> Option<usize>
    ensures within { IfSome result (λ i. i < length processes.now) }
    ensures found { IsRising processes.now → MatchOption result
        (All (λ q. (q.made == made) ≡ false) processes.now)
        (λ i. (d : Process) → (slice_index_or processes.now i d).made ≡ made) }
{
    if guess < processes.len() && processes[guess].made == made {
        return Some(guess);
    }
    index_of(processes, made)
}

/// The process with this identity, which may stand at this index.
#[inline(always)]
pub(crate) fn made_at(processes: &[Process], guess: usize, made: u64) -> Option<Process>
    ensures found { IsRising processes.now → result ≡ seats.process_in processes.now made }
    ensures pid { list_all (λ q. is_pid q.pid) processes.now ≡ true → IfSome result (λ q. is_pid q.pid ≡ true) }
{
    let i = index_at(processes, guess, made)?;
    Some(processes[i])
}

/// The first process that was opened at this place or behind it. Found by halves.
pub(crate) fn first_from(processes: &[Process], from: u64) -> Option<Process>
    ensures { IsRising processes.now → result ≡ find (λ q. nat_le from q.made) processes.now }
{
    let i = processes.partition_point(|q| q.made < from);
    processes.get(i).copied()
}
