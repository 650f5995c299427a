//! The worked example of two threads that wait for one another.

use super::playing::{Printed, played};
use bd_player::play_threads;

const TURNS: u32 = 100_000_000;

const TWO_THREADS: &str = "\
seats 2
0 open 100 1000 4096
0 await 2
0 manager
1 await 1
1 open 200 2000 4096
1 await 3
";

const PRINTS: &str = "\
2: opened 0 1
3: passed
4: set 2 3
5: passed
6: opened 1 2
7: passed
";

#[test]
fn two_threads_wait_for_one_another(rt: HostRuntime) {
    let mut out = Vec::new(rt.alloc());
    let mut err = Vec::new(rt.alloc());
    let mut bytes = TWO_THREADS.as_bytes();
    let status = play_threads(&rt, rt.alloc(), &mut bytes, TURNS, &mut out, &mut err).status;
    Printed { out, err, status }.expect(&rt, "two threads", PRINTS, "", 0);
}

#[test]
fn one_thread_waits_in_vain(rt: HostRuntime) {
    let (printed, _) = played(rt.alloc(), TWO_THREADS);
    printed.expect(&rt, "one thread", "2: opened 0 1\n3: turns\n", "", 2);
}
