//! Certificates of the histories of worked examples.

use super::playing::lawful_history_of;
use crate::same::{holds, same};
use bd_audit::{Turn, gift_chain, oneway_turns};
use bd_space::ObjectId;
use std::test::Fail;

const OBJECT_SENT: &str = "\
seats 2
0 open 100 1000 4096
0 manager
0 enter
1 open 200 2000 4096
1 tx 0 1 1 852a62730000000000100000000000000020000000000000 0
1 read 256
0 read 256
";

const DEAD_SERVER_OVER_AN_OPEN_CHILD: &str = "\
seats 3
0 open 100 1000 4096
0 manager
0 enter
1 open 200 2000 4096
2 open 300 3000 4096
2 enter
2 tx 0 1 1 852a62730000000000100000000000000020000000000000 0
2 read 256
0 read 256
1 tx 0 2 0 - -
1 read 256
0 read 256
0 reply 0 0 852a68730000000001000000000000000000000000000000 0
0 read 256
1 read 256
1 tx 1 3 0 - -
1 read 256
2 read 256
2 tx 0 4 0 - -
2 read 256
0 read 256
2 exitthread
1 read 256
0 reply 0 0 - -
0 read 256
1 read 256
";

const ONE_WAY_TURNS: &str = "\
seats 2
0 open 100 1000 4096
0 manager
0 enter
1 open 200 2000 4096
1 tx 0 1 1 6869 -
1 tx 0 1 1 6869 -
1 tx 0 1 1 6869 -
0 read 256
0 read 256
0 free 65536
0 read 256
0 free 65544
0 read 256
";

// ZEROS stands for 2048 zero bytes, in hex.
const WINDOW_OF_A_PROCESS_THAT_ENDED: &str = "\
seats 2
0 open 100 1000 4096
0 manager
0 enter
1 open 200 2000 4096
1 tx 0 1 1 852a62730000000000100000000000000020000000000000 0
1 read 256
0 read 256
1 increfsdone 4096 8192
1 acquiredone 4096 8192
1 tx 0 2 1 6869 -
0 exitprocess
1 enter
1 read 256
1 read 256
0 open 100 1000 4096
0 manager
0 enter
0 free 65536
0 read 256
1 tx 0 3 1 ZEROS -
0 read 256
";

// A script, whose name is asked for by pid and number, and the places of its gifts; without a name none.
static CHAINS: [(&str, u32, u32, &[u32]); 4] = [
    (OBJECT_SENT, 100, 1, &[4]),
    (OBJECT_SENT, 100, 2, &[]),
    (OBJECT_SENT, 300, 1, &[]),
    (DEAD_SERVER_OVER_AN_OPEN_CHILD, 200, 1, &[6, 12]),
];

// A script, the object whose turns are asked for, by the place of the step that made it first, and the turns. Those of
// the window that ended are the manager's, and those of the manager after it.
static TURNS: [(&str, u32, &[Turn]); 3] = [
    (
        ONE_WAY_TURNS,
        1,
        &[
            Turn {
                made: 4,
                handed: Some(7),
                ended: Some(9),
            },
            Turn {
                made: 5,
                handed: Some(10),
                ended: Some(11),
            },
            Turn {
                made: 6,
                handed: Some(12),
                ended: None,
            },
        ],
    ),
    (
        WINDOW_OF_A_PROCESS_THAT_ENDED,
        1,
        &[
            Turn {
                made: 4,
                handed: Some(6),
                ended: Some(10),
            },
            Turn {
                made: 9,
                handed: None,
                ended: Some(10),
            },
        ],
    ),
    (
        WINDOW_OF_A_PROCESS_THAT_ENDED,
        15,
        &[Turn {
            made: 19,
            handed: Some(20),
            ended: None,
        }],
    ),
];

#[test]
fn answers_the_gift_chains(rt: HostRuntime) -> Result<(), Fail> {
    for (script, pid, number, want) in &CHAINS {
        let record = lawful_history_of(rt.alloc(), script)?;
        match gift_chain(rt.alloc(), &record, *pid, *number)? {
            Some(places) => same(&rt, "the chain", places.as_slice(), *want),
            None => holds(&rt, "a chain", want.is_empty()),
        }
    }
    Ok(())
}

#[test]
fn answers_the_turns(rt: HostRuntime) -> Result<(), Fail> {
    let zeros = "00".repeat(rt.alloc(), 2048)?;
    for (script, place, want) in &TURNS {
        let script = script.replace(rt.alloc(), "ZEROS", &zeros)?;
        let record = lawful_history_of(rt.alloc(), &script)?;
        let place = *place;
        let object = ObjectId { place, index: 0 };
        let turns = oneway_turns(rt.alloc(), &record, object)?;
        same(&rt, "the turns", turns.as_slice(), *want);
    }
    Ok(())
}
