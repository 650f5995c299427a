//! Worked examples (examples/), with ample memory: writes of which several commands run, a thread that attaches, one
//! that leaves the loop, references asked for and given back, and news of a death.

use super::playing::played;
use std::test::Fail;

const SEVERAL_COMMANDS: &str = "\
seats 3
0 open 100 1000 4096
0 manager
0 enter
1 open 200 2000 4096
1 write 056304400000000006630440010000000463044007000000 -
2 write 0c6300000c630000 -
";

const SEVERAL_COMMANDS_PRINTS: &str = "\
2: opened 0 1
3: set 1 2
4: wrote 4 2 3
5: opened 3 4
6: wrote 24 4 7 1:N1 2:N1
7: refused F4 7 8
";

// LOOPS stands for 1024 times a BC_ENTER_LOOPER, in hex.
const A_FULL_STREAM: &str = "\
seats 2
0 open 100 1000 4096
0 manager
0 enter
1 open 200 2000 4096
1 write LOOPS -
";

const A_FULL_STREAM_PRINTS: &str = "\
2: opened 0 1
3: set 1 2
4: wrote 4 2 3
5: opened 3 4
6: wrote 4096 4 1028
";

const NESTED_CALL_BACK: &str = "\
seats 3
0 open 100 1000 4096
0 manager
0 enter
1 open 200 2000 4096
2 attach 200
2 enter
1 tx 0 1 0 852a62730000000000100000000000000020000000000000 0
0 read 256
0 tx 1 2 0 - -
2 read 256
1 read 256
";

const NESTED_CALL_BACK_PRINTS: &str = "\
2: opened 0 1
3: set 1 2
4: wrote 4 2 3
5: opened 3 4
6: opened 4 5
7: wrote 4 5 6
8: wrote 68 6 7
9: got 0c72000002724080000000000000000000000000000000000100000000000000c8000000d00700001800000000000000080000000\
000000000000100000000001800010000000000 852a68730000000001000000000000000000000000000000 0000000000000000 7 8
10: wrote 68 8 9
11: refused F12 9 10
12: got 0c720000077210800010000000000000002000000000000008721080001000000000000000200000000000000672000002724080\
00100000000000000020000000000000020000000000000064000000e8030000000000000000000000000000000000000000010000000000\
0000010000000000 - - 10 11
";

const LEAVES_THE_LOOP: &str = "\
seats 2
0 open 100 1000 4096
0 manager
0 enter
1 open 200 2000 4096
0 exitloop
1 tx 0 1 1 - -
0 read 256
";

const LEAVES_THE_LOOP_PRINTS: &str = "\
2: opened 0 1
3: set 1 2
4: wrote 4 2 3
5: opened 3 4
6: wrote 4 4 5
7: wrote 68 5 6
8: refused F12 6 7
";

const ASKING_FOR_THE_MANAGER: &str = "\
seats 2
0 open 100 1000 4096
0 manager
0 enter
1 open 200 2000 4096
1 acquire 0
1 release 0
1 release 0
0 increfs 0
1 increfsdone 4096 8192
1 increfs 0
1 release 0
1 decrefs 0
";

const ASKING_FOR_THE_MANAGER_PRINTS: &str = "\
2: opened 0 1
3: set 1 2
4: wrote 4 2 3
5: opened 3 4
6: wrote 8 4 5
7: wrote 8 5 6
8: wrote 8 6 7 0:N1
9: wrote 8 7 8 0:N4
10: wrote 20 8 9 0:N7
11: wrote 8 9 10
12: wrote 8 10 11 0:N2
13: wrote 8 11 12
";

const DEATH_ASKED: &str = "\
seats 2
0 open 100 1000 4096
0 manager
0 enter
1 open 200 2000 4096
1 tx 0 1 1 852a62730000000000100000000000000020000000000000 0
1 read 256
0 read 256
0 askdeath 1 77
0 askdeath 1 78
0 cleardeath 1 78
0 deaddone 77
0 cleardeath 1 77
0 read 256
";

const DEATH_ASKED_PRINTS: &str = "\
2: opened 0 1
3: set 1 2
4: wrote 4 2 3
5: opened 3 4
6: wrote 68 4 5
7: got 0c7200000772108000100000000000000020000000000000087210800010000000000000002000000000000006720000 - - 5 6
8: got 0c7200000272408000000000000000000000000000000000010000000100000000000000d00700001800000000000000080000000\
000000000000100000000001800010000000000 852a68730000000001000000000000000000000000000000 0000000000000000 6 7
9: wrote 16 7 8
10: wrote 16 8 9 0:N9
11: wrote 16 9 10 0:N10
12: wrote 12 10 11 0:N11
13: wrote 16 11 12
14: got 0c720000107208804d00000000000000 - - 12 13
";

const DEATH_NOTICE: &str = "\
seats 2
0 open 100 1000 4096
0 manager
0 enter
1 open 200 2000 4096
1 tx 0 1 1 852a62730000000000100000000000000020000000000000 0
1 read 256
0 read 256
0 askdeath 1 77
1 exitprocess
0 read 256
0 cleardeath 1 77
0 read 256
0 deaddone 77
0 read 256
0 tx 1 1 1 - -
0 read 256
";

const DEATH_NOTICE_PRINTS: &str = "\
2: opened 0 1
3: set 1 2
4: wrote 4 2 3
5: opened 3 4
6: wrote 68 4 5
7: got 0c7200000772108000100000000000000020000000000000087210800010000000000000002000000000000006720000 - - 5 6
8: got 0c7200000272408000000000000000000000000000000000010000000100000000000000d00700001800000000000000080000000\
000000000000100000000001800010000000000 852a68730000000001000000000000000000000000000000 0000000000000000 6 7
9: wrote 16 7 8
10: exited 8 9
11: got 0c7200000f7208804d00000000000000 - - 9 10
12: wrote 16 10 11
13: refused F12 11 12
14: wrote 12 12 13
15: got 0c720000107208804d00000000000000 - - 13 14
16: wrote 68 14 15 stop X4
17: got 0c72000005720000 - - 15 16
";

// A script, and what it prints.
static RUNS: [(&str, &str); 7] = [
    (SEVERAL_COMMANDS, SEVERAL_COMMANDS_PRINTS),
    (A_FULL_STREAM, A_FULL_STREAM_PRINTS),
    (NESTED_CALL_BACK, NESTED_CALL_BACK_PRINTS),
    (LEAVES_THE_LOOP, LEAVES_THE_LOOP_PRINTS),
    (ASKING_FOR_THE_MANAGER, ASKING_FOR_THE_MANAGER_PRINTS),
    (DEATH_ASKED, DEATH_ASKED_PRINTS),
    (DEATH_NOTICE, DEATH_NOTICE_PRINTS),
];

#[test]
fn prints_what_the_rules_give(rt: HostRuntime) -> Result<(), Fail> {
    let loops = "0c630000".repeat(rt.alloc(), 1024)?;
    for (script, prints) in &RUNS {
        let script = script.replace(rt.alloc(), "LOOPS", &loops)?;
        let (printed, _) = played(rt.alloc(), &script);
        printed.expect(&rt, &script, prints, "", 0);
    }
    Ok(())
}
