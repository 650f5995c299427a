//! What is told of scripts.

/// The words of a script, and what a run of one prints, each with an example.
pub const SCRIPT_HELP: &str = "\
Each line of a script is a request of a seat. The first line that does something says how many seats there are, 1 to 31.
A line that is empty or begins with # does nothing. Lines have numbers from 1.

    seats 2                     seats 0 and 1

Requests:

    0 open 100 1000 4096        opens a process: pid, euid, size of the window
    1 attach 100                a further thread of the process with this pid
    0 manager                   the seat's process becomes the context manager
    1 spam 1                    the seat's process is told of its own one_way flooding from now on; 0: no longer
    0 read 256                  reads returns, at most so many bytes of them
    1 exitthread                the seat's thread ends
    0 exitprocess               the seat's process ends, with all its threads
    0 write 0c630000 -          commands by their bytes, and the area of their parcels; - for no byte

Writes of one command:

    1 tx 0 7 0 6869 -           BC_TRANSACTION: handle, code, flags (1 is one_way), data, offsets (- or 0,24,..)
    0 reply 7 0 6869 -          BC_REPLY: code, flags, data, offsets
    0 enter                     BC_ENTER_LOOPER
    0 exitloop                  BC_EXIT_LOOPER
    0 free 65536                BC_FREE_BUFFER: pointer
    1 increfs 1                 BC_INCREFS: handle; so acquire, release, decrefs
    0 increfsdone 4096 8192     BC_INCREFS_DONE: ptr, cookie; so acquiredone
    1 askdeath 1 77             BC_REQUEST_DEATH_NOTIFICATION: handle, cookie; so cleardeath
    1 deaddone 77               BC_DEAD_BINDER_DONE: cookie

Between threads:

    1 look                      one look at the driver's page
    1 await 5                   looks until the history has 5 steps
    1 post read 256             hands a request over, to be run by whoever serves
    0 serve                     runs what is handed over
    1 collect                   takes the answer
    1 withdraw                  takes the request back

Each line that runs prints its number and what came of it. FROM TO are the places of its steps, up to and without TO:

    2: opened 0 1               opened FROM TO; so set, exited
    6: wrote 68 4 5             bytes consumed, FROM TO; 0:N1 behind it for a note on command 0, stop X6 or stop F2 for why it stopped
    7: got 0c720000 - - 5 6     returns, data and offsets in hex, FROM TO
    8: refused F12 6 7          why, FROM TO
    9: back memory              the request came back; so back full, back withdrawn
    10: handed                  it is handed over
    11: served 1                so many requests were run; or served taken
    12: page 7 3 0              steps, ready seats as bits, whether the driver is taken
    13: passed                  an await found its steps
    14: turns                   the turns of the line are used up
    15: idle                    nothing was done

Another program tells what F12, X6 or N1 means: hullpippin explain NAME.
";
