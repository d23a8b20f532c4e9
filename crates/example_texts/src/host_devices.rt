//! The texts of further devices with a host: a store that is busy for a tick, one whose answer is
//! noise at power-on, and one with a cell that is nobody's.
use crate::devices::{SMALL, Texts};

/// The PIN store, which is busy for a tick after a command.
pub const SLOW_CIRCUIT: &[u8] = b"\
1 sort bitvec 1\n\
2 sort bitvec 2\n\
3 sort bitvec 4\n\
4 zero 1\n\
5 zero 3\n\
6 constd 2 1\n\
7 constd 2 2\n\
8 input 2 cmd\n\
9 input 3 data\n\
10 state 3 secret\n\
11 init 3 10 5\n\
12 state 1 ok\n\
13 init 1 12 4\n\
14 eq 1 8 6\n\
15 ite 3 14 9 10\n\
16 next 3 10 15\n\
17 eq 1 8 7\n\
18 eq 1 9 10\n\
19 and 1 17 18\n\
20 next 1 12 19\n\
21 output 12 ok\n\
22 state 1 busy\n\
23 init 1 22 4\n\
24 redor 1 8\n\
25 next 1 22 24\n\
26 not 1 22\n\
27 output 26 rdy\n\
";

/// Its driver, which waits for at most one tick.
pub const SLOW_DRIVER: &[u8] = b"\
(driver (persistent secret)\n\
 (call set (in cmd (bv 2 1)) (in data v) (tick) (in cmd (bv 2 0)) (while (not (out rdy)) 1 (tick)) (result #b1))\n\
 (call check (local r 1) (in cmd (bv 2 2)) (in data g) (tick) (assign r (out ok)) (in cmd (bv 2 0)) (while (not (out rdy)) 1 (tick)) (result r)))\n\
";

/// The same without a turn to wait, so that it gets stuck.
pub const IMPATIENT_DRIVER: &[u8] = b"\
(driver (persistent secret)\n\
 (call set (in cmd (bv 2 1)) (in data v) (tick) (in cmd (bv 2 0)) (while (not (out rdy)) 0 (tick)) (result #b1))\n\
 (call check (local r 1) (in cmd (bv 2 2)) (in data g) (tick) (assign r (out ok)) (in cmd (bv 2 0)) (while (not (out rdy)) 0 (tick)) (result r)))\n\
";

/// Its emulator.
pub const SLOW_EMULATOR: &[u8] = b"\
(emulator (field ok 1 0) (field busy 1 0)\n\
 (outputs (ok ok) (rdy (not busy)))\n\
 (tick (local q 1) (local r 1)\n\
  (if (eq (in cmd) (bv 2 1)) ((query q set (in data))) ())\n\
  (if (eq (in cmd) (bv 2 2)) ((query r check (in data))) ())\n\
  (assign ok r)\n\
  (assign busy (redor (in cmd)))))\n\
";

/// Its hints.
pub const SLOW_HINTS: &[u8] = b"\
(refine (eq (s secret) (c secret)))\n\
(idle (eq (s secret) (c secret)))\n\
(wire\n\
 (cut A (and (and (eq (s secret) (c secret)) (eq (c ok) (e ok))) (eq (c busy) (e busy))))\n\
 (step 1)\n\
 (subsume A))\n\
(factory) (boot-host) (rest) (wait)\n\
(call set) (call check)\n\
";

/// The store that is busy for a tick, and hints that close.
pub const SLOW: Texts<'static> = Texts {
    c: SLOW_CIRCUIT,
    d: SLOW_DRIVER,
    e: SLOW_EMULATOR,
    h: SLOW_HINTS,
    ..SMALL
};

/// The PIN store, whose answer is noise at power-on.
pub const NOISY_CIRCUIT: &[u8] = b"\
1 sort bitvec 1\n\
2 sort bitvec 2\n\
3 sort bitvec 4\n\
4 zero 1\n\
5 zero 3\n\
6 constd 2 1\n\
7 constd 2 2\n\
8 input 2 cmd\n\
9 input 3 data\n\
10 state 3 secret\n\
11 init 3 10 5\n\
12 state 1 ok\n\
14 eq 1 8 6\n\
15 ite 3 14 9 10\n\
16 next 3 10 15\n\
17 eq 1 8 7\n\
18 eq 1 9 10\n\
19 and 1 17 18\n\
20 next 1 12 19\n\
21 output 12 ok\n\
";

/// Its emulator, which shows the noise.
pub const NOISY_EMULATOR: &[u8] = b"\
(emulator (field ok 1 0)\n\
 (power (assign ok (noise ok)))\n\
 (outputs (ok ok))\n\
 (tick (local q 1) (local r 1)\n\
  (if (eq (in cmd) (bv 2 1)) ((query q set (in data))) ())\n\
  (if (eq (in cmd) (bv 2 2)) ((query r check (in data))) ())\n\
  (assign ok r)))\n\
";

/// The PIN store with a volatile word of 8 bits more.
pub const PADDED_CIRCUIT: &[u8] = b"\
1 sort bitvec 1\n\
2 sort bitvec 2\n\
3 sort bitvec 4\n\
4 zero 1\n\
5 zero 3\n\
6 constd 2 1\n\
7 constd 2 2\n\
8 input 2 cmd\n\
9 input 3 data\n\
10 state 3 secret\n\
11 init 3 10 5\n\
12 state 1 ok\n\
13 init 1 12 4\n\
14 eq 1 8 6\n\
15 ite 3 14 9 10\n\
16 next 3 10 15\n\
17 eq 1 8 7\n\
18 eq 1 9 10\n\
19 and 1 17 18\n\
20 next 1 12 19\n\
21 output 12 ok\n\
22 sort bitvec 8\n\
23 state 22 pad\n\
24 next 22 23 23\n\
";
