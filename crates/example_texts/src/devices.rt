//! The texts of small devices.
//! The PIN store keeps a secret of 4 bits. A command 1 sets it, a command 2 asks whether the data is
//! the secret, and the answer is shown one tick later.

/// The PIN store.
pub const CIRCUIT: &[u8] = b"\
1 sort bitvec 1\n\
2 sort bitvec 2\n\
3 sort bitvec 4\n\
4 zero 1\n\
5 zero 3\n\
6 constd 2 1\n\
7 constd 2 2\n\
8 input 2 cmd\n\
9 input 3 data\n\
10 state 3 secret\n\
11 init 3 10 5\n\
12 state 1 ok\n\
13 init 1 12 4\n\
14 eq 1 8 6\n\
15 ite 3 14 9 10\n\
16 next 3 10 15\n\
17 eq 1 8 7\n\
18 eq 1 9 10\n\
19 and 1 17 18\n\
20 next 1 12 19\n\
21 output 12 ok\n\
";

/// Its specification.
pub const SPEC: &[u8] = b"\
(spec (field secret 4 0)\n\
 (op set ((v 4)) 1 (assign secret v) (result #b1))\n\
 (op check ((g 4)) 1 (result (eq g secret))))\n\
";

/// Its driver, which drives both operations over the wires.
pub const DRIVER: &[u8] = b"\
(driver (persistent secret)\n\
 (call set (in cmd (bv 2 1)) (in data v) (tick) (result #b1))\n\
 (call check (in cmd (bv 2 2)) (in data g) (tick) (result (out ok))))\n\
";

/// Its emulator, which asks the specification.
pub const EMULATOR: &[u8] = b"\
(emulator (field ok 1 0)\n\
 (outputs (ok ok))\n\
 (tick (local q 1) (local r 1)\n\
  (if (eq (in cmd) (bv 2 1)) ((query q set (in data))) ())\n\
  (if (eq (in cmd) (bv 2 2)) ((query r check (in data))) ())\n\
  (assign ok r)))\n\
";

/// The same with an answer of 1 at power-on.
pub const ANSWERING_EMULATOR: &[u8] = b"\
(emulator (field ok 1 0)\n\
 (power (assign ok #b1))\n\
 (outputs (ok ok))\n\
 (tick (local q 1) (local r 1)\n\
  (if (eq (in cmd) (bv 2 1)) ((query q set (in data))) ())\n\
  (if (eq (in cmd) (bv 2 2)) ((query r check (in data))) ())\n\
  (assign ok r)))\n\
";

/// Hints that close.
pub const HINTS: &[u8] = b"\
(refine (eq (s secret) (c secret)))\n\
(idle (eq (s secret) (c secret)))\n\
(wire\n\
 (cut A (and (eq (s secret) (c secret)) (eq (c ok) (e ok))))\n\
 (step 1)\n\
 (subsume A))\n\
(factory) (boot-host) (rest) (wait)\n\
(call set) (call check)\n\
";

/// Hints whose cut doesn't say that circuit and emulator show the same.
pub const WEAK_HINTS: &[u8] = b"\
(refine (eq (s secret) (c secret)))\n\
(idle (eq (s secret) (c secret)))\n\
(wire\n\
 (cut A (eq (s secret) (c secret)))\n\
 (step 1)\n\
 (subsume A))\n\
(factory) (boot-host) (rest) (wait)\n\
(call set) (call check)\n\
";

/// The circuit shows whether its secret is another than 0, and never `ok`.
pub const LEAKING: &[u8] = b"\
1 sort bitvec 1\n\
2 sort bitvec 2\n\
3 sort bitvec 4\n\
4 zero 1\n\
5 zero 3\n\
6 constd 2 1\n\
7 constd 2 2\n\
8 input 2 cmd\n\
9 input 3 data\n\
10 state 3 secret\n\
11 init 3 10 5\n\
12 state 1 ok\n\
13 init 1 12 4\n\
14 eq 1 8 6\n\
15 ite 3 14 9 10\n\
16 next 3 10 15\n\
17 eq 1 8 7\n\
18 eq 1 9 10\n\
19 and 1 17 18\n\
20 next 1 12 19\n\
21 redor 1 10\n\
22 output 21 ok\n\
";

/// The PIN store with a secret of 5 bits and commands of 4.
pub const WIDE_CIRCUIT: &[u8] = b"\
1 sort bitvec 1\n\
2 sort bitvec 4\n\
3 sort bitvec 5\n\
4 zero 1\n\
5 zero 3\n\
6 constd 2 1\n\
7 constd 2 2\n\
8 input 2 cmd\n\
9 input 3 data\n\
10 state 3 secret\n\
11 init 3 10 5\n\
12 state 1 ok\n\
13 init 1 12 4\n\
14 eq 1 8 6\n\
15 ite 3 14 9 10\n\
16 next 3 10 15\n\
17 eq 1 8 7\n\
18 eq 1 9 10\n\
19 and 1 17 18\n\
20 next 1 12 19\n\
21 output 12 ok\n\
";

/// Its specification.
pub const WIDE_SPEC: &[u8] = b"\
(spec (field secret 5 0)\n\
 (op set ((v 5)) 1 (assign secret v) (result #b1))\n\
 (op check ((g 5)) 1 (result (eq g secret))))\n\
";

/// Its emulator.
pub const WIDE_EMULATOR: &[u8] = b"\
(emulator (field ok 1 0)\n\
 (outputs (ok ok))\n\
 (tick (local q 1) (local r 1)\n\
  (if (eq (in cmd) (bv 4 1)) ((query q set (in data))) ())\n\
  (if (eq (in cmd) (bv 4 2)) ((query r check (in data))) ())\n\
  (assign ok r)))\n\
";

/// Its driver.
pub const WIDE_DRIVER: &[u8] = b"\
(driver (persistent secret)\n\
 (call set (in cmd (bv 4 1)) (in data v) (tick) (result #b1))\n\
 (call check (in cmd (bv 4 2)) (in data g) (tick) (result (out ok))))\n\
";

/// Two outputs with one symbol, which names the first.
pub const TWO_OUTPUTS: &[u8] = b"\
1 sort bitvec 1\n\
2 zero 1\n\
3 constd 1 1\n\
4 output 2 o\n\
5 output 3 o\n\
";

/// Two states with one symbol, which names the first.
pub const TWO_STATES: &[u8] = b"\
1 sort bitvec 1\n\
2 zero 1\n\
3 input 1 d\n\
4 state 1 m\n\
5 init 1 4 2\n\
6 next 1 4 3\n\
7 state 1 m\n\
8 init 1 7 2\n\
9 next 1 7 7\n\
10 output 4 q\n\
";

/// A secret of two bits, of which a tick writes the low one at once, and the high one a tick later.
pub const TORN: &[u8] = b"\
1 sort bitvec 1\n\
2 zero 1\n\
3 input 1 set\n\
4 input 1 h\n\
5 input 1 l\n\
6 state 1 high\n\
7 init 1 6 2\n\
8 state 1 low\n\
9 init 1 8 2\n\
10 state 1 pending\n\
11 init 1 10 2\n\
12 state 1 next\n\
13 init 1 12 2\n\
14 ite 1 10 12 6\n\
15 next 1 6 14\n\
16 ite 1 3 5 8\n\
17 next 1 8 16\n\
18 next 1 10 3\n\
19 ite 1 3 4 12\n\
20 next 1 12 19\n\
21 output 2 nothing\n\
";

/// Its specification, which writes both at once.
pub const TORN_SPEC: &[u8] = b"\
(spec (field high 1 0) (field low 1 0)\n\
 (op set ((h 1) (l 1)) 1 (assign high h) (assign low l) (result #b1)))\n\
";

/// Its emulator.
pub const TORN_EMULATOR: &[u8] = b"\
(emulator (tick (local q 1) (if (in set) ((query q set (in h) (in l))) ())))\n\
";

/// Its driver, which waits for the high bit.
pub const TORN_DRIVER: &[u8] = b"\
(driver (persistent high low)\n\
 (call set (in set #b1) (in h h) (in l l) (tick) (in set #b0) (tick) (result #b1)))\n\
";

/// Hints whose cut holds again after each tick, while `refine` is broken by one that sets.
pub const TORN_HINTS: &[u8] = b"\
(refine (and (eq (s high) (c high)) (eq (s low) (c low))))\n\
(idle (and (not (c pending)) (and (eq (s high) (c high)) (eq (s low) (c low)))))\n\
(wire\n\
 (cut A (and (eq (s low) (c low))\n\
  (ite (c pending) (eq (s high) (c next)) (eq (s high) (c high)))))\n\
 (step 1)\n\
 (subsume A))\n\
(factory) (boot-host) (rest) (wait) (call set)\n\
";

/// Five texts.
#[derive(Clone, Copy)]
pub struct Texts<'a> {
    pub c: &'a [u8],
    pub s: &'a [u8],
    pub d: &'a [u8],
    pub e: &'a [u8],
    pub h: &'a [u8],
}

/// The PIN store and hints that close.
pub const SMALL: Texts<'static> = Texts {
    c: CIRCUIT,
    s: SPEC,
    d: DRIVER,
    e: EMULATOR,
    h: HINTS,
};

/// The last line of its circuit.
pub const LAST: &[u8] = b"21 output 12 ok\n";
