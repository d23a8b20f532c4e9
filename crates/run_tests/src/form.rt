//! Texts that are one edit away from those of the PIN store: some are in no form that is built, each
//! for one reason, and others say the same in an unusual spelling.
use crate::trial::verify;
use example_texts::{LAST, SMALL, Texts, edited};
use knox_run::Status;
use std::alloc::{AllocError, Global};
use std::test::Fail;

/// One of the five texts.
#[derive(Clone, Copy)]
enum Which {
    C,
    S,
    D,
    E,
    H,
}

/// An edit of a text: what stands once in it, and what stands there instead.
type Edit = (Which, &'static [u8], &'static [u8]);

/// Edits that leave the form.
const OUTSIDE: [Edit; 39] = [
    (Which::S, b"secret 4 0)", b"secret 4 16)"),
    (Which::S, b"secret 4 0)", b"secret 4 0) (field x 129 0)"),
    (Which::S, b"secret 4 0)", b"secret 4 0) (field secret 4 0)"),
    (
        Which::S,
        b"secret 4 0)",
        b"secret 4 0) (field x (array 1 1) 0)",
    ),
    (Which::S, b"(result #b1)", b"(result #b01)"),
    (Which::S, b"(result #b1)", b""),
    (Which::S, b"(assign secret v)", b"(assign v v)"),
    (Which::S, b"(assign secret v)", b"(assign secret w)"),
    (Which::S, b"(assign secret v)", b"(while #b0 0)"),
    (
        Which::S,
        b"(op check",
        b"(op twice ((v 4) (v 4)) 1 (result #b1)) (op check",
    ),
    (
        Which::S,
        b"(op check",
        b"(op set ((v 4)) 1 (result #b1)) (op check",
    ),
    (Which::S, b"(eq g secret)", b"(eq g)"),
    (Which::S, b"(eq g secret)", b"(eq g (read secret g))"),
    (Which::S, b"secret))))", b"secret)))))"),
    (Which::S, b"secret))))", b"secret)))) (spec)"),
    (
        Which::D,
        b"(persistent secret)",
        b"(persistent secret secret)",
    ),
    (Which::D, b"(persistent secret)", b"(persistent cmd)"),
    (
        Which::D,
        b"(persistent secret)",
        b"(persistent secret) (idle (cmd 4))",
    ),
    (
        Which::D,
        b"(persistent secret)",
        b"(persistent secret) (call set (result #b1))",
    ),
    (Which::D, b"(in cmd (bv 2 1))", b"(in cmd v)"),
    (Which::D, b"(tick)", b"(tick v)"),
    (Which::E, b"(field ok 1 0)", b"(copy) (field ok 1 0)"),
    (Which::E, b"(outputs (ok ok))", b"(outputs (ok ok) (ok ok))"),
    (Which::E, b"(outputs (ok ok))", b"(outputs (no ok))"),
    (
        Which::E,
        b"(outputs (ok ok))",
        b"(power (assign ok (noise ok))) (outputs (ok ok))",
    ),
    (Which::E, b"(local q 1)", b"(local q 1) (local q 1)"),
    (
        Which::E,
        b"(query q set (in data))",
        b"(query q get (in data))",
    ),
    (Which::E, b"(query q set (in data))", b"(query q set)"),
    (
        Which::E,
        b"(query q set (in data))",
        b"(query q set (in cmd))",
    ),
    (Which::E, b"(assign ok r)", b"(assign ok (s secret))"),
    (Which::H, b"(step 1)", b"(step 2)"),
    (Which::H, b"(step 1)", b""),
    (Which::H, b"(subsume A)", b"(subsume B)"),
    (
        Which::H,
        b"(refine (eq (s secret) (c secret)))",
        b"(refine (not (c ok)))",
    ),
    (Which::H, b"(wire", b"(idle #b1) (wire"),
    (Which::H, b"(wait)", b"(wait) (wait)"),
    (Which::H, b"(call set)", b"(call set) (call set)"),
    (Which::H, b"(call set)", b"(call set (run 1))"),
    (Which::H, b"(cut A ", b"(label B) (cut A "),
];

/// Edits after which the texts say the same.
const INSIDE: [Edit; 21] = [
    (Which::C, b"1 sort bitvec 1\n", b"1 sort bitvec 1\r\n"),
    (
        Which::C,
        b"21 output 12 ok\n",
        b"\n\t0099 output 012 ok ; the answer",
    ),
    (Which::C, b"4 zero 1\n", b"; zeros\n4 zero 1 nothing\n"),
    (Which::C, b"6 constd 2 1\n", b"6\tconstd  2\t01\n"),
    (Which::S, b"(spec ", b"; a store\r\n(spec;\n"),
    (Which::S, b"secret 4 0)", b"secret #x4 #b000)"),
    (Which::S, b"(result #b1)", b"(result (bv 1 001))"),
    (
        Which::S,
        b"(assign secret v)",
        b"(local x 4) (assign x v) (if #b1 ((assign secret x)) ())",
    ),
    (
        Which::S,
        b"(eq g secret)",
        b"(redand (xnor g (slice 3 0 (sext 1 secret))))",
    ),
    (Which::D, b"(persistent secret)", b"(persistent @10)"),
    (
        Which::D,
        b"(persistent secret)",
        b"(persistent secret) (idle (data 5) (cmd 3))",
    ),
    (Which::E, b"(ok ok)", b"(@21 ok)"),
    (Which::E, b"(outputs (ok ok))", b"(power) (outputs (ok ok))"),
    (
        Which::E,
        b"(outputs (ok ok))",
        b"(power (local x 1) (assign ok x)) (outputs (ok ok))",
    ),
    (Which::E, b"set (in data)", b"set (in @9)"),
    (Which::E, b"(assign ok r)", b"(assign ok r) ; the last\n"),
    (Which::H, b"(step 1)", b"(step #x01)"),
    (
        Which::H,
        b"(refine (eq (s secret) (c secret)))",
        b"(refine (eq (s secret) (c @10)))",
    ),
    (Which::H, b"(step 1)", b"\r\n(step\t01)"),
    // A sort of arrays that nothing has, and a state whose first word is that of another.
    (Which::C, LAST, b"21 output 12 ok\n22 sort array 1 1\n"),
    (
        Which::C,
        LAST,
        b"21 output 12 ok\n22 state 1 x\n23 init 1 22 12\n24 next 1 22 22\n",
    ),
];

/// How the store's texts end with one of them edited.
fn ended(alloc: Global, edit: Edit) -> Result<Status, AllocError> {
    let (which, old, new) = edit;
    let text = match which {
        Which::C => SMALL.c,
        Which::S => SMALL.s,
        Which::D => SMALL.d,
        Which::E => SMALL.e,
        Which::H => SMALL.h,
    };
    let text = edited(alloc, text, old, new)?;
    if text.is_empty() {
        return Ok(Status::Usage);
    }
    let text = text.as_slice();
    let texts = match which {
        Which::C => Texts { c: text, ..SMALL },
        Which::S => Texts { s: text, ..SMALL },
        Which::D => Texts { d: text, ..SMALL },
        Which::E => Texts { e: text, ..SMALL },
        Which::H => Texts { h: text, ..SMALL },
    };
    Ok(verify(alloc, texts, Vec::new(alloc))?.status)
}

#[test]
fn one_edit_leaves_the_form(rt: HostRuntime) -> Result<(), Fail> {
    for (number, edit) in OUTSIDE.iter().enumerate() {
        assert_eq!(rt; ended(rt.alloc(), *edit)?, Status::NotYet, "{number}");
    }
    Ok(())
}

#[test]
fn unusual_spellings_are_read(rt: HostRuntime) -> Result<(), Fail> {
    for (number, edit) in INSIDE.iter().enumerate() {
        assert_eq!(rt; ended(rt.alloc(), *edit)?, Status::Yes, "{number}");
    }
    Ok(())
}
