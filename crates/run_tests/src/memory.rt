//! Circuits with memories, ROM words and wide words, through the whole program. The bits are worked
//! by hand: the cut of the PIN store takes 16, 4 of the field, 4 and 1 of the cells, 1 of the
//! emulator, 2 and 4 of the inputs.
use crate::trial::verify;
use example_texts::{SMALL, Texts, edited};
use knox_run::Status;
use std::alloc::{AllocError, Global};
use std::test::Fail;

/// Lines behind those of the PIN store's circuit, and what the program then answers.
const BEHIND: [(&[u8], Status, &[u8]); 5] = [
    // A memory of two words of 4 bits, which are noise: 8 bits more.
    (
        b"22 sort array 1 3\n23 state 22 memory\n24 next 22 23 23\n",
        Status::TooWide,
        b"too-wide 2 24\n",
    ),
    // A word of 8 bits that never changes is a ROM word, and no segment takes it.
    (
        b"22 sort bitvec 8\n23 one 22\n24 state 22 k\n25 init 22 24 23\n26 next 22 24 24\n",
        Status::Yes,
        b"yes\n",
    ),
    // One that is noise at power-on is none.
    (
        b"22 sort bitvec 8\n23 state 22 k\n24 next 22 23 23\n",
        Status::TooWide,
        b"too-wide 2 24\n",
    ),
    // Both words of a ROM of 8 bits are written; the base's words are noise, 16 bits beside 4 of the
    // field and 4 of the kept cell.
    (
        b"22 sort bitvec 8\n23 sort array 1 22\n24 state 23\n25 zero 22\n26 one 1\n27 write 23 24 4 25\n28 write 23 27 26 25\n29 state 23 rom\n30 init 23 29 28\n31 next 23 29 29\n",
        Status::TooWide,
        b"too-wide 1 24\n",
    ),
    // One of two words of 5 bits is written: the cut takes the other.
    (
        b"22 sort bitvec 5\n23 sort array 1 22\n24 state 23\n25 zero 22\n26 write 23 24 4 25\n27 state 23 rom\n28 init 23 27 26\n29 next 23 27 27\n",
        Status::TooWide,
        b"too-wide 2 21\n",
    ),
];

/// The specification of the PIN store with a secret of 64 bits.
const WIDE_SPEC: &[u8] = b"\
(spec (field secret 64 0)\n\
 (op set ((v 64)) 1 (assign secret v) (result #b1))\n\
 (op check ((g 64)) 1 (result (eq g secret))))\n\
";

/// Does a run of the store's texts with these lines behind its circuit end so?
fn ends(alloc: Global, lines: &[u8], status: Status, out: &[u8]) -> Result<bool, AllocError> {
    let mut text = Vec::from_slice(alloc, SMALL.c)?;
    text.extend_from_slice(lines)?;
    let texts = Texts {
        c: text.as_slice(),
        ..SMALL
    };
    Ok(verify(alloc, texts, Vec::new(alloc))?.says(status, out))
}

#[test]
fn segments_take_memories_and_no_rom_words(rt: HostRuntime) -> Result<(), Fail> {
    for (number, (lines, status, out)) in BEHIND.iter().enumerate() {
        assert!(rt; ends(rt.alloc(), lines, *status, out)?, "{number}");
    }
    Ok(())
}

/// 64 bits of the field, and 64 of the kept cell.
#[test]
fn a_secret_of_64_bits_is_read(rt: HostRuntime) -> Result<(), Fail> {
    let alloc = rt.alloc();
    let text = edited(alloc, SMALL.c, b"3 sort bitvec 4\n", b"3 sort bitvec 64\n")?;
    let texts = Texts {
        c: text.as_slice(),
        s: WIDE_SPEC,
        ..SMALL
    };
    let ran = verify(alloc, texts, Vec::new(alloc))?;
    assert!(rt; ran.says(Status::TooWide, b"too-wide 1 128\n"));
    Ok(())
}
