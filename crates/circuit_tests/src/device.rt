//! A device of eight slots that runs a program of 256 steps out of its ROM.
use crate::running::{counts, factory, gives, power, read, rom_word, tick};
use knox_circuit::{Circuit, State};
use knox_words::{Word, word_or};
use std::alloc::Global;
use std::test::Fail;

/// Sorts, constants, inputs, and the bare state under the program.
const HEAD: &[u8] = b"1 sort bitvec 1
2 sort bitvec 2
3 sort bitvec 6
4 sort bitvec 8
5 sort bitvec 16
6 sort array 3 5
7 sort array 4 2
8 zero 1
9 zero 2
10 one 2
11 constd 2 2
12 constd 2 3
13 zero 3
14 constd 3 7
15 zero 4
16 one 4
17 zero 5
18 input 2 cmd
19 input 3 slot
20 input 5 data
21 state 7 base
";

/// What stands behind the program's writes.
const TAIL: &[u8] = b"534 state 7 rom
535 init 7 534 533
536 next 7 534 534
537 state 6 pins
538 init 6 537 17
539 state 4 pc
540 init 4 539 15
541 state 2 lcmd
542 init 2 541 9
543 state 3 lslot
544 init 3 543 13
545 state 5 ldata
546 init 5 545 17
547 state 1 ok
548 init 1 547 8
549 read 2 534 539
550 eq 1 549 9
551 eq 1 549 11
552 eq 1 549 12
553 redor 1 18
554 uext 4 553 7
555 inc 4 539
556 ite 4 552 15 555
557 ite 4 550 554 556
558 next 4 539 557
559 ite 2 550 18 541
560 next 2 541 559
561 ite 3 550 19 543
562 next 3 543 561
563 ite 5 550 20 545
564 next 5 545 563
565 ulte 1 543 14
566 and 1 551 565
567 eq 1 541 10
568 and 1 566 567
569 write 6 537 543 545
570 ite 6 568 569 537
571 next 6 537 570
572 eq 1 541 11
573 and 1 566 572
574 read 5 537 543
575 eq 1 574 545
576 and 1 573 575
577 next 1 547 576
578 output 552 done
579 output 547 ok
";

/// The program's step at an index, and the line of its constant: the command is taken at step 0, steps
/// 1 to 8 wait, step 9 does the command, and step 10 is done and goes back to 0.
fn step(at: u32) -> (u32, u128) {
    match at {
        0 => (9, 0),
        1..=8 => (10, 1),
        9 => (11, 2),
        _ => (12, 3),
    }
}

/// The whole text, with two lines for each of the program's steps.
fn device_text(alloc: Global) -> Result<Vec<u8>, Fail> {
    let mut text = Vec::from_slice(alloc, HEAD)?;
    for at in 0..256u32 {
        let (constant, _) = step(at);
        let (index, before, write) = (22 + 2 * at, 21 + 2 * at, 23 + 2 * at);
        let lines = format!(in alloc;
            "{index} constd 4 {at}\n{write} write 7 {before} {index} {constant}\n"
        )?;
        text.extend_from_slice(lines.as_bytes())?;
    }
    text.extend_from_slice(TAIL)?;
    Ok(text)
}

fn device(alloc: Global) -> Result<Circuit, Fail> {
    let text = device_text(alloc)?;
    read(alloc, text.as_slice())
}

/// The factory state, with 3 in each word of the bare state. None of them is seen.
fn built(alloc: Global, circuit: &Circuit) -> Result<State, Fail> {
    factory(alloc, circuit, 2, &[3; 256])
}

/// The inputs: a command, a slot and data.
fn wires(command: u128, slot: u128, data: u128) -> [(u8, u128); 3] {
    [(2, command), (6, slot), (16, data)]
}

fn ticks(
    alloc: Global,
    circuit: &Circuit,
    state: &mut State,
    wires: &[(u8, u128)],
    count: u32,
) -> Result<(), Fail> {
    for _ in 0..count {
        tick(alloc, circuit, state, wires)?;
    }
    Ok(())
}

/// Whether a command from the first step gives this `ok`, and goes back to the first step. It is taken
/// at the first tick, eight ticks wait, and the tenth does it: then `done` is 1 and `ok` is told.
fn command_gives(
    alloc: Global,
    circuit: &Circuit,
    state: &mut State,
    wires: &[(u8, u128)],
    ok: u128,
) -> Result<bool, Fail> {
    ticks(alloc, circuit, state, wires, 9)?;
    if !gives(alloc, circuit, state, wires, 1, &[0, 0])? {
        return Ok(false);
    }
    tick(alloc, circuit, state, wires)?;
    let found = gives(alloc, circuit, state, wires, 1, &[1, ok])?;
    tick(alloc, circuit, state, wires)?;
    Ok(found)
}

/// What is expected of it: the program stands before the other cells, and none of these is a ROM.
fn program_word(at: u32) -> Option<Word> {
    if at < 256 {
        let (_, step) = step(at);
        Some(word_or(2, step))
    } else {
        None
    }
}

/// Commands, 1 to store and 2 to compare, with slot and data, and the output `ok` that each gives:
/// whether it compared with what the slot has. Slots past 7 are never written and never equal.
const COMMANDS: [(u128, u128, u128, u128); 8] = [
    (2, 5, 0, 1),
    (1, 5, 48879, 0),
    (2, 5, 48879, 1),
    (2, 5, 48878, 0),
    (2, 6, 48879, 0),
    (1, 8, 3, 0),
    (2, 8, 3, 0),
    (2, 8, 0, 0),
];

#[test]
fn the_device_is_read(rt: HostRuntime) -> Result<(), Fail> {
    let alloc = rt.alloc();
    let text = device_text(alloc)?;
    assert_eq!(rt; text.len(), 11092);
    let circuit = read(alloc, text.as_slice())?;
    assert_eq!(rt; counts(&circuit), [579, 3, 2, 7, 1]);
    // 256 words of the program, 64 slots, and the words of five cells.
    assert_eq!(rt; circuit.word_count(), 325);
    Ok(())
}

#[test]
fn the_factory_takes_512_bits_of_noise(rt: HostRuntime) -> Result<(), Fail> {
    let circuit = device(rt.alloc())?;
    let mut bits = 0u64;
    for cell in circuit.noise_cells(&[])?.as_slice() {
        let words = match cell.index {
            Some(8) => 256,
            _ => 1,
        };
        bits = bits.saturating_add(words * u64::from(cell.width));
    }
    assert_eq!(rt; bits, 512);
    Ok(())
}

#[test]
fn the_program_is_rom(rt: HostRuntime) -> Result<(), Fail> {
    let circuit = device(rt.alloc())?;
    for at in 0..325u32 {
        assert_eq!(rt; rom_word(&circuit, at), program_word(at));
    }
    Ok(())
}

#[test]
fn commands_are_done_after_ten_ticks(rt: HostRuntime) -> Result<(), Fail> {
    let alloc = rt.alloc();
    let circuit = device(alloc)?;
    let mut state = built(alloc, &circuit)?;
    for (command, slot, data, ok) in &COMMANDS {
        let wires = wires(*command, *slot, *data);
        assert!(rt; command_gives(alloc, &circuit, &mut state, &wires, *ok)?);
    }
    Ok(())
}

/// A slot is kept where the driver keeps it, and a command that power cuts short is not done.
#[test]
fn slots_are_kept_and_commands_are_cut(rt: HostRuntime) -> Result<(), Fail> {
    let alloc = rt.alloc();
    let circuit = device(alloc)?;
    let mut state = built(alloc, &circuit)?;
    assert!(rt; command_gives(alloc, &circuit, &mut state, &wires(1, 7, 513), 0)?);
    ticks(alloc, &circuit, &mut state, &wires(1, 7, 514), 9)?;
    let keep = [false, true, false, false, false, false, false];
    let mut after = power(alloc, &circuit, &keep, &state, 2, &[0; 256])?;
    assert!(rt; command_gives(alloc, &circuit, &mut after, &wires(2, 7, 513), 1)?);
    Ok(())
}
