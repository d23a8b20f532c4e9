//! Values of nodes over arrays, and clock edges in place.
use circuit_nodes::{Arg, Next, Node, advance, arg_words, fill, has_words};
use knox_words::{Word, word_or, zero};

fn byte(value: u8) -> Word {
    word_or(8, u128::from(value))
}

fn constant(width: u8, value: u8) -> Node {
    Node::Const(word_or(width, u128::from(value)))
}

fn array(first: u32, words: u32) -> Node {
    let width = 8;
    Node::Array {
        first,
        words,
        width,
    }
}

pub(crate) fn arg(node: u32) -> Arg {
    let complement = false;
    Arg { node, complement }
}

pub(crate) fn complement(node: u32) -> Arg {
    let complement = true;
    Arg { node, complement }
}

/// The words of four operands over twelve nodes.
fn words_of(nodes: &[Node; 12], state: &[Word], args: &[Arg; 4]) -> [Word; 4] {
    let mut room = [zero(); 12];
    fill(nodes, &[], state, &mut room);
    let mut out = [zero(); 4];
    arg_words(nodes, &[], state, &room, args, &mut out);
    out
}

#[test]
fn arrays_are_read_through_writes(rt: HostRuntime) {
    let state = [byte(10), byte(11), byte(12), byte(13)];
    let nodes = [
        array(0, 4),
        constant(2, 1),
        constant(8, 99),
        Node::Write(0, arg(1), arg(2)),
        constant(1, 0),
        Node::Pick(arg(4), 3, 0),
        Node::Pick(complement(4), 3, 0),
        Node::Read(5, arg(1)),
        Node::Read(6, arg(1)),
        Node::Read(6, complement(1)),
        array(0, 2),
        Node::Read(10, complement(1)),
    ];
    let args = [arg(7), arg(8), complement(9), arg(11)];
    let out = words_of(&nodes, &state, &args);
    assert_eq!(rt; out, [byte(11), byte(99), byte(243), byte(0)]);
}

/// A tick over six nodes, where the cells have as many words as the state and the stage.
fn has_ticked(nodes: &[Node; 6], nexts: &[Next], state: &mut [Word], stage: &mut [Word]) -> bool {
    if !has_words(nexts, state.len()) || stage.len() != state.len() {
        return false;
    }
    let mut room = [zero(); 6];
    fill(nodes, &[], state, &mut room);
    advance(nodes, &[], nexts, state, &room, stage, &mut [0; 6]);
    true
}

#[test]
fn cells_take_each_others_old_words(rt: HostRuntime) {
    let mut state = [byte(1), byte(2), byte(3), byte(4), byte(7)];
    let nodes = [
        array(0, 2),
        array(2, 2),
        constant(1, 0),
        constant(8, 50),
        Node::Write(1, arg(2), arg(3)),
        Node::Read(0, complement(2)),
    ];
    let nexts = [
        Next::Array { node: 4, words: 2 },
        Next::Array { node: 0, words: 2 },
        Next::Word(arg(5)),
    ];
    assert!(rt; has_ticked(&nodes, &nexts, &mut state, &mut [zero(); 5]));
    assert_eq!(rt; state, [byte(50), byte(4), byte(1), byte(2), byte(2)]);
}

#[test]
fn the_newest_write_wins(rt: HostRuntime) {
    let mut state = [byte(1), byte(2)];
    let nodes = [
        array(0, 2),
        constant(1, 1),
        constant(8, 8),
        constant(8, 9),
        Node::Write(0, arg(1), arg(2)),
        Node::Write(4, arg(1), arg(3)),
    ];
    let nexts = [Next::Array { node: 5, words: 2 }];
    assert!(rt; has_ticked(&nodes, &nexts, &mut state, &mut [zero(); 2]));
    assert_eq!(rt; state, [byte(1), byte(9)]);
}
