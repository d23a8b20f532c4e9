//! Prefixes of the texts of the PIN store: each is read, or has a fault that isn't behind its end.
use example_texts::SMALL;
use knox_sexpr::SexprFault;
use knox_text::Place;
use std::alloc::Global;
use std::test::Fail;

/// Is a place past the end of a text?
fn is_past(place: Place, text: &[u8]) -> bool {
    let feeds = text.iter().filter(|b| **b == b'\n').count();
    let behind = text.iter().rev().take_while(|b| **b != b'\n').count();
    let line = place.line as usize;
    line > feeds + 1 || (line == feeds + 1 && place.column as usize > behind + 1)
}

/// Is a fault of trees at a place that isn't past the end?
fn is_within(fault: SexprFault, text: &[u8]) -> bool {
    match fault {
        SexprFault::TooDeep(at) => !is_past(at, text),
        SexprFault::Unopened(at) => !is_past(at, text),
        SexprFault::Unclosed(at) => !is_past(at, text),
        SexprFault::BadAtom(at) => !is_past(at, text),
        SexprFault::Memory => false,
    }
}

/// Is a prefix read as trees, or refused at a place within it?
fn reads_trees(alloc: Global, prefix: &[u8]) -> bool {
    if prefix.len() > 1000 {
        return false;
    }
    match knox_sexpr::read(alloc, prefix) {
        Ok(_) => true,
        Err(fault) => is_within(fault, prefix),
    }
}

/// Is a prefix read as a circuit, or refused at a line of it?
fn reads_circuit(alloc: Global, prefix: &[u8]) -> bool {
    if prefix.len() > 1000 {
        return false;
    }
    let feeds = prefix.iter().filter(|b| **b == b'\n').count();
    match btor_read::read_circuit(alloc, prefix) {
        Ok(_) => true,
        Err(fault) => fault.line as usize <= feeds + 1,
    }
}

#[test]
fn prefixes_are_read_or_have_a_fault_within(rt: HostRuntime) -> Result<(), Fail> {
    for text in [SMALL.s, SMALL.h] {
        for (k, _) in text.iter().enumerate() {
            assert!(rt; reads_trees(rt.alloc(), &text[..k]), "{k}");
        }
    }
    for (k, _) in SMALL.c.iter().enumerate() {
        assert!(rt; reads_circuit(rt.alloc(), &SMALL.c[..k]), "{k}");
    }
    Ok(())
}
