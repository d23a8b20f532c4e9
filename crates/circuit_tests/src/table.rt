//! Lines resolved by a table, lines that it refuses, and the rule of a whole circuit.
use crate::cells::SMALL;
use crate::nodes::{arg, complement};
use crate::running::{line, read};
use circuit_nodes::{Kind, Node, SortOf};
use circuit_table::{Shape, Table, Why, unfed};
use knox_words::{Op1, Op2, word_or};
use sqlite_items::Items;
use std::alloc::Global;
use std::test::Fail;

/// Adds lines, numbered from one above the number of lines so far.
fn add(table: &mut Table, alloc: Global, shapes: Vec<Shape>) -> Result<(), Fail> {
    for shape in shapes {
        let number = table.len() as u32 + 1;
        if table.add(&line(alloc, number, shape)).is_err() {
            return Err("a line was refused")?;
        }
    }
    Ok(())
}

fn table_of(alloc: Global, shapes: Vec<Shape>) -> Result<Table, Fail> {
    let mut table = Table::new(alloc);
    add(&mut table, alloc, shapes)?;
    Ok(table)
}

/// The sort of the node with a number.
fn sort(table: &Table, number: u64) -> Option<SortOf> {
    let place = table.place(number)?;
    let row = table.as_slice().get(place as usize)?;
    match row.kind {
        Kind::Value(sort, _) => Some(sort),
        _ => None,
    }
}

/// A store of one secret: an input sets it, and an output tells whether a guess is right.
fn store(alloc: Global) -> Result<Table, Fail> {
    let one = Items::from_slice(alloc, b"1")?;
    let two = Items::from_slice(alloc, b"2")?;
    let shapes = vec![in alloc;
        Shape::Bitvec(1),
        Shape::Bitvec(2),
        Shape::Bitvec(4),
        Shape::Zero(1),
        Shape::Zero(3),
        Shape::Constd(2, one),
        Shape::Constd(2, two),
        Shape::Input(2),
        Shape::Input(3),
        Shape::State(3),
        Shape::Init(3, 10, 5),
        Shape::State(1),
        Shape::Init(1, 12, 4),
        Shape::Bin(Op2::Eq, 1, 8, 6),
        Shape::Ite(3, 14, 9, 10),
        Shape::Next(3, 10, 15),
        Shape::Bin(Op2::Eq, 1, 8, 7),
        Shape::Bin(Op2::Eq, 1, 9, 10),
        Shape::Bin(Op2::And, 1, 17, 18),
    ]?;
    table_of(alloc, shapes)
}

#[test]
fn lines_are_looked_up_by_number(rt: HostRuntime) -> Result<(), Fail> {
    let table = store(rt.alloc())?;
    assert!(rt; table.len() == 19 && table.as_slice().len() == 19);
    for (number, place) in [(1, Some(0)), (19, Some(18)), (20, None)] {
        assert!(rt; table.place(number) == place, "{number}");
    }
    assert!(rt; sort(&table, 15) == Some(SortOf::Words(4)));
    assert!(rt; sort(&table, 3).is_none() && sort(&table, 16).is_none());
    Ok(())
}

/// The number of the first line that breaks the rule of a whole circuit.
fn unfed_number(alloc: Global, table: &Table) -> Result<Option<u32>, Fail> {
    let rows = table.as_slice();
    match unfed(alloc, rows)? {
        Some(place) => Ok(rows.get(place).map(|row| row.number)),
        None => Ok(None),
    }
}

#[test]
fn first_line_that_lacks_a_next_is_told(rt: HostRuntime) -> Result<(), Fail> {
    let alloc = rt.alloc();
    let mut table = store(alloc)?;
    assert_eq!(rt; unfed_number(alloc, &table)?, Some(12));
    let fed = vec![in alloc; Shape::Output(-19), Shape::Next(1, 12, 19)]?;
    add(&mut table, alloc, fed)?;
    assert_eq!(rt; unfed_number(alloc, &table)?, None);
    let or = Shape::Bin(Op2::Or, 1, 12, 22);
    let bare = vec![in alloc; Shape::State(1), or, Shape::Fair(23)]?;
    add(&mut table, alloc, bare)?;
    assert_eq!(rt; unfed_number(alloc, &table)?, None);
    add(&mut table, alloc, vec![in alloc; Shape::Bad(23)]?)?;
    assert_eq!(rt; unfed_number(alloc, &table)?, Some(25));
    Ok(())
}

#[test]
fn refused_lines_leave_the_others(rt: HostRuntime) -> Result<(), Fail> {
    let alloc = rt.alloc();
    let mut table = store(alloc)?;
    let minus = Items::from_slice(alloc, b"-")?;
    let refused = vec![in alloc;
        (19, Shape::Bitvec(1), Why::Order),
        (20, Shape::Bitvec(129), Why::Sort),
        (20, Shape::Constd(3, minus), Why::Digits),
        (20, Shape::Un(Op1::Not, 3, i64::MIN), Why::Operand),
        (20, Shape::Uext(3, 9, u32::MAX), Why::Width),
        (20, Shape::Next(3, 10, 9), Why::Next),
    ]?;
    for (number, shape, why) in refused {
        assert_eq!(rt; table.add(&line(alloc, number, shape)), Err(why));
    }
    assert_eq!(rt; table.len(), 19);
    assert_eq!(rt; table.place(20), None);
    Ok(())
}

#[test]
fn words_of_arrays_are_summed(rt: HostRuntime) -> Result<(), Fail> {
    let alloc = rt.alloc();
    let mut shapes = vec![in alloc; Shape::Bitvec(12), Shape::Array(1, 1)]?;
    for _ in 0..16 {
        shapes.push(Shape::State(2))?;
    }
    let mut table = table_of(alloc, shapes)?;
    let another = table.add(&line(alloc, 19, Shape::State(2)));
    assert_eq!(rt; another, Err(Why::TooManyWords));
    assert_eq!(rt; sort(&table, 18), Some(SortOf::Arrays(12, 12)));
    add(&mut table, alloc, vec![in alloc; Shape::State(1)]?)?;
    Ok(())
}

fn word(width: u8, node: Node) -> Kind {
    Kind::Value(SortOf::Words(width), node)
}

fn words(node: Node) -> Kind {
    Kind::Value(SortOf::Arrays(1, 4), node)
}

#[test]
fn operands_are_resolved(rt: HostRuntime) -> Result<(), Fail> {
    let alloc = rt.alloc();
    let mut table = Table::new(alloc);
    let circuit = read(alloc, SMALL)?;
    for line in circuit.lines() {
        assert!(rt; table.add(line).is_ok());
    }
    let array = Node::Array {
        first: 0,
        words: 2,
        width: 4,
    };
    let kinds = [
        (4, word(1, Node::Input(1, 1))),
        (5, word(4, Node::State(0, 4))),
        (6, words(array)),
        (7, word(4, Node::State(0, 4))),
        (8, word(4, Node::Const(word_or(4, 13)))),
        (9, words(Node::Write(6, arg(4), arg(8)))),
        (10, words(Node::Pick(arg(4), 9, 6))),
        (12, word(4, Node::Bin(Op2::Add, arg(5), complement(3)))),
        (15, Kind::Output(arg(14), 4)),
        (16, Kind::Output(complement(8), 4)),
    ];
    let rows = table.as_slice();
    assert_eq!(rt; rows.len(), 17);
    for (place, kind) in kinds {
        assert_eq!(rt; rows.get(place).map(|row| row.kind), Some(kind));
    }
    assert_eq!(rt; rows.get(5).map(|row| row.next), Some(Some(arg(12))));
    assert_eq!(rt; rows.get(6).map(|row| row.next), Some(Some(arg(10))));
    Ok(())
}
