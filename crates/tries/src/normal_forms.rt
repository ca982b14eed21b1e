// Forms of descriptions, built and compared with what they should be.
use concepts::description::checks::check;
use concepts::node::Node;
use concepts::op::Op;
use concepts::refusal::Refusal;
use forms::build::{Unbuilt, build};
use forms::sheets::Sheets;
use kinds::kind::Kind;
use kinds::span::Span;
use rows::row::Row;
use std::process::Abort;
use std::test::Fail;

// Why a table of nodes gets no rows.
#[derive(Clone, Copy, Debug, PartialEq, Eq)]
enum Without {
    Declined(Refusal),
    Unbuilt(Unbuilt),
}

// How many rows a description has.
fn built<K: Kind>(
    nodes: &[Node<K>],
    held: &[Option<u8>],
    sheets: Sheets<K>,
    out: &mut [Row<K>],
) -> Result<usize, Without> {
    let description = check(nodes, held).map_err(Without::Declined)?;
    build(&description, sheets, out).map_err(Without::Unbuilt)
}

const BLANK: Row<Span> = Row {
    parent: 9,
    role: 9,
    lower: 9,
    upper: Some(9),
    atoms: 9,
    restriction: Span { low: 9, high: 9 },
};

// A node. Other than in the tests of descriptions, what an op does not use is given as zeros.
fn node(op: Op, which: u8, count: u16, left: u8, right: u8) -> Node<Span> {
    let restriction = Span { low: 10, high: 20 };
    Node {
        op: u8::from(op),
        which,
        count,
        left,
        right,
        restriction,
    }
}

// Builds a description, and compares how many rows it has.
fn expect(
    rt: &impl Abort,
    nodes: &[Node<Span>],
    rows: &mut [Row<Span>],
    expected: Result<usize, Without>,
) -> Result<(), Fail> {
    expect_noted(rt, nodes, rows, expected, "rows")
}

// The same, with a remark that a failure is reported with.
fn expect_noted(
    rt: &impl Abort,
    nodes: &[Node<Span>],
    rows: &mut [Row<Span>],
    expected: Result<usize, Without>,
    note: &str,
) -> Result<(), Fail> {
    let none = [BLANK; 1];
    let sheets = Sheets {
        front: &none[0..0],
        back: &none[0..0],
    };
    assert_eq!(rt; built(nodes, &[], sheets, rows), expected, "{note}");
    Ok(())
}

// The parent, the role, the numbers and the atoms of a row.
fn shape(row: Row<Span>) -> (u8, u8, u16, Option<u16>, u64) {
    (row.parent, row.role, row.lower, row.upper, row.atoms)
}

#[test]
fn numbers(rt: HostRuntime) -> Result<(), Fail> {
    let mut rows = [BLANK; 128];
    expect(&rt, &[node(Op::Thing, 0, 0, 0, 0)], &mut rows, Ok(1))?;
    assert_eq!(rt; shape(rows[0]), (0, 0, 0, None, 0));
    expect(&rt, &[node(Op::AtLeast, 2, 3, 0, 0)], &mut rows, Ok(2))?;
    assert_eq!(rt; shape(rows[1]), (0, 2, 3, None, 0));
    let silent = [node(Op::AtLeast, 2, 0, 0, 0)];
    expect_noted(
        &rt,
        &silent,
        &mut rows,
        Ok(2),
        "a row that says nothing stays",
    )?;
    let larger = [
        node(Op::AtLeast, 0, 3, 0, 0),
        node(Op::AtMost, 0, 3, 0, 0),
        node(Op::AtMost, 0, 7, 0, 0),
        node(Op::And, 0, 0, 0, 1),
        node(Op::And, 0, 0, 3, 2),
    ];
    expect(&rt, &larger, &mut rows, Ok(2))?;
    assert_eq!(rt; shape(rows[1]), (0, 0, 3, Some(3), 0));
    Ok(())
}

#[test]
fn order(rt: HostRuntime) -> Result<(), Fail> {
    let mut rows = [BLANK; 128];
    let nodes = [
        node(Op::Prim, 5, 0, 0, 0),
        node(Op::All, 3, 0, 0, 0),
        node(Op::AtLeast, 1, 1, 0, 0),
        node(Op::All, 3, 0, 2, 0),
        node(Op::And, 0, 0, 1, 2),
        node(Op::And, 0, 0, 4, 3),
        node(Op::Prim, 63, 0, 0, 0),
        node(Op::And, 0, 0, 6, 5),
    ];
    expect(&rt, &nodes, &mut rows, Ok(4))?;
    assert_eq!(rt; shape(rows[0]), (0, 0, 0, None, 1 << 63));
    assert_eq!(rt; shape(rows[1]), (0, 1, 1, None, 0));
    assert_eq!(rt; shape(rows[2]), (0, 3, 0, None, 32));
    assert_eq!(rt; shape(rows[3]), (2, 1, 1, None, 0));
    Ok(())
}

#[test]
fn dead_rows(rt: HostRuntime) -> Result<(), Fail> {
    let mut rows = [BLANK; 128];
    let none = [node(Op::Nothing, 0, 0, 0, 0), node(Op::All, 4, 0, 0, 0)];
    expect(&rt, &none, &mut rows, Ok(2))?;
    assert_eq!(rt; shape(rows[1]), (0, 4, 0, Some(0), 0));
    let clash = [
        node(Op::AtLeast, 1, 3, 0, 0),
        node(Op::AtMost, 1, 2, 0, 0),
        node(Op::And, 0, 0, 0, 1),
    ];
    expect_noted(
        &rt,
        &clash,
        &mut rows,
        Err(Without::Unbuilt(Unbuilt::Contradictory)),
        "contradictory",
    )?;
    let below = [
        node(Op::AtLeast, 1, 3, 0, 0),
        node(Op::AtMost, 1, 2, 0, 0),
        node(Op::And, 0, 0, 0, 1),
        node(Op::Prim, 7, 0, 0, 0),
        node(Op::And, 0, 0, 2, 3),
        node(Op::All, 4, 0, 4, 0),
    ];
    expect_noted(&rt, &below, &mut rows, Ok(2), "the row below is stripped")?;
    assert_eq!(rt; shape(rows[1]), (0, 4, 0, Some(0), 0));
    assert_eq!(rt; rows[1].restriction.admits(-5), true);
    Ok(())
}

// 127 ALLs over a restriction.
fn chain() -> [Node<Span>; 128] {
    let mut nodes = [node(Op::Within, 0, 0, 0, 0); 128];
    for (above, below) in nodes[1..].iter_mut().zip(0..127) {
        *above = node(Op::All, 15, 0, below, 0);
    }
    nodes
}

#[test]
fn deepest(rt: HostRuntime) -> Result<(), Fail> {
    let mut rows = [BLANK; 128];
    let nodes = chain();
    expect(&rt, &nodes, &mut rows, Ok(128))?;
    assert_eq!(rt; shape(rows[127]), (126, 15, 0, None, 0));
    assert_eq!(rt; rows[127].restriction.admits(10), true);
    assert_eq!(rt; rows[127].restriction.admits(21), false);
    Ok(())
}

// An entry is read from its block, before or after the one that is written.
#[test]
fn entries(rt: HostRuntime) -> Result<(), Fail> {
    let mut held = [BLANK; 128];
    let entry = [
        node(Op::AtLeast, 2, 3, 0, 0),
        node(Op::Prim, 1, 0, 0, 0),
        node(Op::And, 0, 0, 0, 1),
    ];
    expect(&rt, &entry, &mut held, Ok(2))?;
    let nodes = [
        node(Op::Entry, 0, 0, 0, 0),
        node(Op::AtMost, 2, 5, 0, 0),
        node(Op::And, 0, 0, 0, 1),
        node(Op::All, 7, 0, 0, 0),
        node(Op::And, 0, 0, 2, 3),
    ];
    let front = Sheets {
        front: &held,
        back: &held[0..0],
    };
    let mut rows = [BLANK; 128];
    assert_eq!(rt; built(&nodes, &[Some(2)], front, &mut rows), Ok(4));
    assert_eq!(rt; shape(rows[0]), (0, 0, 0, None, 2));
    assert_eq!(rt; shape(rows[1]), (0, 2, 3, Some(5), 0));
    assert_eq!(rt; shape(rows[2]), (0, 7, 0, None, 2));
    assert_eq!(rt; shape(rows[3]), (2, 2, 3, None, 0));
    let short = Sheets {
        front: &held[0..127],
        back: &held[0..0],
    };
    assert_eq!(rt;
        built(&nodes, &[Some(2)], short, &mut rows),
        Err(Without::Unbuilt(Unbuilt::Unfit)),
        "no block"
    );
    Ok(())
}

// AT-LEAST 1 of each of the 16 roles, then the same of the fillers of role 0.
fn wide() -> [Node<Span>; 33] {
    let mut nodes = [node(Op::Thing, 0, 0, 0, 0); 33];
    for (asked, role) in nodes.iter_mut().zip(0..16) {
        *asked = node(Op::AtLeast, role, 1, 0, 0);
    }
    nodes[16] = node(Op::And, 0, 0, 0, 1);
    let operands = (16..30).zip(2..16);
    for (joined, (left, right)) in nodes[17..31].iter_mut().zip(operands) {
        *joined = node(Op::And, 0, 0, left, right);
    }
    nodes[31] = node(Op::All, 0, 0, 30, 0);
    nodes[32] = node(Op::And, 0, 0, 30, 31);
    nodes
}

#[test]
fn widest(rt: HostRuntime) -> Result<(), Fail> {
    let mut rows = [BLANK; 128];
    let nodes = wide();
    expect(&rt, &nodes, &mut rows, Ok(33))?;
    assert_eq!(rt; shape(rows[1]), (0, 0, 1, None, 0));
    assert_eq!(rt; shape(rows[17]), (1, 15, 1, None, 0));
    assert_eq!(rt; shape(rows[18]), (0, 1, 1, None, 0));
    assert_eq!(rt; shape(rows[32]), (0, 15, 1, None, 0));
    Ok(())
}
