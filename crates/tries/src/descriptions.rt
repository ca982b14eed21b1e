// Descriptions that pass their checks, and descriptions that are declined.
use concepts::description::checks::check;
use concepts::node::Node;
use concepts::op::Op;
use concepts::refusal::{Named, Refusal};
use kinds::span::Span;

// Two places: the first is held, by an entry of 126 rows.
const HELD: [Option<u8>; 2] = [Some(126), None];

// The number and the detail of the refusal that a table gets, if it gets one.
fn answer<K>(nodes: &[Node<K>]) -> Result<(), (u8, u16)> {
    check(nodes, &HELD).map_err(|refusal| (refusal.number(), refusal.detail()))?;
    Ok(())
}

// A node with a role, an atom or a place, and a count.
fn leaf(op: Op, which: u8, count: u16) -> Node<Span> {
    numbered(u8::from(op), which, count)
}

// The same with any number for its op.
fn numbered(op: u8, which: u8, count: u16) -> Node<Span> {
    let restriction = Span { low: 1, high: 9 };
    Node {
        op,
        which,
        count,
        left: 255,
        right: 255,
        restriction,
    }
}

// A node with operands.
fn over(op: Op, which: u8, left: u8, right: u8) -> Node<Span> {
    Node {
        left,
        right,
        ..leaf(op, which, 65535)
    }
}

// Nodes 1 to `last` are of `op` over the node before, and the others are THING.
fn stacked(op: Op, last: u8) -> [Node<Span>; 128] {
    let mut nodes = [leaf(Op::Thing, 0, 0); 128];
    for (node, before) in nodes[1..].iter_mut().zip(0..last) {
        *node = over(op, 0, before, before);
    }
    nodes
}

#[test]
fn weights(rt: HostRuntime) {
    let mut nodes = stacked(Op::All, 63);
    assert_eq!(rt; answer(&nodes[0..64]), Ok(()), "64");
    nodes[64] = over(Op::And, 0, 63, 63);
    assert_eq!(rt; answer(&nodes[0..65]), Err((7, 0)), "129");
    assert_eq!(rt;
        answer(&nodes[0..66]),
        Ok(()),
        "a heavy node that is not used"
    );
    nodes[64] = over(Op::And, 0, 63, 62);
    assert_eq!(rt; answer(&nodes[0..65]), Ok(()), "128");
}

#[test]
fn doublings(rt: HostRuntime) {
    let nodes = stacked(Op::And, 127);
    assert_eq!(rt; answer(&nodes), Err((7, 0)));
    assert_eq!(rt; answer(&nodes[0..7]), Ok(()), "127");
    assert_eq!(rt; answer(&nodes[0..8]), Err((7, 0)), "255");
}

#[test]
fn lengths(rt: HostRuntime) {
    let things = [leaf(Op::Thing, 0, 0); 129];
    assert_eq!(rt; answer(&things[0..0]), Err((2, 0)));
    assert_eq!(rt; answer(&things[0..128]), Ok(()));
    assert_eq!(rt; answer(&things), Err((2, 0)));
    let faults = [numbered(9, 0, 0); 129];
    assert_eq!(rt; answer(&faults), Err((2, 0)), "the length comes first");
}

// One node alone, with what it gets.
#[test]
fn alone(rt: HostRuntime) {
    let cases = [
        (leaf(Op::Thing, 200, 65535), Ok(())),
        (leaf(Op::Nothing, 200, 65535), Ok(())),
        (leaf(Op::Prim, 63, 65535), Ok(())),
        (leaf(Op::Prim, 64, 0), Err((4, 0))),
        (leaf(Op::Within, 200, 65535), Ok(())),
        (leaf(Op::AtLeast, 15, 999), Ok(())),
        (leaf(Op::AtLeast, 16, 0), Err((4, 0))),
        (leaf(Op::AtMost, 0, 1000), Err((4, 0))),
        (numbered(9, 0, 0), Err((3, 0))),
        (numbered(255, 200, 65535), Err((3, 0))),
        (over(Op::And, 0, 0, 0), Err((5, 0))),
        (over(Op::All, 0, 0, 0), Err((5, 0))),
        (over(Op::All, 16, 0, 0), Err((4, 0))),
        (leaf(Op::Entry, 0, 65535), Ok(())),
        (leaf(Op::Entry, 1, 0), Err((6, 0))),
        (leaf(Op::Entry, 2, 0), Err((6, 0))),
    ];
    for (node, expected) in cases {
        assert_eq!(rt; answer(&[node]), expected);
    }
}

// Two nodes after THING, with what they get: of two faults the lower node's comes first.
#[test]
fn lowest(rt: HostRuntime) {
    let op = numbered(9, 0, 0);
    let field = leaf(Op::Prim, 64, 0);
    let operand = over(Op::And, 0, 0, 2);
    let entry = leaf(Op::Entry, 1, 0);
    let cases = [
        (op, field, Err((3, 1))),
        (field, op, Err((4, 1))),
        (field, operand, Err((4, 1))),
        (operand, field, Err((5, 1))),
        (operand, entry, Err((5, 1))),
        (entry, operand, Err((6, 1))),
        (entry, op, Err((6, 1))),
        (leaf(Op::Entry, 0, 0), over(Op::And, 200, 1, 0), Ok(())),
        (leaf(Op::Entry, 0, 0), over(Op::And, 200, 1, 1), Err((7, 0))),
        (leaf(Op::Entry, 0, 0), over(Op::And, 200, 2, 1), Err((5, 2))),
        (over(Op::And, 200, 0, 0), over(Op::All, 15, 1, 255), Ok(())),
    ];
    for (first, second, expected) in cases {
        assert_eq!(rt; answer(&[leaf(Op::Thing, 0, 0), first, second]), expected);
    }
}

// A fault of a node that is not used comes before the weight.
#[test]
fn entry_before_weight(rt: HostRuntime) {
    let mut nodes = stacked(Op::All, 63);
    nodes[64] = leaf(Op::Entry, 1, 0);
    nodes[65] = over(Op::And, 0, 63, 63);
    assert_eq!(rt; answer(&nodes[0..66]), Err((6, 64)));
}

// Each refusal with its number and its detail.
#[test]
fn refusals(rt: HostRuntime) {
    let cases = [
        (Refusal::Place, (1, 0)),
        (Refusal::Length, (2, 0)),
        (Refusal::Op(127), (3, 127)),
        (Refusal::Field(5), (4, 5)),
        (Refusal::Operand(6), (5, 6)),
        (Refusal::Entry(7), (6, 7)),
        (Refusal::Weight, (7, 0)),
        (Refusal::Contradiction, (8, 0)),
        (Refusal::Same(63), (9, 63)),
        (Refusal::NotHeld(Named::First), (10, 1)),
        (Refusal::NotHeld(Named::Second), (10, 2)),
        (Refusal::Groups, (11, 0)),
        (Refusal::Table(255), (12, 255)),
        (Refusal::Card, (13, 0)),
    ];
    for (refusal, expected) in cases {
        assert_eq!(rt; (refusal.number(), refusal.detail()), expected);
    }
}
