// The checks of a table of nodes, in their order.
ghost use Rattle.std.specs.Prelude.{◌≡◌, ◌<◌, ◌≤◌, min, length, IfOk};
ghost use Rattle.std.specs.Result.{result_err};
ghost use Rattle.concepts.specs.Checks.{bad_field, bad_operand, bad_entry, first, node_checks, checks_from, refusal};
ghost use Rattle.concepts.specs.Weights.{node_weight, rows_at, weight};

use super::Description;
use crate::node::{LAST_ATOM, LAST_ROLE, MOST_COUNT, Node};
use crate::op::Op;
use crate::refusal::Refusal;

const MOST_NODES: usize = 128;

const MOST_WEIGHT: u8 = 128;

// How many rows the entry at the place has, if it is held.
pub fn rows_held(held: &[Option<u8>], place: u8) -> Option<u8>
    ensures value { result ≡ rows_at held.now place }
{
    held.get(usize::from(place)).copied().flatten()
}

// Whether a role, an atom or a count that the node uses is out of range.
fn field_is_bad<K>(node: &Node<K>) -> bool
    ensures { result ≡ bad_field node.now }
{
    match node.op() {
        Some(Op::Prim) => node.which > LAST_ATOM,
        Some(Op::All) => node.which > LAST_ROLE,
        Some(Op::AtLeast | Op::AtMost) => node.which > LAST_ROLE || node.count > MOST_COUNT,
        _ => false,
    }
}

// Whether an operand that the node uses is not below `i`, its own number.
fn operand_is_bad<K>(node: &Node<K>, i: u8) -> bool
    ensures { result ≡ bad_operand i node.now }
{
    match node.op() {
        Some(Op::And) => node.left >= i || node.right >= i,
        Some(Op::All) => node.left >= i,
        _ => false,
    }
}

// Whether the node names a place that is not held.
fn entry_is_bad<K>(node: &Node<K>, held: &[Option<u8>]) -> bool
    ensures { result ≡ bad_entry held.now node.now }
{
    node.op() == Some(Op::Entry) && rows_held(held, node.which).is_none()
}

// Checks the node numbered `i`.
fn check_node<K>(i: u8, node: &Node<K>, held: &[Option<u8>]) -> Result<(), Refusal>
    ensures { result_err result ≡ first (node_checks held.now i node.now) }
{
    if node.op().is_none() {
        return Err(Refusal::Op(i));
    }
    if field_is_bad(node) {
        return Err(Refusal::Field(i));
    }
    if operand_is_bad(node, i) {
        return Err(Refusal::Operand(i));
    }
    if entry_is_bad(node, held) {
        return Err(Refusal::Entry(i));
    }
    Ok(())
}

// The weight of a node whose lower nodes weigh `below`. It stops at 255.
fn weight_of<K>(node: &Node<K>, below: &[u8], held: &[Option<u8>]) -> u8
    ensures { result ≡ min 255 (node_weight held.now below.now node.now) }
{
    let lower = |i: u8| below.get(usize::from(i)).copied().unwrap_or(0);
    match node.op() {
        Some(Op::And) => lower(node.left)
            .saturating_add(lower(node.right))
            .saturating_add(1),
        Some(Op::All) => lower(node.left).saturating_add(1),
        Some(Op::AtLeast | Op::AtMost) => 2,
        Some(Op::Entry) => rows_held(held, node.which).unwrap_or(0),
        _ => 1,
    }
}

// The weight of the last node. It stops at 255: shared nodes make weights exponential.
fn weigh<K>(nodes: &[Node<K>], held: &[Option<u8>]) -> u8
    requires some { 0 < length nodes.now }
    requires few { length nodes.now ≤ 128 }
    ensures { result ≡ min 255 (weight held.now nodes.now) }
{
    // An array, since nothing is allocated.
    let mut weights = [0u8; MOST_NODES];
    // By index: a weight is made of lower ones in the same array.
    for (i, node) in nodes.iter().enumerate() {
        weights[i] = weight_of(node, &weights, held);
    }
    weights[nodes.len() - 1]
}

// Checks a table of nodes against what is held: for each place `None`, or the number of rows of the entry there.
pub fn check<'n, 'h, K>(
    nodes: &'n [Node<K>],
    held: &'h [Option<u8>],
) -> Result<Description<'n, 'h, K>, Refusal>
    ensures answer { result_err result ≡ refusal held.now nodes.now }
    ensures nodes { IfOk result (λ d. d.nodes.now ≡ nodes.now) }
    ensures held { IfOk result (λ d. d.held.now ≡ held.now) }
{
    if nodes.is_empty() || nodes.len() > MOST_NODES {
        return Err(Refusal::Length);
    }
    // There are at most 128 nodes, so the cast cuts nothing off.
    for (i, node) in nodes.iter().enumerate() {
        check_node(i as u8, node, held)?;
    }
    if weigh(nodes, held) > MOST_WEIGHT {
        return Err(Refusal::Weight);
    }
    Ok(Description { nodes, held })
}
