// Compares the forms of random descriptions, and prints for each pair whether the first suits the second.
#![tactic(auto)]

use anyhow::{bail, ensure};
use concepts::description::checks::check;
use concepts::node::Node;
use concepts::op::Op;
use forms::build::{Unbuilt, build};
use forms::sheets::Sheets;
use kinds::span::Span;
use rows::census::{Census, MOST_GROUPS};
use rows::form::Form;
use rows::group::Group;
use rows::row::{MOST_ROWS, Row};
use subsumption::compare::compare;
use subsumption::judge::meets;

const LINES: u8 = 100;

const PAIRS_IN_LINE: u8 = 100;

const BLANK: Row<Span> = Row {
    parent: 0,
    role: 0,
    lower: 0,
    upper: None,
    atoms: 0,
    restriction: Span { low: 0, high: 0 },
};

const NOBODY: Group<i32> = Group {
    parent: 0,
    role: 0,
    headcount: 0,
    atoms: 0,
    reading: 0,
};

// Numbers that look random.
#[derive(Drop)]
struct Chance {
    state: u32,
}

impl Chance {
    // A number below `n`.
    fn below(&mut self, n: u8) -> u8 {
        self.state = self
            .state
            .wrapping_mul(1_664_525)
            .wrapping_add(1_013_904_223);
        let [_, _, low, high] = self.state.to_le_bytes();
        let number = u16::from(low) + 256 * u16::from(high);
        u8::try_from(number % u16::from(n.max(1))).unwrap_or(0)
    }

    // An op for a node with a lower one, or without.
    fn op(&mut self, lower: bool) -> Op {
        match self.below(if lower { 16 } else { 9 }) {
            0 => Op::Thing,
            1 => Op::Nothing,
            2 => Op::Prim,
            3 | 4 => Op::Within,
            5 | 6 => Op::AtLeast,
            7 | 8 => Op::AtMost,
            9 | 10 => Op::All,
            _ => Op::And,
        }
    }

    // A node of the number `i`.
    fn node(&mut self, i: u8) -> Node<Span> {
        let op = u8::from(self.op(i > 0));
        let which = self.below(2);
        let count = u16::from(self.below(3));
        let left = self.below(i);
        let right = i.saturating_sub(1);
        let low = i32::from(self.below(4));
        let high = i32::from(self.below(4));
        Node {
            op,
            which,
            count,
            left,
            right,
            restriction: Span { low, high },
        }
    }
}

// Builds the form of a description in `rows`; none where it is contradictory.
fn built<'a>(
    nodes: &[Node<Span>],
    rows: &'a mut [Row<Span>; MOST_ROWS],
) -> anyhow::Result<Option<Form<'a, Span>>> {
    let none = Sheets {
        front: &[],
        back: &[],
    };
    let Ok(description) = check(nodes, &[]) else {
        bail!("a description is declined");
    };
    match build(&description, none, rows) {
        Ok(n) => Ok(rows.get(..n).and_then(Form::of)),
        Err(Unbuilt::Contradictory) => Ok(None),
        Err(Unbuilt::Unfit) => bail!("there is no room"),
    }
}

// Whether the first form suits the second, where each no has to be shown by a model.
fn suits(p: &Form<'_, Span>, q: &Form<'_, Span>) -> anyhow::Result<bool> {
    let mut groups = [NOBODY; MOST_GROUPS];
    let Ok(answer) = compare(p, q, &mut groups) else {
        bail!("there is no room for groups");
    };
    let Some(n) = answer else {
        return Ok(true);
    };
    let Some(Ok(model)) = groups.get(..n).map(Census::<Span>::of) else {
        bail!("groups are not well formed");
    };
    ensure!(
        meets(&model, p) && !meets(&model, q),
        "a countermodel is none"
    );
    Ok(false)
}

// The letter of a pair: y or n, or c where one of the two is contradictory.
fn letter(first: &[Node<Span>], second: &[Node<Span>]) -> anyhow::Result<char> {
    let mut first_rows = [BLANK; MOST_ROWS];
    let mut second_rows = [BLANK; MOST_ROWS];
    let first = built(first, &mut first_rows)?;
    let second = built(second, &mut second_rows)?;
    match (first, second) {
        (Some(p), Some(q)) => Ok(if suits(&p, &q)? { 'y' } else { 'n' }),
        _ => Ok('c'),
    }
}

fn run(rt: &HostRuntime) -> anyhow::Result<()> {
    let mut chance = Chance { state: 1 };
    let mut first = Vec::new(rt.alloc());
    let mut second = Vec::new(rt.alloc());
    for _ in 0..LINES {
        for _ in 0..PAIRS_IN_LINE {
            first.clear();
            second.clear();
            // The second description is the first with one node changed.
            let length = chance.below(7).saturating_add(1);
            let changed = chance.below(length);
            for i in 0..length {
                let node = chance.node(i);
                first.push(node)?;
                second.push(if i == changed { chance.node(i) } else { node })?;
            }
            print!(rt; "{}", letter(&first, &second)?)?;
        }
        println!(rt; "")?;
    }
    Ok(())
}

fn main(rt: HostRuntime) -> anyhow::Result<()> {
    run(&rt)
}
