// Reads descriptions as text and prints the form of each; later ones may name the first that have a form.
#![tactic(auto)]

use anyhow::{bail, ensure};
use concepts::description::checks::check;
use concepts::node::Node;
use concepts::refusal::Refusal;
use forms::build::{Unbuilt, build};
use forms::sheets::Sheets;
use kinds::kind::Kind;
use kinds::span::Span;
use rows::row::{MOST_ROWS, Row};
use std::io;

// So many forms are kept.
const PLACES: usize = 8;

// Stands where no row has been written.
const BLANK: Row<Span> = Row {
    parent: 0,
    role: 0,
    lower: 0,
    upper: None,
    atoms: 0,
    restriction: Span { low: 0, high: 0 },
};

// The forms that are kept, each in a block of 128 rows, and how many rows of its block each has.
#[derive(Drop)]
struct Kept {
    blocks: Vec<Row<Span>>,
    held: Vec<Option<u8>>,
}

impl Kept {
    fn sheets(&self) -> Sheets<'_, Span> {
        Sheets {
            front: &self.blocks,
            back: &[],
        }
    }

    // Keeps the form at the next place, if there is one.
    fn keep(&mut self, block: &[Row<Span>], rows: usize) -> anyhow::Result<()> {
        if self.held.len() < PLACES {
            self.blocks.extend_from_slice(block)?;
            self.held.push(Some(u8::try_from(rows)?))?;
        }
        Ok(())
    }
}

// Why a table of nodes has no form.
#[derive(Clone, Copy)]
enum Formless {
    Declined(Refusal),
    Unbuilt(Unbuilt),
}

// How many rows of `out` are the form.
fn form<K: Kind>(
    nodes: &[Node<K>],
    held: &[Option<u8>],
    sheets: Sheets<K>,
    out: &mut [Row<K>],
) -> Result<usize, Formless> {
    let description = check(nodes, held).map_err(Formless::Declined)?;
    build(&description, sheets, out).map_err(Formless::Unbuilt)
}

fn print_row(rt: &HostRuntime, row: &Row<Span>) -> io::Result<()> {
    print!(rt; "{} {} {}", row.parent, row.role, row.lower)?;
    match row.upper {
        Some(upper) => print!(rt; " {upper}")?,
        None => print!(rt; " -")?,
    }
    let Span { low, high } = row.restriction;
    println!(rt; " {:x} {low} {high}", row.atoms)
}

fn print_formless(rt: &HostRuntime, why: Formless) -> anyhow::Result<()> {
    match why {
        Formless::Declined(refusal) => {
            println!(rt; "refused {} {}", refusal.number(), refusal.detail())?;
        }
        Formless::Unbuilt(Unbuilt::Contradictory) => println!(rt; "contradictory")?,
        Formless::Unbuilt(Unbuilt::Unfit) => bail!("what is kept has no rows"),
    }
    Ok(())
}

// Prints the form of a description, or why it has none, and keeps the form.
fn answer(rt: &HostRuntime, nodes: &[Node<Span>], kept: &mut Kept) -> anyhow::Result<()> {
    let mut block = [BLANK; MOST_ROWS];
    match form(nodes, &kept.held, kept.sheets(), &mut block) {
        Ok(rows) => {
            for row in block.iter().take(rows) {
                print_row(rt, row)?;
            }
            kept.keep(&block, rows)?;
        }
        Err(why) => print_formless(rt, why)?,
    }
    println!(rt; "")?;
    Ok(())
}

// Reads what the fields of a node hold, one word for each.
fn read_node(rt: &HostRuntime, line: &str) -> anyhow::Result<Node<Span>> {
    let words: Vec<&str> = line.split(' ').collect(rt.alloc())?;
    let [op, which, count, left, right, low, high] = &words[..] else {
        bail!("a node has seven words");
    };
    Ok(Node {
        op: op.parse()?,
        which: which.parse()?,
        count: count.parse()?,
        left: left.parse()?,
        right: right.parse()?,
        restriction: Span {
            low: low.parse()?,
            high: high.parse()?,
        },
    })
}

fn run(rt: &HostRuntime) -> anyhow::Result<()> {
    let text = io::read_to_string(rt.alloc(), rt.stdin())?;
    let mut kept = Kept {
        blocks: Vec::new(rt.alloc()),
        held: Vec::new(rt.alloc()),
    };
    let mut nodes = Vec::new(rt.alloc());
    for line in text.as_str().lines() {
        if line.is_empty() {
            answer(rt, &nodes, &mut kept)?;
            nodes.clear();
        } else {
            nodes.push(read_node(rt, line)?)?;
        }
    }
    ensure!(nodes.is_empty(), "the last description does not end");
    Ok(())
}

fn main(rt: HostRuntime) -> anyhow::Result<()> {
    run(&rt)
}
