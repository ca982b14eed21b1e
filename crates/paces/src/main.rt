// Compares two forms of 128 rows, as often as a number on the input says: once where the first suits the second, and once
// where 128 groups show that it does not. Prints how many groups were
// written each time.
#![tactic(auto)]

use anyhow::bail;
use kinds::span::Span;
use rows::census::MOST_GROUPS;
use rows::form::Form;
use rows::group::Group;
use rows::row::{MOST_ROWS, Row};
use std::{array, io};
use subsumption::compare::compare;

const NOBODY: Group<i32> = Group {
    parent: 0,
    role: 0,
    headcount: 0,
    atoms: 0,
    reading: 0,
};

// Row `c` of a chain, each with a filler below it. The last row has the atoms.
fn link(c: usize, atoms: u64) -> Row<Span> {
    let parent = u8::try_from(c.saturating_sub(1)).unwrap_or(0);
    Row {
        parent,
        role: 0,
        lower: u16::from(c > 0),
        upper: None,
        atoms: if c == MOST_ROWS - 1 { atoms } else { 0 },
        restriction: Span { low: 1, high: 9 },
    }
}

// How many groups are written in so many comparisons.
fn written(n: u64, p: &Form<'_, Span>, q: &Form<'_, Span>) -> u64 {
    let mut groups = [NOBODY; MOST_GROUPS];
    let mut total = 0u64;
    for _ in 0..n {
        if let Ok(Some(g)) = compare(p, q, &mut groups) {
            total = total.wrapping_add(g as u64);
        }
    }
    total
}

fn run(rt: &HostRuntime) -> anyhow::Result<()> {
    let text = io::read_to_string(rt.alloc(), rt.stdin())?;
    let n: u64 = text.as_str().trim().parse()?;
    let first: [Row<Span>; MOST_ROWS] = array::from_fn(|c| link(c, 1));
    let second: [Row<Span>; MOST_ROWS] = array::from_fn(|c| link(c, 3));
    let (Some(p), Some(q)) = (Form::of(&first), Form::of(&second)) else {
        bail!("rows are not well formed");
    };
    println!(rt; "{} {}", written(n, &p, &p), written(n, &p, &q))?;
    Ok(())
}

fn main(rt: HostRuntime) -> anyhow::Result<()> {
    run(&rt)
}
