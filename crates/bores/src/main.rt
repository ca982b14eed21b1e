// Says which bores take which shafts of a stock list, and for each that does not, a reading that shows why.
#![tactic(auto)]

use kinds::choice::{Choice, Code};
use kinds::kind::Kind;
use kinds::pair::{Both, Pair};
use kinds::span::Span;
use masks::has;
use matching::entry::{Entry, Side, read_entry};
use matching::verdict::{judge, meet_all};
use std::io;

// What of a reading a bore refuses.
fn refused(bore: &Pair<Span, Choice>, v: Both<i32, Code>) -> &'static str {
    match (bore.first.admits(v.first), bore.second.admits(v.second)) {
        (false, false) => "both",
        (false, true) => "the diameter",
        _ => "the code",
    }
}

fn print_verdict(rt: &HostRuntime, shaft: &Entry, bore: &Entry) -> io::Result<()> {
    match judge(&shaft.fit, &bore.fit) {
        Ok(()) => println!(rt; "  {} suits", bore.name),
        Err(reading) => println!(rt;
            "  {} does not: diameter {} with code {}, it refuses {}",
            bore.name,
            reading.first,
            reading.second.0,
            refused(&bore.fit, reading)
        ),
    }
}

fn print_bore(rt: &HostRuntime, bore: &Entry) -> io::Result<()> {
    if bore.fit.is_empty() {
        println!(rt; "bore {}: no bore has this description", bore.name)?;
    }
    Ok(())
}

fn print_shaft(rt: &HostRuntime, shaft: &Entry, bores: &[Entry]) -> io::Result<()> {
    if shaft.fit.is_empty() {
        return println!(rt; "shaft {}: no shaft has this description", shaft.name);
    }
    println!(rt; "shaft {}:", shaft.name)?;
    for bore in bores {
        print_verdict(rt, shaft, bore)?;
    }
    Ok(())
}

fn print_common(rt: &HostRuntime, bores: &[Pair<Span, Choice>]) -> io::Result<()> {
    let all = meet_all(bores);
    if all.is_empty() {
        return println!(rt; "no shaft suits every bore");
    }
    let Span { low, high } = all.first;
    print!(rt; "every bore takes diameters {low} to {high} with codes")?;
    for code in (0..64).filter(|code| has(all.second.bits, *code)) {
        print!(rt; " {code}")?;
    }
    println!(rt; "")
}

// A stock list as read, each side in the order of its lines.
#[derive(Drop)]
struct Stock<'a> {
    shafts: Vec<Entry<'a>>,
    bores: Vec<Entry<'a>>,
}

// Takes up each line that can be read, and reports each other one.
fn read_stock<'a>(rt: &HostRuntime, text: &'a str) -> anyhow::Result<Stock<'a>> {
    let mut shafts = Vec::new(rt.alloc());
    let mut bores = Vec::new(rt.alloc());
    for (number, line) in (1u64..).zip(text.lines()) {
        match read_entry(rt.alloc(), line)? {
            Ok(entry) => match entry.side {
                Side::Shaft => shafts.push(entry)?,
                Side::Bore => bores.push(entry)?,
            },
            Err(fault) => println!(rt; "line {number}: {fault}")?,
        }
    }
    Ok(Stock { shafts, bores })
}

fn run(rt: &HostRuntime) -> anyhow::Result<()> {
    let text = io::read_to_string(rt.alloc(), rt.stdin())?;
    let stock = read_stock(rt, text.as_str())?;
    for bore in &stock.bores {
        print_bore(rt, bore)?;
    }
    for shaft in &stock.shafts {
        print_shaft(rt, shaft, &stock.bores)?;
    }
    let fits: Vec<_> = stock.bores.iter().map(|bore| bore.fit).collect(rt.alloc())?;
    print_common(rt, &fits)?;
    Ok(())
}

fn main(rt: HostRuntime) -> anyhow::Result<()> {
    run(&rt)
}
