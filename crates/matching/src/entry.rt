// Reading a stock list: one line for each shaft and each bore.
ghost use Rattle.std.specs.Prelude.{◌≡◌, ℕ, ◌<◌, ℤ, List, Err as Unread, IfOk, IfErr};
ghost use Rattle.matching.specs.Entries.{Read, Said};
ghost use Rattle.matching.specs.Texts.{Whole, Apart};
ghost use Rattle.matching.specs.Words.{Found, word_of, IsNumber, IsCode, Collected, Codes};

use kinds::choice::Choice;
use kinds::kind::Kind;
use kinds::pair::Pair;
use kinds::span::Span;
use masks::{joined, single};
use std::alloc::{AllocError, Global};
use std::error::Error;
use std::fmt;
use std::str::FromStr;

// Which list an entry belongs to.
#[derive(Clone, Copy, Debug, PartialEq, Eq)]
pub enum Side {
    Shaft,
    Bore,
}

impl FromStr for Side {
    type Err = Fault;

    ghost use Rattle.matching.specs.Words.{NamesSide};

    ghost from_str_gives = { NamesSide };

    fn from_str(text: &str) -> Result<Side, Fault> {
        match text {
            "shaft" => Ok(Side::Shaft),
            "bore" => Ok(Side::Bore),
            _ => Err(Fault::NoSide),
        }
    }
}

// A shaft or a bore: its name, and the diameters and seal codes that its description admits.
#[derive(Clone, Copy)]
pub struct Entry<'a> {
    pub side: Side,
    pub name: &'a str,
    pub fit: Pair<Span, Choice>,
}

// Why a line can't be read: the first of these that holds.
#[derive(Clone, Copy, Debug, PartialEq, Eq)]
pub enum Fault {
    NotFiveWords,
    NoSide,
    NoLow,
    NoHigh,
    NoCodes,
}

impl fmt::Display for Fault {
    ghost use Rattle.std.specs.Prelude.{Some};
    ghost use Rattle.matching.specs.Faults.{text_of};

    ghost output = { λ fault. Some (text_of fault) };

    fn fmt<W: fmt::Write>(&self, f: &mut fmt::Formatter<W>) -> fmt::Result {
        f.write_str(match self {
            Fault::NotFiveWords => "not five words",
            Fault::NoSide => "neither shaft nor bore",
            Fault::NoLow => "the low diameter is no number",
            Fault::NoHigh => "the high diameter is no number",
            Fault::NoCodes => "the codes are no list of 0 to 63",
        })
    }
}

impl Error for Fault {}

// The pieces of a text between the characters `at`.
fn pieces<'a>(heap: Global, text: &'a str, at: char) -> Result<Vec<&'a str>, AllocError>
    requires { at < 128 }
    ensures whole { IfOk result (λ v. Whole at text.now v.items) }
    ensures apart { IfOk result (λ v. Apart at v.items) }
{
    text.split(at).collect(heap)
}

fn read_number(text: &str) -> Option<i32>
    ensures { Found (IsNumber text.now) result }
{
    text.parse().ok()
}

fn read_code(text: &str) -> Option<u8>
    ensures { Found (IsCode text.now) result }
{
    text.parse().ok().filter(|code| *code < 64)
}

fn read_list(list: &[&str]) -> Option<Choice>
    ensures { Collected list.now result }
{
    let mut bits = 0;
    for text in list {
        bits = joined(bits, single(read_code(text)?));
    }
    Some(Choice { bits })
}

// What a word of codes says. Only a list is split, which needs memory.
fn read_codes(heap: Global, text: &str) -> Result<Option<Choice>, AllocError>
    ensures { IfOk result (Codes text.now) }
{
    match text {
        "any" => Ok(Some(Choice::whole())),
        "none" => Ok(Some(Choice { bits: 0 })),
        _ => Ok(read_list(&pieces(heap, text, ',')?)),
    }
}

// The side and the diameters of a line.
fn read_front(side: &str, low: &str, high: &str) -> Result<(Side, Span), Fault>
    ensures read { IfOk result (λ x. (side.now ≡ word_of x.0) × IsNumber low.now x.1.low × IsNumber high.now x.1.high) }
    ensures refused { (name codes : List ℕ) → IfErr result (λ f. Read side.now name low.now high.now codes (Unread f)) }
{
    let side = side.parse()?;
    let low = read_number(low).ok_or(Fault::NoLow)?;
    let high = read_number(high).ok_or(Fault::NoHigh)?;
    Ok((side, Span { low, high }))
}

// The codes come last: a line that is at fault before them needs no memory for them.
fn read_words<'a>(
    heap: Global,
    side: &str,
    name: &'a str,
    low: &str,
    high: &str,
    codes: &str,
) -> Result<Result<Entry<'a>, Fault>, AllocError>
    ensures { IfOk result (Read side.now name.now low.now high.now codes.now) }
{
    let (side, first) = match read_front(side, low, high) {
        Ok(front) => front,
        Err(fault) => return Ok(Err(fault)),
    };
    let Some(second) = read_codes(heap, codes)? else {
        return Ok(Err(Fault::NoCodes));
    };
    let fit = Pair { first, second };
    Ok(Ok(Entry { side, name, fit }))
}

// What a line says, or why it can't be read: `shaft` or `bore`, a name, the least and the greatest
// diameter, and `any`, `none` or seal codes with commas between them; one blank between each two.
// Want of memory is an error of its own, since it says nothing of the line.
pub fn read_entry<'a>(heap: Global, line: &'a str) -> Result<Result<Entry<'a>, Fault>, AllocError>
    ensures answer { IfOk result (Said line.now) }
{
    let words = pieces(heap, line, ' ')?;
    match words.as_slice() {
        [side, name, low, high, codes] => read_words(heap, side, name, low, high, codes),
        _ => Ok(Err(Fault::NotFiveWords)),
    }
}
