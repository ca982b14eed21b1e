// Taking away the rows below an upper number 0, in place.
ghost use Rattle.std.specs.Prelude.{◌≡◌, ◌<◌, ◌≤◌, length, slice_index_or};
ghost use Rattle.forms.specs.Stripping.{is_zero as is_zero_upper, Hung, Strips};

use kinds::kind::Kind;
use rows::row::{MOST_ROWS, Row};

// Whether nothing is allowed. Not by `Bounds`, since here the lower number may be above the upper one.
fn is_zero(upper: Option<u16>) -> bool
    ensures { result ≡ is_zero_upper upper }
{
    upper == Some(0)
}

// The row with another parent, emptied where its upper number is 0.
fn hung<K: Kind>(row: Row<K>, parent: u8) -> Row<K>
    ensures { Hung K.Kind.domain row parent result }
{
    if is_zero(row.upper) {
        Row {
            parent,
            atoms: 0,
            restriction: K::whole(),
            ..row
        }
    } else {
        Row { parent, ..row }
    }
}

// Keeps the rows that are not below a row with the upper number 0, in their order, and empties the rows with that
// number. Answers how many are left.
pub(crate) fn strip<K: Kind>(rows: &mut [Row<K>]) -> usize
    requires some { 0 < length rows.old }
    requires few { length rows.old ≤ 128 }
    ensures left { 0 < result }
    ensures fewer { result ≤ length rows.old }
    ensures first { (e : Row K) → slice_index_or rows.new 0 e ≡ slice_index_or rows.old 0 e }
    ensures finished { Strips K.Kind.domain rows.old (length rows.old) rows.new result }
{
    // For each row so far, the number that the rows hanging from it get as parent; None where none of them stays.
    // An array, since nothing is allocated.
    let mut under = [None; MOST_ROWS];
    under[0] = Some(0);
    let mut m = 1;
    // By index: a row that stays is written where an earlier one stood. Rows are 128 at most, so the cast cuts nothing off.
    for c in 1..rows.len() {
        let row = rows[c];
        let Some(parent) = under.get(usize::from(row.parent)).copied().flatten() else {
            continue;
        };
        rows[m] = hung(row, parent);
        if !is_zero(row.upper) {
            under[c] = Some(m as u8);
        }
        m += 1;
    }
    m
}
