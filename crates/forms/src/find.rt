// Finding a row of a form by its path.
ghost use Rattle.std.specs.Prelude.{◌≡◌, ℕ, ◌<◌, ◌&&◌, length, is_some, nat_lt};
ghost use Rattle.masks.specs.Masks.{has};
ghost use Rattle.rows.specs.Tables.{rows_of};
ghost use Rattle.forms.specs.Sheets.{child as child_of, find as find_row};

use masks::{joined, single};
use rows::hung::child;
use rows::row::Row;

// The row at a path.
pub(crate) fn find<K>(rows: &[Row<K>], path: &[u8]) -> Option<usize>
    ensures { (e : Row K) → result ≡ find_row (rows_of e rows.now) (length rows.now) path.now 0 }
{
    let mut c = 0;
    for role in path {
        c = child(rows, c, *role)?;
    }
    Some(c)
}

// The roles by which rows hang from row `c`.
pub(crate) fn roles_below<K>(rows: &[Row<K>], c: usize) -> u64
    requires { c < length rows.now }
    ensures { (e : Row K) (s : ℕ) → has result s ≡ (nat_lt s 64 && is_some (child_of (rows_of e rows.now) (length rows.now) c s)) }
{
    let mut roles = 0;
    // A cast, as those of look.rt: with `usize::from` the proof was tried and did not close.
    for row in &rows[c + 1..] {
        if row.parent as usize == c {
            roles = joined(roles, single(row.role));
        }
    }
    roles
}
