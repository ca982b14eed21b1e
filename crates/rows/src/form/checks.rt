// The check of rows of any origin.
ghost use Rattle.std.specs.Prelude.{◌≡◌, ◌<◌, ◌≤◌, length, is_some, IfSome, None as NoBound, Decides};
ghost use Rattle.std.specs.List.{list_all};
ghost use Rattle.rows.specs.Numbers.{limited};
ghost use Rattle.rows.specs.Shapes.{every, precedes, clear, top_fine, later_fine, row_fine, Fine, Shaped};
ghost use Rattle.rows.specs.Tables.{rows_of};

use super::Form;
use crate::bounds::Bounds;
use crate::row::{MOST_ROWS, Row};
use concepts::node::{LAST_ROLE, MOST_COUNT};

// Whether `x` belongs below the parent of `y`, and there at a lower role: the parents compare the other way round.
fn comes_first<K>(x: &Row<K>, y: &Row<K>) -> bool
    ensures { result ≡ precedes x.now y.now }
{
    x.parent > y.parent || (x.parent == y.parent && x.role < y.role)
}

// Whether each of `others` comes first.
fn all_come_first<K>(others: &[Row<K>], row: &Row<K>) -> bool
    ensures { result ≡ list_all (λ x. precedes x row.now) others.now }
{
    others.iter().all(|other| comes_first(other, row))
}

// Whether every row between row `c` and its parent belongs there. A row is named by its number in the table: whether it
// may stand hangs on the rows before it, so a type for a row in its place would hold the table as well.
fn follows<K>(rows: &[Row<K>], c: usize) -> bool
    requires inside { c < length rows.now }
    requires below { (e : Row K) → (rows_of e rows.now c).parent < c }
    ensures { (e : Row K) → result ≡ every (clear (rows_of e rows.now) c) c }
{
    let row = &rows[c];
    all_come_first(&rows[usize::from(row.parent) + 1..c], row)
}

// Whether neither number is above 999.
fn is_limited<K>(row: &Row<K>) -> bool
    ensures { result ≡ limited row.now.lower row.now.upper }
{
    row.lower <= MOST_COUNT && row.upper.is_none_or(|most| most <= MOST_COUNT)
}

// Whether the row hangs from nothing and has no numbers, as row 0 does.
fn is_topmost<K>(row: &Row<K>) -> bool
    ensures { result ≡ top_fine row.now }
{
    row.parent == 0 && row.role == 0 && row.lower == 0 && row.upper.is_none()
}

// Whether row `c`, which is not row 0, may stand where it does.
fn later_row<K>(rows: &[Row<K>], c: usize) -> bool
    requires { c < length rows.now }
    ensures { (e : Row K) → result ≡ later_fine (rows_of e rows.now) c }
{
    let row = &rows[c];
    usize::from(row.parent) < c
        && row.role <= LAST_ROLE
        && Bounds::of(row).is_some()
        && is_limited(row)
        && follows(rows, c)
}

// Whether row `c` may stand where it does.
fn may_stand<K>(rows: &[Row<K>], c: usize) -> bool
    requires { c < length rows.now }
    ensures { (e : Row K) → result ≡ row_fine (rows_of e rows.now) c }
{
    if c == 0 {
        is_topmost(&rows[c])
    } else {
        later_row(rows, c)
    }
}

// Whether every row may stand where it does.
fn all_stand<K>(rows: &[Row<K>]) -> bool
    ensures { Decides result (Fine rows.now) }
{
    (0..rows.len()).all(
        |c|
            requires { c < length rows.now }
            ensures { (e : Row K) → result ≡ row_fine (rows_of e rows.entry.now) c }
        { may_stand(rows, c) },
    )
}

impl<'a, K> Form<'a, K> {
    // The rows as a form, where they are well formed. No caller asks which row is not, so an error type would say no more.
    pub fn of(rows: &'a [Row<K>]) -> Option<Form<'a, K>>
        ensures answer { Decides (is_some result) (Shaped rows.now) }
        ensures rows { IfSome result (λ f. f.rows.now ≡ rows.now) }
    {
        if rows.is_empty() || rows.len() > MOST_ROWS || !all_stand(rows) {
            return None;
        }
        Some(Form { rows })
    }

    // The rows.
    pub fn rows(&self) -> &'a [Row<K>]
        ensures value { result.now ≡ self.now.rows.now }
        ensures shaped { Shaped result.now }
    {
        self.rows
    }

    // The numbers of a row, which are in order; those of silence where there is no such row.
    pub fn bounds(&self, c: usize) -> Bounds
        ensures lower { (e : Row K) → c < length self.now.rows.now → result.lower ≡ (rows_of e self.now.rows.now c).lower }
        ensures upper { (e : Row K) → c < length self.now.rows.now → result.upper ≡ (rows_of e self.now.rows.now c).upper }
        ensures past { length self.now.rows.now ≤ c → (result.lower ≡ 0) × (result.upper ≡ NoBound) }
    {
        match self.rows.get(c) {
            Some(row) => Bounds::of_ordered(row),
            None => Bounds::silent(),
        }
    }
}
