// Settling the numbers of a table: where nothing is allowed, the upper number becomes 0.
ghost use Rattle.std.specs.Prelude.{◌≡◌, ◌<◌, ◌≤◌, length, Decides};
ghost use Rattle.rows.specs.Numbers.{Over};
ghost use Rattle.forms.specs.Settling.{Bare, Closes, Settles};

use kinds::kind::Kind;
use rows::bounds::Bounds;
use rows::row::{MOST_ROWS, Row};

// Whether the lower number is above the upper one.
fn over<K>(row: &Row<K>) -> bool
    ensures { Decides result (Over row.now.lower row.now.upper) }
{
    Bounds::of(row).is_none()
}

// Whether nothing can stand at a row: it is dead, or admits no reading.
fn bare<K: Kind>(row: &Row<K>, dead: bool) -> bool
    ensures { Decides result (Bare K.Kind.domain row.now dead) }
{
    dead || row.restriction.is_empty()
}

// The row, with the upper number 0 if nothing can stand there.
fn closed<K: Kind>(row: Row<K>, dead: bool) -> Row<K>
    ensures { Closes K.Kind.domain row dead result }
{
    if bare(&row, dead) {
        Row {
            upper: Some(0),
            ..row
        }
    } else {
        row
    }
}

// Settles the rows, each before the row that it hangs from, and says whether nothing can stand at row 0.
// At the start `dead` has the rows where NOTHING is written, which a row itself does not hold.
pub(crate) fn settle<K: Kind>(rows: &mut [Row<K>], dead: &mut [bool; MOST_ROWS]) -> bool
    requires some { 0 < length rows.old }
    requires few { length rows.old ≤ 128 }
    ensures { Settles K.Kind.domain rows.old (length rows.old) dead.old result rows.new }
{
    // By index: the loop also writes the flag of another row.
    for c in (1..rows.len()).rev() {
        let row = closed(rows[c], dead[c]);
        rows[c] = row;
        let parent = usize::from(row.parent);
        // By a test, since a proof is not told what `get_mut` of a slice writes; that was tried.
        if parent < dead.len() && over(&row) {
            dead[parent] = true;
        }
    }
    bare(&rows[0], dead[0])
}
