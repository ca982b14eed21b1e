// Which paths of two forms a countermodel has elements at: those that the first form asks for, and the way to the row
// of the second that asks for more. The rows of the first form come first, and then the rows of the second that it lacks.
ghost use Rattle.std.specs.Prelude.{◌≡◌, ℕ, ◌<◌, ◌≤◌, length};
ghost use Rattle.rows.specs.Shapes.{Shape};
ghost use Rattle.rows.specs.Tables.{rows_of};
ghost use Rattle.subsumption.specs.Matches.{Stops};
ghost use Rattle.subsumption.specs.Outcome.{matches_of};
ghost use Rattle.subsumption.specs.Slots.{slot_of, Forced, force_of};

use crate::gap::{Match, Need};
use kinds::kind::Kind;
use rows::form::Form;
use rows::row::{MOST_ROWS, Row};

// Each row of either form has a slot at most.
pub(crate) const MOST_SLOTS: usize = 2 * MOST_ROWS;

// The slot of row `i` of the second form, by its match, where the first has `n` rows.
pub(crate) fn slot(n: usize, i: usize, here: Match) -> usize
    requires { (n ≤ MOST_ROWS) × (i < MOST_ROWS) }
    ensures value { result ≡ slot_of n i here }
    ensures small { result < MOST_SLOTS }
{
    match here {
        Match::At(b) => usize::from(b),
        _ => n + i,
    }
}

// How many elements each slot on the way to row `c` is to have: `count` at its end, and one before it.
pub(crate) fn mark_way<K: Kind>(
    q: &Form<'_, K>,
    matches: &[Match; MOST_ROWS],
    n: usize,
    c: usize,
    count: u16,
) -> [u16; MOST_SLOTS]
    requires few { n ≤ MOST_ROWS }
    requires row { c < length q.now.rows.now }
    ensures { (e : Row K) (P : ℕ → Row K) (need : Need) → Shape P n → Stops K.Kind.domain P n (rows_of e q.now.rows.now) (matches_of matches.now) c (matches_of matches.now c) need → Forced P n (rows_of e q.now.rows.now) (matches_of matches.now) c count (force_of result) }
{
    let rows = q.rows();
    // An array, since nothing is allocated.
    let mut force = [0u16; MOST_SLOTS];
    let mut most = count;
    let mut i = c;
    // Up the parents, which are no range.
    while i > 0 {
        force[slot(n, i, matches[i])] = most;
        most = 1;
        i = usize::from(rows[i].parent);
    }
    force
}
