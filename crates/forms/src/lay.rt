// Laying the rows of a description, one for each path that it writes, in the order of the paths.
ghost use Rattle.std.specs.Prelude.{◌≡◌, ◌<◌, ◌≤◌, length, drop, IfSome, slice_set};
ghost use Rattle.forms.specs.Sources.{written};
ghost use Rattle.forms.specs.Walks.{Lowest, Starts, Narrow, Turn, Ahead, Proper, LaidOut, flags_of};
ghost use Rattle.rows.specs.Tables.{rows_of};

use crate::find::find;
use crate::label::Label;
use crate::source::Source;
use arrayvec::ArrayVec;
use kinds::kind::Kind;
use masks::has;
use rows::row::{MOST_ROWS, Row};

// The lowest of a set of roles, from a bound on.
fn lowest(roles: u64, from: u8) -> Option<u8>
    ensures { Lowest roles from result }
{
    (from..64).find(|&role| has(roles, role))
}

// The lowest role that may follow the first `d` roles of a path in a later path.
fn bound(path: &[u8], d: usize) -> u8
    requires { d ≤ length path.now }
    ensures { Starts (drop d path.now) result }
{
    path.get(d).map_or(0, |role| role.saturating_add(1))
}

// Writes the row of a label, and whether NOTHING is written there: beside the rows, which are the caller's.
fn put<K: Kind>(
    rows: &mut [Row<K>],
    dead: &mut [bool],
    n: usize,
    label: Label<K>,
    parent: u8,
    role: u8,
)
    requires { (n < length rows.old) × (n < length dead.old) }
    ensures rows { rows.new ≡ slice_set rows.old n (record { parent = parent; role = role; lower = label.lower; upper = label.upper; atoms = label.atoms; restriction = label.restriction }) }
    ensures dead { dead.new ≡ slice_set dead.old n label.empty }
{
    rows[n] = Row {
        parent,
        role,
        lower: label.lower,
        upper: label.upper,
        atoms: label.atoms,
        restriction: label.restriction,
    };
    dead[n] = label.empty;
}

impl<K: Kind> Source<'_, K> {
    // The lowest role that is written after the first `d` roles of a path and comes after the one that stands there.
    fn turn(&self, path: &[u8], d: usize) -> Option<u8>
        requires { d ≤ length path.now }
        ensures { (e : Row K) → Narrow (written K.Kind.domain e self.now).on → Turn (written K.Kind.domain e self.now).on path.now d result }
    {
        lowest(self.at(&path[..d]).roles, bound(path, d))
    }

    // The next path that is written: how much of this one it keeps, and the role that it goes on with.
    fn next(&self, path: &[u8]) -> Option<(usize, u8)>
        requires { length path.now ≤ 128 }
        ensures inside { IfSome result (λ x. x.0 ≤ length path.now) }
        ensures ahead { (e : Row K) → Narrow (written K.Kind.domain e self.now).on → Ahead (written K.Kind.domain e self.now).on path.now result }
    {
        // A loop: with `find_map` the proof was tried and did not close, for want of what holds of the depths passed.
        for d in (0..path.len() + 1).rev() {
            if let Some(role) = self.turn(path, d) {
                return Some((d, role));
            }
        }
        None
    }

    // Lays a row for each path that is written, and tells how many.
    pub(crate) fn lay(&self, rows: &mut [Row<K>], dead: &mut [bool; MOST_ROWS]) -> usize
        requires { 128 ≤ length rows.old }
        ensures some { (0 < result) × (result ≤ 128) }
        ensures room { length rows.new ≡ length rows.old }
        ensures laid { (e : Row K) → Proper (written K.Kind.domain e self.now) → LaidOut K.Kind.domain (written K.Kind.domain e self.now) (rows_of e rows.new) (flags_of dead.new) result }
    {
        put(rows, dead, 0, self.at(&[]).label, 0, 0);
        let mut path = ArrayVec::<u8, MOST_ROWS>::new();
        // By index: a row is written after those among which its parent is looked up. They are fewer than 128, so the cast
        // cuts nothing off.
        for n in 1..MOST_ROWS {
            let Some((d, role)) = self.next(&path) else {
                return n;
            };
            path.truncate(d);
            let Some(parent) = find(&rows[..n], &path) else {
                return n;
            };
            path.push(role);
            put(rows, dead, n, self.at(&path).label, parent as u8, role);
        }
        MOST_ROWS
    }
}
