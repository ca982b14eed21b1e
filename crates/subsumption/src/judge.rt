// Whether a model meets a form, told from its groups and not from its elements.
ghost use Rattle.std.specs.Prelude.{◌≡◌, ◌<◌, ◌≤◌, length, IfSome, Decides};
ghost use Rattle.rows.specs.Groups.{groups_of};
ghost use Rattle.rows.specs.Suiting.{Suits};
ghost use Rattle.rows.specs.Tables.{rows_of};
ghost use Rattle.subsumption.specs.Judging.{Filled, Judges};

use kinds::kind::Kind;
use masks::is_subset;
use rows::bounds::Bounds;
use rows::census::Census;
use rows::form::Form;
use rows::group::Group;
use rows::hung::child;
use rows::row::{MOST_ROWS, Row};

// Whether each element of a group has a row's atoms, and a reading that the row admits.
fn suits<K: Kind>(row: &Row<K>, group: &Group<K::Reading>) -> bool
    ensures { Decides result (Suits K.Kind.domain row.now group.now) }
{
    is_subset(row.atoms, group.atoms) && row.restriction.admits(group.reading)
}

// Whether a row, whose numbers are given, allows the elements of a group as fillers; none where there is no group.
fn filled<K: Kind>(
    row: &Row<K>,
    bounds: &Bounds,
    groups: &[Group<K::Reading>],
    kin: Option<usize>,
) -> bool
    requires { IfSome kin (λ g. g < length groups.now) }
    ensures { (d : Group K.Reading) → Decides result (Filled K.Kind.domain row.now bounds.now.lower bounds.now.upper (groups_of d groups.now) kin) }
{
    match kin {
        Some(g) => bounds.allows(groups[g].headcount) && suits(row, &groups[g]),
        None => bounds.allows(0),
    }
}

// Whether the first element of the model that a census stands for meets a form.
pub fn meets<K: Kind>(census: &Census<'_, K>, form: &Form<'_, K>) -> bool
    ensures { Judges K.Kind.domain census.now.groups.now form.now.rows.now result }
{
    let groups = census.groups();
    let rows = form.rows();
    if !suits(&rows[0], &groups[0]) {
        return false;
    }
    // For each row, the group that its path leads to, if there is one. An array, since nothing is allocated.
    let mut reached = [None; MOST_ROWS];
    reached[0] = Some(0);
    // By index: what is reached is looked up where the row hangs.
    for c in 1..rows.len() {
        let row = &rows[c];
        if let Some(h) = reached[usize::from(row.parent)] {
            let kin = child(groups, h, row.role);
            if !filled(row, &form.bounds(c), groups, kin) {
                return false;
            }
            reached[c] = kin;
        }
    }
    true
}
