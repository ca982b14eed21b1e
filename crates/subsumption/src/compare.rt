// Comparing two forms.
ghost use Rattle.subsumption.specs.Answers.{Subsumes, Compared};

use crate::countermodel::Plan;
use crate::decide::decide;
use crate::gap::Match;
use crate::plan::mark_way;
use concepts::refusal::Refusal;
use kinds::kind::Kind;
use rows::census::MOST_GROUPS;
use rows::form::Form;
use rows::group::Group;
use rows::row::MOST_ROWS;

// Whether every element that meets `p` meets `q`.
pub fn subsumed<K: Kind>(p: &Form<'_, K>, q: &Form<'_, K>) -> bool
    ensures answer { Subsumes K.Kind.domain p.now.rows.now q.now.rows.now result }
{
    // An array, since nothing is allocated: one match for each row of `q`.
    let mut matches = [Match::Absent; MOST_ROWS];
    decide(p, q, &mut matches).is_ok()
}

// A countermodel where not every element that meets `p` meets `q`, written from group 0 on, and of how many groups it is;
// none where every one does.
pub fn compare<K: Kind>(
    p: &Form<'_, K>,
    q: &Form<'_, K>,
    groups: &mut [Group<K::Reading>],
) -> Result<Option<usize>, Refusal>
    ensures answer { Compared K.Kind.domain p.now.rows.now q.now.rows.now groups.old groups.new result }
{
    if groups.len() < MOST_GROUPS {
        return Err(Refusal::Groups);
    }
    let mut matches = [Match::Absent; MOST_ROWS];
    let Err(short) = decide(p, q, &mut matches) else {
        return Ok(None);
    };
    let force = mark_way(q, &matches, p.rows().len(), short.row, short.need.amount());
    let plan = Plan {
        first: p,
        second: q,
        matches: &matches,
        force: &force,
        short,
    };
    Ok(Some(plan.write(groups)))
}
