// Going through the rows of the second form, each with what the first form has at its path.
ghost use Rattle.std.specs.Prelude.{◌<◌, length, IfSome};
ghost use Rattle.rows.specs.Tables.{rows_of};
ghost use Rattle.subsumption.specs.Demands.{Asks};
ghost use Rattle.subsumption.specs.Given.{gives};
ghost use Rattle.subsumption.specs.Matches.{match_of};
ghost use Rattle.subsumption.specs.Outcome.{matches_of, Compares, Turns, Decided};

use crate::demand::Demand;
use crate::gap::{Gap, Match, Short};
use kinds::kind::Kind;
use rows::form::Form;
use rows::hung::child;
use rows::row::{MOST_ROWS, Row};

// Whether `asked` asks for more than `p` gives at one of its rows, or by having none.
fn against_row<K: Kind>(
    p: &Form<'_, K>,
    found: Option<usize>,
    asked: &Demand<K>,
) -> Result<Match, Gap>
    requires { IfSome found (λ b. b < length p.now.rows.now) }
    ensures { (e q : Row K) → Asks asked.now q → Compares K.Kind.domain (gives K.Kind.domain (rows_of e p.now.rows.now) found) q (match_of found) result }
{
    // A form has 128 rows at most, so the cast cuts nothing off.
    match found {
        None => Demand::silent().against(asked, Match::Absent),
        Some(b) => Demand::of(p, b).against(asked, Match::At(b as u8)),
    }
}

// The match of row `c` of `q` from that of its parent, or what it asks for that `p` does not give.
fn turn<K: Kind>(p: &Form<'_, K>, q: &Form<'_, K>, c: usize, up: Match) -> Result<Match, Gap>
    requires { c < length q.now.rows.now }
    ensures { (e : Row K) → Turns K.Kind.domain (rows_of e p.now.rows.now) (length p.now.rows.now) (rows_of e q.now.rows.now c) up result }
{
    let asked = Demand::of(q, c);
    match up {
        Match::Passed => Ok(Match::Passed),
        Match::Absent => against_row(p, None, &asked),
        Match::At(a) => {
            let found = child(p.rows(), usize::from(a), q.rows()[c].role);
            against_row(p, found, &asked)
        }
    }
}

// Whether a row of `q` asks for more than `p` gives, and what the first such row needs. `matches` gets the match of
// each row up to that one.
pub(crate) fn decide<K: Kind>(
    p: &Form<'_, K>,
    q: &Form<'_, K>,
    matches: &mut [Match; MOST_ROWS],
) -> Result<(), Short>
    ensures { (e : Row K) → Decided K.Kind.domain (rows_of e p.now.rows.now) (length p.now.rows.now) (rows_of e q.now.rows.now) (length q.now.rows.now) (matches_of matches.new) result }
{
    matches[0] = Match::At(0);
    // Not by `?`: a proof does not see which error it makes here.
    if let Err(gap) = against_row(p, Some(0), &Demand::of(q, 0)) {
        return Err(gap.short(0));
    }
    let rows = q.rows();
    // By index: each turn reads the match of an earlier row, and its own is written.
    for c in 1..rows.len() {
        let up = matches[usize::from(rows[c].parent)];
        match turn(p, q, c, up) {
            Ok(here) => matches[c] = here,
            Err(gap) => {
                matches[c] = gap.here;
                return Err(gap.short(c));
            }
        }
    }
    Ok(())
}
