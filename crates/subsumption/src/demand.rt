// What is asked at a row of a form, or given there.
ghost use Rattle.std.specs.Prelude.{◌<◌, length};
ghost use Rattle.rows.specs.Tables.{rows_of};
ghost use Rattle.subsumption.specs.Demands.{Asks, Gives};
ghost use Rattle.subsumption.specs.Given.{Given, silent as silence};
ghost use Rattle.subsumption.specs.Outcome.{Compares};

use crate::gap::{Gap, Match, Need};
use kinds::kind::Kind;
use masks::is_subset;
use rows::bounds::Bounds;
use rows::form::Form;
use rows::row::Row;

// How many elements there may be, and what each is like.
#[derive(Clone, Copy)]
pub(crate) struct Demand<K> {
    pub bounds: Bounds,
    pub atoms: u64,
    pub restriction: K,
}

impl<K: Kind> Demand<K> {
    // What row `c` says. A row goes by its form and its number; a type for the two would hold no more.
    pub(crate) fn of(form: &Form<'_, K>, c: usize) -> Demand<K>
        requires { c < length form.now.rows.now }
        ensures { (e : Row K) → Asks result (rows_of e form.now.rows.now c) }
    {
        let row = &form.rows()[c];
        Demand {
            bounds: form.bounds(c),
            atoms: row.atoms,
            restriction: row.restriction,
        }
    }

    // What silence says: any number of elements, and any at all.
    pub(crate) fn silent() -> Demand<K>
        ensures { Gives K.Kind.domain result (silence K.Kind.domain) }
    {
        Demand {
            bounds: Bounds::silent(),
            atoms: 0,
            restriction: K::whole(),
        }
    }

    // Whether `asked` asks for more than this gives, where `here` is its match.
    pub(crate) fn against(&self, asked: &Demand<K>, here: Match) -> Result<Match, Gap>
        ensures { (g : Given K.Reading) (q : Row K) → Gives K.Kind.domain self.now g → Asks asked.now q → Compares K.Kind.domain g q here result }
    {
        if let Some(count) = self.bounds.beyond(&asked.bounds) {
            return Err(Gap {
                here,
                need: Need::Count(count),
            });
        }
        if self.bounds.is_closed() {
            return Ok(Match::Passed);
        }
        if !is_subset(asked.atoms, self.atoms) {
            return Err(Gap {
                here,
                need: Need::Atoms,
            });
        }
        if !self.restriction.within(&asked.restriction) {
            return Err(Gap {
                here,
                need: Need::Reading,
            });
        }
        Ok(here)
    }
}
