// What is written at one path, taken together.
ghost use Rattle.std.specs.Prelude.{◌≡◌, ◌<◌};
ghost use Rattle.forms.specs.Seen.{Holds};
ghost use Rattle.forms.specs.Labels.{Label as Written, silent as nothing_written, join, least as smaller, bottom, an_atom, a_range, a_lower, an_upper};
ghost use Rattle.forms.specs.Sheets.{row_label};

use kinds::kind::Kind;
use masks::{joined, single};
use rows::row::Row;

// NOTHING or not, the atoms, the restriction, the largest AT-LEAST and the smallest AT-MOST.
#[derive(Clone, Copy)]
pub struct Label<K> {
    // No Option round the rest: where NOTHING is written, a row is laid with the other values as well.
    pub empty: bool,
    pub atoms: u64,
    pub restriction: K,
    pub lower: u16,
    pub upper: Option<u16>,
}

// The smaller of two upper numbers.
fn least(a: Option<u16>, b: Option<u16>) -> Option<u16>
    ensures { result ≡ smaller a b }
{
    match (a, b) {
        (Some(u), Some(v)) => Some(u.min(v)),
        _ => a.or(b),
    }
}

// Nothing is written.
pub(crate) fn silent<K: Kind>() -> Label<K>
    ensures { Holds K.Kind.domain result nothing_written }
{
    Label {
        empty: false,
        atoms: 0,
        restriction: K::whole(),
        lower: 0,
        upper: None,
    }
}

// Both are written.
pub(crate) fn both<K: Kind>(a: Label<K>, b: Label<K>) -> Label<K>
    ensures { (l m : Written K.Reading) → Holds K.Kind.domain a l → Holds K.Kind.domain b m → Holds K.Kind.domain result (join l m) }
{
    Label {
        empty: a.empty || b.empty,
        atoms: joined(a.atoms, b.atoms),
        restriction: a.restriction.meet(b.restriction),
        lower: a.lower.max(b.lower),
        upper: least(a.upper, b.upper),
    }
}

// What a row holds.
impl<K: Kind> From<&Row<K>> for Label<K> {
    ghost from_gives = { λ row label. Holds K.Kind.domain label (row_label K.Kind.domain row.now) };

    fn from(row: &Row<K>) -> Label<K> {
        Label {
            empty: false,
            atoms: row.atoms,
            restriction: row.restriction,
            lower: row.lower,
            upper: row.upper,
        }
    }
}

// NOTHING.
pub(crate) fn nothing<K: Kind>() -> Label<K>
    ensures { Holds K.Kind.domain result bottom }
{
    Label {
        empty: true,
        ..silent()
    }
}

// An atom.
pub(crate) fn prim<K: Kind>(atom: u8) -> Label<K>
    requires { atom < 64 }
    ensures { Holds K.Kind.domain result (an_atom atom) }
{
    Label {
        atoms: single(atom),
        ..silent()
    }
}

// A restriction.
pub(crate) fn within<K: Kind>(restriction: K) -> Label<K>
    ensures { Holds K.Kind.domain result (a_range K.Kind.domain restriction) }
{
    Label {
        restriction,
        ..silent()
    }
}

// AT-LEAST.
pub(crate) fn at_least<K: Kind>(count: u16) -> Label<K>
    ensures { Holds K.Kind.domain result (a_lower count) }
{
    Label {
        lower: count,
        ..silent()
    }
}

// AT-MOST.
pub(crate) fn at_most<K: Kind>(count: u16) -> Label<K>
    ensures { Holds K.Kind.domain result (an_upper count) }
{
    Label {
        upper: Some(count),
        ..silent()
    }
}
