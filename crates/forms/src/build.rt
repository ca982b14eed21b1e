// Building the finished form of a description: laying its rows, settling them, and stripping what nothing can reach.
ghost use Rattle.std.specs.Prelude.{◌≤◌, length};
ghost use Rattle.forms.specs.Built.{Forms, Answers};

use crate::settle::settle;
use crate::sheets::Sheets;
use crate::source::Source;
use crate::strip::strip;
use concepts::description::Description;
use kinds::kind::Kind;
use rows::row::{MOST_ROWS, Row};

// Why a description gets no form.
#[derive(Clone, Copy, Debug, PartialEq, Eq)]
pub enum Unbuilt {
    // Nothing can satisfy it.
    Contradictory,
    // There is no room for 128 rows, or a place that is held has no block with its rows.
    Unfit,
}

impl<K: Kind> Source<'_, K> {
    // Lays the rows, settles them and strips them: how many are left, or none where nothing can satisfy the description.
    fn form(&self, out: &mut [Row<K>]) -> Option<usize>
        requires { 128 ≤ length out.old }
        ensures { Forms K.Kind.domain self.now.held.now self.now.sheets.front.now self.now.sheets.back.now self.now.nodes.now out.new result }
    {
        // Beside the rows: those are lent by the caller, and a row has no such flag.
        let mut dead = [false; MOST_ROWS];
        let n = self.lay(out, &mut dead);
        let rows = &mut out[..n];
        if settle(rows, &mut dead) {
            None
        } else {
            Some(strip(rows))
        }
    }
}

// Writes the finished form of a description into `out`, and tells how many rows it has, where `sheets` has the forms
// of the entries that it names.
pub fn build<K: Kind>(
    description: &Description<'_, '_, K>,
    sheets: Sheets<K>,
    out: &mut [Row<K>],
) -> Result<usize, Unbuilt>
    ensures answer { Answers K.Kind.domain description.now.held.now sheets.entry.front.now sheets.entry.back.now description.now.nodes.now out.new result }
{
    if out.len() < MOST_ROWS {
        return Err(Unbuilt::Unfit);
    }
    let source = Source::of(description, sheets).ok_or(Unbuilt::Unfit)?;
    source.form(out).ok_or(Unbuilt::Contradictory)
}
