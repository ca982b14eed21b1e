// The forms that a description names: blocks of rows, one for each place.
ghost use Rattle.std.specs.Prelude.{◌≡◌};
ghost use Rattle.forms.specs.Blocks.{part_of, block_of};

use rows::row::{MOST_ROWS, Row};

// The blocks of the places before the one that is written, and of those after it.
#[derive(Clone, Copy)]
pub struct Sheets<'a, K> {
    pub front: &'a [Row<K>],
    pub back: &'a [Row<K>],
}

// The block of a place among the blocks of some rows; none where it has no block.
fn part<'a, K>(rows: &'a [Row<K>], place: usize) -> &'a [Row<K>]
    ensures { result.now ≡ part_of rows.now place }
{
    // Not by `chunks_exact` and `nth`, which goes through the blocks before.
    if place < rows.len() / MOST_ROWS {
        let from = place * MOST_ROWS;
        &rows[from..from + MOST_ROWS]
    } else {
        &[]
    }
}

impl<'a, K> Sheets<'a, K> {
    // The rows of a place; none where it has no block.
    pub fn of(&self, place: usize) -> &'a [Row<K>]
        ensures value { result.now ≡ block_of self.now.front.now self.now.back.now place }
    {
        let before = self.front.len() / MOST_ROWS;
        // Not by `cmp` and a `match`, which were tried: a build where thousands of places are held took half as long again.
        if place < before {
            part(self.front, place)
        } else if place == before {
            &[]
        } else {
            part(self.back, place - before - 1)
        }
    }
}
