// What a form is built from.
ghost use Rattle.std.specs.Prelude.{◌≡◌, IfSome, Decides, is_some, length};
ghost use Rattle.concepts.specs.WellFormed.{WellFormed};
ghost use Rattle.forms.specs.Seen.{Supplied, Stocked};

use crate::sheets::Sheets;
use concepts::description::Description;
use concepts::node::Node;
use rows::row::Row;

// A description that passed its checks, with a block for each place that is held. How many rows of a block count is told
// beside the blocks, since a block is memory of fixed size.
#[derive(Drop)]
pub(crate) struct Source<'a, K> {
    pub nodes: &'a [Node<K>],
    pub held: &'a [Option<u8>],
    pub sheets: Sheets<'a, K>,
    ghost fine: { WellFormed held.now nodes.now },
    ghost stocked: { Stocked held.now sheets.front.now sheets.back.now },
}

// Whether a block has the rows that are said to be held there, if any are.
fn supplied<K>(rows: Option<u8>, block: &[Row<K>]) -> bool
    ensures { Decides result (Supplied rows (length block.now)) }
{
    rows.is_none_or(|n| n > 0 && usize::from(n) <= block.len())
}

// Whether each place that is held has a block with its rows.
fn stocked<K>(held: &[Option<u8>], sheets: &Sheets<K>) -> bool
    ensures { Decides result (Stocked held.now sheets.now.front.now sheets.now.back.now) }
{
    // A loop: with `all` the proof was tried and did not close, for want of what holds of the places passed.
    for (place, rows) in held.iter().enumerate() {
        if !supplied(*rows, sheets.of(place)) {
            return false;
        }
    }
    true
}

impl<'a, K> Source<'a, K> {
    // The description with the blocks, if each place that is held has one; that is the only reason for none.
    pub(crate) fn of(
        description: &Description<'a, 'a, K>,
        sheets: Sheets<'a, K>,
    ) -> Option<Source<'a, K>>
        ensures answer { Decides (is_some result) (Stocked description.now.held.now sheets.entry.front.now sheets.entry.back.now) }
        ensures nodes { IfSome result (λ s. s.nodes.now ≡ description.now.nodes.now) }
        ensures held { IfSome result (λ s. s.held.now ≡ description.now.held.now) }
        ensures sheets { IfSome result (λ s. (s.sheets.front.now ≡ sheets.entry.front.now) × (s.sheets.back.now ≡ sheets.entry.back.now)) }
    {
        let nodes = description.nodes();
        let held = description.held();
        if stocked(held, &sheets) {
            Some(Source {
                nodes,
                held,
                sheets,
            })
        } else {
            None
        }
    }
}
