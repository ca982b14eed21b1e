// Forms: rows that are well formed.
ghost use Rattle.std.specs.Prelude.{◌<◌, ◌≤◌, length};
ghost use Rattle.rows.specs.Shapes.{Fine};

use crate::row::Row;

pub mod checks;

// Rows of any origin that passed the check.
#[derive(Drop)]
pub struct Form<'a, K> {
    rows: &'a [Row<K>],
    ghost some: { 0 < length rows.now },
    ghost few: { length rows.now ≤ 128 },
    ghost fine: { Fine rows.now },
}
