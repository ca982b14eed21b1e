// Rows of a normal form.
use crate::hung::Hung;

// A form has at most so many rows, and a place has room for as many.
pub const MOST_ROWS: usize = 128;

// What is asked of the elements at one role path, and how many there may be.
#[derive(Clone, Copy)]
pub struct Row<K> {
    // The row that it hangs from, by its number, since a table is one block of memory; and by which role.
    // 0 and 0 for row 0.
    pub parent: u8,
    pub role: u8,
    // How many fillers at least, and at most; no upper number is no bound.
    pub lower: u16,
    pub upper: Option<u16>,
    pub atoms: u64,
    pub restriction: K,
}

impl<K> Hung for Row<K> {
    ghost hook = { λ x. (x.parent, x.role) };

    fn hook(&self) -> (usize, u8) {
        (usize::from(self.parent), self.role)
    }
}
