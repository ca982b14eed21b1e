// Groups of like elements, of which a model is made.
use crate::hung::Hung;

// Elements with the same atoms, the same reading and the same fillers.
#[derive(Clone, Copy)]
pub struct Group<V> {
    // The group whose elements have these as fillers, by its number, since a table is one block of memory; and of which
    // role. 0 and 0 for group 0.
    pub parent: u8,
    pub role: u8,
    // How many elements.
    pub headcount: u16,
    pub atoms: u64,
    pub reading: V,
}

impl<V> Hung for Group<V> {
    ghost hook = { λ x. (x.parent, x.role) };

    fn hook(&self) -> (usize, u8) {
        (usize::from(self.parent), self.role)
    }
}
