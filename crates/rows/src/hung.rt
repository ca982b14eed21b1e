// What hangs from an earlier one of its table by a role.
ghost use Rattle.std.specs.Prelude.{◌≡◌, length, slice_index_or};
ghost use Rattle.rows.specs.Hanging.{Hook, hangs_by, child_in};

// A row or a group.
pub trait Hung {
    // What it hangs from, and by which role.
    ghost hook: { Self → Hook };

    // What it hangs from, and by which role.
    fn hook(&self) -> (usize, u8)
        ensures value { result ≡ hook self.now };

    // Whether it hangs from `from` by `role`.
    final fn hangs(&self, from: usize, role: u8) -> bool
        ensures value { result ≡ hangs_by (hook self.now) from role }
    {
        self.hook() == (from, role)
    }
}

// The first after `c` that hangs from it by a role.
pub fn child<T: Hung>(table: &[T], c: usize, role: u8) -> Option<usize>
    ensures value { (e : T) → result ≡ child_in (λ i. T.Hung.hook (slice_index_or table.now i e)) (length table.now) c role }
{
    (c.saturating_add(1)..table.len()).find(|&b| table[b].hangs(c, role))
}
