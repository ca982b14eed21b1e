// Writing a countermodel: a table of groups whose first element meets the first form and not the second.
ghost use Rattle.std.specs.Prelude.{◌≡◌, ℕ, ◌+◌, ◌<◌, ◌≤◌, length};
ghost use Rattle.rows.specs.Groups.{groups_of};
ghost use Rattle.subsumption.specs.Written.{Picks, SlotIs, LikenessIs, GroupIs, Writes};

use crate::gap::{Match, Need, Short};
use crate::plan::{MOST_SLOTS, slot};
use kinds::kind::Kind;
use rows::census::MOST_GROUPS;
use rows::form::Form;
use rows::group::Group;
use rows::row::MOST_ROWS;

// Two forms with what comparing them came to, and how many elements the slots on the way are to have.
#[derive(Drop)]
pub struct Plan<'a, K> {
    pub first: &'a Form<'a, K>,
    pub second: &'a Form<'a, K>,
    pub matches: &'a [Match; MOST_ROWS],
    pub force: &'a [u16; MOST_SLOTS],
    pub short: Short,
    ghost row: { short.row < length second.now.rows.now },
}

// A slot: the one that it hangs from, by which role, and how many elements it has.
#[derive(Clone, Copy)]
pub struct Slot {
    pub parent: usize,
    pub role: u8,
    pub headcount: u16,
}

// What a slot's elements are like.
#[derive(Clone, Copy)]
pub struct Likeness<V> {
    pub atoms: u64,
    pub reading: V,
}

// A reading that `given` admits; at the end of a way that needs it, one that `asked` does not admit.
fn pick<K: Kind>(given: &K, asked: &K, need: Need, ending: bool) -> K::Reading
    ensures { Picks K.Kind.domain given.now asked.now need ending result }
{
    match need {
        Need::Reading if ending => given.beyond(asked),
        _ => given.some(),
    }
}

impl<'a, K: Kind> Plan<'a, K> {
    // Where a slot hangs, and how many elements it has.
    fn slot(&self, s: usize) -> Slot
        requires { s < length self.now.first.now.rows.now + length self.now.second.now.rows.now }
        ensures value { SlotIs K.Kind.domain self.now.first.now.rows.now self.now.second.now.rows.now self.now.matches.now self.now.force.now s result }
        ensures small { result.parent < MOST_SLOTS }
    {
        let first = self.first.rows();
        let n = first.len();
        if s < n {
            let row = &first[s];
            Slot {
                parent: usize::from(row.parent),
                role: row.role,
                headcount: row.lower.max(self.force[s]),
            }
        } else {
            let row = &self.second.rows()[s - n];
            let parent = usize::from(row.parent);
            Slot {
                parent: slot(n, parent, self.matches[parent]),
                role: row.role,
                headcount: self.force[s],
            }
        }
    }

    // What the elements of a slot are like.
    fn likeness(&self, s: usize) -> Likeness<K::Reading>
        ensures { LikenessIs K.Kind.domain self.now.first.now.rows.now self.now.second.now.rows.now self.now.matches.now self.now.short s result }
    {
        let first = self.first.rows();
        let second = self.second.rows();
        let n = first.len();
        let c = self.short.row;
        let asked = &second[c];
        let ending = s == slot(n, c, self.matches[c]);
        if s < n {
            let row = &first[s];
            Likeness {
                atoms: row.atoms,
                reading: pick(
                    &row.restriction,
                    &asked.restriction,
                    self.short.need,
                    ending,
                ),
            }
        } else {
            Likeness {
                atoms: 0,
                reading: pick(&K::whole(), &asked.restriction, self.short.need, ending),
            }
        }
    }

    // The group of a slot's elements.
    fn group(&self, s: usize, parent: usize, headcount: u16) -> Group<K::Reading>
        requires slot { s < length self.now.first.now.rows.now + length self.now.second.now.rows.now }
        requires parent { parent < MOST_GROUPS }
        ensures { GroupIs K.Kind.domain self.now.first.now.rows.now self.now.second.now.rows.now self.now.matches.now self.now.force.now self.now.short s parent headcount result }
    {
        let likeness = self.likeness(s);
        // A table has 256 groups at most, so the cast cuts nothing off.
        Group {
            parent: parent as u8,
            role: self.slot(s).role,
            headcount,
            atoms: likeness.atoms,
            reading: likeness.reading,
        }
    }

    // Writes a group for each slot that has elements, where the slot that it hangs from has a group, and tells how many.
    pub(crate) fn write(&self, groups: &mut [Group<K::Reading>]) -> usize
        requires room { 256 ≤ length groups.old }
        ensures few { result ≤ 256 }
        ensures room { length groups.new ≡ length groups.old }
        ensures past { (d : Group K.Reading) (x : ℕ) → result ≤ x → groups_of d groups.new x ≡ groups_of d groups.old x }
        ensures written { Writes K.Kind.domain self.now.first.now.rows.now self.now.second.now.rows.now self.now.matches.now self.now.force.now self.now.short result groups.new }
    {
        // For each slot, its group if it has one. An array, since nothing is allocated.
        let mut made = [None; MOST_SLOTS];
        made[0] = Some(0);
        groups[0] = self.group(0, 0, 1);
        let mut g = 1;
        // By index: the group of another slot is looked up.
        for s in 1..self.first.rows().len() + self.short.row + 1 {
            let slot = self.slot(s);
            if let Some(h) = made[slot.parent] {
                if slot.headcount > 0 {
                    groups[g] = self.group(s, h, slot.headcount);
                    made[s] = Some(g);
                    g += 1;
                }
            }
        }
        g
    }
}
