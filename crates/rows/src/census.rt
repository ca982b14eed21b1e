// The check of groups of any origin.
ghost use Rattle.std.specs.Prelude.{◌≡◌, ◌<◌, length, IfOk, IfErr, Decides};
ghost use Rattle.rows.specs.Censuses.{First, Later, Fits, Formed, AtFault};
ghost use Rattle.rows.specs.Groups.{groups_of};

use crate::group::Group;
use crate::hung::child;
use concepts::node::LAST_ROLE;
use concepts::refusal::Refusal;
use kinds::kind::Kind;

// A table has at most so many groups.
pub const MOST_GROUPS: usize = 256;

// A group other than group 0 has at most so many elements.
const MOST_HEADS: u16 = 1000;

// Groups of any origin that passed the check.
#[derive(Drop)]
pub struct Census<'a, K: Kind> {
    groups: &'a [Group<K::Reading>],
    ghost formed: { Formed K.Kind.domain groups.now },
}

// Whether the group is one element that hangs from nothing.
fn is_first<V>(group: &Group<V>) -> bool
    ensures { Decides result (First group.now) }
{
    group.parent == 0 && group.role == 0 && group.headcount == 1
}

// Whether group `g`, which is not group 0, may stand where it does.
fn is_later<V>(groups: &[Group<V>], g: usize) -> bool
    requires { g < length groups.now }
    ensures { (d : Group V) → Decides result (Later (groups_of d groups.now) g) }
{
    let group = &groups[g];
    let parent = usize::from(group.parent);
    parent < g
        && group.role <= LAST_ROLE
        && group.headcount > 0
        && group.headcount <= MOST_HEADS
        && child(&groups[..g], parent, group.role).is_none()
}

// Whether group `g` may stand where it does.
fn fits<K: Kind>(groups: &[Group<K::Reading>], g: usize) -> bool
    requires { g < length groups.now }
    ensures { (d : Group K.Reading) → Decides result (Fits K.Kind.domain (groups_of d groups.now) g) }
{
    if !K::whole().admits(groups[g].reading) {
        return false;
    }
    if g == 0 {
        is_first(&groups[g])
    } else {
        is_later(groups, g)
    }
}

impl<'a, K: Kind> Census<'a, K> {
    // The groups as a census, where they are well formed; else the lowest that is at fault, or 0 where there are none or
    // too many.
    pub fn of(groups: &'a [Group<K::Reading>]) -> Result<Census<'a, K>, Refusal>
        ensures groups { IfOk result (λ c. c.groups.now ≡ groups.now) }
        ensures fault { IfErr result (AtFault K.Kind.domain groups.now) }
    {
        if groups.is_empty() || groups.len() > MOST_GROUPS {
            return Err(Refusal::Table(0));
        }
        // By index, since whether a group may stand hangs on those before it. They are at most 256, so the cast cuts
        // nothing off.
        for g in 0..groups.len() {
            if !fits::<K>(groups, g) {
                return Err(Refusal::Table(g as u16));
            }
        }
        Ok(Census { groups })
    }

    // The groups.
    pub fn groups(&self) -> &'a [Group<K::Reading>]
        ensures value { result.now ≡ self.now.groups.now }
        ensures formed { Formed K.Kind.domain result.now }
    {
        self.groups
    }
}
