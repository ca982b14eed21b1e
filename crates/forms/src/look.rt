// What a description writes at one path.
ghost use Rattle.std.specs.Prelude.{◌≡◌, ℕ, ◌<◌, true, false, List, [], ◌∷◌, length, Option, MatchOption};
ghost use Rattle.std.specs.Option.{unwrap_or};
ghost use Rattle.concepts.specs.Checks.{bad_field};
ghost use Rattle.concepts.specs.Tables.{is_and, is_all, is_entry};
ghost use Rattle.forms.specs.Labels.{Label as Written, silent as nothing_written};
ghost use Rattle.forms.specs.Seen.{Holds, Shows, begins};
ghost use Rattle.forms.specs.Sheets.{Form, plain_form, both_forms, under_form, sheet_form, form_of};
ghost use Rattle.forms.specs.Sources.{holdings, written_by, written};
ghost use Rattle.rows.specs.Tables.{rows_of};

use crate::find::{find, roles_below};
use crate::label::{Label, at_least, at_most, both, nothing, prim, silent, within};
use crate::source::Source;
use concepts::description::checks::rows_held;
use concepts::node::Node;
use concepts::op::Op;
use kinds::kind::Kind;
use masks::{joined, single};
use rows::row::Row;

// The label at a path, and the roles that are written after it.
#[derive(Clone, Copy)]
pub struct Found<K> {
    pub label: Label<K>,
    pub roles: u64,
}

// Nothing at the path, and nothing after it.
fn unwritten<K: Kind>() -> Found<K>
    ensures label { Holds K.Kind.domain result.label nothing_written }
    ensures roles { result.roles ≡ 0 }
{
    Found {
        label: silent(),
        roles: 0,
    }
}

// A label that is written at the empty path alone.
fn plain<K: Kind>(label: Label<K>, path: &[u8]) -> Found<K>
    ensures { (l : Written K.Reading) → Holds K.Kind.domain label l → Shows K.Kind.domain (plain_form K.Kind.domain l) path.now result }
{
    if path.is_empty() {
        Found { label, roles: 0 }
    } else {
        unwritten()
    }
}

// What follows the role in a path that begins with it.
fn after(path: &[u8], role: u8) -> Option<&[u8]>
    ensures { MatchOption result (begins path.now role ≡ false) (λ rest. path.now ≡ role ∷ rest.now) }
{
    match path {
        [first, rest @ ..] if *first == role => Some(rest),
        _ => None,
    }
}

// What is written below a role, at a path that does not begin with it.
fn beside<K: Kind>(role: u8, path: &[u8]) -> Found<K>
    requires { begins path.now role ≡ false }
    ensures { (f : Form K.Reading) → f.on [] ≡ true → Shows K.Kind.domain (under_form K.Kind.domain role f) path.now result }
{
    if path.is_empty() {
        Found {
            label: silent(),
            roles: single(role),
        }
    } else {
        unwritten()
    }
}

// A label that is written at a role alone.
fn counted<K: Kind>(label: Label<K>, role: u8, path: &[u8]) -> Found<K>
    ensures { (l : Written K.Reading) → Holds K.Kind.domain label l → Shows K.Kind.domain (under_form K.Kind.domain role (plain_form K.Kind.domain l)) path.now result }
{
    match after(path, role) {
        Some(rest) => plain(label, rest),
        None => beside(role, path),
    }
}

// What a node without operands writes, unless it is an ENTRY.
fn leaf<K: Kind>(node: &Node<K>, path: &[u8]) -> Found<K>
    requires { bad_field node.now ≡ false }
    ensures { (s : ℕ → Option (Form K.Reading)) (fs : List (Form K.Reading)) → is_and node.now ≡ false → is_all node.now ≡ false → is_entry node.now ≡ false → Shows K.Kind.domain (form_of K.Kind.domain s fs node.now) path.now result }
{
    match node.op() {
        Some(Op::Nothing) => plain(nothing(), path),
        Some(Op::Prim) => plain(prim(node.which), path),
        Some(Op::Within) => plain(within(node.restriction), path),
        Some(Op::AtLeast) => counted(at_least(node.count), node.which, path),
        Some(Op::AtMost) => counted(at_most(node.count), node.which, path),
        _ => plain(silent(), path),
    }
}

// Both are written.
fn merged<K: Kind>(a: Found<K>, b: Found<K>) -> Found<K>
    ensures { (f g : Form K.Reading) (π : List ℕ) → Shows K.Kind.domain f π a → Shows K.Kind.domain g π b → Shows K.Kind.domain (both_forms K.Kind.domain f g) π result }
{
    Found {
        label: both(a.label, b.label),
        roles: joined(a.roles, b.roles),
    }
}

// What the rows of a form hold.
fn in_sheet<K: Kind>(rows: &[Row<K>], path: &[u8]) -> Found<K>
    requires { 0 < length rows.now }
    ensures { (e : Row K) → Shows K.Kind.domain (sheet_form K.Kind.domain (rows_of e rows.now) (length rows.now)) path.now result }
{
    match find(rows, path) {
        Some(c) => Found {
            label: Label::from(&rows[c]),
            roles: roles_below(rows, c),
        },
        None => unwritten(),
    }
}

impl<K: Kind> Source<'_, K> {
    // What the place holds.
    fn entry(&self, place: u8, path: &[u8]) -> Found<K>
        ensures { (e : Row K) → Shows K.Kind.domain (unwrap_or (holdings K.Kind.domain e self.now place) (plain_form K.Kind.domain nothing_written)) path.now result }
    {
        match rows_held(self.held, place) {
            // Casts here and below, as in find.rt: the proof with `usize::from` was tried and did not close.
            Some(n) => in_sheet(&self.sheets.of(place as usize)[..n as usize], path),
            None => unwritten(),
        }
    }

    // What node `i` writes at a path.
    fn look(&self, i: usize, path: &[u8]) -> Found<K>
        requires { i < length self.now.nodes.now }
        ensures { (e : Row K) → Shows K.Kind.domain (written_by K.Kind.domain e self.now i) path.now result }
    {
        let node = &self.nodes[i];
        match node.op() {
            Some(Op::And) => {
                let left = self.look(node.left as usize, path);
                let right = self.look(node.right as usize, path);
                merged(left, right)
            }
            Some(Op::All) => match after(path, node.which) {
                Some(rest) => self.look(node.left as usize, rest),
                None => beside(node.which, path),
            },
            Some(Op::Entry) => self.entry(node.which, path),
            _ => leaf(node, path),
        }
    }

    // What the description writes at a path.
    pub(crate) fn at(&self, path: &[u8]) -> Found<K>
        ensures { (e : Row K) → Shows K.Kind.domain (written K.Kind.domain e self.now) path.now result }
    {
        self.look(self.nodes.len() - 1, path)
    }
}
