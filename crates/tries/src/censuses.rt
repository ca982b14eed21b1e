// Tables of groups, and which group is at fault.
use concepts::refusal::Refusal;
use kinds::choice::{Choice, Code};
use kinds::span::Span;
use rows::census::Census;
use rows::group::Group;
use std::array;

const ONE: Group<i32> = Group {
    parent: 0,
    role: 0,
    headcount: 1,
    atoms: 0,
    reading: 0,
};

fn group(parent: u8, role: u8, headcount: u16) -> Group<i32> {
    Group {
        parent,
        role,
        headcount,
        ..ONE
    }
}

// Why groups are no census.
fn fault(groups: &[Group<i32>]) -> Option<Refusal> {
    Census::<Span>::of(groups).err()
}

// Group g of a table as large as can be: it hangs from group g / 16 by the role g % 16.
fn placed(g: usize) -> Group<i32> {
    let number = |n: usize| u8::try_from(n).unwrap_or(0);
    group(number(g / 16), number(g % 16), 1)
}

#[test]
fn lengths(rt: HostRuntime) {
    let most: [Group<i32>; 256] = array::from_fn(placed);
    let more: [Group<i32>; 257] = array::from_fn(placed);
    assert_eq!(rt; fault(&[]), Some(Refusal::Table(0)));
    assert_eq!(rt; fault(&[ONE]), None);
    assert_eq!(rt; fault(&most), None);
    assert_eq!(rt; fault(&more), Some(Refusal::Table(0)));
}

#[test]
fn first_group(rt: HostRuntime) {
    for first in [
        group(1, 0, 1),
        group(0, 1, 1),
        group(0, 0, 2),
        group(0, 0, 0),
    ] {
        assert_eq!(rt; fault(&[first, group(7, 0, 1)]), Some(Refusal::Table(0)));
    }
}

#[test]
fn later_groups(rt: HostRuntime) {
    for later in [group(0, 15, 1), group(0, 0, 1000), group(1, 2, 1)] {
        assert_eq!(rt; fault(&[ONE, group(0, 2, 3), later]), None);
    }
    let faulty = [
        group(2, 0, 1),
        group(0, 16, 1),
        group(0, 0, 0),
        group(0, 0, 1001),
        group(0, 2, 1),
    ];
    for later in faulty {
        let groups = [ONE, group(0, 2, 3), later, group(9, 9, 0)];
        assert_eq!(rt; fault(&groups), Some(Refusal::Table(2)));
    }
}

// A code above 63 is no reading.
#[test]
fn readings(rt: HostRuntime) {
    for (code, expected) in [(63, None), (64, Some(Refusal::Table(0)))] {
        let group = Group {
            parent: 0,
            role: 0,
            headcount: 1,
            atoms: 0,
            reading: Code(code),
        };
        assert_eq!(rt; Census::<Choice>::of(&[group]).err(), expected);
    }
}
