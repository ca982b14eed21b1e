// Models held against a form.
use kinds::span::Span;
use rows::census::Census;
use rows::form::Form;
use rows::group::Group;
use rows::row::Row;
use subsumption::judge::meets;

// An element with atom 0, and two or three fillers of role 7 with atom 1 and readings from 10 to 20, all of whose own
// fillers of role 2 have atom 5.
const ROWS: [Row<Span>; 3] = [
    Row {
        parent: 0,
        role: 0,
        lower: 0,
        upper: None,
        atoms: 1,
        restriction: Span { low: 0, high: 99 },
    },
    Row {
        parent: 0,
        role: 7,
        lower: 2,
        upper: Some(3),
        atoms: 2,
        restriction: Span { low: 10, high: 20 },
    },
    Row {
        parent: 1,
        role: 2,
        lower: 0,
        upper: None,
        atoms: 32,
        restriction: Span { low: 0, high: 99 },
    },
];

fn group(parent: u8, role: u8, headcount: u16, atoms: u64, reading: i32) -> Group<i32> {
    Group {
        parent,
        role,
        headcount,
        atoms,
        reading,
    }
}

// Whether the first element of the groups meets the form; none where the groups or the rows are not well formed.
fn met(groups: &[Group<i32>]) -> Option<bool> {
    let census = Census::<Span>::of(groups).ok()?;
    let form = Form::of(&ROWS)?;
    Some(meets(&census, &form))
}

#[test]
fn models(rt: HostRuntime) {
    let first = group(0, 0, 1, 1, 50);
    for fillers in [group(0, 7, 2, 2, 10), group(0, 7, 3, 6, 20)] {
        assert_eq!(rt; met(&[first, fillers]), Some(true));
        assert_eq!(rt; met(&[first, group(0, 2, 9, 0, 0), fillers]), Some(true));
        assert_eq!(rt; met(&[first, fillers, group(1, 2, 1, 32, 0)]), Some(true));
        assert_eq!(rt; met(&[first, fillers, group(1, 3, 1, 0, 0)]), Some(true));
        assert_eq!(rt; met(&[first, fillers, group(1, 2, 1, 31, 0)]), Some(false));
    }
}

#[test]
fn others(rt: HostRuntime) {
    let first = group(0, 0, 1, 1, 50);
    let fillers = group(0, 7, 2, 2, 10);
    let faulty = [
        group(0, 7, 1, 2, 10),
        group(0, 7, 4, 2, 10),
        group(0, 7, 2, 1, 10),
        group(0, 7, 2, 2, 9),
        group(0, 7, 2, 2, 21),
        group(0, 6, 2, 2, 10),
    ];
    for few in faulty {
        assert_eq!(rt; met(&[first, few]), Some(false));
    }
    assert_eq!(rt; met(&[first]), Some(false));
    assert_eq!(rt; met(&[group(0, 0, 1, 2, 50), fillers]), Some(false));
    assert_eq!(rt; met(&[group(0, 0, 1, 1, 100), fillers]), Some(false));
}
