// Forms compared, and each countermodel held against both.
use concepts::refusal::Refusal;
use kinds::span::Span;
use rows::census::Census;
use rows::form::Form;
use rows::group::Group;
use rows::row::Row;
use std::process::Abort;
use subsumption::compare::{compare, subsumed};
use subsumption::judge::meets;

const ALL: Span = Span {
    low: i32::MIN,
    high: i32::MAX,
};

const TOP: Row<Span> = Row {
    parent: 0,
    role: 0,
    lower: 0,
    upper: None,
    atoms: 0,
    restriction: ALL,
};

const BLANK: Group<i32> = Group {
    parent: 9,
    role: 9,
    headcount: 9,
    atoms: 9,
    reading: 9,
};

fn numbers(parent: u8, role: u8, lower: u16, upper: Option<u16>) -> Row<Span> {
    Row {
        parent,
        role,
        lower,
        upper,
        ..TOP
    }
}

// Compares two forms. A no is shown by a model whose first element meets the first form and not the second.
fn expect(rt: &impl Abort, first: &[Row<Span>], second: &[Row<Span>], expected: Option<usize>) {
    let mut groups = [BLANK; 257];
    let forms = (Form::of(first), Form::of(second));
    let (Some(p), Some(q)) = forms else {
        panic!(rt; "rows are well formed");
    };
    assert_eq!(rt; subsumed(&p, &q), expected.is_none());
    assert_eq!(rt; compare(&p, &q, &mut groups), Ok(expected));
    if let Some(n) = expected {
        let written = groups.get(..n).unwrap_or(&[]);
        match Census::<Span>::of(written) {
            Ok(census) => assert!(rt; meets(&census, &p) && !meets(&census, &q)),
            Err(_) => panic!(rt; "groups are well formed"),
        }
    }
    let kept = groups.iter().skip(expected.unwrap_or(0));
    assert!(rt;
        kept.map(|group| group.headcount)
            .all(|headcount| headcount == 9)
    );
}

#[test]
fn rows_0(rt: HostRuntime) {
    let marked = Row { atoms: 6, ..TOP };
    let narrow = Row {
        restriction: Span { low: 1, high: 5 },
        ..TOP
    };
    let wide = Row {
        restriction: Span { low: 0, high: 9 },
        ..TOP
    };
    expect(&rt, &[marked], &[TOP], None);
    expect(&rt, &[TOP], &[marked], Some(1));
    expect(&rt, &[narrow], &[wide], None);
    expect(&rt, &[wide], &[narrow], Some(1));
}

#[test]
fn fillers(rt: HostRuntime) {
    let two = [TOP, numbers(0, 3, 2, None)];
    let three = [TOP, numbers(0, 3, 3, None)];
    let few = [TOP, numbers(0, 3, 0, Some(4))];
    let none = [TOP, numbers(0, 3, 0, Some(0))];
    expect(&rt, &three, &two, None);
    expect(&rt, &two, &three, Some(2));
    expect(&rt, &two, &few, Some(2));
    expect(&rt, &none, &few, None);
    expect(&rt, &few, &none, Some(2));
    expect(&rt, &[TOP], &few, Some(2));
    expect(&rt, &few, &[TOP], None);
}

// What is asked of fillers is met where there are none, and silence is not.
#[test]
fn deeper(rt: HostRuntime) {
    let marked = |parent: u8, role: u8| Row {
        parent,
        role,
        atoms: 1,
        ..TOP
    };
    let all = [TOP, marked(0, 2)];
    let all_of_all = [TOP, numbers(0, 2, 0, None), marked(1, 5)];
    let none = [TOP, numbers(0, 2, 0, Some(0))];
    expect(&rt, &none, &all_of_all, None);
    expect(&rt, &all, &all_of_all, Some(3));
    expect(&rt, &[TOP], &all_of_all, Some(3));
    expect(&rt, &all_of_all, &all, Some(2));
}

// Silence about a role is a yes where nothing is asked of its fillers.
#[test]
fn silence(rt: HostRuntime) {
    let nothing = [TOP, numbers(0, 3, 0, None), numbers(1, 5, 0, None)];
    expect(&rt, &[TOP], &nothing[..2], None);
    expect(&rt, &[TOP], &nothing, None);
    expect(&rt, &[TOP], &[TOP, numbers(0, 3, 1, None)], Some(1));
}

// How many fillers show that there may be too many.
#[test]
fn crowds(rt: HostRuntime) {
    let cases = [
        (numbers(0, 3, 0, None), 999, 1000),
        (numbers(0, 3, 5, None), 3, 5),
        (numbers(0, 3, 2, Some(9)), 4, 5),
    ];
    for (given, most, expected) in cases {
        let mut groups = [BLANK; 256];
        let first = [TOP, given];
        let second = [TOP, numbers(0, 3, 0, Some(most))];
        if let (Some(p), Some(q)) = (Form::of(&first), Form::of(&second)) {
            assert_eq!(rt; compare(&p, &q, &mut groups), Ok(Some(2)));
        }
        assert_eq!(rt; groups[1].headcount, expected);
    }
}

#[test]
fn rooms(rt: HostRuntime) {
    let mut groups = [BLANK; 255];
    let answer = Form::of(&[TOP]).map(|p| compare(&p, &p, &mut groups));
    assert_eq!(rt; answer, Some(Err(Refusal::Groups)));
    assert_eq!(rt; groups[0].headcount, 9);
}
