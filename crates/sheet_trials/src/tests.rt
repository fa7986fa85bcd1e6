//! Boundary cases of reading.
use rejections::Rejection;
use sheet::columns::columns;
use sheet::fault::{Fault, Layer};
use sheet::read;
use std::process::Abort;
use std::test::Fail;
use terms::records::{Concept, Inclusion};
use terms::terms::Terms;

const MARK: Inclusion = Inclusion {
    sub: 7,
    sup: 8,
    code: 9,
};

// A text, and the line and column of its fault, with lists of four concepts and two inclusions.
#[derive(Clone, Copy)]
struct Case(&'static [u8], usize, usize);

// Texts that end within a line, whatever else is wrong.
static UNFINISHED: [Case; 3] = [
    Case(b"A    ", 1, 1),
    Case(b"A                  \nA                  \nA", 3, 1),
    Case(b"X                  \nA         ", 2, 1),
];

// Other letters.
static LETTERS: [Case; 5] = [
    Case(b"a                  \n", 1, 1),
    Case(b"A                  \nB                  \n", 2, 1),
    Case(b"                   \n", 1, 1),
    Case(b"Q     x            .", 1, 1),
    Case(
        b"A                  \nX                  \nP     0            \n",
        2,
        1,
    ),
];

// Fields that are not as they must be, the leftmost of two.
static FIELDS: [Case; 16] = [
    Case(b"A     0            \n", 1, 2),
    Case(b"R           0      \n", 1, 8),
    Case(b"T                 0\n", 1, 14),
    Case(b"A                  \nN     0            \n", 2, 8),
    Case(b"A                  \nN     0     0     0\n", 2, 14),
    Case(b"A                  \nP                  \n", 2, 2),
    Case(b"A                  \nS     0     0 65536\n", 2, 14),
    Case(b"A                  \nS     0     0    07\n", 2, 14),
    Case(b"A                  \nS     0     0    00\n", 2, 14),
    Case(b"A                  \nS0          0     0\n", 2, 2),
    Case(b"A                  \nS     0     0     /\n", 2, 14),
    Case(b"A                  \nS     0     0     :\n", 2, 14),
    Case(b"A                  \nS     0   1 2     x\n", 2, 8),
    Case(b"A                  \nS     0999999     0\n", 2, 8),
    Case(b"A     x            .", 1, 2),
    Case(b"A                  \nS     3     x     0\n", 2, 8),
];

// Lines without a line feed, also with unknown names.
static FEEDS: [Case; 3] = [
    Case(b"A                  .", 1, 20),
    Case(b"A                  \nN     0     9      .", 2, 20),
    Case(
        b"A                  \nA                  \nS     0     1     5.A                  \n",
        3,
        20,
    ),
];

// Numbers that name nothing earlier, the leftmost of two, also beyond the lists.
static NAMES: [Case; 13] = [
    Case(b"N     0     0      \n", 1, 2),
    Case(b"A                  \nN     0     1      \n", 2, 8),
    Case(b"A                  \nN     1     2      \n", 2, 2),
    Case(b"A                  \nE     0     0      \n", 2, 2),
    Case(b"R                  \nE     0     0      \n", 2, 8),
    Case(b"R                  \nI     0     1      \n", 2, 8),
    Case(b"I     0     0      \n", 1, 2),
    Case(b"R                  \nP     1            \n", 2, 2),
    Case(b"A                  \nS     1     0     0\n", 2, 2),
    Case(b"A                  \nS     0     1     0\n", 2, 8),
    Case(
        b"A                  \nA                  \nA                  \nA                  \nN     0     4      \n",
        5,
        8,
    ),
    Case(
        b"A                  \nP     0            \nX                  \n",
        2,
        2,
    ),
    Case(b"A                  \nS     4     5     0\n", 2, 2),
];

// Lines beyond the lists.
static ROOM: [Case; 3] = [
    Case(
        b"A                  \nA                  \nA                  \nA                  \nA                  \n",
        5,
        1,
    ),
    Case(
        b"A                  \nA                  \nA                  \nA                  \nN     0     3      \n",
        5,
        1,
    ),
    Case(
        b"A                  \nS     0     0     0\nS     0     0     1\nS     0     0     2\n",
        4,
        1,
    ),
];

// Each text has such a fault, at its line and column.
fn check_faults(rt: &impl Abort, cases: &[Case], layer: Layer, rejection: Rejection) {
    for case in cases {
        let Case(text, line, column) = *case;
        let mut concepts = [Concept::Atomic; 4];
        let mut inclusions = [MARK; 2];
        let mut terms = Terms::empty(&mut concepts, &mut inclusions);
        assert_eq!(rt;
            read(text, &mut terms),
            Err(Fault {
                layer,
                rejection,
                line,
                column,
            })
        );
    }
}

#[test]
fn meets_each_fault(rt: HostRuntime) {
    check_faults(&rt, &UNFINISHED, Layer::Sheet, Rejection::UnfinishedLine);
    check_faults(&rt, &LETTERS, Layer::Line, Rejection::UnknownLetter);
    check_faults(&rt, &FIELDS, Layer::Field, Rejection::BadField);
    check_faults(&rt, &FEEDS, Layer::Line, Rejection::NoLineFeed);
    check_faults(&rt, &NAMES, Layer::Field, Rejection::UnknownName);
    check_faults(&rt, &ROOM, Layer::Sheet, Rejection::BeyondLimit);
}

// How many concepts, inclusions and roles the terms have.
fn counts(terms: &Terms) -> [usize; 3] {
    [
        terms.concepts().len(),
        terms.inclusions().len(),
        terms.roles(),
    ]
}

#[test]
fn takes_each_letter_and_number(rt: HostRuntime) {
    let mut concepts = [Concept::Top; 5];
    let mut inclusions = [MARK; 3];
    let mut terms = Terms::empty(&mut concepts, &mut inclusions);
    let text =
        b"A                  \nT                  \nR                  \nR                  \nR                  \nI     0     1      \nI     1     2      \nN     0     1      \nE     0     2      \nP     1            \nS     0     3 65535\nS     3     0     0\n";
    assert_eq!(rt; read(text, &mut terms), Ok(12));
    assert_eq!(rt; counts(&terms), [4, 2, 3]);
    assert!(rt; terms.is_below(0, 2) && terms.is_below(1, 1) && !terms.is_below(2, 0));
    assert!(rt; terms.is_transitive(1) && !terms.is_transitive(0));
    assert_eq!(rt;
        [inclusions[0].code, inclusions[1].code, inclusions[2].code],
        [65535, 0, 9]
    );
    assert_eq!(rt;
        [concepts[2], concepts[3], concepts[4]],
        [
            Concept::Conjunction(0, 1),
            Concept::Restriction(0, 2),
            Concept::Top
        ]
    );
}

#[test]
fn replaces_what_was_held(rt: HostRuntime) {
    let mut concepts = [Concept::Top; 4];
    let mut inclusions = [MARK; 2];
    let mut terms = Terms::empty(&mut concepts, &mut inclusions);
    let text =
        b"A                  \nA                  \nR                  \nP     0            \nS     0     1     5\n";
    assert_eq!(rt; read(text, &mut terms), Ok(5));
    assert_eq!(rt; read(b"T                  \n", &mut terms), Ok(1));
    assert_eq!(rt; counts(&terms), [1, 0, 0]);
    assert!(rt; !terms.is_below(0, 0) && !terms.is_transitive(0));
    assert_eq!(rt; read(b"", &mut terms), Ok(0));
    assert_eq!(rt; counts(&terms), [0, 0, 0]);
}

#[test]
fn leaves_all_at_a_fault(rt: HostRuntime) {
    let mut concepts = [Concept::Top; 4];
    let mut inclusions = [MARK; 2];
    let mut terms = Terms::empty(&mut concepts, &mut inclusions);
    assert_eq!(rt;
        read(
            b"A                  \nR                  \nP     0            \n",
            &mut terms,
        ),
        Ok(3)
    );
    assert!(rt;
        read(
            b"A                  \nA                  \nS     0     1     5\nA     1            \n",
            &mut terms,
        )
        .is_err()
    );
    assert_eq!(rt; counts(&terms), [1, 0, 1]);
    assert!(rt; terms.is_transitive(0));
    assert_eq!(rt; (concepts[1], inclusions[0]), (Concept::Top, MARK));
}

#[test]
fn keeps_the_limits(rt: HostRuntime) -> Result<(), Fail> {
    let mut concepts = [Concept::Atomic; 1030];
    let mut inclusions = [MARK; 4100];
    let mut terms = Terms::empty(&mut concepts, &mut inclusions);
    let atom: &[u8] = b"A                  \n";
    let role: &[u8] = b"R                  \n";
    let stated: &[u8] = b"S     0     0     0\n";
    let roles = role.repeat(rt.alloc(), 33)?;
    assert_eq!(rt; read(&roles, &mut terms), beyond(33));
    let atoms = atom.repeat(rt.alloc(), 1025)?;
    assert_eq!(rt; read(&atoms, &mut terms), beyond(1025));
    let mut all = atom.repeat(rt.alloc(), 1024)?;
    let many = stated.repeat(rt.alloc(), 4096)?;
    all.extend_from_slice(&many)?;
    assert_eq!(rt; read(&all, &mut terms), Ok(5120));
    all.extend_from_slice(stated)?;
    assert_eq!(rt; read(&all, &mut terms), beyond(5121));
    Ok(())
}

// The answer where a line goes beyond a limit.
fn beyond(line: usize) -> Result<usize, Fault> {
    Err(Fault {
        layer: Layer::Sheet,
        rejection: Rejection::BeyondLimit,
        line,
        column: 1,
    })
}

#[test]
fn writes_six_columns(rt: HostRuntime) {
    assert_eq!(rt;
        [columns(0), columns(9), columns(10), columns(65535)],
        [*b"     0", *b"     9", *b"    10", *b" 65535"]
    );
}
