//! Rejections of questions.
use board::board::OpenBoard;
use board::closed::ClosedBoard;
use grades::kind::GradeKind;
use grades::plain::Plain;
use grades::releases::Releases;
use grades::views::Views;
use piles::marks::Marks;
use rejections::Rejection;
use staging::sheets::with_terms;
use std::alloc::Global;
use std::iter;
use std::process::Abort;
use std::test::Fail;
use terms::terms::Terms;

/// How many concepts and inclusions the lists have room for.
const MOST: usize = 5;

/// What the lists of questions are filled with at first.
const BEFORE: u16 = 7;

/// The longest list.
const LIST: usize = 3;

/// A question, with the length of the list that it may fill.
#[derive(Clone, Copy)]
enum Ask {
    Under(u16, u16),
    Mates(u16, u8, usize),
    Parents(u16, u8, usize),
}

/// What a question is answered.
type Answer = Result<usize, Rejection>;

/// A question, its answer, and the front of the list after it. The fields have no names: the cases are tables, which names would make no
/// plainer.
#[derive(Clone, Copy)]
struct Case(Ask, Answer, &'static [u16]);

const NO_CONCEPT: Answer = Err(Rejection::NoSuchConcept);

const NO_POINT: Answer = Err(Rejection::NoSuchPoint);

const SHORT: Answer = Err(Rejection::ShortList);

const WAITS: Answer = Err(Rejection::JobWaits);

const OTHER: Answer = Err(Rejection::OtherTerms);

// Concepts 0, 1 and 2 are atomic and mates of each other; 3 is a top.
const MATES: &[Case] = &[
    Case(Ask::Under(0, 3), Ok(1), &[]),
    Case(Ask::Under(0, 4), NO_CONCEPT, &[]),
    Case(Ask::Under(2, 0), Ok(1), &[]),
    Case(Ask::Under(3, 0), NO_CONCEPT, &[]),
    Case(Ask::Under(4, 0), NO_CONCEPT, &[]),
    Case(Ask::Mates(0, 0, 1), SHORT, &[]),
    Case(Ask::Mates(0, 0, 2), Ok(2), &[1, 2]),
    Case(Ask::Mates(1, 0, 3), Ok(2), &[0, 2]),
    Case(Ask::Mates(3, 0, 3), NO_CONCEPT, &[]),
    Case(Ask::Parents(3, 0, 3), NO_CONCEPT, &[]),
    Case(Ask::Mates(4, 0, 3), NO_CONCEPT, &[]),
    Case(Ask::Parents(0, 0, 0), Ok(0), &[]),
];

// Concept 0 lies inside 1 and 2.
const PARENTS: &[Case] = &[
    Case(Ask::Parents(0, 0, 1), SHORT, &[]),
    Case(Ask::Parents(0, 0, 2), Ok(2), &[1, 2]),
    Case(Ask::Parents(0, 0, 3), Ok(2), &[1, 2]),
    Case(Ask::Parents(1, 0, 0), Ok(0), &[]),
    Case(Ask::Mates(0, 0, 0), Ok(0), &[]),
];

// The last point and the first that the kind lacks. A concept that is not atomic comes before such a point, and that before a short list.
const PLAIN_POINTS: &[Case] = &[
    Case(Ask::Parents(0, 0, 2), Ok(2), &[1, 2]),
    Case(Ask::Parents(0, 1, 2), NO_POINT, &[]),
    Case(Ask::Mates(0, 1, 2), NO_POINT, &[]),
    Case(Ask::Parents(0, 1, 0), NO_POINT, &[]),
    Case(Ask::Parents(3, 1, 0), NO_CONCEPT, &[]),
];

const RELEASES_POINTS: &[Case] = &[
    Case(Ask::Parents(0, 63, 2), Ok(2), &[1, 2]),
    Case(Ask::Parents(0, 64, 2), NO_POINT, &[]),
    Case(Ask::Mates(0, 64, 2), NO_POINT, &[]),
    Case(Ask::Parents(0, 64, 0), NO_POINT, &[]),
    Case(Ask::Parents(3, 64, 0), NO_CONCEPT, &[]),
];

const VIEWS_POINTS: &[Case] = &[
    Case(Ask::Parents(0, 15, 2), Ok(2), &[1, 2]),
    Case(Ask::Parents(0, 16, 2), NO_POINT, &[]),
    Case(Ask::Mates(0, 16, 2), NO_POINT, &[]),
    Case(Ask::Parents(0, 16, 0), NO_POINT, &[]),
    Case(Ask::Parents(3, 16, 0), NO_CONCEPT, &[]),
];

// On a board on which a job waits, whatever else is wrong.
const WAITING: &[Case] = &[
    Case(Ask::Under(0, 0), WAITS, &[]),
    Case(Ask::Under(9, 9), WAITS, &[]),
    Case(Ask::Mates(0, 0, 3), WAITS, &[]),
    Case(Ask::Mates(9, 99, 0), WAITS, &[]),
    Case(Ask::Parents(0, 0, 3), WAITS, &[]),
];

// With other terms, whatever else is wrong.
const OTHERS: &[Case] = &[
    Case(Ask::Under(0, 0), OTHER, &[]),
    Case(Ask::Under(9, 9), OTHER, &[]),
    Case(Ask::Mates(0, 0, 3), OTHER, &[]),
    Case(Ask::Parents(0, 0, 3), OTHER, &[]),
];

// On the empty board.
const NONE_THERE: &[Case] = &[
    Case(Ask::Under(0, 0), NO_CONCEPT, &[]),
    Case(Ask::Under(0, 9), NO_CONCEPT, &[]),
    Case(Ask::Mates(0, 0, 0), NO_CONCEPT, &[]),
];

/// What the board answers.
fn answer<K: GradeKind>(
    board: &ClosedBoard<K>,
    terms: &Terms,
    ask: Ask,
    list: &mut [u16; LIST],
) -> Answer {
    match ask {
        Ask::Under(a, d) => board.under(terms, a, d).map(usize::from),
        Ask::Mates(a, point, length) => board.mates(
            terms,
            a,
            point,
            &mut list[0..length.min(LIST)],
        ),
        Ask::Parents(a, point, length) => board.parents(
            terms,
            a,
            point,
            &mut list[0..length.min(LIST)],
        ),
    }
}

/// The answers are those of the cases, and the lists' rests stay.
fn check_answers<K: GradeKind>(
    rt: &impl Abort,
    board: &ClosedBoard<K>,
    terms: &Terms,
    cases: &[Case],
) -> Result<(), Fail> {
    for case in cases {
        let Case(ask, expected, front) = *case;
        let mut list = [BEFORE; LIST];
        assert_eq!(rt; answer(board, terms, ask, &mut list), expected);
        let due = front.iter().copied().chain(iter::repeat(BEFORE));
        for (number, due) in list.iter().zip(due) {
            assert_eq!(rt; *number, due);
        }
    }
    Ok(())
}

/// A sheet, the budget of the one run on its board, another sheet, if there is one, with whose terms questions are then asked, and the
/// questions. The lines of the sheets are filled up. The fields have no names, as those of a table's line.
#[derive(Clone, Copy)]
struct Scene(&'static [u8], u64, Option<&'static [u8]>, &'static [Case]);

/// Each of three concepts lies inside the two others.
const MATED: &[u8] =
    b"R\nA\nA\nA\nT\nS     0     1     1\nS     1     2     1\nS     2     0     1\n";

/// How many steps finish the board of the next sheet.
const STEPS: u64 = 8;

/// One concept lies inside two others.
const RAISED: &[u8] = b"R\nA\nA\nA\nT\nS     0     1     1\nS     0     2     1\n";

/// The same at all releases, and in all views.
const RELEASED: &[u8] = b"R\nA\nA\nA\nT\nS     0     1     0\nS     0     2     0\n";

const VIEWED: &[u8] = b"R\nA\nA\nA\nT\nS     0     1 65535\nS     0     2 65535\n";

/// One concept more, one role more, and one of each fewer.
const WIDER: Option<&[u8]> = Some(b"R\nA\nA\nA\nT\nA\n");

const DEEPER: Option<&[u8]> = Some(b"R\nR\nA\nA\nA\nT\n");

const NARROWER: Option<&[u8]> = Some(b"R\nA\nA\nA\n");

const SHALLOWER: Option<&[u8]> = Some(b"A\nA\nA\nT\n");

static PLAIN_SCENES: [Scene; 13] = [
    Scene(MATED, u64::MAX, None, MATES),
    Scene(RAISED, u64::MAX, None, PARENTS),
    Scene(RAISED, u64::MAX, None, PLAIN_POINTS),
    Scene(RAISED, 2, None, WAITING),
    Scene(RAISED, STEPS - 1, None, WAITING),
    Scene(RAISED, STEPS, None, PARENTS),
    Scene(b"", u64::MAX, None, NONE_THERE),
    Scene(RAISED, u64::MAX, WIDER, OTHERS),
    Scene(RAISED, u64::MAX, DEEPER, OTHERS),
    Scene(RAISED, u64::MAX, NARROWER, OTHERS),
    Scene(RAISED, u64::MAX, SHALLOWER, OTHERS),
    Scene(RAISED, 2, WIDER, OTHERS),
    Scene(RAISED, 2, DEEPER, OTHERS),
];

/// Makes a board over the terms, runs and closes it, and asks with the scene's terms.
fn check_board<K: GradeKind>(
    rt: &impl Abort,
    heap: Global,
    kind: K,
    terms: &Terms,
    scene: Scene,
) -> Result<(), Fail> {
    let Scene(_, budget, other, cases) = scene;
    let mut words = [0; 84];
    let mut list = [0; 4];
    let mut marks = Marks::new(&mut list);
    let mut board = OpenBoard::make(terms, &mut words, &mut marks, kind);
    board.run(terms, &mut marks, budget)?;
    let closed = board.close();
    match other {
        None => check_answers(rt, &closed, terms, cases),
        Some(sheet) => with_terms(
            heap,
            MOST,
            sheet,
            |others| check_answers(rt, &closed, others, cases),
        ),
    }
}

/// Reads the sheet of the scene, and asks.
fn check_scene<K: GradeKind>(
    rt: &impl Abort,
    heap: Global,
    kind: K,
    scene: Scene,
) -> Result<(), Fail> {
    let Scene(sheet, _, _, _) = scene;
    with_terms(
        heap,
        MOST,
        sheet,
        |terms| check_board(rt, heap, kind, terms, scene),
    )
}

#[test]
fn questions(rt: HostRuntime) -> Result<(), Fail> {
    let heap = rt.alloc();
    for scene in PLAIN_SCENES.iter() {
        check_scene(&rt, heap, Plain, *scene)?;
    }
    let releases = Scene(RELEASED, u64::MAX, None, RELEASES_POINTS);
    check_scene(&rt, heap, Releases, releases)?;
    let views = Scene(VIEWED, u64::MAX, None, VIEWS_POINTS);
    check_scene(&rt, heap, Views, views)
}
