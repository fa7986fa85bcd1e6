//! Playing a script on a board and on one with a concept more, and comparing each answer with the script's.
use crate::lines::{Deed, Place, ScriptLine, Which, Who};
use crate::score::Score;
use board::board::OpenBoard;
use grades::kind::GradeKind;
use grades::plain::Plain;
use piles::marks::Marks;
use piles::pile::Pile;
use piles::ring::Ring;
use staging::hands::{Hand, Session, Shown};
use staging::trouble::Trouble;
use terms::terms::Terms;

/// The greatest size of another pile.
const SIZE: usize = 4;

/// The terms of the board, and those with one concept and with one role more.
#[derive(Clone, Copy)]
pub struct Sheets<'s> {
    pub plain: &'s Terms<'s>,
    pub wider: &'s Terms<'s>,
    pub deeper: &'s Terms<'s>,
}

/// The hands of the two workers: of the board's own, and of one who brings tokens of another board.
pub struct Hands {
    pub own: Hand,
    pub foreign: Hand,
}

impl Hands {
    /// Both hands are empty, or what they have is handed on.
    fn end(self) -> Result<(), Trouble<Hands>> {
        match self {
            Hands {
                own: Hand::Empty,
                foreign: Hand::Empty,
            } => Ok(()),
            kept => Err(Trouble::Kept(kept)),
        }
    }
}

/// One deed with one hand.
fn act<K: GradeKind, P: Pile>(session: &mut Session<K, P>, deed: Deed, hand: Hand) -> Shown {
    match deed {
        Deed::Take => session.take(hand),
        Deed::Step => Shown {
            answer: session.step(&hand),
            hand,
        },
        Deed::Lower => session.lower(hand),
        Deed::Recheck => session.recheck(hand),
        Deed::Run => Shown {
            answer: session.run(),
            hand,
        },
    }
}

/// One deed with one hand and another pile, of a size, that holds at most one number. A rejected deed leaves the pile.
fn act_with_other<K: GradeKind, P: Pile>(
    session: &mut Session<K, P>,
    size: usize,
    number: Option<u16>,
    deed: Deed,
    hand: Hand,
    score: &mut Score,
) -> Shown {
    let mut list = [0; SIZE];
    let mut other = Marks::new(&mut list[0..size.min(SIZE)]);
    if let Some(x) = number {
        let _ = other.put(x);
    }
    let count = other.count();
    let mut elsewhere = Session::new(&mut *session.board, &mut other, session.terms);
    let shown = act(&mut elsewhere, deed, hand);
    if shown.answer.is_err() {
        score.expect(other.count() == count && number.is_none_or(|x| other.holds(x)));
    }
    shown
}

/// One deed with one hand, where the line says, which is answered as the line says. Answers the hand after it.
fn act_at<K: GradeKind, P: Pile>(
    session: &mut Session<K, P>,
    line: ScriptLine,
    hand: Hand,
    score: &mut Score,
) -> Hand {
    let ScriptLine(_, deed, place, _, expected) = line;
    let Shown { hand, answer } = match place {
        Place::Board | Place::Wide => act(session, deed, hand),
        Place::Other(size, number) => act_with_other(session, size, number, deed, hand, score),
        Place::WideFrom(number) => act_with_other(session, SIZE, Some(number), deed, hand, score),
    };
    score.expect(answer == expected);
    hand
}

/// One line with the hand of the one whose line it is.
fn play_line<K: GradeKind, P: Pile>(
    session: &mut Session<K, P>,
    line: ScriptLine,
    hands: Hands,
    score: &mut Score,
) -> Hands {
    let Hands { own, foreign } = hands;
    let ScriptLine(who, _, _, _, _) = line;
    match who {
        Who::Own => Hands {
            own: act_at(session, line, own, score),
            foreign,
        },
        Who::Foreign => Hands {
            foreign: act_at(session, line, foreign, score),
            own,
        },
    }
}

impl<'s> Sheets<'s> {
    /// The terms that a line is played with.
    fn of(&self, line: ScriptLine) -> &'s Terms<'s> {
        let ScriptLine(_, _, _, which, _) = line;
        match which {
            Which::Same => self.plain,
            Which::ConceptMore => self.wider,
            Which::RoleMore => self.deeper,
        }
    }

    /// Plays the script, with the calls that are to be rejected or without, on a fresh board over the words and the pile, and answers its
    /// steps.
    pub fn play<P: Pile>(
        &self,
        script: &[ScriptLine],
        shows: bool,
        words: &mut [u16],
        pile: &mut P,
        score: &mut Score,
    ) -> Result<u64, Trouble<Hands>> {
        let mut wide_words = [0; 84];
        let mut wide_list = [0; SIZE];
        let mut ring = Ring::new(&mut wide_list);
        let mut wide = OpenBoard::make(self.wider, &mut wide_words, &mut ring, Plain);
        let mut board = OpenBoard::make(self.plain, words, pile, Plain);
        let mut hands = Hands {
            own: Hand::Empty,
            foreign: Hand::Empty,
        };
        for line in script.iter().filter(|line| shows || line.is_fine()) {
            let terms = self.of(*line);
            hands = if line.is_wide() {
                let mut session = Session::new(&mut wide, &mut ring, terms);
                play_line(&mut session, *line, hands, score)
            } else {
                let mut session = Session::new(&mut board, pile, terms);
                play_line(&mut session, *line, hands, score)
            };
        }
        hands.end()?;
        Ok(board.steps())
    }
}
