//! One line of a script: a call, and its answer.
use staging::hands::Refusal;

/// Whose hand acts.
#[derive(Clone, Copy)]
pub enum Who {
    Own,
    Foreign,
}

/// What a worker does. It is an enum and no closure, since each line is played on several boards and piles, whose types differ.
#[derive(Clone, Copy)]
pub enum Deed {
    Take,
    Step,
    Lower,
    Recheck,
    Run,
}

/// Where: on the board with its own pile, on the board with another pile of a size that holds at most one number, or on the wider board,
/// with its own pile or one that holds a number.
#[derive(Clone, Copy)]
pub enum Place {
    Board,
    Other(usize, Option<u16>),
    Wide,
    WideFrom(u16),
}

/// With which terms: the board's, or those with one concept or one role more. The wider board is for those with one concept more.
#[derive(Clone, Copy)]
pub enum Which {
    Same,
    ConceptMore,
    RoleMore,
}

/// A call, and its answer. The fields have no names: the scripts are tables of such lines, which names would make no plainer.
#[derive(Clone, Copy)]
pub struct ScriptLine(
    pub Who,
    pub Deed,
    pub Place,
    pub Which,
    pub Result<(), Refusal>,
);

impl ScriptLine {
    /// Whether the line is for the wider board.
    pub fn is_wide(&self) -> bool {
        let ScriptLine(_, _, place, _, _) = self;
        matches!(place, Place::Wide | Place::WideFrom(_))
    }

    /// Whether the call is accepted.
    pub fn is_fine(&self) -> bool {
        let ScriptLine(_, _, _, _, answer) = self;
        answer.is_ok()
    }
}
