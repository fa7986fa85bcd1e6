//! What the workers do, line by line, and how each call ends.
use crate::lines::Deed::*;
use crate::lines::Place::*;
use crate::lines::ScriptLine;
use crate::lines::Which::*;
use crate::lines::Who::*;
use rejections::Rejection;
use staging::hands::Refusal::{self, Rejected};

/// How a call ends.
type Answer = Result<(), Refusal>;

const FINE: Answer = Ok(());

const OTHER_TERMS: Answer = Err(Rejected(Rejection::OtherTerms));

const SMALL_PILE: Answer = Err(Rejected(Rejection::SmallPile));

const EMPTY_PILE: Answer = Err(Rejected(Rejection::EmptyPile));

const NOT_QUEUED: Answer = Err(Rejected(Rejection::NotQueued));

const UNFIT: Answer = Err(Rejected(Rejection::UnfitLease));

const NOTHING_WAITS: Answer = Err(Rejected(Rejection::NothingWaits));

/// The board has concepts 0 and 1, which are queued at first, and 2, a top, which is idle; 3 is the wider board's alone.
pub static OWN_LEASE: [ScriptLine; 28] = [
    ScriptLine(Own, Take, Other(2, None), Same, SMALL_PILE),
    ScriptLine(Own, Take, Other(2, Some(0)), Same, SMALL_PILE),
    ScriptLine(Own, Take, Other(3, None), Same, EMPTY_PILE),
    ScriptLine(Own, Take, Other(3, Some(2)), Same, NOT_QUEUED),
    ScriptLine(Own, Take, Other(4, Some(3)), Same, NOT_QUEUED),
    ScriptLine(Own, Take, Board, Same, FINE),
    ScriptLine(Foreign, Take, Other(2, Some(0)), Same, SMALL_PILE),
    ScriptLine(Foreign, Take, Other(3, Some(0)), Same, NOT_QUEUED),
    ScriptLine(Own, Step, Board, ConceptMore, OTHER_TERMS),
    ScriptLine(Own, Step, Board, RoleMore, OTHER_TERMS),
    ScriptLine(Own, Step, Other(2, None), Same, SMALL_PILE),
    ScriptLine(Own, Step, Other(2, None), RoleMore, OTHER_TERMS),
    ScriptLine(Own, Step, Other(3, None), Same, FINE),
    ScriptLine(Own, Step, Board, Same, FINE),
    ScriptLine(Own, Step, Board, Same, FINE),
    ScriptLine(Own, Step, Board, Same, NOTHING_WAITS),
    ScriptLine(Own, Step, Other(2, None), Same, SMALL_PILE),
    ScriptLine(Own, Step, Board, RoleMore, OTHER_TERMS),
    ScriptLine(Own, Lower, Board, Same, FINE),
    ScriptLine(Foreign, Take, Other(3, Some(0)), Same, NOT_QUEUED),
    ScriptLine(Own, Recheck, Board, ConceptMore, OTHER_TERMS),
    ScriptLine(Own, Recheck, Board, RoleMore, OTHER_TERMS),
    ScriptLine(Own, Recheck, Other(2, None), Same, SMALL_PILE),
    ScriptLine(Own, Recheck, Other(2, None), RoleMore, OTHER_TERMS),
    ScriptLine(Own, Recheck, Board, Same, FINE),
    ScriptLine(Own, Run, Board, RoleMore, OTHER_TERMS),
    ScriptLine(Own, Run, Board, Same, FINE),
    ScriptLine(Own, Take, Board, Same, EMPTY_PILE),
];

/// A token of a concept that the board lacks, and that is the last of the wider one.
pub static TOO_HIGH: [ScriptLine; 16] = [
    ScriptLine(Own, Take, Board, Same, FINE),
    ScriptLine(Foreign, Take, WideFrom(3), ConceptMore, FINE),
    ScriptLine(Foreign, Step, Board, Same, UNFIT),
    ScriptLine(Foreign, Step, Other(2, None), Same, SMALL_PILE),
    ScriptLine(Foreign, Step, Board, RoleMore, OTHER_TERMS),
    ScriptLine(Foreign, Step, Board, ConceptMore, OTHER_TERMS),
    ScriptLine(Foreign, Lower, Board, Same, UNFIT),
    ScriptLine(Foreign, Lower, Wide, ConceptMore, FINE),
    ScriptLine(Foreign, Recheck, Board, Same, UNFIT),
    ScriptLine(Foreign, Recheck, Other(2, None), Same, SMALL_PILE),
    ScriptLine(Foreign, Recheck, Other(2, None), RoleMore, OTHER_TERMS),
    ScriptLine(Foreign, Recheck, Board, ConceptMore, OTHER_TERMS),
    ScriptLine(Foreign, Recheck, Wide, ConceptMore, FINE),
    ScriptLine(Own, Lower, Board, Same, FINE),
    ScriptLine(Own, Recheck, Board, Same, FINE),
    ScriptLine(Own, Run, Board, Same, FINE),
];

/// A token of a concept that is queued on the board, and later idle without a waiting job.
pub static NOT_HELD: [ScriptLine; 11] = [
    ScriptLine(Own, Take, Board, Same, FINE),
    ScriptLine(Foreign, Take, WideFrom(1), ConceptMore, FINE),
    ScriptLine(Foreign, Step, Board, Same, UNFIT),
    ScriptLine(Foreign, Lower, Board, Same, UNFIT),
    ScriptLine(Own, Lower, Board, Same, FINE),
    ScriptLine(Own, Recheck, Board, Same, FINE),
    ScriptLine(Own, Run, Board, Same, FINE),
    ScriptLine(Foreign, Step, Board, Same, UNFIT),
    ScriptLine(Foreign, Lower, Board, Same, UNFIT),
    ScriptLine(Foreign, Lower, Wide, ConceptMore, FINE),
    ScriptLine(Foreign, Recheck, Other(3, None), Same, FINE),
];

/// Tokens of two boards that name one concept, each spent on the other board.
pub static EXCHANGED: [ScriptLine; 10] = [
    ScriptLine(Own, Take, Board, Same, FINE),
    ScriptLine(Foreign, Take, Wide, ConceptMore, FINE),
    ScriptLine(Foreign, Step, Board, Same, FINE),
    ScriptLine(Foreign, Lower, Board, Same, FINE),
    ScriptLine(Own, Step, Board, Same, UNFIT),
    ScriptLine(Own, Lower, Board, Same, UNFIT),
    ScriptLine(Foreign, Recheck, Board, Same, FINE),
    ScriptLine(Own, Lower, Wide, ConceptMore, FINE),
    ScriptLine(Own, Recheck, Wide, ConceptMore, FINE),
    ScriptLine(Own, Run, Board, Same, FINE),
];
