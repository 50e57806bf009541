ghost use Rattle.std.specs.Prelude.{◌≡◌, ◌≤◌, None};
ghost use Rattle.std.specs.List.{position_or_len};
ghost use Rattle.cube_actions.specs.declared.side.Side.TheVariants.{Near};
ghost use Rattle.cube_actions.specs.MatchKinds.{every_kind, match_kinds, same_kind, kind_after_play, after_take, kind_may_double, can_come, can_own};

use crate::phase::Phase;
use crate::score::Score;
use crate::side::Side;
use arrayvec::ArrayVec;

/// A kind of state in a match: who moves, and where the cube is.
#[derive(Clone, Copy, PartialEq, Eq)]
pub(crate) struct MatchKind {
    pub(crate) mover: Side,
    /// What the cube shows: 1, 2, 4 or 8.
    pub(crate) cube: u8,
    /// `None` where the cube is centred.
    pub(crate) owner: Option<Side>,
}

impl Default for MatchKind {
    ghost is_default = { λ kind. kind ≡ record { mover = Near; cube = 1; owner = None } };

    fn default() -> Self {
        MatchKind {
            mover: Side::Near,
            cube: 1,
            owner: None,
        }
    }
}

/// All kinds, in the order of their numbers.
pub(crate) fn every_kind() -> [MatchKind; 14]
    ensures { result ≡ every_kind }
{
    use Side::{Far, Near};
    let kind = |mover, cube, owner| MatchKind { mover, cube, owner };
    [
        kind(Near, 1, None),
        kind(Far, 1, None),
        kind(Near, 2, Some(Near)),
        kind(Far, 2, Some(Near)),
        kind(Near, 2, Some(Far)),
        kind(Far, 2, Some(Far)),
        kind(Near, 4, Some(Near)),
        kind(Far, 4, Some(Near)),
        kind(Near, 4, Some(Far)),
        kind(Far, 4, Some(Far)),
        kind(Near, 8, Some(Near)),
        kind(Far, 8, Some(Near)),
        kind(Near, 8, Some(Far)),
        kind(Far, 8, Some(Far)),
    ]
}

/// The kinds that can come at a score, in order.
pub(crate) fn match_kinds(score: Score) -> ArrayVec<MatchKind, 14>
    ensures { result.items ≡ match_kinds score }
{
    let mut kinds = ArrayVec::new();
    for kind in every_kind() {
        if kind.can_come(score) {
            kinds.push(kind);
        }
    }
    kinds
}

/// The number of a kind among those of a score, or how many there are where it can't come.
pub(crate) fn number_in(kinds: &[MatchKind], kind: MatchKind) -> usize
    ensures { result ≡ position_or_len (same_kind kind) kinds.now }
{
    kinds
        .iter()
        .position(|other| kind.is(*other))
        .unwrap_or(kinds.len())
}

impl MatchKind {
    /// The kind after the mover's play.
    pub(crate) fn after_play(self) -> MatchKind
        ensures { result ≡ kind_after_play self }
    {
        MatchKind {
            mover: self.mover.other(),
            cube: self.cube,
            owner: self.owner,
        }
    }

    /// The kind in which the mover rolls after a double and a take.
    pub(crate) fn after_take(self) -> MatchKind
        requires { self.cube ≤ 8 }
        ensures { result ≡ after_take self }
    {
        MatchKind {
            mover: self.mover,
            cube: 2 * self.cube,
            owner: Some(self.mover.other()),
        }
    }

    /// Whether the mover may double at this score.
    pub(crate) fn may_double(self, score: Score) -> bool
        ensures { result ≡ kind_may_double score self }
    {
        let may_turn = match self.owner {
            None => true,
            Some(owner) => owner == self.mover,
        };
        score.phase != Phase::Crawford && may_turn && self.cube < score.needs(self.mover)
    }

    fn can_come(self, score: Score) -> bool
        ensures { result ≡ can_come score self }
    {
        match self.owner {
            None => true,
            Some(owner) => score.phase != Phase::Crawford && can_own(score, self.cube, owner),
        }
    }

    fn is(self, other: MatchKind) -> bool
        ensures { result ≡ same_kind self other }
    {
        self == other
    }
}

/// Whether a side can come to own the cube at 2, 4 or 8 by doubles and takes.
fn can_own(score: Score, cube: u8, owner: Side) -> bool
    ensures { result ≡ can_own score cube owner }
{
    let own = score.needs(owner);
    let others = score.needs(owner.other());
    match cube {
        2 => others > 1,
        4 => others > 2 && own > 1,
        _ => others > 4 && own > 2 && others > 1,
    }
}
