ghost use Rattle.std.specs.Prelude.{◌≡◌, map};
ghost use Rattle.cube_actions.specs.declared.name.StakesName.TheVariants.{Unlimited};
ghost use Rattle.cube_actions.specs.Names.{every_name, name_of, names_of, same_name, money_names};
ghost use Rattle.cube_actions.specs.MatchKinds.{match_kinds};

use crate::match_kind::{MatchKind, every_kind, match_kinds};
use crate::name::{KindName, MoneyRule, StakesName};
use crate::score::Score;
use arrayvec::ArrayVec;

impl KindName {
    pub(crate) fn is(self, other: KindName) -> bool
        ensures { result ≡ same_name self other }
    {
        self == other
    }
}

impl MatchKind {
    fn name(self) -> KindName
        ensures { result ≡ name_of self }
    {
        KindName::InMatch {
            mover: self.mover,
            cube: self.cube,
            owner: self.owner,
        }
    }
}

/// The names of the kinds of a game for these stakes, by their numbers.
pub(crate) fn names_of(stakes: StakesName) -> ArrayVec<KindName, 14>
    ensures { result.items ≡ names_of stakes }
{
    match stakes {
        StakesName::Unlimited(rule) => rule_names(rule),
        StakesName::Match(score) => match_names(score),
    }
}

fn rule_names(rule: MoneyRule) -> ArrayVec<KindName, 14>
    ensures { result.items ≡ names_of (Unlimited rule) }
{
    match rule {
        MoneyRule::Cubeless => {
            let mut names = ArrayVec::new();
            names.push(KindName::Alone);
            names
        }
        _ => money_names(),
    }
}

fn money_names() -> ArrayVec<KindName, 14>
    ensures { result.items ≡ money_names }
{
    let mut names = ArrayVec::new();
    names.push(KindName::Centred);
    names.push(KindName::Mine);
    names.push(KindName::Theirs);
    names
}

fn match_names(score: Score) -> ArrayVec<KindName, 14>
    ensures { result.items ≡ map name_of (match_kinds score) }
{
    let mut names = ArrayVec::new();
    for kind in match_kinds(score).as_slice() {
        names.push(kind.name());
    }
    names
}

/// The names of all kinds: those of games without a match, and those of a match.
pub fn every_name() -> ArrayVec<KindName, 18>
    ensures { result.items ≡ every_name }
{
    let mut names = ArrayVec::new();
    names.push(KindName::Alone);
    names.push(KindName::Centred);
    names.push(KindName::Mine);
    names.push(KindName::Theirs);
    for kind in every_kind() {
        names.push(kind.name());
    }
    names
}
