ghost use Rattle.std.specs.Prelude.{◌≡◌, ◌≤◌, [], ◌∷◌, length};
ghost use Rattle.cube_actions.specs.Money.{all_count, all_single, alone, cube_kinds, double_of, kinds_by};

use crate::kind::{Double, Kind, Taken};
use crate::name::{MoneyRule, StakesName};
use crate::stakes::Stakes;
use arrayvec::ArrayVec;
use directed_fixed::{Fixed, Pair};

// The kinds' numbers.
const CENTRED: usize = 0;

const MINE: usize = 1;

const THEIRS: usize = 2;

const TAKE: Taken = Taken {
    kind: THEIRS,
    factor: 2,
};

const BEAVER: Taken = Taken {
    kind: THEIRS,
    factor: 4,
};

impl Stakes {
    ghost use Rattle.cube_actions.specs.Money.{unlimited};

    /// What games are played for by a rule of money. Without a cube there is one kind. Else kind 0 has the cube centred, 1 on the
    /// mover's side, 2 on the other.
    pub fn unlimited(rule: MoneyRule) -> Stakes
        ensures { result ≡ unlimited rule }
    {
        Stakes {
            kinds: kinds_by(rule),
            bound: Fixed::whole(3),
            name: StakesName::Unlimited(rule),
        }
    }
}

fn kinds_by(rule: MoneyRule) -> ArrayVec<Kind, 14>
    ensures { result.items ≡ kinds_by rule }
{
    match rule {
        MoneyRule::Cubeless => alone_kinds(),
        MoneyRule::Money => cube_kinds(full_wins(), &[TAKE]),
        MoneyRule::Jacoby => cube_kinds(single_wins(), &[TAKE]),
        MoneyRule::MoneyBeavers => cube_kinds(full_wins(), &[TAKE, BEAVER]),
        MoneyRule::JacobyBeavers => cube_kinds(single_wins(), &[TAKE, BEAVER]),
    }
}

/// The one kind of a game without a cube.
fn alone_kinds() -> ArrayVec<Kind, 14>
    ensures { result.items ≡ alone ∷ [] }
{
    let mut kinds = ArrayVec::new();
    kinds.push(Kind {
        next: 0,
        win: full_wins(),
        double: None,
    });
    kinds
}

fn full_wins() -> [Pair; 3]
    ensures { result ≡ all_count }
{
    [
        Pair::exactly(Fixed::whole(1)),
        Pair::exactly(Fixed::whole(2)),
        Pair::exactly(Fixed::whole(3)),
    ]
}

fn single_wins() -> [Pair; 3]
    ensures { result ≡ all_single }
{
    [Pair::exactly(Fixed::whole(1)); 3]
}

fn cube_kinds(centred_wins: [Pair; 3], answers: &[Taken]) -> ArrayVec<Kind, 14>
    requires { length answers.now ≤ 2 }
    ensures kinds { result.items ≡ cube_kinds centred_wins answers.now }
{
    let owned = |next, double| Kind {
        next,
        win: full_wins(),
        double,
    };
    let mut kinds = ArrayVec::new();
    kinds.push(Kind {
        next: CENTRED,
        win: centred_wins,
        double: Some(double_of(answers)),
    });
    kinds.push(owned(THEIRS, Some(double_of(answers))));
    kinds.push(owned(MINE, None));
    kinds
}

/// A double that a pass ends for a point.
fn double_of(answers: &[Taken]) -> Double
    requires { length answers.now ≤ 2 }
    ensures { result ≡ double_of answers.now }
{
    let mut list = ArrayVec::new();
    for taken in answers {
        list.push(*taken);
    }
    Double {
        pass: Pair::exactly(Fixed::whole(1)),
        answers: list,
    }
}
