ghost use Rattle.std.specs.Prelude.{◌≡◌, ◌<◌, ◌≤◌, ℕ, length};
ghost use Rattle.cube_actions.specs.Stakes.{IsValid, kind_at};

use crate::kind::Kind;
use crate::name::StakesName;
use arrayvec::ArrayVec;
use directed_fixed::Fixed;
use std::marker::Model;

mod kind_names;
mod matches;
mod money;

/// What a game is played for: 1 to 14 kinds of state, and a bound of all values.
/// Kind numbers are in range, factors are 1, 2 or 4, and all pairs lie within the bound.
#[derive(Drop)]
pub struct Stakes {
    kinds: ArrayVec<Kind, 14>,
    bound: Fixed,
    name: StakesName,
}

impl Model for Stakes {
    ghost use Rattle.cube_actions.specs.Names.{AreStakes};
    ghost use Rattle.cube_actions.specs.Stakes.{Terms};

    ghost Value = { Terms };

    ghost view = { λ a. record { kinds = a.kinds.items; bound = a.bound; name = a.name } };

    ghost invariant = { λ a. AreStakes (record {
      kinds = a.kinds.items;
      bound = a.bound;
      name = a.name;
    }) };
}

impl Stakes {
    ghost use Rattle.cube_actions.specs.Names.{names_of};

    /// How many kinds of state there are.
    pub fn kinds(&self) -> usize
        ensures kinds { result ≡ length self.now.kinds }
        ensures few { result ≤ 14 }
        ensures named { result ≡ length (names_of self.now.name) }
        ensures valid { IsValid self.now }
    {
        self.kinds.len()
    }

    /// The kind of a number.
    pub fn kind(&self, number: usize) -> &Kind
        requires { number < length self.now.kinds }
        ensures kind { result.now ≡ kind_at self.now number }
        ensures valid { IsValid self.now }
    {
        &self.kinds[number]
    }

    /// The bound of all values, on both sides of 0.
    pub fn bound(&self) -> Fixed
        ensures bound { result ≡ self.now.bound }
        ensures valid { IsValid self.now }
    {
        self.bound
    }

    /// Which stakes these are.
    pub fn name(&self) -> StakesName
        ensures { result ≡ self.now.name }
    {
        self.name
    }

    /// The same stakes.
    pub fn copied(&self) -> Stakes
        ensures { result ≡ self.now }
    {
        let mut kinds = ArrayVec::new();
        for kind in self.kinds.as_slice() {
            kinds.push(kind.copied());
        }
        Stakes {
            kinds,
            bound: self.bound,
            name: self.name,
        }
    }
}
