ghost use Rattle.std.specs.Prelude.{◌≡◌, ℕ, ◌+◌, ◌-◌, ◌<◌, ◌≤◌, List, sum};
ghost use Rattle.position_rank.specs.Placement.{Placement, IsLayout, IsPosition};
ghost use Rattle.position_rank.specs.Ranks.{choose, layouts, rank_of, square_rank_of};

/// How many layouts there are of one to three checkers.
#[inline]
pub fn layout_count(checkers: u8) -> u32
    requires low { 1 ≤ checkers }
    requires high { checkers ≤ 3 }
    ensures count { result ≡ layouts checkers }
    ensures small { result ≤ 3276 }
{
    match checkers {
        1 => 26,
        2 => 351,
        _ => 3276,
    }
}

/// In how many ways one to three things can be chosen of `place + number - 1`.
#[inline]
pub(crate) fn ways(place: u8, number: u8) -> u32
    requires place { place ≤ 25 }
    requires low { 1 ≤ number }
    requires high { number ≤ 3 }
    ensures ways { result ≡ choose (place + number - 1) number }
    ensures small { result ≤ 2925 }
{
    let place = u32::from(place);
    match number {
        1 => place,
        2 => place * (place + 1) / 2,
        _ => place * (place + 1) * (place + 2) / 6,
    }
}

/// The highest place whose ways are at most this number.
pub(crate) fn top_place(rank: u32, number: u8) -> u8
    requires low { 1 ≤ number }
    requires high { number ≤ 3 }
    requires rank { rank < choose (25 + number) number }
    ensures place { result ≤ 25 }
    ensures from { choose (result + number - 1) number ≤ rank }
    ensures to { rank < choose (result + number) number }
{
    let mut place = 25;
    while ways(place, number) > rank {
        place -= 1;
    }
    place
}

/// Layouts of as many checkers and of equal rank are the same.
pub fn ranks_tell_layouts()
    ensures { (a b : List ℕ) → IsLayout a → IsLayout b → sum a ≡ sum b
        → rank_of a ≡ rank_of b → a ≡ b }
{}

/// Positions of as many checkers and of equal square rank are the same.
pub fn square_ranks_tell_positions()
    ensures { (p q : Placement) → IsPosition p → IsPosition q
        → sum p.mover ≡ sum q.mover → square_rank_of p ≡ square_rank_of q → p ≡ q }
{}
