ghost use Rattle.std.specs.Prelude.{◌≡◌, All, ◌-ℤ◌};
ghost use Rattle.std.specs.Int.{int_max};
ghost use Rattle.play_analyser.specs.Losses.{loss};
ghost use Rattle.play_analyser.specs.Sought.{IsNear};

use directed_fixed::{Fixed, Pair};

/// What a chosen pair is behind another one, if that is more than what it was behind so far.
#[inline]
fn behind(chosen: Pair, other: Pair, so_far: Pair) -> Pair
    requires chosen { IsNear chosen }
    requires other { IsNear other }
    ensures lower { result.lower ≡ int_max so_far.lower (other.lower -ℤ chosen.upper) }
    ensures upper { result.upper ≡ int_max so_far.upper (other.upper -ℤ chosen.lower) }
{
    let lower = other.lower().add(chosen.upper().neg());
    let upper = other.upper().add(chosen.lower().neg());
    Pair::new(so_far.lower().max(lower), so_far.upper().max(upper))
}

/// What the choice of a pair loses where the others could have been chosen.
pub(crate) fn loss_among(chosen: Pair, others: &[Pair]) -> Pair
    requires chosen { IsNear chosen }
    requires others { All IsNear others.now }
    ensures { result ≡ loss (record { chosen = chosen; others = others.now }) }
{
    let mut behind_by = Pair::exactly(Fixed::whole(0));
    for other in others {
        behind_by = behind(chosen, *other, behind_by);
    }
    behind_by
}
