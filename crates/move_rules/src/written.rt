ghost use Rattle.std.specs.Prelude.{◌≡◌, ◌≤◌, ◌<◌, false};

use arrayvec::ArrayVec;

/// A move as it is written, from a place of 1 to 25 to a lower one, which is 0 for off, with the mark of a hit.
#[derive(Clone, Copy)]
pub struct Step {
    pub from: u8,
    pub to: u8,
    pub hit: bool,
    pub ghost within: { from ≤ 25 },
    pub ghost falls: { to < from },
}

impl Default for Step {
    ghost is_default = { λ step. (step.from ≡ 1) × (step.to ≡ 0) × (step.hit ≡ false) };

    /// From 1 off.
    fn default() -> Self {
        Step {
            from: 1,
            to: 0,
            hit: false,
        }
    }
}

/// The steps of a play in their order.
pub type Written = ArrayVec<Step, 4>;
