ghost use Rattle.std.specs.Prelude.{◌≡◌, Ok};
ghost use Rattle.roll_table.specs.Rolls.{Dice, IsRoll};
ghost use Rattle.roll_table.specs.Text.{read_roll, roll_text};

/// Reading what a roll prints gives the roll back.
pub fn printed_rolls_are_read()
    ensures { (roll : Dice) → IsRoll roll → read_roll (roll_text roll) ≡ Ok roll }
{}
