ghost use Rattle.std.specs.Prelude.{◌≡◌, ◌≤◌, ◌<◌, ℕ, max, min, IsSome, IfSome, IfOk, ◌↔◌};
ghost use Rattle.roll_table.specs.Rolls.{Dice, IsRoll, all_rolls, opening_rolls};
ghost use Rattle.roll_table.specs.Text.{read_roll, roll_text};

use arrayvec::ArrayString;
use std::marker::Model;

/// The numbers that two dice show, 1 to 6 each, in no order.
#[derive(Clone, Copy)]
pub struct Roll {
    high: u8,
    low: u8,
}

impl Model for Roll {
    ghost Value = { Dice };

    ghost view = { λ a. record { high = a.high; low = a.low } };

    ghost invariant = { λ a. IsRoll (record { high = a.high; low = a.low }) };

    ghost inverse = { λ d. record { high = d.high; low = d.low } };
}

impl Roll {
    /// The dice may come in either order. `None` exactly where one of them doesn't show 1 to 6.
    pub fn new(a: u8, b: u8) -> Option<Roll>
        ensures dice { IsSome result ↔ ((1 ≤ a) × (a ≤ 6) × (1 ≤ b) × (b ≤ 6)) }
        ensures value { IfSome result (λ roll. roll ≡ record { high = max a b; low = min a b }) }
    {
        if a < 1 || a > 6 || b < 1 || b > 6 {
            return None;
        }
        Some(Roll {
            high: a.max(b),
            low: a.min(b),
        })
    }

    /// The greater number.
    pub fn high(self) -> u8
        ensures high { result ≡ self.high }
        ensures valid { IsRoll self }
    {
        self.high
    }

    /// The smaller number, or the same.
    pub fn low(self) -> u8
        ensures low { result ≡ self.low }
        ensures valid { IsRoll self }
    {
        self.low
    }

    /// The roll that a text shows, as `41`: two digits from 1 to 6, the higher first.
    pub fn read(text: &str) -> Result<Roll, BadRoll>
        ensures text { result ≡ read_roll text.now }
        ensures valid { IfOk result IsRoll }
    {
        let &[first @ b'1'..=b'6', second @ b'1'..=b'6'] = text.as_bytes() else {
            return Err(BadRoll::Shape);
        };
        if first < second {
            return Err(BadRoll::Order);
        }
        Ok(Roll {
            high: first - b'0',
            low: second - b'0',
        })
    }

    /// The digit of the higher number, and then that of the lower.
    pub fn print(&self) -> ArrayString<2>
        ensures { result.bytes ≡ roll_text self.now }
    {
        let mut text = ArrayString::new();
        text.push(char::from(b'0' + self.high));
        text.push(char::from(b'0' + self.low));
        text
    }
}

/// Why a text isn't that of a roll.
#[derive(Clone, Copy)]
pub enum BadRoll {
    /// It isn't two digits from 1 to 6.
    Shape = 1,
    /// It is, and the first is smaller.
    Order = 2,
}

/// The 21 rolls, each with the number of ways in which two dice show it, by rising higher and then rising lower number.
#[tactic(auto, unfolding(crate::specs::Rolls::all_rolls))]
pub fn rolls() -> [(Roll, u64); 21]
    ensures { result ≡ all_rolls }
{
    [
        (Roll { high: 1, low: 1 }, 1),
        (Roll { high: 2, low: 1 }, 2),
        (Roll { high: 2, low: 2 }, 1),
        (Roll { high: 3, low: 1 }, 2),
        (Roll { high: 3, low: 2 }, 2),
        (Roll { high: 3, low: 3 }, 1),
        (Roll { high: 4, low: 1 }, 2),
        (Roll { high: 4, low: 2 }, 2),
        (Roll { high: 4, low: 3 }, 2),
        (Roll { high: 4, low: 4 }, 1),
        (Roll { high: 5, low: 1 }, 2),
        (Roll { high: 5, low: 2 }, 2),
        (Roll { high: 5, low: 3 }, 2),
        (Roll { high: 5, low: 4 }, 2),
        (Roll { high: 5, low: 5 }, 1),
        (Roll { high: 6, low: 1 }, 2),
        (Roll { high: 6, low: 2 }, 2),
        (Roll { high: 6, low: 3 }, 2),
        (Roll { high: 6, low: 4 }, 2),
        (Roll { high: 6, low: 5 }, 2),
        (Roll { high: 6, low: 6 }, 1),
    ]
}

/// The 15 rolls of unequal dice, in the same order.
#[tactic(auto, unfolding(crate::specs::Rolls::all_rolls, crate::specs::Rolls::opening_rolls))]
pub fn openings() -> [Roll; 15]
    ensures { result ≡ opening_rolls }
{
    [
        Roll { high: 2, low: 1 },
        Roll { high: 3, low: 1 },
        Roll { high: 3, low: 2 },
        Roll { high: 4, low: 1 },
        Roll { high: 4, low: 2 },
        Roll { high: 4, low: 3 },
        Roll { high: 5, low: 1 },
        Roll { high: 5, low: 2 },
        Roll { high: 5, low: 3 },
        Roll { high: 5, low: 4 },
        Roll { high: 6, low: 1 },
        Roll { high: 6, low: 2 },
        Roll { high: 6, low: 3 },
        Roll { high: 6, low: 4 },
        Roll { high: 6, low: 5 },
    ]
}
