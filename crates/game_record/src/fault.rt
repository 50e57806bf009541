use hyper_outside::NoMemory;
use move_rules::BadPlay;

/// What is wrong with a record. The last three are faults of the play and come from replaying alone.
#[derive(Clone, Copy)]
pub enum RecordFault {
    /// The line has none of the forms.
    Shape,
    /// A line of its form can't come there.
    Order,
    /// The number of checkers, the stakes or the length of the match isn't one that can be played.
    Rules,
    /// A number is out of range or not the next one, the roll is none, or the first roll is a double.
    Number,
    /// What was played is no play's text.
    Play,
    /// There are more than 1,048,576 bytes or more than 65,536 line ends.
    TooLong,
    /// The lines are right, and the text doesn't end with the line end of `close`.
    Unended,
    /// The play isn't legal, or its marks are wrong.
    IllegalPlay(BadPlay),
    /// A double or a beaver that the player has no right to.
    IllegalCube,
    /// The score, the winner or the points aren't those of the games.
    ScoreWrong,
}

/// The first wrong line of a record, counted from 1, and what is wrong with it. The line is 0 where the text is too long.
#[derive(Clone, Copy)]
pub struct BadRecord {
    pub line: u32,
    pub fault: RecordFault,
}

/// Why there is no record.
#[derive(Clone, Copy)]
pub enum RecordStop {
    Bad(BadRecord),
    NoMemory,
}

impl From<NoMemory> for RecordStop {
    ghost use Rattle.std.specs.Prelude.{◌≡◌};
    ghost use Rattle.game_record.specs.declared.fault.RecordStop.TheVariants.{NoMemory};

    ghost from_gives = { λ _ stop. stop ≡ NoMemory };

    fn from(_error: NoMemory) -> Self {
        RecordStop::NoMemory
    }
}

impl From<BadRecord> for RecordStop {
    ghost use Rattle.std.specs.Prelude.{◌≡◌};
    ghost use Rattle.game_record.specs.declared.fault.RecordStop.TheVariants.{Bad};

    ghost from_gives = { λ bad stop. stop ≡ Bad bad };

    fn from(bad: BadRecord) -> Self {
        RecordStop::Bad(bad)
    }
}
