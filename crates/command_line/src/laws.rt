ghost use Rattle.std.specs.Prelude.{IfOk, List};
ghost use Rattle.word_forms.specs.Form.{Bytes};
ghost use Rattle.command_line.specs.Words.{reading};
ghost use Rattle.command_line.specs.Right.{IsRightCommand};

/// A command that words ask for has its numbers within their limits, names of files of 1 to 255 bytes, a live position, and a roll
/// of two dice if one is given.
pub fn commands_are_right()
    ensures { (words : List Bytes) → IfOk (reading words) IsRightCommand }
{}
