ghost use Rattle.std.specs.Prelude.{◌≡◌, ◌+◌, ℕ, List, All, length};
ghost use Rattle.std.specs.List.{range_with_len};
ghost use Rattle.plain_record.specs.Plain.{line_numbers, plain_text};
ghost use Rattle.plain_record.specs.PlainLines.{IsPlainLine, ended_lines};

/// The text of plain lines is read as itself, with the lines 1, 2, 3 and so on.
pub fn plain_lines_stay()
    ensures text { (list : List (List ℕ)) → All IsPlainLine list
        → plain_text (ended_lines list) ≡ ended_lines list }
    ensures lines { (list : List (List ℕ)) → All IsPlainLine list
        → line_numbers (ended_lines list) ≡ range_with_len 0 (length list + 2) }
{}
