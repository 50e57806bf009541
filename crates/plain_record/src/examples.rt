ghost use Rattle.std.specs.Prelude.{◌≡◌, ◌∷◌, [], codes};
ghost use Rattle.plain_record.specs.Plain.{line_numbers, line_read, plain_text};

/// What lines of plays are read as.
pub fn play_examples()
    ensures plain { line_read (codes "A 31 24/21 21/20") ≡ codes "A 31 24/21 21/20" }
    ensures moved_on { line_read (codes "A 43 24/21/17") ≡ codes "A 43 24/21 21/17" }
    ensures hit_between { line_read (codes "A 43 24/21*/17") ≡ codes "A 43 24/21* 21/17" }
    ensures hit_last { line_read (codes "A 43 bar/21/17*") ≡ codes "A 43 bar/21 21/17*" }
    ensures two { line_read (codes "B 66 24/18(2)") ≡ codes "B 66 24/18 24/18" }
    ensures two_hit { line_read (codes "B 66 24/18*(2)") ≡ codes "B 66 24/18* 24/18" }
    ensures four { line_read (codes "B 11 6/5*/4(2)") ≡ codes "B 11 6/5* 5/4 6/5 5/4" }
    ensures three { line_read (codes "B 22 6/4(3) 8/6") ≡ codes "B 22 6/4 6/4 6/4 8/6" }
{}

/// What is no play in such a form stays as it is.
pub fn line_examples()
    ensures none { line_read (codes "A 66 -") ≡ codes "A 66 -" }
    ensures five { line_read (codes "A 66 24/18(5)") ≡ codes "A 66 24/18(5)" }
    ensures no_step { line_read (codes "A 66 -(2)") ≡ codes "A 66 -(2)" }
    ensures no_place { line_read (codes "A 66 24/") ≡ codes "A 66 24/" }
    ensures spaces { line_read (codes "A 31  24/21 ") ≡ codes "A 31  24/21 " }
    ensures first { line_read (codes "24/21/17") ≡ codes "24/21/17" }
    ensures away { line_read (codes "game 2 away 3 1") ≡ codes "game 2 away 3 1" }
{}

/// What texts are read as, and the lines of these.
pub fn text_examples()
    ensures returns { plain_text (codes "game 1\r\nstop\r\n") ≡ codes "game 1\nstop\n" }
    ensures last { plain_text (codes "stop\nclose") ≡ codes "stop\nclose\n" }
    ensures silent { plain_text (codes "# by hand\n\nstop\n \t\nclose\n") ≡ codes "stop\nclose\n" }
    ensures lines { line_numbers (codes "# by hand\n\nstop\n \t\nclose\n")
        ≡ 0 ∷ 3 ∷ 5 ∷ 6 ∷ [] }
    ensures return_within { plain_text (codes "st\rop\n") ≡ codes "st\rop\n" }
    ensures nothing { plain_text [] ≡ [] }
{}
