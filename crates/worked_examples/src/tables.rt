ghost use Rattle.std.specs.Prelude.{◌≡◌, [], ◌∷◌};
ghost use Rattle.position_rank.specs.Examples.{placed, off};
ghost use Rattle.turn_rule.specs.Layouts.{squares_of};
ghost use Rattle.plain_table.specs.Tables.{table_place};

/// How many squares there are of one, two and three checkers a side, and where the pairs of a
/// position stand: its mover's layout is the 22nd of 351, its other side's the second, and each
/// square has a pair for each kind.
pub fn table_examples()
    ensures one { squares_of 1 ≡ 676 }
    ensures two { squares_of 2 ≡ 123201 }
    ensures three { squares_of 3 ≡ 10732176 }
    ensures one_kind { table_place 1 (placed (6 ∷ off ∷ []) (1 ∷ off ∷ [])) 0 ≡ 7372 }
    ensures fourth_of_14_kinds { table_place 14 (placed (6 ∷ off ∷ []) (1 ∷ off ∷ [])) 3 ≡ 103211 }
{}
