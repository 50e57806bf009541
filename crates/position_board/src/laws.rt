ghost use Rattle.std.specs.Prelude.{◌≡◌, [], ◌∷◌};
ghost use Rattle.position_rank.specs.Examples.{placed, off, bar};
ghost use Rattle.position_rank.specs.Packed.{start_placement};
ghost use Rattle.position_board.specs.Boards.{board_text};
ghost use Rattle.position_board.specs.Examples.{entering_board, hit_board, start_board};

/// Boards that were drawn by hand.
pub fn boards_are_as_drawn()
    ensures start { board_text (start_placement 3) ≡ start_board }
    ensures entering { board_text (placed (bar ∷ 6 ∷ off ∷ []) (2 ∷ 2 ∷ off ∷ []))
        ≡ entering_board }
    ensures hit { board_text (placed (13 ∷ 13 ∷ 7 ∷ []) (bar ∷ bar ∷ off ∷ [])) ≡ hit_board }
{}
