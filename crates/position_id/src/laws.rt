ghost use Rattle.std.specs.Prelude.{◌≡◌, [], ◌∷◌, Ok, codes};
ghost use Rattle.position_rank.specs.Examples.{placed, off, bar};
ghost use Rattle.position_rank.specs.Packed.{start_placement};
ghost use Rattle.position_rank.specs.Placement.{Placement, IsPosition, IsLive};
ghost use Rattle.position_id.specs.Ids.{HasAllOnBoard, id_text};
ghost use Rattle.position_id.specs.Readings.{read_id};

/// IDs that GNU Backgammon printed.
pub fn ids_are_as_printed()
    ensures three { id_text (start_placement 3) ≡ codes "AACgAgAAKgAAAA" }
    ensures two { id_text (start_placement 2) ≡ codes "AABAAQAACgAAAA" }
    ensures one { id_text (start_placement 1) ≡ codes "AACAAAAAAgAAAA" }
    ensures entering { id_text (placed (bar ∷ 6 ∷ off ∷ []) (2 ∷ 2 ∷ off ∷ []))
        ≡ codes "BgAAAAEAEAAAAA" }
    ensures hit { id_text (placed (13 ∷ 13 ∷ 7 ∷ []) (bar ∷ bar ∷ off ∷ []))
        ≡ codes "AAAAAwIDAAAAAA" }
    ensures barred { id_text (placed (bar ∷ bar ∷ bar ∷ []) (bar ∷ 24 ∷ 23 ∷ []))
        ≡ codes "AABABQAAcAAAAA" }
    ensures mover_barred { id_text (placed (bar ∷ []) (1 ∷ [])) ≡ codes "AQAAAAAABAAAAA" }
    ensures other_barred { id_text (placed (1 ∷ []) (bar ∷ [])) ≡ codes "AAAABQAAAAAAAA" }
    ensures off { id_text (placed (1 ∷ off ∷ off ∷ []) (5 ∷ 3 ∷ off ∷ []))
        ≡ codes "JAAACAAAAAAAAA" }
    ensures spread { id_text (placed (18 ∷ 9 ∷ 4 ∷ []) (22 ∷ 13 ∷ 3 ∷ []))
        ≡ codes "BCCAgCCAAAAAAA" }
{}

/// Reading what a live position prints gives the position back, where some side has no checker off.
pub fn printed_ids_are_read_back()
    ensures { (p : Placement) → IsPosition p → IsLive p → HasAllOnBoard p
        → read_id (id_text p) ≡ Ok p }
{}
