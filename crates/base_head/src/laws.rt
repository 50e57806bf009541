ghost use Rattle.std.specs.Prelude.{◌≡◌, ◌↔◌, ◌∷◌, [], ℕ, List, None, length};
ghost use Rattle.word_pages.specs.declared.version.Version.{Version};
ghost use Rattle.word_pages.specs.declared.version.Version.TheVariants.{One, Two, Three};
ghost use Rattle.word_pages.specs.Pages.{AreBytes};
ghost use Rattle.base_head.specs.Examples.{cubeless_header};
ghost use Rattle.base_head.specs.Fronts.{digest_in, head_digest, head_in};
ghost use Rattle.base_head.specs.FrontTexts.{IsFront, front_fault};
ghost use Rattle.base_head.specs.HeaderFaults.{fields_of, header_in};
ghost use Rattle.base_head.specs.Heads.{FileHead};
ghost use Rattle.base_head.specs.Headers.{IsSince, file_length, header_of, spelled, text_length};

/// Nothing is wrong with bytes before the pages exactly where they begin with the front of a version that
/// is read and a head, and are as long as the text of these. The header, the head and its digest are read
/// back then.
pub fn fronts_are_read_back()
    ensures exactly { (oldest : Version) (bytes : List ℕ) → AreBytes bytes
        → (front_fault oldest (length bytes) bytes ≡ None)
        ↔ ((version : Version) × (head : FileHead) × IsSince oldest version
        × IsFront version head bytes × (length bytes ≡ text_length version head)) }
    ensures read { (version : Version) (head : FileHead) (bytes : List ℕ)
        → IsFront version head bytes
        → (header_in (fields_of bytes) ≡ header_of version head)
        × (head_in (header_of version head) bytes ≡ head)
        × (digest_in (header_of version head) bytes ≡ head_digest version head) }
{}

/// The file of one checker without a cube after 8 rounds.
pub fn header_examples()
    ensures spelled { spelled (cubeless_header Three)
        ≡ 72 ∷ 89 ∷ 80 ∷ 71 ∷ 65 ∷ 77 ∷ 77 ∷ 78 ∷ 0 ∷ 0 ∷ 0 ∷ 3 ∷ 0 ∷ 0 ∷ 0 ∷ 1
        ∷ 0 ∷ 0 ∷ 0 ∷ 0 ∷ 0 ∷ 0 ∷ 0 ∷ 0 ∷ 0 ∷ 0 ∷ 0 ∷ 0 ∷ 0 ∷ 0 ∷ 0 ∷ 0
        ∷ 0 ∷ 0 ∷ 0 ∷ 0 ∷ 0 ∷ 0 ∷ 0 ∷ 1 ∷ 0 ∷ 0 ∷ 0 ∷ 8 ∷ 0 ∷ 0 ∷ 0 ∷ 0
        ∷ 0 ∷ 0 ∷ 0 ∷ 0 ∷ 0 ∷ 0 ∷ 2 ∷ 89 ∷ 0 ∷ 0 ∷ 0 ∷ 0 ∷ 0 ∷ 0 ∷ 0 ∷ 0 ∷ [] }
    ensures one { file_length (cubeless_header One) ≡ 9744 }
    ensures two { file_length (cubeless_header Two) ≡ 6138 }
    ensures three { file_length (cubeless_header Three) ≡ 6138 }
{}
