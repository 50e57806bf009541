ghost use Rattle.std.specs.Prelude.{◌≡◌, ◌≢◌, ◌≤◌, ◌<◌, ◌+◌, ◌-◌, ◌*◌, ◌^◌, ◌↔◌, ◌++◌, ◌∷◌, [], ℕ, ℤ, pos, neg_ℤ, ◌≤ℤ◌, List, All, Some, None, IsTrue, length, take, drop};
ghost use Rattle.hyper_outside.specs.declared.outside.PageFault.TheVariants.{Short, PageDigest, Word, Crossed};
ghost use Rattle.word_pages.specs.declared.version.Version.{Version};
ghost use Rattle.word_pages.specs.declared.version.Version.TheVariants.{One, Two, Three};
ghost use Rattle.word_pages.specs.Words.{word_size, Fits, word_text, words_bytes, words_in_bytes};
ghost use Rattle.word_pages.specs.Sealed.{AreTwins, binding_of, is_sealed_under, sealed_under};
ghost use Rattle.word_pages.specs.Flaws.{unpacked, pairs_flaw, LieWithin};
ghost use Rattle.word_pages.specs.Pages.{AreBytes, page_text, page_size, page_flaw, pages_from, pages_in, pages_text};

/// Words that fit are read back from their bytes, whatever stands behind these, and the words of bytes are written as these bytes.
pub fn words_and_bytes_are_each_others()
    ensures read { (version : Version) (words rest : List ℕ) → All (Fits version) words
        → words_in_bytes version (length words) (words_bytes version words ++ rest) ≡ words }
    ensures written { (version : Version) (count : ℕ) (bytes : List ℕ) → AreBytes bytes
        → word_size version * count ≤ length bytes
        → words_bytes version (words_in_bytes version count bytes)
        ≡ take (word_size version * count) bytes }
    ensures fit { (version : Version) (count : ℕ) (bytes : List ℕ) → AreBytes bytes
        → All (Fits version) (words_in_bytes version count bytes) }
{}

/// How many bytes words, pages and sealed bytes have, and how many words are read.
pub fn lengths_are_known()
    ensures words { (version : Version) (words : List ℕ)
        → length (words_bytes version words) ≡ word_size version * length words }
    ensures read { (version : Version) (count : ℕ) (bytes : List ℕ)
        → length (words_in_bytes version count bytes) ≡ count }
    ensures sealed { (binding bytes : List ℕ)
        → length (sealed_under binding bytes) ≡ length bytes + 32 }
    ensures page { (version : Version) (binding words : List ℕ)
        → length (page_text version binding words) ≡ page_size version (length words) }
    ensures pages { (version : Version) (digest : List ℕ) (size : ℕ) (words : List ℕ) → 0 < size
        → length (pages_text version digest size words)
        ≡ word_size version * length words + 32 * pages_in size (length words) }
{}

/// Sealed bytes are told from others, and are the sealed text of one list of bytes alone, whatever these
/// are bound to.
pub fn sealed_bytes_are_sealed()
    ensures told { (binding bytes : List ℕ)
        → IsTrue (is_sealed_under binding (sealed_under binding bytes)) }
    ensures one { (binding other bytes others : List ℕ)
        → sealed_under binding bytes ≡ sealed_under other others → bytes ≡ others }
{}

/// In version 3 a page can't be taken for that of another place or another head. Where one and the same
/// page has no flaw for two bindings that differ, these bindings, each before the page's pairs, are two
/// different texts with the same SHA-256. Bindings are the same only where the digests of the heads are
/// and the numbers of the pages.
pub fn pages_are_bound()
    ensures pages { (version : Version) (binding other : List ℕ) (bound other_bound : ℤ)
        (count at other_at : ℕ) (bytes : List ℕ)
        → page_flaw version binding bound count at bytes ≡ None
        → page_flaw version other other_bound count other_at bytes ≡ None → binding ≢ other
        → AreTwins (binding ++ take (word_size version * count) bytes)
        (other ++ take (word_size version * count) bytes) }
    ensures bindings { (digest other : List ℕ) (number other_number : ℕ)
        → length digest ≡ length other → number < 2 ^ 64 → other_number < 2 ^ 64
        → binding_of Three digest number ≡ binding_of Three other other_number
        → (digest ≡ other) × (number ≡ other_number) }
{}

/// Pairs have no flaw exactly where each lies within the bound, and their words fit in each version then.
pub fn right_pairs_are_within()
    ensures exactly { (version : Version) (bound : ℤ) (at : ℕ) (words : List ℕ)
        → (pairs_flaw version bound at words ≡ None) ↔ LieWithin bound words }
    ensures fit { (version : Version) (bound : ℤ) (count : ℕ) (words : List ℕ)
        → bound ≤ℤ pos (2 ^ 36) → length words ≡ 2 * count → LieWithin bound words
        → All (Fits version) words }
{}

/// Bytes of a page's length have no flaw exactly where they are the page of the words that they hold, and these lie within the
/// bound. What stands behind a page doesn't matter.
pub fn right_pages_are_texts()
    ensures exactly { (version : Version) (binding : List ℕ) (bound : ℤ) (count at : ℕ)
        (bytes : List ℕ) → AreBytes bytes → length bytes ≡ page_size version count
        → (page_flaw version binding bound count at bytes ≡ None)
        ↔ ((bytes ≡ page_text version binding (words_in_bytes version count bytes))
        × LieWithin bound (words_in_bytes version count bytes)) }
    ensures page { (version : Version) (binding : List ℕ) (bound : ℤ) (at : ℕ) (words rest : List ℕ)
        → All (Fits version) words → LieWithin bound words
        → page_flaw version binding bound (length words) at
        (page_text version binding words ++ rest) ≡ None }
    ensures front { (version : Version) (binding : List ℕ) (bound : ℤ) (count at : ℕ)
        (bytes : List ℕ)
        → page_flaw version binding bound count at (take (page_size version count) bytes)
        ≡ page_flaw version binding bound count at bytes }
{}

/// From the place of a page on stand that page, bound to its number, and then the pages of the words behind
/// it, with the numbers from the next one on.
pub fn pages_stand_in_order()
    ensures { (version : Version) (digest : List ℕ) (size : ℕ) (words : List ℕ) (page : ℕ)
        → 0 < size → page < pages_in size (length words)
        → drop (page * page_size version size) (pages_text version digest size words)
        ≡ page_text version (binding_of version digest page) (take size (drop (page * size) words))
        ++ pages_from version digest size (page + 1) (drop ((page + 1) * size) words) }
{}

/// Three points lost, three won, one and two, and the pair of one point, as the words of files have them.
pub fn word_examples()
    ensures lost { unpacked 0xd00000000 ≡ neg_ℤ (pos (3 * 2 ^ 32)) }
    ensures lost_in_8 { word_text One 0xd00000000 ≡ 0 ∷ 0 ∷ 0 ∷ 0xd ∷ 0 ∷ 0 ∷ 0 ∷ 0 ∷ [] }
    ensures lost_in_5 { word_text Two 0xd00000000 ≡ 0xd ∷ 0 ∷ 0 ∷ 0 ∷ 0 ∷ [] }
    ensures won { unpacked 0x1300000000 ≡ pos (3 * 2 ^ 32) }
    ensures won_in_8 { word_text One 0x1300000000 ≡ 0 ∷ 0 ∷ 0 ∷ 0x13 ∷ 0 ∷ 0 ∷ 0 ∷ 0 ∷ [] }
    ensures won_in_5 { word_text Two 0x1300000000 ≡ 0x13 ∷ 0 ∷ 0 ∷ 0 ∷ 0 ∷ [] }
    ensures third { unpacked 0xd2aaaaaaa ≡ neg_ℤ (pos 12169074006) }
    ensures third_in_5 { word_text Two 0xd2aaaaaaa ≡ 0xd ∷ 0x2a ∷ 0xaa ∷ 0xaa ∷ 0xaa ∷ [] }
    ensures pair { words_bytes Two (0x1200000000 ∷ 0x1200000000 ∷ [])
        ≡ 0x12 ∷ 0 ∷ 0 ∷ 0 ∷ 0 ∷ 0x12 ∷ 0 ∷ 0 ∷ 0 ∷ 0 ∷ [] }
    ensures points { unpacked 0x1200000000 ≡ pos (2 * 2 ^ 32) }
{}

/// The first flaw of pairs with its place: the first word out of range comes before the order of the two, and a pair before the next.
pub fn flaw_examples()
    ensures lower { pairs_flaw Two (pos (3 * 2 ^ 32)) 96
        (0x1300000001 ∷ 0xcffffffff ∷ []) ≡ Some (record { fault = Word; at = 96 }) }
    ensures upper { pairs_flaw Two (pos (3 * 2 ^ 32)) 96
        (0x1300000000 ∷ 0xcffffffff ∷ []) ≡ Some (record { fault = Word; at = 101 }) }
    ensures order { pairs_flaw Two (pos (3 * 2 ^ 32)) 96
        (0x1300000000 ∷ 0xd00000000 ∷ []) ≡ Some (record { fault = Crossed; at = 96 }) }
    ensures next { pairs_flaw One (pos (3 * 2 ^ 32)) 96
        (0xd00000000 ∷ 0x1300000000 ∷ 0x1200000001 ∷ 0x1200000000 ∷ [])
        ≡ Some (record { fault = Crossed; at = 112 }) }
    ensures nothing { pairs_flaw One (pos (3 * 2 ^ 32)) 96
        (0xd00000000 ∷ 0x1300000000 ∷ 0x1200000000 ∷ 0x1200000000 ∷ []) ≡ None }
{}
