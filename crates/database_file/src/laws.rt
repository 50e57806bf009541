ghost use Rattle.std.specs.Prelude.{◌≡◌, ◌⊎◌, ◌<◌, ◌+◌, ◌*◌, ◌^◌, ◌↔◌, ◌++◌, [], ℕ, List, All, None, ◌≤ℤ◌, drop, length, true, Some, ℤ, pos};
ghost use Rattle.std.specs.Io.{StartsWith};
ghost use Rattle.word_pages.specs.declared.version.Version.{Version};
ghost use Rattle.word_pages.specs.declared.version.Version.TheVariants.{Three};
ghost use Rattle.word_pages.specs.Sealed.{AreTwins};
ghost use Rattle.word_pages.specs.Words.{Fits, word_size};
ghost use Rattle.word_pages.specs.Flaws.{LieWithin};
ghost use Rattle.word_pages.specs.Pages.{AreBytes, pages_text};
ghost use Rattle.interval_words.specs.WordLists.{AreRight, WordList, list_of};
ghost use Rattle.base_head.specs.Fronts.{digest_in, head_in};
ghost use Rattle.base_head.specs.Heads.{FileHead};
ghost use Rattle.base_head.specs.Headers.{IsHeader, IsSince, front_length, magic};
ghost use Rattle.database_file.specs.declared.pages.Pages.{Pages};
ghost use Rattle.database_file.specs.Texts.{IsText, game_in, words_a_page};
ghost use Rattle.database_file.specs.Faults.{fault_from, file_fault, header_of_file, pages_behind, pages_in_file, whole};
ghost use Rattle.database_file.specs.Places.{digested, head_part, page_part};
ghost use Rattle.database_file.specs.FileBases.{FileBase, head_with_words};
ghost use Rattle.database_file.specs.Bases.{IsBaseFrom, words_of_file};
ghost use Rattle.position_rank.specs.Placement.{Placement};
ghost use Rattle.directed_fixed.specs.declared.bounds.End.{End};
ghost use Rattle.outside_log.specs.Files.{Contents};
ghost use Rattle.turn_rule.specs.Looks.{Damage, IsAnswer};
ghost use Rattle.turn_rule.specs.States.{IsStateOf};
ghost use Rattle.interval_words.specs.Numbers.{words_of};
ghost use Rattle.base_head.specs.declared.header.Header.{Header};
ghost use Rattle.database_file.specs.Pages.{flaw_in, page_count, words_listed};
ghost use Rattle.database_file.specs.Paged.{flaw_at, notes_of, paged_source_of, word_at};
ghost use Rattle.database_file.specs.PagedFiles.{PagedFile};

/// Bytes of the length of all pages have no flaw exactly where they are the pages of the words that they hold, and these lie within
/// the bound. Words that fit and lie within the bound are read back from their pages, whatever stands behind them. Pages have pairs.
pub fn right_pages_are_their_words()
    ensures exactly { (pages : Pages) (half all : ℕ) (bytes : List ℕ) → 0 < half
        → pages.size ≡ 2 * half → pages.count ≡ 2 * all → AreBytes bytes
        → length bytes ≡ word_size pages.version * pages.count + 32 * page_count pages
        → pages.bound ≤ℤ pos (2 ^ 36)
        → (flaw_in pages bytes ≡ None)
        ↔ ((bytes ≡ pages_text pages.version pages.digest pages.size (words_listed pages bytes))
        × LieWithin pages.bound (words_listed pages bytes)) }
    ensures pages { (pages : Pages) (half : ℕ) (words rest : List ℕ) → 0 < half
        → pages.size ≡ 2 * half → length words ≡ pages.count
        → All (Fits pages.version) words → LieWithin pages.bound words
        → (flaw_in pages (pages_text pages.version pages.digest pages.size words ++ rest) ≡ None)
        × (words_listed pages (pages_text pages.version pages.digest pages.size words ++ rest)
        ≡ words) }
{}

/// Where nothing is wrong with a file, the pages behind its starts are those of its words, and these are right for the head's game: two
/// for each state, within the bound, the lower one at most the upper one.
pub fn right_files_hold_right_words()
    ensures { (oldest : Version) (bytes : List ℕ) → AreBytes bytes
        → fault_from oldest (whole bytes) ≡ None
        → (drop (front_length (header_of_file bytes)) bytes
        ≡ pages_text (header_of_file bytes).version (digest_in (header_of_file bytes) bytes)
        (words_a_page (header_of_file bytes).kinds) (words_of_file bytes))
        × AreRight (list_of (game_in (head_in (header_of_file bytes) bytes))
        (header_of_file bytes).rounds (words_of_file bytes)) }
{}

/// Nothing is wrong with bytes exactly where they are the text of a version that is read, a head and words; for
/// all commands but `migrate` that is version 3. A file with these bytes then holds this head and these words;
/// and bytes that are loaded as a base are a text of its head and words. Bytes are the text of at most one
/// version, head and words, and no text is the beginning of a longer one.
pub fn texts_are_read_back()
    ensures exactly { (oldest : Version) (bytes : List ℕ) → AreBytes bytes
        → (fault_from oldest (whole bytes) ≡ None)
        ↔ ((version : Version) × (head : FileHead) × (words : WordList) × IsSince oldest version
        × IsText version head words bytes) }
    ensures latest { (bytes : List ℕ) → AreBytes bytes
        → (file_fault (whole bytes) ≡ None)
        ↔ ((head : FileHead) × (words : WordList) × IsText Three head words bytes) }
    ensures held { (oldest version : Version) (head : FileHead) (words : WordList)
        (bytes : List ℕ) → IsSince oldest version → IsText version head words bytes
        → IsBaseFrom oldest (whole bytes) (head_with_words head words) }
    ensures loaded { (oldest : Version) (bytes : List ℕ) (base : FileBase) → AreBytes bytes
        → IsBaseFrom oldest (whole bytes) base
        → (version : Version) × IsSince oldest version
        × IsText version base.head base.words bytes }
    ensures one { (version other_version : Version) (head other_head : FileHead)
        (words other_words : WordList) (bytes : List ℕ)
        → IsText version head words bytes → IsText other_version other_head other_words bytes
        → (version ≡ other_version) × (head ≡ other_head) × (words ≡ other_words) }
    ensures end { (version other_version : Version) (head other_head : FileHead)
        (words other_words : WordList) (bytes rest : List ℕ)
        → IsText version head words bytes
        → IsText other_version other_head other_words (bytes ++ rest) → rest ≡ [] }
{}

/// Each text of a file of bounds, of any version, begins with the eight bytes HYPGAMMN.
pub fn base_texts_begin_so()
    ensures { (version : Version) (head : FileHead) (words : WordList) (bytes : List ℕ)
        → IsText version head words bytes → StartsWith bytes magic }
{}

/// A page can't be taken for another one. Where nothing is wrong with two files of version 3, or with one, and a
/// page of the one has the bytes of a page of the other, both pages have the same number and both files the same
/// header and starts; or else these are two different texts with one SHA-256: what the digests of the heads are
/// of, or what those of the pages are of. So a file has a fault into which a page was put of a file with
/// another head or of another place, as where two of its pages are exchanged, unless such texts were found.
pub fn pages_have_their_places()
    ensures { (bytes other : List ℕ) (page other_page : ℕ) → AreBytes bytes → AreBytes other
        → file_fault (whole bytes) ≡ None → file_fault (whole other) ≡ None
        → page < page_count (pages_in_file bytes) → other_page < page_count (pages_in_file other)
        → page_part bytes page ≡ page_part other other_page
        → ((page ≡ other_page) × (head_part bytes ≡ head_part other))
        ⊎ (AreTwins (head_part bytes) (head_part other)
        ⊎ AreTwins (digested bytes page) (digested other other_page)) }
{}

/// Where each call was answered what stood there, an answer of a look-up in a file is the word of the state on its page, which has no flaw; a damage is
/// the first flaw of the state's page. The word of a state on its page is its word among those of all pages.
pub fn look_ups_tell_the_words_of_the_file()
    ensures exact { (base : PagedFile) (held : Contents) (end : End) (p : Placement) (k : ℕ)
        (value : ℤ)
        → IsAnswer end (paged_source_of base held) (notes_of base true held) p k value
        → (flaw_at base.header (held base.name) p ≡ None)
        × (value ≡ word_at base.header (held base.name) end p k) }
    ensures damaged { (base : PagedFile) (held : Contents) (p : Placement) (k : ℕ) (damage : Damage)
        → (paged_source_of base held).damage p k ≡ Some damage
        → flaw_at base.header (held base.name) p
        ≡ Some (record { fault = damage.fault; at = damage.at }) }
    ensures among { (header : Header) (bytes : List ℕ) (end : End) (p : Placement) (k : ℕ)
        → IsHeader header → IsStateOf header.checkers header.kinds p k
        → word_at header (Some bytes) end p k ≡ words_of header.kinds
        (words_listed (pages_behind header (digest_in header bytes))
        (drop (front_length header) bytes)) end p k }
{}
