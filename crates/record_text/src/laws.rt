ghost use Rattle.std.specs.Prelude.{◌≡◌, ℕ, ◌∷◌, ◌++◌, List, []};
ghost use Rattle.std.specs.Io.{StartsWith};
ghost use Rattle.game_record.specs.declared.fault.BadRecord.{BadRecord};
ghost use Rattle.game_record.specs.declared.record.Record.{Record};
ghost use Rattle.game_record.specs.declared.line.Line.TheVariants.{Title};
ghost use Rattle.record_text.specs.Texts.{lines_text, IsRecordText};
ghost use Rattle.record_text.specs.Faults.{IsBad};

use play_text::texts_tell_plays;

/// Each text of a record begins with the line `hypergammon record 1`.
pub fn record_texts_begin_so()
    ensures { (text : List ℕ) (rec : Record)
        → IsRecordText text rec → StartsWith text (lines_text (Title ∷ [])) }
{}

/// A text of a record has no fault.
pub fn record_texts_have_no_fault()
    ensures { (text : List ℕ) (rec : Record) (bad : BadRecord)
        → IsRecordText text rec → IsBad text bad → ⊥ }
{
    texts_tell_plays();
}

/// No text is that of two records.
pub fn texts_tell_records()
    ensures { (text : List ℕ) (rec other : Record)
        → IsRecordText text rec → IsRecordText text other → rec ≡ other }
{
    texts_tell_plays();
}

/// No text of a record begins that of another.
pub fn no_record_text_begins_another()
    ensures { (text more : List ℕ) (rec other : Record)
        → IsRecordText text rec → IsRecordText (text ++ more) other → more ≡ [] }
{
    texts_tell_plays();
}

/// A text has at most one first fault.
pub fn texts_have_one_first_fault()
    ensures { (text : List ℕ) (bad other : BadRecord)
        → IsBad text bad → IsBad text other → bad ≡ other }
{
    texts_tell_plays();
}
