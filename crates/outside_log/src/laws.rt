ghost use Rattle.std.specs.Prelude.{◌≡◌, ◌≢◌, ℕ, List, Some};
ghost use Rattle.outside_log.specs.Log.{Event, LeavesPlaces, standing};
ghost use Rattle.outside_log.specs.Readings.{WritesFile};

/// A file that was written whole stands under its name. No other name's file changed.
pub fn written_files_stand()
    ensures stands { (name bytes : List ℕ) (old new : List Event) → WritesFile name bytes old new
        → standing new name ≡ Some bytes }
    ensures others { (name bytes other : List ℕ) (old new : List Event)
        → WritesFile name bytes old new → other ≢ name
        → standing new other ≡ standing old other }
{}

/// Where no file took a name's place, no file changed.
pub fn files_stay_till_one_takes_a_place()
    ensures { (old new : List Event) → LeavesPlaces old new → (name : List ℕ)
        → standing new name ≡ standing old name }
{}
