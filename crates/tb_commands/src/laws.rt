//! Laws of the definitions: a text has one book or script or one line outside the grammar, parcels or one bad parcel,
//! and at most one text of its auction; a script has one run; and whose a group in doubt is.
ghost use Rattle.std.specs.Prelude.{◌≡◌, ℕ, List, [], ◌∷◌, ◌++◌, All, Bool};
ghost use Rattle.tb_gates.specs.Clocks.{ClockState};
ghost use Rattle.tb_text_book.specs.Books.{BeginsWithBook, Book, HasBadLine, HasBook, IsBadLine};
ghost use Rattle.tb_text_book.specs.BookRun.{IsBookRun};
ghost use Rattle.tb_commands.specs.Doubted.{IsOfLines, IsOfParcels, IsOfRuns};
ghost use Rattle.tb_parcel.specs.declared.parcel.Parcel.{Parcel};
ghost use Rattle.tb_replica.specs.declared.taken.TakeFault.TheVariants as fault;
ghost use Rattle.tb_commands.specs.FollowTakeRun.{BreaksBehind, IsFirstBadParcel, IsParcels};
ghost use Rattle.tb_commands.specs.ImportRun.{IsImport, SentRow};
ghost use Rattle.tb_commands.specs.ScriptRun.{IsFaultless, IsRun};
ghost use Rattle.tb_commands.specs.Scripts.{BeginsWithScript, HasScript, LeavesScript};
ghost use Rattle.tb_commands.specs.Standings.{Standing};
ghost use Rattle.tb_text_book.specs.declared.book_line.Offering.{Offering};
ghost use Rattle.tb_commands.specs.declared.sender.Sender.{Sender};

/// Lines begin with at most one book, have at most one line that is the first outside the grammar, never both, and
/// never neither.
pub fn one_book_or_bad_line()
    ensures offering { (lines : List (List ℕ)) (one other : Offering) (book other_book : Book)
        → BeginsWithBook lines one book
        → BeginsWithBook lines other other_book
        → one ≡ other }
    ensures book { (lines : List (List ℕ)) (one other : Offering) (book other_book : Book)
        → BeginsWithBook lines one book
        → BeginsWithBook lines other other_book
        → book ≡ other_book }
    ensures bad_line { (lines : List (List ℕ)) (one other : ℕ)
        → IsBadLine one lines
        → IsBadLine other lines
        → one ≡ other }
    ensures never_both { (lines : List (List ℕ)) → HasBook lines → ¬ (HasBadLine lines) }
    ensures never_neither { (lines : List (List ℕ)) → ¬ (HasBook lines) → ¬ (¬ (HasBadLine lines)) }
{}

/// An input has at most one text of its auction.
pub fn one_text()
    ensures { (full : Bool) (input one other : List ℕ)
        → IsBookRun full input one
        → IsBookRun full input other
        → one ≡ other }
{}

/// Lines begin with at most one script, leave its grammar at one line at most, never both, and never neither.
pub fn one_script_or_bad_line()
    ensures script { (lines one other : List (List ℕ))
        → BeginsWithScript lines one
        → BeginsWithScript lines other
        → one ≡ other }
    ensures bad_line { (lines : List (List ℕ)) (one other : ℕ)
        → LeavesScript one lines
        → LeavesScript other lines
        → one ≡ other }
    ensures never_both { (lines : List (List ℕ)) (number : ℕ) → HasScript lines → ¬ (LeavesScript number lines) }
    ensures never_neither { (lines : List (List ℕ))
        → ¬ (HasScript lines)
        → ¬ ((number : ℕ) → ¬ (LeavesScript number lines)) }
{}

/// A text has at most one first bad parcel, and never one where it is parcels, but always where it is none.
pub fn parcels_or_bad_parcel()
    ensures bad_parcel { (text : List ℕ) (one other : ℕ) (before other_before : List Parcel)
        → IsFirstBadParcel one before text
        → IsFirstBadParcel other other_before text
        → one ≡ other }
    ensures never_both { (text : List ℕ) (parcels before : List Parcel) (number : ℕ)
        → IsParcels parcels text
        → ¬ (IsFirstBadParcel number before text) }
    ensures never_neither { (text : List ℕ)
        → ((parcels : List Parcel) → ¬ (IsParcels parcels text))
        → ¬ ((number : ℕ) (before : List Parcel) → ¬ (IsFirstBadParcel number before text)) }
{}

/// Where no fault occurs, lines have one text of replies, and leave one history, from where a script stands with
/// nothing in doubt: both are a function of the history and the lines.
pub fn one_run()
    ensures replies { (operator : List ℕ) (start : Standing) (lines : List (List ℕ)) (one other : List ℕ)
        (last last' : Standing)
        → IsFaultless operator start lines one last
        → IsFaultless operator start lines other last'
        → one ≡ other }
    ensures last { (operator : List ℕ) (start : Standing) (lines : List (List ℕ)) (one other : List ℕ)
        (last last' : Standing)
        → IsFaultless operator start lines one last
        → IsFaultless operator start lines other last'
        → last ≡ last' }
{}

/// Each group that was in doubt is somebody's: that of a line's message, of a run of rows, or of a parcel, as the
/// history stood then. So is each that a crash during `run`, `import` or `follow take` may have left behind a beginning
/// of the history.
pub fn groups_are_sent()
    ensures by_lines { (operator : List ℕ) (first last : Standing) (lines : List (List ℕ)) (replies : List ℕ)
        → IsRun operator first lines replies last
        → first.doubt ≡ []
        → first.doubted ≡ []
        → All (IsOfLines operator lines last.history) last.doubted }
    ensures by_rows { (sender : Sender) (clock clock' : ClockState) (runs : List (List SentRow)) (first last : Standing)
        (text : List ℕ)
        → IsImport sender clock clock' first runs text last
        → first.doubt ≡ []
        → first.doubted ≡ []
        → All (IsOfRuns sender runs last.history) last.doubted }
    ensures by_parcels { (parcels : List Parcel) (parcel : Parcel) (first last : Standing)
        → BreaksBehind fault.DiskFault parcels parcel first last
        → first.doubted ≡ []
        → All (IsOfParcels (parcels ++ parcel ∷ []) last.history) last.doubted }
{}
