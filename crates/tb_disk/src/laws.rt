//! Laws of the model.
ghost use Rattle.std.specs.Prelude.{◌≡◌, ◌+◌, ◌≤◌, ◌↔◌, ℕ, List, length};
ghost use Rattle.tb_disk.specs.Steps.{Wrote, Tore, CutTo, Torn, MaybeCut, over};
ghost use Rattle.tb_disk.specs.Past.{Past, Then, contents_of, MayLeave, IsMade};
ghost use Rattle.tb_disk.specs.Sentences.{MayBecome};

/// A crash may always leave the contents as they are.
pub fn contents_may_be_left()
    ensures { (past : Past) → IsMade past → MayLeave past (contents_of past) }
{}

/// What isn't synced yet may be torn in every way that the model names.
pub fn unsynced_may_be_torn()
    ensures write { (past : Past) (place : ℕ) (bytes image torn : List ℕ) → MayLeave past image
        → Torn place (length bytes) (place + length bytes) image torn → MayLeave (Then (Wrote place bytes) past) torn }
    ensures failed_write { (past : Past) (place count : ℕ) (left image torn : List ℕ) → MayLeave past image
        → Torn place count (length left) image torn → MayLeave (Then (Tore place count left) past) torn }
    ensures cut { (past : Past) (n : ℕ) (image shortened : List ℕ) → MayLeave past image
        → MaybeCut n image shortened → MayLeave (Then (CutTo n) past) shortened }
{}

/// The same in plain words: nothing of a write or of a cut need be on the disk, and the bytes of a write may be any.
pub fn unsynced_may_be_lost()
    ensures write { (past : Past) (place : ℕ) (bytes image : List ℕ) → MayLeave past image
        → MayLeave (Then (Wrote place bytes) past) image }
    ensures any_bytes { (past : Past) (place : ℕ) (bytes others image : List ℕ) → length others ≡ length bytes
        → place ≤ length image → MayLeave past image
        → MayLeave (Then (Wrote place bytes) past) (over place others image) }
    ensures failed_write { (past : Past) (place count : ℕ) (left image : List ℕ) → MayLeave past image
        → MayLeave (Then (Tore place count left) past) image }
    ensures cut { (past : Past) (n : ℕ) (image : List ℕ) → MayLeave past image → MayLeave (Then (CutTo n) past) image }
{}

/// The steps say what the sentences of the model say: the length may be any between the least and the greatest since
/// the last sync, and each byte before the least that wasn't written since stays.
pub fn images_are_those_of_the_sentences()
    ensures { (past : Past) (image : List ℕ) → IsMade past → (MayLeave past image ↔ MayBecome past image) }
{}
