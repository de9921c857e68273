//! Laws of the definitions.
ghost use Rattle.std.specs.Prelude.{◌≡◌, ℕ, ◌<◌, ◌≤◌};
ghost use Rattle.tb_terms.specs.Texts.{day_text, minute_text};

/// A text is that of one day, and that of one minute.
pub fn texts_are_one_to_one()
    ensures day { (one other : ℕ) → 10957 ≤ one → one ≤ 47481 → 10957 ≤ other → other ≤ 47481
        → day_text one ≡ day_text other → one ≡ other }
    ensures minute { (one other : ℕ) → one < 1440 → other < 1440 → minute_text one ≡ minute_text other → one ≡ other }
{}
