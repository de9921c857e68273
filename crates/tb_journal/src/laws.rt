//! A law of the journal's calls: how little they leave behind its gate, and each crash too.
ghost use Rattle.std.specs.Prelude.{◌+◌, ◌≤◌, ℕ, List, length};
ghost use Rattle.tb_disk.specs.Steps.{Synced};
ghost use Rattle.tb_disk.specs.Past.{Past, Then, contents_of, Leaves};
ghost use Rattle.tb_journal.specs.Frames.{IsPayload};
ghost use Rattle.tb_journal.specs.Journal.{AddsInPart, opened_past, staged_past};
ghost use Rattle.tb_journal.specs.Opening.{made_past};
ghost use Rattle.tb_journal.specs.Behind.{EndsNear, ReachesLittle};

/// Where a journal and what a crash leaves of it end little behind the gate, they do so after each call that adds a
/// payload, also one that failed, and after each sync; and so did what each crash during the call left. An empty journal
/// ends there too. No other call writes on a journal.
pub fn appends_leave_little_behind()
    ensures added { (payload : List ℕ) (ordinal gate : ℕ) (before : Past) → IsPayload payload
        → gate + 1 ≤ length (contents_of before) → ReachesLittle gate before
        → ReachesLittle (gate + 13 + length payload) (opened_past gate (staged_past ordinal payload gate before)) }
    ensures failed { (payload : List ℕ) (ordinal gate : ℕ) (before now : Past) → IsPayload payload
        → gate + 1 ≤ length (contents_of before) → ReachesLittle gate before
        → AddsInPart ordinal payload gate before now → ReachesLittle gate now }
    ensures meanwhile { (payload : List ℕ) (ordinal gate : ℕ) (before : Past) → IsPayload payload
        → gate + 1 ≤ length (contents_of before) → ReachesLittle gate before
        → Leaves (EndsNear gate) before (opened_past gate (staged_past ordinal payload gate before)) }
    ensures meanwhile_failed { (payload : List ℕ) (ordinal gate : ℕ) (before now : Past) → IsPayload payload
        → gate + 1 ≤ length (contents_of before) → ReachesLittle gate before
        → AddsInPart ordinal payload gate before now → Leaves (EndsNear gate) before now }
    ensures synced { (gate : ℕ) (before : Past) → ReachesLittle gate before → ReachesLittle gate (Then Synced before) }
    ensures made { (before : Past) → length (contents_of before) ≤ 18
        → ReachesLittle 17 (made_past (Then Synced before)) }
{}
