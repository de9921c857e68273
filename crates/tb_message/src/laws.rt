//! Laws of the formats, each the contract of a function that does nothing.
ghost use Rattle.std.specs.Prelude.{◌≡◌, ◌≤◌, ◌++◌, ℕ, List, length, Ok};
ghost use Rattle.std.specs.List.{All};
ghost use Rattle.tb_message.specs.declared.message.Entry.{Entry};
ghost use Rattle.tb_message.specs.declared.query.Request.{Request};
ghost use Rattle.tb_message.specs.declared.version.Version.{Version};
ghost use Rattle.tb_message.specs.Spelling.{spelling_in, spellings_in, IsInRange};
ghost use Rattle.tb_message.specs.Requests.{AnswerOf};

/// In each version of the journal no spelling is a prefix of another: bytes that begin with two spellings begin with
/// one, and go on alike. So an entry's spelling is of no other entry.
pub fn one_spelling()
    ensures prefix_free { (version : Version) (one other : Entry) (x y : List ℕ)
        → IsInRange one
        → IsInRange other
        → spelling_in version one ++ x ≡ spelling_in version other ++ y
        → (one ≡ other) × (x ≡ y) }
    ensures one_to_one { (version : Version) (one other : Entry)
        → IsInRange one
        → IsInRange other
        → spelling_in version one ≡ spelling_in version other
        → one ≡ other }
    ensures sizes { (version : Version) (entry : Entry)
        → IsInRange entry
        → (1 ≤ length (spelling_in version entry)) × (length (spelling_in version entry) ≤ 512) }
{}

/// The spellings of a list of entries in one version, one behind the other, are those of no other list.
pub fn one_list()
    ensures { (version : Version) (ones others : List Entry)
        → All IsInRange ones
        → All IsInRange others
        → spellings_in version ones ≡ spellings_in version others
        → ones ≡ others }
{}

/// One text asks one request.
pub fn one_request()
    ensures { (bytes : List ℕ) (one other : Request)
        → AnswerOf bytes (Ok one)
        → AnswerOf bytes (Ok other)
        → one ≡ other }
{}
