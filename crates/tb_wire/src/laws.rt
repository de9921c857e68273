//! Laws of the front of a stream, each the contract of a function that does nothing.
ghost use Rattle.std.specs.Prelude.{◌≡◌, ◌≢◌, ◌<◌, ◌≤◌, ◌++◌, ℕ, List, length, true};
ghost use Rattle.tb_wire.specs.Codes.{is_told};
ghost use Rattle.tb_wire.specs.Cuts.{Cuts, HoldsNone};
ghost use Rattle.tb_wire.specs.Front.{IsFront};
ghost use Rattle.tb_wire.specs.declared.cutting.Cutting.{Cutting};
ghost use Rattle.tb_wire.specs.declared.cutting.Cutting.TheVariants.{Whole, Bad, More};
ghost use Rattle.tb_wire.specs.declared.cutting.HttpRequest.{HttpRequest};

/// Bytes have one front.
pub fn one_front()
    ensures { (bytes : List ℕ) (one other : Cutting) → IsFront bytes one → IsFront bytes other → one ≡ other }
{}

/// A whole request and a fault stay as more bytes come, however the stream is cut into pieces.
pub fn stays()
    ensures { (bytes more : List ℕ) (front : Cutting) → IsFront bytes front → front ≢ More
        → IsFront (bytes ++ more) front }
{}

/// A request has bytes, and no more than are there; its head stands before its body.
pub fn uses()
    ensures used { (bytes : List ℕ) (request : HttpRequest) → IsFront bytes (Whole request)
        → request.used ≤ length bytes }
    ensures some { (bytes : List ℕ) (request : HttpRequest) → IsFront bytes (Whole request) → 0 < request.body_start }
    ensures body { (bytes : List ℕ) (request : HttpRequest) → IsFront bytes (Whole request)
        → request.body_start ≤ request.used }
    ensures told { (bytes : List ℕ) (code : ℕ) → IsFront bytes (Bad code) → is_told code ≡ true }
{}

/// While more bytes are needed, fewer than 12,288 are there.
pub fn waits()
    ensures { (bytes : List ℕ) → IsFront bytes More → length bytes < 12288 }
{}

/// Requests that were cut from a stream stay as more bytes come, which then stand behind the rest.
pub fn cuts_stay()
    ensures { (requests : List HttpRequest) (bytes more rest : List ℕ) → Cuts requests bytes rest
        → Cuts requests (bytes ++ more) (rest ++ more) }
{}

/// Bytes are cut into requests in one way, as far as whole requests stand in them.
pub fn one_cutting()
    ensures { (one other : List HttpRequest) (bytes rest left : List ℕ) → Cuts one bytes rest → HoldsNone rest
        → Cuts other bytes left → HoldsNone left → one ≡ other }
{}
