//! Laws of the definitions: a table or a first bad record, and one of it; what is exported needs no quotes.
ghost use Rattle.std.specs.Prelude.{◌≡◌, ℕ, ◌<◌, ◌^◌, List, true};
ghost use Rattle.csv.specs.Writing.{default_writer, row_text};
ghost use Rattle.tb_units.specs.Names.{is_name};
ghost use Rattle.tb_terms.specs.Cusips.{is_cusip};
ghost use Rattle.tb_history.specs.declared.readings.AwardLine.{AwardLine};
ghost use Rattle.tb_history.specs.declared.readings.AddOnLine.{AddOnLine};
ghost use Rattle.tb_history.specs.declared.readings.HoldingLine.{HoldingLine};
ghost use Rattle.tb_message.specs.declared.message.Message.{Message};
ghost use Rattle.tb_import.specs.Tables.{IsFirstBad, IsTable};
ghost use Rattle.tb_import.specs.Exports.{award_fields, add_on_fields, holding_fields, plain_text};

/// Bytes are at most one table, have at most one first bad record, never both, and never neither.
pub fn one_table_or_bad_record()
    ensures table { (bytes : List ℕ) (one other : List (ℕ × Message))
        → IsTable bytes one
        → IsTable bytes other
        → one ≡ other }
    ensures bad_record { (bytes : List ℕ) (one other : ℕ)
        → IsFirstBad bytes one
        → IsFirstBad bytes other
        → one ≡ other }
    ensures never_both { (bytes : List ℕ) (sent : List (ℕ × Message)) (place : ℕ)
        → IsTable bytes sent
        → ¬ (IsFirstBad bytes place) }
    ensures never_neither { (bytes : List ℕ)
        → ((sent : List (ℕ × Message)) → ¬ (IsTable bytes sent))
        → ¬ ((place : ℕ) → ¬ (IsFirstBad bytes place)) }
{}

/// An award, an add-on, and a holding in a bill with a CUSIP that was checked, are exported as their fields with commas
/// between.
pub fn exports_are_plain()
    ensures awards { (line : AwardLine)
        → is_name line.bidder ≡ true
        → line.amount.value < 2 ^ 128
        → line.payment.value < 2 ^ 128
        → row_text default_writer (award_fields line) ≡ plain_text (award_fields line) }
    ensures add_ons { (line : AddOnLine)
        → line.amount.value < 2 ^ 128
        → line.payment.value < 2 ^ 128
        → row_text default_writer (add_on_fields line) ≡ plain_text (add_on_fields line) }
    ensures holdings { (line : HoldingLine)
        → is_cusip line.cusip.bytes ≡ true
        → line.held.value < 2 ^ 128
        → line.pledged.value < 2 ^ 128
        → line.free.value < 2 ^ 128
        → row_text default_writer (holding_fields line) ≡ plain_text (holding_fields line) }
{}
