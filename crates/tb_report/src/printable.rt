//! What a legal history tells can be printed.
ghost use Rattle.std.specs.Prelude.{ℕ, List};
ghost use Rattle.tb_message.specs.declared.message.Entry.{Entry};
ghost use Rattle.tb_message.specs.declared.query.Query.{Query};
ghost use Rattle.tb_history.specs.declared.reading.Reading.{Reading};
ghost use Rattle.tb_history.specs.Legal.{IsLegal};
ghost use Rattle.tb_history.specs.Readings.{IsReading};
ghost use Rattle.tb_report.specs.Readings.{IsPrintable};

/// Holds of every legal history and every query. It does nothing.
pub fn readings_are_printable()
    ensures { (history : List Entry) (caller : List ℕ) (query : Query) (reading : Reading)
        → IsLegal history → IsReading history caller query reading → IsPrintable reading }
{}
