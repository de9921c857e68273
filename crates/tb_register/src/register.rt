//! Laws of tables, and of putting rows one after the other.
ghost use Rattle.std.specs.Prelude.{◌≡◌, ◌↔◌, List, Contains};
ghost use Rattle.tb_register.specs.Rows.{Kept};
ghost use Rattle.tb_register.specs.Tables.{IsTable, AreOfAuctions, Registers, registered};

/// A table is told by its rows; which rows it has after others were put; and that putting them again changes nothing.
/// It does nothing.
pub fn registers_are_one()
    ensures tables { (one other : List Kept)
        → IsTable one
        → IsTable other
        → ((row : Kept) → Contains one row ↔ Contains other row)
        → one ≡ other }
    ensures registered { (table rows : List Kept)
        → IsTable table
        → AreOfAuctions rows
        → Registers rows table (registered table rows) }
    ensures again { (table rows : List Kept) → registered (registered table rows) rows ≡ registered table rows }
{}
