//! Rows of the register from rows of SQL.
ghost use Rattle.std.specs.Prelude.{◌≡◌, ◌≢◌, ◌↔◌, ◌^◌, ◌<◌, ◌≤◌, ℕ, pos, List, length};
ghost use Rattle.std.specs.Prelude.{true, IsTrue, Option, IsNone, IfSome};
ghost use Rattle.std.specs.Option.{option_map};
ghost use Rattle.sqlite.specs.declared.types.Value.TheVariants.{Null, Int, Text};
ghost use Rattle.sqlite.specs.Order.{column};
ghost use Rattle.tb_units.specs.Names.{is_name};
ghost use Rattle.tb_register.specs.Rows.{Kept, KeptFigures, kept, kept_figures};
ghost use Rattle.tb_register_sql.specs.Shelves.{kept_from, cells_of, values_of, figures_in, figure_of};
ghost use Rattle.tb_register_sql.specs.Shelves.{IsDay, AreInRange, IsInRange};

use sqlite::types::ValueRef;
use tb_register::{Row, RowFigures};
use tb_terms::Cusip;
use tb_units::{Day, Dollars, Ident, Percent, Price, Rate};

fn text_at(row: &sqlite::Row, at: usize) -> Option<&[u8]>
    ensures read { IfSome result (λ text. column row.now at ≡ Text text.now) }
    ensures none { IsNone result → (text : List ℕ) → column row.now at ≢ Text text }
{
    match row.get_ref(at) {
        Ok(ValueRef::Text(text)) => Some(text),
        _ => None,
    }
}

fn number_at(row: &sqlite::Row, at: usize) -> Option<u64>
    ensures read { IfSome result (λ number. column row.now at ≡ Int (pos number)) }
    ensures none { IsNone result → (number : ℕ) → number < 2 ^ 63 → column row.now at ≢ Int (pos number) }
{
    match row.get_ref(at) {
        Ok(ValueRef::Int(number)) => u64::try_from(number).ok(),
        _ => None,
    }
}

fn is_null_at(row: &sqlite::Row, at: usize) -> bool
    ensures { IsTrue result ↔ (column row.now at ≡ Null) }
{
    match row.get_ref(at) {
        Ok(ValueRef::Null) => true,
        Ok(_) => false,
        // A column that isn't there has no value.
        Err(_) => true,
    }
}

fn ident_at(row: &sqlite::Row, at: usize) -> Option<Ident>
    ensures read { IfSome result (λ name. column row.now at ≡ Text name) }
    ensures none { IsNone result → (name : List ℕ) → is_name name ≡ true → column row.now at ≢ Text name }
{
    Ident::of_bytes(text_at(row, at)?)
}

fn cusip_at(row: &sqlite::Row, at: usize) -> Option<Cusip>
    ensures read { IfSome result (λ cusip. column row.now at ≡ Text cusip.bytes) }
    ensures none { IsNone result → (cusip : List ℕ) → length cusip ≡ 9 → column row.now at ≢ Text cusip }
{
    let text = text_at(row, at)?;
    if text.len() != 9 {
        return None;
    }
    let mut bytes = [0; 9];
    bytes.copy_from_slice(text);
    Some(Cusip { bytes })
}

fn day_at(row: &sqlite::Row, at: usize) -> Option<Day>
    ensures read { IfSome result (λ day. column row.now at ≡ Int (pos day.number)) }
    ensures none { IsNone result → (day : ℕ) → IsDay day → column row.now at ≢ Int (pos day) }
{
    let number = number_at(row, at)?;
    if number < 10957 || number > 47481 {
        return None;
    }
    Some(Day {
        number: number as u32,
    })
}

fn amount_at(row: &sqlite::Row, at: usize) -> Option<Dollars>
    ensures read { IfSome result (λ amount. column row.now at ≡ Int (pos amount.value)) }
    ensures fits { IfSome result (λ amount. amount.value ≤ 10 ^ 17) }
    ensures none { IsNone result → (amount : ℕ) → amount ≤ 10 ^ 17 → column row.now at ≢ Int (pos amount) }
{
    let number = number_at(row, at)?;
    if number > 100_000_000_000_000_000 {
        return None;
    }
    Some(Dollars {
        value: number as u128,
    })
}

fn high_at(row: &sqlite::Row, at: usize) -> Option<Rate>
    ensures read { IfSome result (λ rate. column row.now at ≡ Int (pos rate.steps)) }
    ensures none { IsNone result → (rate : ℕ) → rate ≤ 199999 → column row.now at ≢ Int (pos rate) }
{
    let number = number_at(row, at)?;
    if number > 199_999 {
        return None;
    }
    Some(Rate {
        steps: number as u32,
    })
}

fn percent_at(row: &sqlite::Row, at: usize) -> Option<Percent>
    ensures read { IfSome result (λ percent. column row.now at ≡ Int (pos percent.hundredths)) }
    ensures none { IsNone result → (percent : ℕ) → 1 ≤ percent → percent ≤ 10000
        → column row.now at ≢ Int (pos percent) }
{
    let number = number_at(row, at)?;
    if number < 1 || number > 10_000 {
        return None;
    }
    Some(Percent {
        hundredths: number as u32,
    })
}

fn price_at(row: &sqlite::Row, at: usize) -> Option<Price>
    ensures read { IfSome result (λ price. column row.now at ≡ Int (pos price.millionths)) }
    ensures none { IsNone result → (price : ℕ) → 1 ≤ price → price ≤ 10 ^ 8 → column row.now at ≢ Int (pos price) }
{
    let number = number_at(row, at)?;
    if number < 1 || number > 100_000_000 {
        return None;
    }
    Some(Price { millionths: number })
}

fn figures_at(row: &sqlite::Row) -> Option<Option<RowFigures>>
    ensures read { IfSome result (λ figures. option_map kept_figures figures
        ≡ figures_in (column row.now 6) (column row.now 7) (column row.now 8)) }
    ensures high { IfSome result (λ figures.
        column row.now 6 ≡ figure_of (λ f. f.high) (option_map kept_figures figures)) }
    ensures percent { IfSome result (λ figures.
        column row.now 7 ≡ figure_of (λ f. f.percent) (option_map kept_figures figures)) }
    ensures price { IfSome result (λ figures.
        column row.now 8 ≡ figure_of (λ f. f.price) (option_map kept_figures figures)) }
    ensures none { IsNone result → (figures : Option KeptFigures) → IfSome figures AreInRange
        → column row.now 6 ≡ figure_of (λ f. f.high) figures
        → column row.now 7 ≡ figure_of (λ f. f.percent) figures
        → column row.now 8 ≢ figure_of (λ f. f.price) figures }
{
    if is_null_at(row, 6) && is_null_at(row, 7) && is_null_at(row, 8) {
        return Some(None);
    }
    Some(Some(RowFigures {
        high: high_at(row, 6)?,
        percent: percent_at(row, 7)?,
        price: price_at(row, 8)?,
    }))
}

/// The row that these nine values are. `None` where one is outside its range, or one or two of the figures are NULL.
pub(crate) fn decode(row: &sqlite::Row) -> Option<Row>
    ensures read { IfSome result (λ r. kept r ≡ kept_from row.now) }
    ensures stored { IfSome result (λ r. values_of row.now ≡ cells_of (kept r)) }
    ensures none { IsNone result → (k : Kept) → IsInRange k → values_of row.now ≢ cells_of k }
{
    Some(Row {
        auction: ident_at(row, 0)?,
        cusip: cusip_at(row, 1)?,
        issue: day_at(row, 2)?,
        maturity: day_at(row, 3)?,
        offering: amount_at(row, 4)?,
        total: amount_at(row, 5)?,
        figures: figures_at(row)?,
    })
}
