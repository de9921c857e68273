//! Values of a row as parameters of a statement.
ghost use Rattle.std.specs.Prelude.{◌≡◌, ◌≤◌, ◌^◌, pos};
ghost use Rattle.std.specs.Option.{option_map};
ghost use Rattle.sqlite.specs.declared.types.Value.TheVariants.{Int};
ghost use Rattle.sqlite_value.specs.Value.{owned};
ghost use Rattle.tb_register.specs.Rows.{kept_figures};
ghost use Rattle.tb_register_sql.specs.Shelves.{figure_of};

use sqlite::types::ValueRef;
use tb_register::RowFigures;
use tb_units::{Day, Dollars};

pub(crate) fn high_of<'a>(figures: Option<RowFigures>) -> ValueRef<'a>
    ensures { owned result ≡ figure_of (λ f. f.high) (option_map kept_figures figures) }
{
    match figures {
        Some(figures) => ValueRef::Int(i64::from(figures.high.steps)),
        None => ValueRef::Null,
    }
}

pub(crate) fn percent_of<'a>(figures: Option<RowFigures>) -> ValueRef<'a>
    ensures { owned result ≡ figure_of (λ f. f.percent) (option_map kept_figures figures) }
{
    match figures {
        Some(figures) => ValueRef::Int(i64::from(figures.percent.hundredths)),
        None => ValueRef::Null,
    }
}

pub(crate) fn price_of<'a>(figures: Option<RowFigures>) -> ValueRef<'a>
    ensures { owned result ≡ figure_of (λ f. f.price) (option_map kept_figures figures) }
{
    match figures {
        Some(figures) => ValueRef::Int(figures.price.millionths as i64),
        None => ValueRef::Null,
    }
}

pub(crate) fn amount<'a>(amount: Dollars) -> ValueRef<'a>
    requires { amount.value ≤ 10 ^ 17 }
    ensures { owned result ≡ Int (pos amount.value) }
{
    ValueRef::Int(amount.value as i64)
}

pub(crate) fn day<'a>(day: Day) -> ValueRef<'a>
    ensures { owned result ≡ Int (pos day.number) }
{
    ValueRef::Int(i64::from(day.number))
}
