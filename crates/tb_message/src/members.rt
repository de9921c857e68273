//! Members of a JSON request, each of its form.
ghost use Rattle.std.specs.Prelude.{◌≡◌, Some, None};
ghost use Rattle.tb_message.specs.Forms.{text, whole, signed};
ghost use Rattle.tb_message.specs.Forms as form;
ghost use Rattle.tb_message.specs.Requests.{part_in, result_map};

use crate::object::Object;
use tb_terms::{Cusip, Field, read_day, read_minute};
use tb_units::{Cents, Day, Dollars, Ident, Rate};

#[tactic(auto, unfolding(crate::specs::Requests::part_in), using(std::proofs::lemmas::Bool::Decides::nat_tests))]
pub fn amount<O: Object>(object: &O, field: Field) -> Result<Dollars, Field>
    ensures { result_map (λ v. whole v.value) result ≡ part_in (O.said object.now) (field, form.amount) }
{
    match object.whole(field) {
        Some(value) if value <= Dollars::MOST_READ => Ok(Dollars {
            value: value as u128,
        }),
        _ => Err(field),
    }
}

#[tactic(auto, unfolding(crate::specs::Requests::part_in), using(std::proofs::lemmas::Bool::Decides::nat_tests))]
pub fn money<O: Object>(object: &O, field: Field) -> Result<Cents, Field>
    ensures { result_map (λ v. whole v.value) result ≡ part_in (O.said object.now) (field, form.money) }
{
    match object.whole(field) {
        Some(value) if 1 <= value && value <= 100_000_000_000_000 => Ok(Cents {
            value: value as u128,
        }),
        _ => Err(field),
    }
}

#[tactic(auto, unfolding(crate::specs::Requests::part_in), using(std::proofs::lemmas::Bool::Decides::nat_tests))]
pub fn name<O: Object>(object: &O, field: Field) -> Result<Ident, Field>
    ensures { result_map (λ v. text v) result ≡ part_in (O.said object.now) (field, form.name) }
{
    let Some(text) = object.text(field) else {
        return Err(field);
    };
    match Ident::read(text) {
        Some(name) => Ok(name),
        None => Err(field),
    }
}

#[tactic(auto, unfolding(crate::specs::Requests::part_in), using(std::proofs::lemmas::Bool::Decides::nat_tests))]
pub fn number<O: Object>(object: &O, field: Field) -> Result<u64, Field>
    ensures { result_map (λ v. whole v) result ≡ part_in (O.said object.now) (field, form.number) }
{
    match object.whole(field) {
        Some(number) if 1 <= number && number <= 1_000_000_000_000_000 => Ok(number),
        _ => Err(field),
    }
}

#[tactic(auto, unfolding(crate::specs::Requests::part_in), using(std::proofs::lemmas::Bool::Decides::nat_tests))]
pub fn position<O: Object>(object: &O, field: Field) -> Result<i64, Field>
    ensures { result_map (λ v. signed v) result ≡ part_in (O.said object.now) (field, form.position) }
{
    match object.signed(field) {
        Some(position) if position.unsigned_abs() <= Dollars::MOST_READ => Ok(position),
        _ => Err(field),
    }
}

#[tactic(auto, unfolding(crate::specs::Requests::part_in), using(std::proofs::lemmas::Bool::Decides::nat_tests))]
pub fn cusip<O: Object>(object: &O, field: Field) -> Result<Cusip, Field>
    ensures { result_map (λ v. text v.bytes) result ≡ part_in (O.said object.now) (field, form.cusip) }
{
    let Some(text) = object.text(field) else {
        return Err(field);
    };
    if text.len() != 9 {
        return Err(field);
    }
    let mut bytes = [0; 9];
    bytes.copy_from_slice(text.as_bytes());
    Ok(Cusip { bytes })
}

#[tactic(auto, unfolding(crate::specs::Requests::part_in), using(std::proofs::lemmas::Bool::Decides::nat_tests))]
pub fn rate<O: Object>(object: &O, field: Field) -> Result<Rate, Field>
    ensures { result_map (λ v. whole v.steps) result ≡ part_in (O.said object.now) (field, form.rate) }
{
    let Some(text) = object.text(field) else {
        return Err(field);
    };
    match Rate::read(text) {
        Ok(rate) => Ok(rate),
        Err(_) => Err(field),
    }
}

#[tactic(auto, unfolding(crate::specs::Requests::part_in), using(std::proofs::lemmas::Bool::Decides::nat_tests))]
pub fn day<O: Object>(object: &O, field: Field) -> Result<Day, Field>
    ensures { result_map (λ v. whole v.number) result ≡ part_in (O.said object.now) (field, form.day) }
{
    let Some(text) = object.text(field) else {
        return Err(field);
    };
    match read_day(text) {
        Some(day) => Ok(day),
        None => Err(field),
    }
}

#[tactic(auto, unfolding(crate::specs::Requests::part_in), using(std::proofs::lemmas::Bool::Decides::nat_tests))]
pub fn minute<O: Object>(object: &O, field: Field) -> Result<u16, Field>
    ensures { result_map (λ v. whole v) result ≡ part_in (O.said object.now) (field, form.minute) }
{
    let Some(text) = object.text(field) else {
        return Err(field);
    };
    match read_minute(text) {
        Some(minute) => Ok(minute),
        None => Err(field),
    }
}
