//! Tests of tb_parcel.
#![tactic(auto)]

#[cfg(test)]
mod tests;
