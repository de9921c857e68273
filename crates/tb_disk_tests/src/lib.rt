//! Tests of tb_disk through its public calls. They are a crate of their own, so that tb_disk isn't proved a second time
//! with them.
#![tactic(auto)]

#[cfg(test)]
mod tests;
