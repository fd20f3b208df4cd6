//! Tests of two layers below `qrcode_core` by their public calls: names, tables and modes
//! (`qrcode_base`), plans and pushes (`qrcode_bits`). They are in a crate of their own so that the
//! gate proves the tested crates only once; `grid_tests` tests the third layer.
#![tactic(auto)]

#[cfg(test)]
mod base_tests;
#[cfg(test)]
mod bits_tests;
#[cfg(test)]
mod optimize_tests;
#[cfg(test)]
mod search_tests;
#[cfg(test)]
mod segmentation_tests;
