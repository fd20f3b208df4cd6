//! Tests of error correction, canvases and scores (`qrcode_grid`) by its public calls. They are in
//! a crate of their own so that the gate proves the tested crate only once.
#![tactic(auto)]

#[cfg(test)]
mod canvas_tests;
#[cfg(test)]
mod ec_tests;
