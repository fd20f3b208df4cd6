//! Tests that cross crates: symbols of all versions and levels, sequences and views of
//! `qrcode_core`, read back by `plain_reader`, and calls whose allocations fail
//! (`tools/refuse-growth`).
#![tactic(auto)]

#[cfg(test)]
mod configuration_tests;
#[cfg(test)]
mod content_tests;
#[cfg(test)]
mod cut_tests;
#[cfg(test)]
mod grids;
#[cfg(test)]
mod read_back;
#[cfg(test)]
mod refused_growth;
#[cfg(test)]
mod registry_tests;
#[cfg(test)]
mod sequence_tests;
#[cfg(test)]
mod symbol_calls;
#[cfg(test)]
mod symbol_tests;
#[cfg(test)]
mod turned_modules;
#[cfg(test)]
mod view_tests;
#[cfg(test)]
mod worked_symbols;
