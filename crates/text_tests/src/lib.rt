//! Tests of `text_plans` and `smallest_symbols`: worked rows, read back by `plain_reader`, and calls
//! that run out of memory (`tools/refuse-growth`). Of `character_sets` all characters are tested.
#![tactic(auto)]

#[cfg(test)]
mod byte_tests;
#[cfg(test)]
mod cut_tests;
#[cfg(test)]
mod grids;
#[cfg(test)]
mod joined_tests;
#[cfg(test)]
mod kanji_tests;
#[cfg(test)]
mod plan_tests;
#[cfg(test)]
mod reading_tests;
#[cfg(test)]
mod refused_growth;
#[cfg(test)]
mod rows;
#[cfg(test)]
mod text_tests;
