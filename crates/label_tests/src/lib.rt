//! Tests of what `qrlabel` does with words, devices and files (`label_words`, `labels`, `programs`),
//! and of the callers of the calling pages (`uses`). They are in a crate of their own so that the
//! gate proves the tested crates only once.
#![tactic(auto)]

#[cfg(test)]
mod caller_tests;
#[cfg(test)]
mod device_tests;
#[cfg(test)]
mod gs1_tests;
#[cfg(test)]
mod label_tests;
#[cfg(test)]
mod line_tests;
#[cfg(test)]
mod part_tests;
#[cfg(test)]
mod served;
#[cfg(test)]
mod test_files;
#[cfg(test)]
mod text_tests;
#[cfg(test)]
mod whole_file_tests;
#[cfg(test)]
mod word_tests;
