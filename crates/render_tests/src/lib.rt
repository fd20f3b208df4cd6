//! Tests of pictures (`qrcode_render`, `png`) by their public calls. They are in a crate of their own
//! so that the gate proves the tested crates only once.
#![tactic(auto)]

#[cfg(test)]
mod caption_tests;
#[cfg(test)]
mod chunk_tests;
#[cfg(test)]
mod color_tests;
#[cfg(test)]
mod compressed_tests;
#[cfg(test)]
mod config_tests;
#[cfg(test)]
mod format_tests;
#[cfg(test)]
mod pdf_tests;
#[cfg(test)]
mod png_tests;
#[cfg(test)]
mod printer_tests;
#[cfg(test)]
mod renderer_tests;
#[cfg(test)]
mod title_tests;
