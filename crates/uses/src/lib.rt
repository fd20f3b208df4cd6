//! The code that the calling pages quote. The gate proves it, and `tools/quotes` compares it with
//! the pages.
#![tactic(auto)]

pub mod contents;
pub mod elements;
pub mod grids;
pub mod keys;
pub mod labels;
pub mod lines;
pub mod links;
pub mod pictures;
pub mod plans;
pub mod registries;
pub mod rendering;
pub mod sequences;
pub mod streams;
pub mod symbols;
pub mod tables;
pub mod texts;
pub mod views;
