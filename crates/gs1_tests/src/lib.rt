//! Tests of GS1 element strings (`gs1`) and links (`gs1_links`) by their public calls. They are in
//! a crate of their own so that the gate proves the tested crates only once.
#![tactic(auto)]

#[cfg(test)]
mod checked_tests;
#[cfg(test)]
mod coupon_tests;
#[cfg(test)]
mod element_tests;
#[cfg(test)]
mod link_read_tests;
#[cfg(test)]
mod link_tests;
#[cfg(test)]
mod read_tests;
#[cfg(test)]
mod together_tests;
