// Bytes: widths of numbers, little-endian numbers read and stored, and text stored. Every function here takes every input.
#![tactic(auto)]

mod place;
pub mod read;
pub mod store;
pub mod text;
pub mod width;
