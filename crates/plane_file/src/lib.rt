// Plane files: the header, loading and saving.
#![tactic(auto)]

pub mod header; // header.rt: the header's words, their checks and what they answer
pub mod layout; // layout.rt: where the planes start, and how long a file is
pub mod load; // load.rt: planes from a file
pub mod reader; // reader.rt: the reader of words
pub mod save; // save.rt: a file from planes
pub mod word; // word.rt: words of four bytes, and the numbers that they stand for
