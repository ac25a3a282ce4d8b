//! Parts of a line that are read (words, numbers, Ethernet addresses, values of tables of words) or printed (fields).
#![tactic(auto)]

mod address;
mod field;
mod loops;
mod number;
mod table;
mod words;

pub use address::address_of;
pub use field::push_field;
pub use loops::turns;
pub use number::{DECIMAL, HEXADECIMAL, number_in_radix, number_of};
pub use table::value_of;
pub use words::{split_at_word, word_at, words_in};
