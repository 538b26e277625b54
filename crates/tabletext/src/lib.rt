// The text of a table: what its bytes, fields and values are. Every function takes bytes as they are.
// `bytes` sorts bytes and cuts strings at them, `values` reads a field, `walking` goes from piece to piece, `tables` has a table's lines,
// `names` judges the names of a line.

#![tactic(auto)]

// What a byte is to the format.
#[derive(Clone, Copy, PartialEq, Eq, Debug)]
pub enum Class {
    Digit,
    Letter,
    Comma,
    Minus,
    LineEnd,
    Refused,
}

// What a field holds: no value, the word `none`, or a number. These are three cases, so that no Option or Result says it.
#[derive(Clone, Copy, PartialEq, Eq, Debug)]
pub enum Value {
    Malformed,
    WordNone,
    Number(i64),
}

pub mod bytes;
pub mod names;
pub mod tables;
pub mod values;
pub mod walking;
