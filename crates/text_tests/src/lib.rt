//! Tests of the crates that read and print the whole text.
#![tactic(auto)]

#[cfg(test)]
mod of_block_reader;
#[cfg(test)]
mod of_canonical_text;
#[cfg(test)]
mod of_grammar_words;
#[cfg(test)]
mod of_mir_grammar;
#[cfg(test)]
mod of_mir_lex;
#[cfg(test)]
mod of_mir_pieces;
#[cfg(test)]
mod of_mir_print;
#[cfg(test)]
mod of_mir_text;
#[cfg(test)]
mod of_type_reader;
#[cfg(test)]
mod of_value_reader;
mod texts;

pub use texts::lexed;
