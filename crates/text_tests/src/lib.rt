//! Tests of the layers that read and print texts and tables: what no clause says, and values from outside.
#![tactic(auto)]

#[cfg(test)]
mod line_words;
#[cfg(test)]
mod table_values;
#[cfg(test)]
mod type_texts;
