//! Tests of the words of the command line and of made scripts.
#![tactic(auto)]

#[cfg(test)]
mod scripts;
#[cfg(test)]
mod words;
