//! Tests of what a search is asked, and of the texts of its answers, by their public calls.
#![tactic(auto)]

#[cfg(test)]
mod answers;
#[cfg(test)]
mod inputs;
#[cfg(test)]
mod lines;
