//! Tests of the program's server over memory, with workers in threads.
#![tactic(auto)]

#[cfg(test)]
mod beside;
#[cfg(test)]
mod given;
#[cfg(test)]
mod meeting;
#[cfg(test)]
mod tests;
