//! Tests of `dict`, and of dictionaries that threads share, over what is public of them.
#![tactic(auto)]

#[cfg(test)]
mod same;
#[cfg(test)]
mod sharing;
#[cfg(test)]
mod words;
