// Pairs of jobs, and which of them each rule puts first, worked out by hand.
#![tactic(auto)]

#[cfg(test)]
mod rows;
#[cfg(test)]
mod tests;
