// Tests of the crate `models`.
#![tactic(auto)]

#[cfg(test)]
mod tests;
