// Tests of the crate `semantics`.
#![tactic(auto)]

#[cfg(test)]
mod tests;
