// Tests of orders, and of what is said to people.
#![tactic(auto)]

#[cfg(test)]
mod orders;
