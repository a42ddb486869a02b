// Tests of the polling system over both pollers.
#![tactic(auto)]

#[cfg(test)]
mod bench;
#[cfg(test)]
mod lines;
#[cfg(test)]
mod world;
