// Tests of the pollers, in a crate of their own, since a crate with tests is proved twice.
#![tactic(auto)]

#[cfg(test)]
mod bench;
#[cfg(test)]
mod lines;
#[cfg(test)]
mod request;
#[cfg(test)]
mod table;
