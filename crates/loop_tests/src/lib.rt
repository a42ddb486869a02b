// Tests of the user's calls, most of them over the bench poller, with kinds that stand above the loop.
#![tactic(auto)]

#[cfg(test)]
mod calls;
#[cfg(test)]
mod clock;
#[cfg(test)]
mod enabling;
#[cfg(test)]
mod faults;
#[cfg(test)]
mod fixture;
#[cfg(test)]
mod handlers;
#[cfg(test)]
mod idles;
#[cfg(test)]
mod lifecycle;
#[cfg(test)]
mod line_poller;
#[cfg(test)]
mod memory;
#[cfg(test)]
mod removing;
#[cfg(test)]
mod slots;
#[cfg(test)]
mod tokens;
