//! Tests of derivations: searched, written, read back, checked, walked and unfolded.
#![tactic(auto)]

#[cfg(test)]
mod drills;
#[cfg(test)]
mod found;
#[cfg(test)]
mod judged;
#[cfg(test)]
mod nested;
#[cfg(test)]
mod programs;
#[cfg(test)]
mod repeated;
#[cfg(test)]
mod shared;
#[cfg(test)]
mod unfolded;
#[cfg(test)]
mod walked;
