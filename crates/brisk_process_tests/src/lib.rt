//! Tests of instances, machines, schedules and plain runs.
#![tactic(auto)]

#[cfg(test)]
mod instances;
#[cfg(test)]
mod lines;
#[cfg(test)]
mod machines;
#[cfg(test)]
mod schedules;
#[cfg(test)]
mod traces;
