//! Tests of captures in parts: where they are cut, what the parts hold, and parsers that are resumed.
#![tactic(auto)]

#[cfg(test)]
mod captures;
#[cfg(test)]
mod cutting;
#[cfg(test)]
mod resuming;
#[cfg(test)]
mod running;
#[cfg(test)]
mod skipping;
