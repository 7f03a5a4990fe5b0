//! Tests of what the programs are made of, on inputs and outputs in memory.
#![tactic(auto)]

#[cfg(test)]
mod asking;
#[cfg(test)]
mod blocks;
#[cfg(test)]
mod captures;
#[cfg(test)]
mod check;
#[cfg(test)]
mod failing;
#[cfg(test)]
mod interrupted;
#[cfg(test)]
mod list;
#[cfg(test)]
mod runs;
#[cfg(test)]
mod streams;
#[cfg(test)]
mod words;
