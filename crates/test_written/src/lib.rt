//! Tests of what `pcap_written` writes for values, and what it refuses to write.
#![tactic(auto)]

#[cfg(test)]
mod calls;
#[cfg(test)]
mod failing;
#[cfg(test)]
mod options;
#[cfg(test)]
mod padded;
#[cfg(test)]
mod raw;
#[cfg(test)]
mod records;
#[cfg(test)]
mod refused;
#[cfg(test)]
mod rows;
#[cfg(test)]
mod sections;
#[cfg(test)]
mod tables;
#[cfg(test)]
mod writing;
