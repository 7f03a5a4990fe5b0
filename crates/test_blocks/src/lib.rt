//! Tests of block bodies: rows of bytes with the values or errors that `pcap_blocks` returns for them, owned values, values with names,
//! and times.
#![tactic(auto)]

#[cfg(test)]
mod interface_description;
#[cfg(test)]
mod name_resolution;
#[cfg(test)]
mod options;
#[cfg(test)]
mod other_blocks;
#[cfg(test)]
mod owned;
#[cfg(test)]
mod packets;
#[cfg(test)]
mod parsed_block;
#[cfg(test)]
mod rows;
#[cfg(test)]
mod section_header;
#[cfg(test)]
mod times;
#[cfg(test)]
mod views;
