//! Values of `pcap_blocks` that outlive the bytes they were read from, and their clones.

mod blocks;
mod large;
mod option_lists;
mod parsed_blocks;
mod parts;
mod records;
mod rows;
mod texts;
