//! Streams that report whether they failed, and buffers that are filled from them on demand.

pub use pcap_items::stream::{Fill, Told, put};
