//! Named values of blocks, the stored bytes of a simple packet, and views of newer kinds.

mod named;
mod newer;
mod stored;
