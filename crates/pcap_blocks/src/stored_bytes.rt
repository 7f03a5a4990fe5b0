//! The stored bytes of a simple packet.

ghost use Rattle.std.specs.Prelude.{◌≡◌, take};
ghost use Rattle.pcap_blocks.specs.SimplePacket.{simple_of};
ghost use Rattle.pcap_blocks.specs.StoredBytes.{stored_len};

use crate::simple_packet::SimplePacketBlock;

impl SimplePacketBlock<'_> {
    /// Returns the packet's stored bytes without their padding ('Simple Packet Block'). They are as many as the packet
    /// had on the wire, but no more than `snaplen` and no more than the block has. `snaplen` is the snapshot length of
    /// the section's first interface; 0 is no limit.
    pub fn stored(&self, snaplen: u32) -> &[u8]
        ensures { result.now ≡ take (stored_len (simple_of self.now).original_len snaplen) (simple_of self.now).bytes }
    {
        let len = if snaplen == 0 {
            self.original_len
        } else {
            self.original_len.min(snaplen)
        };
        let data = self.data_.as_slice();
        &data[..data.len().min(len as usize)]
    }
}
