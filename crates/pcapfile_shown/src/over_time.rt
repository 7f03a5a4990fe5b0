//! The spread of packets over time, as text.

ghost use Rattle.std.specs.Prelude.{◌≡◌, ◌<◌, ◌∷◌, [], length};

use pcapfile_info::Spread;
use std::fmt;

/// The spread of packets over time: one sign for each span, higher for more packets.
#[derive(Clone, Copy)]
pub(crate) struct OverTime<'a>(pub(crate) &'a Spread);

// Returns the sign of a span with this many packets, if the fullest span has `most`: a blank for 0, and otherwise one of eight
// heights.
fn sign_of(packets: u64, most: u64) -> &'static str
    ensures none { packets ≡ 0 → result.now ≡ 32 ∷ [] }
    ensures some { 0 < packets → 0 < most → length result.now ≡ 3 }
{
    if packets == 0 || most == 0 {
        return " ";
    }
    match (u128::from(packets) * 8 + u128::from(most) - 1) / u128::from(most) {
        1 => "▁",
        2 => "▂",
        3 => "▃",
        4 => "▄",
        5 => "▅",
        6 => "▆",
        7 => "▇",
        _ => "█",
    }
}

fn most_packets(spread: &Spread) -> u64 {
    let mut most = 0;
    for packets in spread.packets.iter() {
        most = (*packets).max(most);
    }
    most
}

impl fmt::Display for OverTime<'_> {
    fn fmt<W: fmt::Write>(&self, f: &mut fmt::Formatter<W>) -> fmt::Result {
        let spread = self.0;
        let most = most_packets(spread);
        for span in spread.first..=spread.last {
            f.write_str(sign_of(spread.packets_in(span), most))?;
        }
        Ok(())
    }
}
