//! Laws of lenient reading of packets. Each contract is the law.

ghost use Rattle.std.specs.Prelude.{◌≡◌, ◌≤◌, ◌++◌, ℕ, List, [], ◌∷◌, length};
ghost use Rattle.pcap_core.specs.Answer.{Order, Verdict};
ghost use Rattle.pcap_items.specs.Format.{Asks, Front, IsLawful};
ghost use Rattle.pcap_core.specs.Laws.{ExactlyOne, IsStable};
ghost use Rattle.pcap_classic.specs.declared.common.TsResolution.{TsResolution};
ghost use Rattle.pcap_items.specs.Requested.{RequestsAt};
ghost use Rattle.pcap_classic.specs.PacketText.{packet_limit, Captured, PacketSays};
ghost use Rattle.pcap_tolerant.specs.AsIs.{AsIs, raised, AsIsText, AsIsSays, as_is_format};
ghost use Rattle.pcap_tolerant.specs.Pieces.{HoldsAsIs};
ghost use Rattle.pcap_tolerant.specs.Strict.{StrictIs};

/// The lenient packet format is lawful: any bytes have exactly one answer, and more bytes don't change a packet or an error. A
/// packet's bytes without the rest are that packet, and a request is for the head or else is the last.
pub fn packets_as_they_stand_are_lawful()
    ensures { (limit : ℕ) (order : Order) (r : TsResolution) → IsLawful (as_is_format limit order r) }
{}

/// Strict reading of the same bytes gives the same packet if it has no flaw, and otherwise the error for its first flaw. It
/// gives the same request, unless the head breaks a rule: then the error names the first such rule. Where lenient reading
/// refuses the stored length, strict reading refuses the packet by V2 or V3.
pub fn strict_reading_is()
    ensures { (limit : ℕ) (order : Order) (r : TsResolution) (s : List ℕ) (a : Verdict AsIs) (v : Verdict Captured) →
        AsIsSays (raised limit) order r s a → PacketSays packet_limit order r s v → StrictIs order r s a v }
{}

/// Lenient reading of a packet gives exactly one answer for every slice.
pub fn packet_as_it_stands_is_one()
    ensures { (limit : ℕ) (order : Order) (r : TsResolution) (s : List ℕ) → ExactlyOne (AsIsSays limit order r s) }
{}

/// More bytes change neither a packet read leniently nor an error, and they lower a request by their number.
pub fn packet_as_it_stands_is_stable()
    ensures { (limit : ℕ) (order : Order) (r : TsResolution) → IsStable (AsIsSays limit order r) }
{}

/// Any bytes have exactly one front of packets read leniently.
pub fn packets_as_they_stand_have_one_front()
    ensures { (limit : ℕ) (order : Order) (r : TsResolution) (s : List ℕ) →
        ExactlyOne (λ (p : List AsIs × List ℕ). Front (as_is_format limit order r) tt p.0 s p.1) }
{}

/// The number of packets that lenient reading finds in given bytes under a limit is unique.
pub fn packets_held_as_they_stand_are_one()
    ensures { (limit : ℕ) (s : List ℕ) (n m : ℕ) → HoldsAsIs limit s n → HoldsAsIs limit s m → n ≡ m }
{}

/// If the caller supplies exactly the bytes requested, lenient reading makes at most two requests for a packet, and nothing
/// follows the packet.
pub fn packets_as_they_stand_are_asked_for_twice()
    ensures { (limit : ℕ) (order : Order) (r : TsResolution) (n : ℕ) (ns s t : List ℕ) →
        Asks (as_is_format limit order r) tt (n ∷ ns) s t →
        (length (n ∷ ns) ≤ 2) × ((packet : AsIs) (rest : List ℕ) → AsIsText limit order r packet t rest → rest ≡ []) }
{}

/// The requests for a packet read leniently are for its head and then for its data. If the caller meets them exactly, the bytes
/// are the packet's text and no more.
pub fn requests_of_packets_as_they_stand_are_asked()
    ensures { (limit : ℕ) (order : Order) (r : TsResolution) (packet : AsIs) (s rest ns : List ℕ) →
        AsIsText limit order r packet s rest → RequestsAt (as_is_format limit order r) tt s ns →
        (t : List ℕ) × (s ≡ t ++ rest) × Asks (as_is_format limit order r) tt ns [] t }
{}
