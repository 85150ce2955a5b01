//! What ties the texts of packets to one another. Each law is a function with an empty body.

ghost use Rattle.std.specs.Prelude.{◌≡◌, ◌≢◌, ◌↔◌, ℕ, ◌≤◌, true, List, [], ◌++◌, length, Some, None, All, IsTrue};
ghost use Rattle.metering_model.specs.Limits.{most_agents, most_nodes};
ghost use Rattle.metering_model.specs.Sheet.{Sheet, Issuer};
ghost use Rattle.metering_model.specs.Step.{play};
ghost use Rattle.metering_model.specs.World.{Packet, Event, opening_with};
ghost use Rattle.packet_text.specs.PacketText.{GroupPacket, HasPacketText, IsSent, first_packet_in, is_group, is_line, most_line_bytes, most_packet_bytes, packet_in, packet_text};

/// What may be written is read back from its text. A text that is read is just the text of what it is read as, which
/// may be written. Two that may be written and have one text are equal: the same packet, of the same group.
pub fn packets_are_read_where_they_are_written()
    ensures back { (group : List ℕ) (packet : Packet) → HasPacketText group packet →
        packet_in (packet_text group packet) ≡ Some (record { group = group; packet = packet }) }
    ensures joined { (text : List ℕ) (read : GroupPacket) → packet_in text ≡ Some read →
        (text ≡ packet_text read.group read.packet) × HasPacketText read.group read.packet }
    ensures one { (group other : List ℕ) (p q : Packet) → HasPacketText group p
        → HasPacketText other q →
        packet_text group p ≡ packet_text other q → (group ≡ other) × (p ≡ q) }
{}

/// A packet that is one line has at most 578 bytes, its line feed among them, and any packet at most 65,583.
pub fn texts_of_packets_are_short()
    ensures lines { (group : List ℕ) (packet : Packet) → HasPacketText group packet
        → is_line packet ≡ true →
        length (packet_text group packet) ≤ most_line_bytes }
    ensures all { (group : List ℕ) (packet : Packet) → HasPacketText group packet →
        length (packet_text group packet) ≤ most_packet_bytes }
{}

/// A stream of packets is cut in one way. Of a packet's text with any text after it the packet is read, and what is
/// after it; of a piece of it, which breaks off before its end, nothing. What is read as the first packet of a text may
/// be written, and its text stands there first. No text begins with those of two packets. A text is a packet's just
/// where that packet is its first, and nothing is after it.
pub fn texts_of_packets_end_by_themselves()
    ensures first { (group : List ℕ) (packet : Packet) (rest : List ℕ)
        → HasPacketText group packet →
        first_packet_in (packet_text group packet ++ rest)
        ≡ Some (record { group = group; packet = packet }, rest) }
    ensures pieces { (group : List ℕ) (packet : Packet) (piece rest : List ℕ)
        → HasPacketText group packet → packet_text group packet ≡ piece ++ rest → rest ≢ [] →
        first_packet_in piece ≡ None }
    ensures joined { (text : List ℕ) (read : GroupPacket) (rest : List ℕ)
        → first_packet_in text ≡ Some (read, rest) →
        (text ≡ packet_text read.group read.packet ++ rest)
        × HasPacketText read.group read.packet }
    ensures apart { (group other : List ℕ) (p q : Packet) (rest more : List ℕ)
        → HasPacketText group p → HasPacketText other q →
        packet_text group p ++ rest ≡ packet_text other q ++ more →
        (group ≡ other) × (p ≡ q) × (rest ≡ more) }
    ensures alone { (text : List ℕ) (read : GroupPacket) →
        (packet_in text ≡ Some read) ↔ (first_packet_in text ≡ Some (read, [])) }
{}

/// After every list of events, in a group of up to 99 voters and 1 to 64 agents, and of any name that a group may have,
/// each packet that was sent may be written.
pub fn packets_of_runs_may_be_written()
    ensures limits { (room voters observers agents : ℕ) (sheet : Sheet) (issuer : Issuer)
        (events : List Event) → voters ≤ most_nodes → 1 ≤ agents → agents ≤ most_agents →
        All IsSent
        (play (opening_with room voters observers agents sheet issuer) events).1.packets }
    ensures written { (room voters observers agents : ℕ) (sheet : Sheet) (issuer : Issuer)
        (events : List Event) (group : List ℕ) → IsTrue (is_group group)
        → voters ≤ most_nodes → 1 ≤ agents → agents ≤ most_agents →
        All (HasPacketText group)
        (play (opening_with room voters observers agents sheet issuer) events).1.packets }
{}
