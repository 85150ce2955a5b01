//! A packet of a group.

ghost use Rattle.std.specs.Prelude.{◌≡◌};
ghost use Rattle.group_node.specs.Packets.{packet_of};

use group_node::Packet;
use std::marker::Model;

/// A packet, and the name of the group in which it is sent, which the text lends that it was read from.
#[derive(Drop)]
pub struct GroupPacket<'a> {
    name: &'a [u8],
    sent: Packet,
}

impl<'a> Model for GroupPacket<'a> {
    ghost use Rattle.group_node.specs.Packets.{packet_of};
    ghost use Rattle.packet_text.specs.PacketText as model;

    ghost Value = { model.GroupPacket };

    ghost view = { λ p. record { group = p.name.now; packet = packet_of p.sent } };
}

impl<'a> GroupPacket<'a> {
    /// The packet, of a group of that name.
    pub(crate) fn of(name: &'a [u8], sent: Packet) -> GroupPacket<'a>
        ensures group { result.group ≡ name.now }
        ensures packet { result.packet ≡ packet_of sent }
    {
        GroupPacket { name, sent }
    }

    /// The group's name.
    pub fn group(&self) -> &'a [u8]
        ensures { result.now ≡ self.now.group }
    {
        self.name
    }

    /// The packet, lent.
    pub fn packet(&self) -> &Packet
        ensures { packet_of result.now ≡ self.now.packet }
    {
        &self.sent
    }

    /// The packet.
    pub fn into_packet(self) -> Packet
        ensures { packet_of result ≡ self.entry.packet }
    {
        self.sent
    }
}
