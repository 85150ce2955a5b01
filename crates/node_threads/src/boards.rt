//! What node threads are told, in room that is there from the start: so telling them wants no memory, and is never
//! refused.

use std::sync::{Condvar, Mutex, Wait};

/// What a node thread is told.
#[derive(Clone, Copy, Drop)]
pub(crate) enum Note {
    /// The packet of this number was sent.
    Packet(u32),
    /// This period is begun.
    Period(u16),
    /// It is to end.
    Stop,
}

/// How many notes there are of each kind. Each node thread takes all of them, packets and periods in order.
#[derive(Drop)]
struct Told {
    packets: u32,
    periods: u16,
    is_over: bool,
    /// How many packets were sent before the last note of another kind: these come before it.
    earlier: u32,
}

/// How many packets and periods a node thread has taken.
#[derive(Drop)]
pub(crate) struct Taken {
    packets: u32,
    periods: u16,
}

/// What all node threads read.
#[derive(Drop)]
pub(crate) struct Board {
    told: Mutex<Told>,
    news: Condvar,
}

impl Taken {
    /// Nothing yet.
    pub(crate) fn new() -> Taken {
        Taken {
            packets: 0,
            periods: 0,
        }
    }
}

impl Told {
    /// What comes after what a node thread has taken, if anything does.
    fn note_behind(&self, taken: &Taken) -> Option<Note> {
        let is_begun = taken.periods < self.periods;
        let packets = if is_begun || self.is_over {
            self.earlier
        } else {
            self.packets
        };
        if taken.packets < packets {
            Some(Note::Packet(taken.packets))
        } else if is_begun {
            Some(Note::Period(taken.periods))
        } else if self.is_over {
            Some(Note::Stop)
        } else {
            None
        }
    }
}

impl Board {
    /// A board with no note.
    pub(crate) fn new() -> Board {
        Board {
            told: Mutex::new(Told {
                packets: 0,
                periods: 0,
                is_over: false,
                earlier: 0,
            }),
            news: Condvar::new(),
        }
    }

    /// The packet of this number was sent, and so was each before it.
    pub(crate) fn send<R: Wait>(&self, rt: &R, packet: u32) {
        let mut told = self.told.lock(rt);
        told.packets = told.packets.max(packet.saturating_add(1));
        drop(told);
        self.news.notify_all();
    }

    /// This period is begun, and so was each before it.
    pub(crate) fn begin<R: Wait>(&self, rt: &R, period: u16) {
        let mut told = self.told.lock(rt);
        told.periods = period.saturating_add(1);
        told.earlier = told.packets;
        drop(told);
        self.news.notify_all();
    }

    /// All node threads are to end.
    pub(crate) fn stop<R: Wait>(&self, rt: &R) {
        let mut told = self.told.lock(rt);
        told.is_over = true;
        told.earlier = told.packets;
        drop(told);
        self.news.notify_all();
    }

    /// Waits for the next note of a node thread, and takes it.
    pub(crate) fn next<R: Wait>(&self, rt: &R, taken: &mut Taken) -> Note {
        let mut told = self.told.lock(rt);
        for _ in rt.forever() {
            if let Some(note) = told.note_behind(taken) {
                match note {
                    Note::Packet(packet) => taken.packets = packet.saturating_add(1),
                    Note::Period(period) => taken.periods = period.saturating_add(1),
                    Note::Stop => {}
                }
                return note;
            }
            told = self.news.wait(rt, told);
        }
        unreachable!()
    }
}
