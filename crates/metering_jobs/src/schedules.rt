//! Schedules of whole groups: batches gathered with repeats and out of order, and each period closed and exported by all nodes.

use crate::batches::{Batch, Resources, put_batch, put_word};
use crate::numbers::Numbers;
use crate::sheets::{put_issuer, put_sheet};
use std::alloc::{AllocError, Global};

/// The size of a schedule.
#[derive(Clone, Copy)]
pub struct Plan {
    pub voters: u32,
    pub observers: u32,
    pub agents: u32,
    pub periods: u32,
    /// Of each agent in each period.
    pub batches: u32,
    pub readings: u32,
    pub amended: u32,
    pub year: u32,
    /// Whether some events are such that they are refused.
    pub has_faults: bool,
}

/// A schedule that is being made.
#[derive(Drop)]
struct Draft {
    alloc: Global,
    text: Vec<u8>,
    numbers: Numbers,
    /// How many packets were sent.
    sent: u32,
    /// Packets that are on their way, each to a node.
    late: Vec<(u32, u32)>,
}

impl Draft {
    /// A word, and a number behind it, as a line.
    fn line(&mut self, word: &[u8], number: u32) -> Result<(), AllocError> {
        put_word(&mut self.text, word, number)?;
        self.text.extend_from_slice(b"\n")
    }

    fn deliver(&mut self, packet: u32, node: u32) -> Result<(), AllocError> {
        put_word(&mut self.text, b"deliver ", packet)?;
        self.line(b" ", node)
    }

    /// To all nodes, and one time in eight twice.
    fn to_all(&mut self, packet: u32, nodes: u32) -> Result<(), AllocError> {
        for node in 0..nodes {
            self.deliver(packet, node)?;
            if self.numbers.is_one_in(8) {
                self.deliver(packet, node)?;
            }
        }
        Ok(())
    }

    /// To each node now, or, one time in six, later than others behind it.
    fn spread(&mut self, packet: u32, nodes: u32) -> Result<(), AllocError> {
        for node in 0..nodes {
            if self.numbers.is_one_in(6) {
                self.late.push((packet, node))?;
            } else {
                self.deliver(packet, node)?;
            }
        }
        if self.late.len() > 40 {
            self.arrive()?;
        }
        Ok(())
    }

    /// All that is on its way arrives, the last sent first.
    fn arrive(&mut self) -> Result<(), AllocError> {
        for _ in 0..self.late.len() {
            if let Some((packet, node)) = self.late.pop() {
                self.deliver(packet, node)?;
            }
        }
        Ok(())
    }

    /// The next packets.
    fn send(&mut self, many: u32) -> u32 {
        let first = self.sent;
        self.sent = self.sent.saturating_add(many);
        first
    }

    fn journal(&mut self, batch: &Batch, resources: &Resources) -> Result<(), AllocError> {
        self.line(b"journal ", batch.lines())?;
        put_batch(
            self.alloc,
            &mut self.text,
            &mut self.numbers,
            batch,
            resources,
        )
    }

    /// The first node closes its current period: the promises of a majority, the proposal, their acceptances.
    fn close(&mut self, plan: &Plan) -> Result<(), AllocError> {
        let most = plan.voters / 2 + 1;
        let nodes = plan.voters.saturating_add(plan.observers);
        self.line(b"start ", 0)?;
        let prepare = self.send(1);
        for node in 0..most {
            self.deliver(prepare, node)?;
        }
        let promise = self.send(most);
        for node in 0..most {
            self.deliver(promise.saturating_add(node), 0)?;
        }
        let propose = self.send(1);
        for node in 0..most {
            self.deliver(propose, node)?;
        }
        let accepted = self.send(most);
        for node in 0..most {
            self.to_all(accepted.saturating_add(node), nodes)?;
        }
        Ok(())
    }

    /// An event that is refused: a batch that is none, one out of turn, or a packet that nobody sent.
    fn put_fault(&mut self, batch: &Batch, resources: &Resources) -> Result<(), AllocError> {
        match self.numbers.below(3) {
            0 => self.journal(
                &Batch {
                    is_bad: true,
                    ..*batch
                },
                resources,
            ),
            1 => self.journal(
                &Batch {
                    seq: batch.seq.saturating_add(7),
                    ..*batch
                },
                resources,
            ),
            _ => self.line(b"deliver 999999 ", 0),
        }
    }

    /// The batch of an agent in that round of a period, after what is refused, and it goes to all nodes.
    fn offer(
        &mut self,
        plan: &Plan,
        period: u32,
        round: u32,
        agent: u32,
        resources: &Resources,
    ) -> Result<(), AllocError> {
        let seq = period
            .saturating_mul(plan.batches)
            .saturating_add(round)
            .saturating_add(1);
        let batch = Batch {
            agent,
            seq,
            readings: plan.readings,
            amended: plan.amended,
            amended_seq: if seq > plan.batches {
                seq - plan.batches
            } else {
                seq
            },
            year: plan.year.saturating_add(period / 12),
            month: 1 + (period % 12) as u16,
            has_regions: has_regions(agent),
            is_bad: false,
        };
        if plan.has_faults && self.numbers.is_one_in(5) {
            self.put_fault(&batch, resources)?;
        }
        self.journal(&batch, resources)?;
        let packet = self.send(1);
        self.spread(packet, plan.voters.saturating_add(plan.observers))
    }
}

/// Whether the batches of an agent tell regions: those of one in four do.
fn has_regions(agent: u32) -> bool {
    agent % 4 == 0
}

/// The lines before the events.
fn head_of(alloc: Global, plan: &Plan) -> Result<String, AllocError> {
    let mut head = String::new(alloc);
    write!(head, "SCHEDULE 1\nnodes {}", plan.voters)?;
    if plan.observers != 0 {
        write!(head, " observers {}", plan.observers)?;
    }
    write!(head, "\nagents {}\n", plan.agents)?;
    put_sheet(&mut head, plan.year)?;
    put_issuer(&mut head)?;
    Ok(head)
}

/// The text of a schedule.
pub fn schedule(alloc: Global, seed: u64, plan: &Plan) -> Result<Vec<u8>, AllocError> {
    let nodes = plan.voters.saturating_add(plan.observers);
    let head = head_of(alloc, plan)?;
    let mut draft = Draft {
        alloc,
        text: head.into_bytes(),
        numbers: Numbers::new(seed),
        sent: 0,
        late: Vec::new(alloc),
    };
    let mut agents = Vec::new(alloc);
    for agent in 1..plan.agents.saturating_add(1) {
        let resources = Resources::new(
            alloc,
            &mut draft.numbers,
            plan.readings,
            has_regions(agent),
        )?;
        if agents.push(resources).is_err() {
            return Err(AllocError);
        }
    }
    for period in 0..plan.periods {
        for round in 0..plan.batches {
            let mut agent = 1u32;
            for resources in &agents {
                draft.offer(plan, period, round, agent, resources)?;
                agent = agent.saturating_add(1);
            }
        }
        draft.arrive()?;
        draft.line(b"restart ", period % nodes.max(1))?;
        draft.close(plan)?;
        for node in 0..nodes {
            put_word(&mut draft.text, b"export ", node)?;
            draft.line(b" ", period)?;
        }
    }
    Ok(draft.text)
}
