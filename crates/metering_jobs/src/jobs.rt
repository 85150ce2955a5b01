//! The jobs, each by a public call from a text to a text.

use crate::digests::Digest;
use crate::inputs::Inputs;
use batch_player::rate_text;
use counted_io::{Counted, write_all};
use input_check::check_text;
use period_cut::Period;
use program_input::PlayFault;
use schedule_player::play_text;
use std::alloc::Global;
use std::io;

/// What is done again and again, each time with another input.
#[derive(Clone, Copy)]
pub enum Job {
    /// The files of single batches of some 560 records.
    Rate,
    /// Transcripts of five nodes with great batches, half of whose readings are amended.
    Play,
    /// Transcripts of three nodes that close many periods of few readings.
    Close,
    /// Transcripts of a voter and two observers that gather the small batches of 64 agents.
    Gather,
    /// What is wrong with schedules of great batches.
    Check,
}

/// What the results of a job come to.
#[derive(Drop)]
pub struct Sums {
    pub inputs: u64,
    /// Bytes of all results.
    pub bytes: u64,
    pub digest: u64,
}

impl Job {
    pub fn named(name: &str) -> Option<Job> {
        match name {
            "rate" => Some(Job::Rate),
            "play" => Some(Job::Play),
            "close" => Some(Job::Close),
            "gather" => Some(Job::Gather),
            "check" => Some(Job::Check),
            _ => None,
        }
    }

    /// What is timed: of `rate` how many batches, of the others how many batches an agent journals in each period, and of `close`
    /// how many periods there are.
    pub fn size(self) -> u32 {
        match self {
            Job::Rate | Job::Close => 1_000,
            Job::Play | Job::Check => 3,
            Job::Gather => 60,
        }
    }

    /// What the gate runs.
    pub fn small_size(self) -> u32 {
        match self {
            Job::Rate | Job::Close => 2,
            Job::Play | Job::Gather | Job::Check => 1,
        }
    }

    /// How many inputs of that size there are.
    fn inputs(self, size: u32) -> u32 {
        match self {
            Job::Rate => size,
            Job::Play | Job::Close | Job::Gather => 2,
            Job::Check => size.saturating_mul(7),
        }
    }
}

/// How a call ended, as a byte.
fn ending(told: &Result<(), PlayFault>) -> u8 {
    match told {
        Ok(()) => 0,
        Err(PlayFault::OutOfMemory) => 1,
        Err(PlayFault::Refused(_)) => 2,
        Err(PlayFault::Schedule(_)) => 3,
        Err(_) => 4,
    }
}

/// Does a job, and tells what its results come to.
pub fn done(alloc: Global, job: Job, seed: u32, size: u32) -> io::Result<Sums> {
    let mut sink = Counted::new(Digest::new());
    let mut inputs = Inputs::new(alloc, job, seed, size)?;
    for place in 0..job.inputs(size) {
        let text = inputs.at(place)?;
        let mut source = Counted::new(text.as_slice());
        let told = match job {
            Job::Rate => match Period::new(0) {
                Some(period) => rate_text(alloc, period, &mut source, &mut sink),
                None => Ok(()),
            },
            Job::Check => match check_text(alloc, &mut source, &mut sink) {
                Ok(_) => Ok(()),
                Err(fault) => Err(fault),
            },
            _ => play_text(alloc, &mut source, &mut sink),
        };
        if write_all(&mut sink, &[ending(&told)]).is_err() {
            return Err(io::Error::from(io::ErrorKind::Other));
        }
    }
    let digest = sink.into_inner();
    Ok(Sums {
        inputs: u64::from(job.inputs(size)),
        bytes: digest.bytes(),
        digest: digest.value(),
    })
}
