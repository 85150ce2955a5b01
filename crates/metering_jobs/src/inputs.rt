//! The inputs of a job.

use crate::batches::{Batch, Resources, put_batch};
use crate::jobs::Job;
use crate::numbers::Numbers;
use crate::schedules::{Plan, schedule};
use crate::sheets::{put_issuer, put_sheet};
use std::alloc::{AllocError, Global};

/// So many batches of `rate` are of one agent's resources.
const BATCHES_OF_ONE: u32 = 25;

/// The inputs of a job: what several of them share is made once.
#[derive(Drop)]
pub struct Inputs {
    alloc: Global,
    job: Job,
    seed: u32,
    size: u32,
    /// The sections of a sheet and of an issuer.
    head: Vec<u8>,
    /// The resources whose batches come next, and which ones they are.
    resources: Resources,
    group: u32,
}

/// The seed of what stands at a place, counted from 0.
fn seed_at(seed: u32, place: u32) -> u64 {
    u64::from(seed) * 1_000 + u64::from(place)
}

fn has_regions(group: u32) -> bool {
    group % 4 == 0
}

/// The resources of the batches of `rate` in a group of these.
fn resources_of(alloc: Global, seed: u32, group: u32) -> Result<Resources, AllocError> {
    let mut numbers = Numbers::new(seed_at(seed, group).wrapping_add(500_000));
    Resources::new(alloc, &mut numbers, 500, has_regions(group))
}

impl Inputs {
    pub fn new(alloc: Global, job: Job, seed: u32, size: u32) -> Result<Inputs, AllocError> {
        let mut head = String::new(alloc);
        put_sheet(&mut head, 2025)?;
        put_issuer(&mut head)?;
        Ok(Inputs {
            alloc,
            job,
            seed,
            size,
            head: head.into_bytes(),
            resources: resources_of(alloc, seed, 0)?,
            group: 0,
        })
    }

    /// The input at a place, counted from 0.
    pub fn at(&mut self, place: u32) -> Result<Vec<u8>, AllocError> {
        let alloc = self.alloc;
        let seed = seed_at(self.seed, place);
        let plan = Plan {
            voters: 5,
            observers: 0,
            agents: 8,
            periods: 12,
            batches: self.size,
            readings: 268,
            amended: 134,
            year: 2025,
            has_faults: false,
        };
        match self.job {
            Job::Rate => self.batch(seed, place / BATCHES_OF_ONE),
            Job::Play => schedule(alloc, seed, &plan),
            Job::Check => schedule(
                alloc,
                seed,
                &Plan {
                    has_faults: true,
                    ..plan
                },
            ),
            Job::Close => schedule(
                alloc,
                seed,
                &Plan {
                    voters: 3,
                    periods: self.size,
                    batches: 1,
                    readings: 4,
                    amended: 1,
                    year: 2000,
                    ..plan
                },
            ),
            Job::Gather => schedule(
                alloc,
                seed,
                &Plan {
                    voters: 1,
                    observers: 2,
                    agents: 64,
                    readings: 2,
                    amended: 0,
                    ..plan
                },
            ),
        }
    }

    /// The sections of a sheet and of an issuer, and a batch of that group behind them.
    fn batch(&mut self, seed: u64, group: u32) -> Result<Vec<u8>, AllocError> {
        if group != self.group {
            self.resources = resources_of(self.alloc, self.seed, group)?;
            self.group = group;
        }
        let mut numbers = Numbers::new(seed);
        let batch = Batch {
            agent: 1 + numbers.below(64),
            seq: 1,
            readings: 500,
            amended: 60,
            amended_seq: 1,
            year: 2025,
            month: 1,
            has_regions: has_regions(group),
            is_bad: false,
        };
        let mut text = Vec::from_slice(self.alloc, &self.head)?;
        put_batch(self.alloc, &mut text, &mut numbers, &batch, &self.resources)?;
        Ok(text)
    }
}
