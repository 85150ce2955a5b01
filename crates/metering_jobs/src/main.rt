//! Whole jobs of a metering system on inputs that this program makes, for timing them: each prints what its results come to.
//!
//! Words: `JOB SEED [SIZE]`, or `text JOB SEED SIZE PLACE` for one of its inputs. Each seed gives another
//! input of the same kind and size. Without words each job is done once, small.
#![tactic(auto)]

mod batches;
mod digests;
mod inputs;
mod jobs;
mod numbers;
mod schedules;
mod sheets;

use inputs::Inputs;
use jobs::{Job, done};
use std::alloc::Global;
use std::{env, io};

fn bad_words() -> io::Error {
    io::Error::from(io::ErrorKind::InvalidInput)
}

/// What a job's results come to, in a line.
fn tell(rt: &HostRuntime, alloc: Global, job: Job, seed: u32, size: u32) -> io::Result<()> {
    let sums = done(alloc, job, seed, size)?;
    println!(rt; "{} {} {}", sums.inputs, sums.bytes, sums.digest)
}

fn main(rt: HostRuntime) -> io::Result<()> {
    let words: Vec<String> = env::args(&rt)?.skip(1).collect(rt.alloc())?;
    match words.as_slice() {
        [] => {
            for job in [Job::Rate, Job::Play, Job::Close, Job::Gather, Job::Check] {
                tell(&rt, rt.alloc(), job, 1, job.small_size())?;
            }
            Ok(())
        }
        [name, seed] => {
            let (Some(job), Ok(seed)) = (Job::named(name), seed.parse::<u32>()) else {
                return Err(bad_words());
            };
            tell(&rt, rt.alloc(), job, seed, job.size())
        }
        [name, seed, size] => {
            let (Some(job), Ok(seed), Ok(size)) = (
                Job::named(name),
                seed.parse::<u32>(),
                size.parse::<u32>(),
            ) else {
                return Err(bad_words());
            };
            tell(&rt, rt.alloc(), job, seed, size)
        }
        // One input of a job, as a text.
        [what, name, seed, size, place] => {
            let (Some(job), Ok(seed), Ok(size), Ok(place)) = (
                Job::named(name),
                seed.parse::<u32>(),
                size.parse::<u32>(),
                place.parse::<u32>(),
            ) else {
                return Err(bad_words());
            };
            if what.as_str() != "text" {
                return Err(bad_words());
            }
            let text = Inputs::new(rt.alloc(), job, seed, size)?.at(place)?;
            rt.stdout().write_all(&text)
        }
        _ => Err(bad_words()),
    }
}
