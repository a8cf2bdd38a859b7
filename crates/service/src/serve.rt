//! Sessions and refiners side by side.

ghost use Rattle.std.specs.Prelude.{◌≡◌, ◌<◌, ◌++◌, ℕ, All, length, map, vec_len, slice_index_or, IfOk, IsOk};
ghost use Rattle.std.specs.List.{AllByRecursion};
ghost use Rattle.image_map.specs.CallModel.{AreSettings};
ghost use Rattle.image_map.specs.Whole.{IsImage};
ghost use Rattle.service.specs.Requests.{IsAskable};
ghost use Rattle.service.specs.Jobs.{IsGuest, Answered, IsJob, IsDone, texts_in};
ghost use Rattle.service.specs.Seats.{IsReady};

use crate::gate::Gate;
use crate::job::Job;
use crate::refine::refiner;
use crate::session::Session;
use crate::shop::{Seat, Shop};
use requests::Script;
use std::alloc::{AllocError, Global};
use std::sync::Wait;
use std::thread;
use std::thread::Threads;

// Does a job: gives the text of a session, and none of a refiner.
fn work<R: Wait, G: Gate>(
    rt: &R,
    alloc: Global,
    shop: &Shop,
    script: &Script,
    gate: &G,
    job: Job,
) -> Result<Option<Vec<u8>>, AllocError>
    requires job { IsJob shop.now job }
    requires requests { All (λ line. IsAskable shop.now line.1) script.now.lines }
    requires image { IsImage shop.now.image }
    requires settings { AreSettings (length shop.now.image.externs) shop.now.settings }
    ensures { IfOk result (IsDone shop.now script.now.lines job) }
{
    match job {
        Job::Asks(mut session) => match session.run(rt, alloc, shop, script, gate) {
            Ok(text) => Ok(Some(text)),
            Err(error) => Err(error),
        },
        Job::Refines(mut seat) => match refiner(rt, alloc, shop, &mut seat, gate) {
            Ok(_) => Ok(None),
            Err(error) => Err(error),
        },
    }
}

// Does the jobs side by side.
fn work_all<R: Threads + Wait + Sync, G: Gate + Sync>(
    rt: &R,
    alloc: Global,
    shop: &Shop,
    script: &Script,
    gate: &G,
    jobs: Vec<Job>,
) -> Result<Vec<Result<Option<Vec<u8>>, AllocError>>, AllocError>
    requires jobs { (i : ℕ) (d : _) → i < vec_len jobs → IsJob shop.now (slice_index_or jobs.items i d) }
    requires requests { All (λ line. IsAskable shop.now line.1) script.now.lines }
    requires image { IsImage shop.now.image }
    requires settings { AreSettings (length shop.now.image.externs) shop.now.settings }
    ensures len { IfOk result (λ v. vec_len v ≡ vec_len jobs) }
    ensures done { IfOk result (λ v. (i : ℕ) (d : _) (e : _) → i < vec_len jobs → IfOk (slice_index_or v.items i e) (IsDone shop.now script.now.lines (slice_index_or jobs.items i d))) }
{
    thread::map_vec(rt, jobs, &|job| work(rt, alloc, shop, script, gate, job))
}

// The jobs of sessions, and behind them those of refiners.
fn jobs_of(
    alloc: Global,
    sessions: Vec<Session>,
    refiners: Vec<Seat>,
) -> Result<Vec<Job>, AllocError>
    ensures { IfOk result (λ v. v.items ≡ map Job.Asks sessions.items ++ map Job.Refines refiners.items) }
{
    let mut jobs = Vec::new(alloc);
    for session in sessions {
        jobs.push(Job::Asks(session))?;
    }
    for seat in refiners {
        jobs.push(Job::Refines(seat))?;
    }
    Ok(jobs)
}

// The texts of those who gave one. A failed job is an error.
fn texts_of(
    alloc: Global,
    done: Vec<Result<Option<Vec<u8>>, AllocError>>,
) -> Result<Vec<Vec<u8>>, AllocError>
    ensures texts { IfOk result (λ v. v.items ≡ texts_in done.items) }
    ensures whole { IfOk result (λ _. AllByRecursion IsOk done.items) }
{
    let mut texts = Vec::new(alloc);
    for result in done {
        match result {
            Ok(Some(text)) => texts.push(text)?,
            Ok(None) => {}
            Err(error) => return Err(error),
        }
    }
    Ok(texts)
}

/// Runs sessions and refiners side by side, each in a thread of its own where one can be made, and gives the text of each
/// session's replies.
///
/// # Errors
/// Where memory is wanting. The others run to their end then, and what was published stays.
pub fn serve_script<R: Threads + Wait + Sync, G: Gate + Sync>(
    rt: &R,
    alloc: Global,
    shop: &Shop,
    script: &Script,
    sessions: Vec<Session>,
    refiners: Vec<Seat>,
    gate: &G,
) -> Result<Vec<Vec<u8>>, AllocError>
    requires sessions { All (IsGuest shop.now) sessions.items }
    requires refiners { All (λ seat. IsReady shop.now seat.place seat.pinned) refiners.items }
    requires requests { All (λ line. IsAskable shop.now line.1) script.now.lines }
    requires image { IsImage shop.now.image }
    requires settings { AreSettings (length shop.now.image.externs) shop.now.settings }
    ensures len { IfOk result (λ v. length v.items ≡ length sessions.items) }
    ensures answered { IfOk result (λ v. (i : ℕ) (d : _) (e : _) → i < length sessions.items → Answered shop.now script.now.lines (slice_index_or sessions.items i d) (slice_index_or v.items i e).items) }
{
    let jobs = jobs_of(alloc, sessions, refiners)?;
    let done = work_all(rt, alloc, shop, script, gate, jobs)?;
    let texts = texts_of(alloc, done)?;
    Ok(texts)
}
