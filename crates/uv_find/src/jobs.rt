//! Results of jobs: where a search goes back and on again, a job that was done isn't done anew.

use std::alloc::AllocError;
use uv_model::Machine;
use uv_work::{Content, Job, WorkResult};

/// The job that a worker runs.
fn job_run<M: Machine>(machine: &M, worker: u16) -> Option<Job> {
    match machine.run_by(worker as usize) {
        None => None,
        Some(id) => match machine.held(id) {
            Some(Content::Request(request)) => Some(request.job(id)),
            _ => None,
        },
    }
}

/// The result of a job: the one that lies by the number of its slot, if that is of this job.
fn result_of(results: &mut Vec<WorkResult>, job: Job) -> Result<WorkResult, AllocError> {
    let slot = job.req.slot as usize;
    if let Some(known) = results.get(slot) {
        if known.job().is(job) {
            return Ok(*known);
        }
    }
    let work = WorkResult::compute(job);
    for _ in results.len()..slot + 1 {
        results.push(work)?;
    }
    if slot < results.len() {
        results[slot] = work;
    }
    Ok(work)
}

/// The result of the job that a worker runs.
pub(crate) fn result_by<M: Machine>(
    machine: &M,
    worker: u16,
    results: &mut Vec<WorkResult>,
) -> Result<Option<WorkResult>, AllocError> {
    match job_run(machine, worker) {
        None => Ok(None),
        Some(job) => Ok(Some(result_of(results, job)?)),
    }
}
