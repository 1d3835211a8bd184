//! Which worker runs a request.
ghost use Rattle.std.specs.Prelude.{◌≡◌, length};
ghost use Rattle.uv_work.specs.Pool.{is_run};
ghost use Rattle.uv_model.specs.Queries.{runner_from};

use uv_ids::Id;

/// Whether what a worker runs is this request.
fn is_run(run: Option<Id>, id: Id) -> bool
    ensures { result ≡ is_run run id }
{
    match run {
        Some(its) => its == id,
        None => false,
    }
}

/// The first of the workers that runs a request, by what each of them runs.
pub fn runner_of(running: &[Option<Id>], id: Id) -> Option<usize>
    ensures { result ≡ runner_from 0 running.now id }
{
    for worker in 0..running.len() {
        if is_run(running[worker], id) {
            return Some(worker);
        }
    }
    None
}
