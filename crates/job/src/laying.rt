// Both routes of a job laid as numbers.
ghost use Rattle.std.specs.Prelude.{◌≡◌};
ghost use Rattle.job.specs.Job.{Job, job_in, routes_in, cut};

use crate::FlatJob;
use flat::laying::lay;
use route::Route;

// A job whose routes can be laid as numbers, in two arrays. Row 4 refuses the 65th step, so those past it change
// nothing. Six operations lay a job and call their own function over lists. They stay six: one that takes the call as a
// closure has to say in its contract what any closure says, and is proved by hand, where each of the six names a law
// and is done.
pub trait Lay {
    ghost job: { Self → Job };

    fn lay<'a>(&'a self, a: &'a mut [u64; 260], b: &'a mut [u64; 260]) -> FlatJob<'a>
        ensures { job_in result ≡ cut (job self.now) };
}

// A job whose routes are records by value. Who owns such a job (samples, drive) has a struct of its own, which lends
// it.
#[derive(Clone, Copy)]
pub struct RouteJob<'r> {
    pub old: &'r Route,
    pub new: &'r Route,
    pub done: &'r [u32],
}

impl<'r> Lay for RouteJob<'r> {
    ghost job = { routes_in };

    fn lay<'a>(&'a self, a: &'a mut [u64; 260], b: &'a mut [u64; 260]) -> FlatJob<'a> {
        let n = lay(self.old, a);
        let m = lay(self.new, b);
        FlatJob {
            old_places: self.old.places,
            old: &a[..n],
            new_places: self.new.places,
            new: &b[..m],
            done: self.done,
        }
    }
}
