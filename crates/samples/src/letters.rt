// 01's examples as records, and a job that goes round. Place p is bit p, variable v is bit v.
use crate::{route_of, step};
use job::laying::RouteJob;
use route::{Route, Step};

// Both routes and the names done.
#[derive(Clone, Copy)]
pub struct Sample {
    pub old: Route,
    pub new: Route,
    pub done: &'static [u32],
}

impl Sample {
    pub fn job(&self) -> RouteJob<'_> {
        RouteJob {
            old: &self.old,
            new: &self.new,
            done: self.done,
        }
    }
}

fn job(old: Route, new: Route, done: &'static [u32]) -> Sample {
    Sample { old, new, done }
}

// Two steps, and 30, which reads what they write.
fn before_30(a: Step, b: Step) -> Route {
    route_of(4, 1, [a, b, step(30, 4, 8, 3, 4)])
}

pub fn a_old() -> Route {
    before_30(step(10, 1, 2, 0, 1), step(20, 2, 4, 0, 2))
}

pub fn a_new() -> Route {
    before_30(step(20, 1, 2, 0, 2), step(10, 2, 4, 0, 1))
}

fn d_old() -> Route {
    before_30(step(10, 1, 2, 0, 1), step(20, 2, 4, 1, 2))
}

fn d_new() -> Route {
    before_30(step(20, 1, 2, 1, 2), step(10, 2, 4, 0, 1))
}

fn e_new() -> Route {
    route_of(3, 1, [step(20, 1, 2, 0, 2), step(30, 2, 4, 3, 4)])
}

// E's new route, where step 30 writes 0 too: all that it reads is written.
fn e_written_new() -> Route {
    route_of(3, 1, [step(20, 1, 2, 0, 2), step(30, 2, 4, 3, 5)])
}

fn f_new() -> Route {
    route_of(3, 1, [step(20, 1, 2, 0, 2), step(30, 2, 4, 2, 4)])
}

fn g_new() -> Route {
    before_30(step(20, 1, 2, 0, 2), step(10, 2, 4, 0, 9))
}

pub fn a() -> Sample {
    job(a_old(), a_new(), &[10, 20, 30])
}

// A, and the new route is the old one.
pub fn straight() -> Sample {
    job(a_old(), a_old(), &[10, 20, 30])
}

pub fn b() -> Sample {
    job(a_old(), a_new(), &[])
}

pub fn c() -> Sample {
    job(a_old(), a_new(), &[10])
}

pub fn d() -> Sample {
    job(d_old(), d_new(), &[10, 20])
}

pub fn e() -> Sample {
    job(a_old(), e_new(), &[10, 20])
}

pub fn e_written() -> Sample {
    job(a_old(), e_written_new(), &[10, 20])
}

pub fn f() -> Sample {
    job(a_old(), f_new(), &[10, 20])
}

pub fn g() -> Sample {
    job(a_old(), g_new(), &[10])
}

pub fn h() -> Sample {
    job(a_old(), a_new(), &[40])
}

pub fn i() -> Sample {
    job(a_old(), a_new(), &[30])
}

pub fn j() -> Sample {
    let r = route_of(3, 3, [step(10, 1, 4, 0, 0), step(20, 2, 4, 0, 0)]);
    job(r, r, &[10, 20])
}

pub fn k() -> Sample {
    let r = route_of(2, 1, [step(10, 1, 2, 0, 0), step(20, 2, 2, 0, 1)]);
    job(r, r, &[10, 20, 20])
}

pub fn l() -> Sample {
    let r = route_of(2, 1, [step(10, 1, 3, 0, 0)]);
    job(r, r, &[])
}

// The last step puts the token back on the first place, and the job has gone round twice.
pub fn round() -> Sample {
    let r = route_of(2, 1, [step(10, 1, 2, 0, 1), step(20, 2, 1, 1, 2)]);
    job(r, r, &[10, 20, 10, 20])
}

// The same job, and the new route has one step more before it comes back.
pub fn round_moved() -> Sample {
    let old = round().old;
    let steps = [
        step(10, 1, 2, 0, 1),
        step(20, 2, 4, 1, 2),
        step(30, 4, 1, 2, 4),
    ];
    job(old, route_of(3, 1, steps), &[10, 20, 10, 20])
}
