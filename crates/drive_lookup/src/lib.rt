// Look-ups: a name among names, and how many names a job's look-ups compare.
#![tactic(auto)]

use drive_load::arguments::Argument;
use drive_load::stop::Stop;
use drive_load::{Routes, Script};
use drive_out::Answer;
use finding::Compared;
use job::laying::RouteJob;
use std::alloc::{AllocError, Global};

// Steps of these names, with nothing else, as numbers.
fn steps_named(alloc: Global, names: &[u32]) -> Result<Vec<u64>, AllocError> {
    let mut steps = Vec::new(alloc);
    for name in names {
        steps.extend_from_slice(&[u64::from(*name), 0, 0, 0])?;
    }
    Ok(steps)
}

// The place counted from 1, and 0 for none.
fn place(found: Option<usize>) -> u64 {
    found.map_or(0, |k| (k as u64).saturating_add(1))
}

pub fn find(script: &mut Script<'_>, out: &mut Answer) -> Result<(), Stop> {
    let steps = steps_named(script.alloc, &script.names()?)?;
    let from = u64::take(script)? as usize;
    let l = lookup::find(&steps, from, u32::take(script)?);
    Ok(out.list(&[place(l.found), l.compared as u64, l.next as u64])?)
}

pub fn compare(script: &mut Script<'_>, out: &mut Answer) -> Result<(), Stop> {
    let r = Routes::take(script)?;
    let job = RouteJob {
        old: &r.old,
        new: &r.new,
        done: r.done_names(),
    };
    let r = Compared::from(finding::routes::compare(&job));
    Ok(out.list(&[
        u64::from(r.number),
        r.second,
        r.run as u64,
        r.matched as u64,
    ])?)
}
