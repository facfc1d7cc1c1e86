// The operations over a job whose routes are lent lists.
#![tactic(auto)]

use drive_load::arguments::Argument;
use drive_load::stop::Stop;
use drive_load::{LENT, Script};
use drive_out::Answer;
use drive_routes::answer;
use drive_script::operations::OverJob;
use lent::LentJob;
use route::{Places, Step};

// The lists to lend.
#[derive(Drop)]
struct Lists {
    old_places: Places,
    old: Vec<Step>,
    new_places: Places,
    new: Vec<Step>,
    done: Vec<u32>,
}

impl Lists {
    fn job(&self) -> LentJob<'_> {
        LentJob {
            old_places: self.old_places,
            old: &self.old,
            new_places: self.new_places,
            new: &self.new,
            done: &self.done,
        }
    }
}

impl Argument for Lists {
    fn take(script: &mut Script<'_>) -> Result<Lists, Stop> {
        Ok(Lists {
            old_places: Places::take(script)?,
            old: script.list(LENT)?,
            new_places: Places::take(script)?,
            new: script.list(LENT)?,
            done: script.names()?,
        })
    }
}

pub fn over_lists(op: OverJob, script: &mut Script<'_>, out: &mut Answer) -> Result<(), Stop> {
    let l = Lists::take(script)?;
    answer(op, &l.job(), script, out)
}
