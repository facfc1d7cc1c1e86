// What an argument is made of, each kind by its numbers.
use crate::{LENT, Routes, Script, Stop};
use route::{Places, Route, Step};

pub trait Argument: Drop {
    fn take(script: &mut Script<'_>) -> Result<Self, Stop>;
}

impl Argument for u64 {
    fn take(script: &mut Script<'_>) -> Result<u64, Stop> {
        script.numbers.next().ok_or(Stop::NotWhole)
    }
}

impl Argument for u32 {
    fn take(script: &mut Script<'_>) -> Result<u32, Stop> {
        Ok(u32::try_from(u64::take(script)?)?)
    }
}

impl Argument for u8 {
    fn take(script: &mut Script<'_>) -> Result<u8, Stop> {
        Ok(u8::try_from(u64::take(script)?)?)
    }
}

impl Argument for Step {
    fn take(script: &mut Script<'_>) -> Result<Step, Stop> {
        Ok(Step {
            name: u32::take(script)?,
            ins: u64::take(script)?,
            outs: u64::take(script)?,
            reads: u32::take(script)?,
            writes: u32::take(script)?,
            cloth: script.most(1)? == 1,
        })
    }
}

// A place count, and any mask of start places.
impl Argument for Places {
    fn take(script: &mut Script<'_>) -> Result<Places, Stop> {
        Ok(Places {
            count: u64::from(u32::take(script)?),
            start: u64::take(script)?,
        })
    }
}

// A route by value: its places, any `len`, and records counted.
impl Argument for Route {
    fn take(script: &mut Script<'_>) -> Result<Route, Stop> {
        let mut route = Route::empty();
        route.places = Places::take(script)?;
        route.len = u64::take(script)? as usize;
        let count = script.count(Route::STEPS)?;
        for step in route.steps.iter_mut().take(count) {
            *step = Step::take(script)?;
        }
        Ok(route)
    }
}

impl Argument for Routes {
    fn take(script: &mut Script<'_>) -> Result<Routes, Stop> {
        let old = Route::take(script)?;
        let new = Route::take(script)?;
        let len = script.count(LENT)?;
        let mut done = [0; LENT];
        for name in done.iter_mut().take(len) {
            *name = u32::take(script)?;
        }
        Ok(Routes {
            old,
            new,
            len,
            done,
        })
    }
}
