// The loft's route as it was redrawn in one season. It starts on place 0, and each step leads from the place of the
// step before it to the next.
use mask::Mask;
use route::{Places, Route};

// One step more, from the route's last place to the next. Variables are bits: 0 the cloth, 1 how far it shrinks, 2 the
// plotter offset, 3 the panels, 4 the plies of the corners, 5 the seams, 6 the corners, 7 the weight.
fn then(r: Route, name: u32, cloth: bool, reads: u32, writes: u32) -> Route {
    let mut longer = r;
    let n = r.len;
    if n < 63 {
        let mut s = samples::step(name, u64::bit(n), u64::bit(n + 1), reads, writes);
        s.cloth = cloth;
        longer.steps[n] = s;
        longer.len = n + 1;
        longer.places = Places {
            count: n as u64 + 2,
            start: 1,
        };
    }
    longer
}

fn choose_cloth(r: Route) -> Route {
    then(r, 10, false, 0, 1)
}

fn test_shrinking(r: Route) -> Route {
    then(r, 20, false, 1, 2)
}

fn weigh_cloth(r: Route) -> Route {
    then(r, 30, false, 1, 128)
}

fn work_out_offset(r: Route) -> Route {
    then(r, 40, false, 3, 4)
}

// From the weight too.
fn work_out_offset_by_weight(r: Route) -> Route {
    then(r, 40, false, 131, 4)
}

fn cut_panels(r: Route) -> Route {
    then(r, 50, true, 5, 8)
}

fn work_out_plies(r: Route) -> Route {
    then(r, 55, false, 3, 16)
}

// It writes nothing.
fn cut_patches(r: Route) -> Route {
    then(r, 60, true, 17, 0)
}

fn sew_and_set(r: Route) -> Route {
    then(then(r, 70, false, 10, 32), 80, false, 56, 64)
}

fn begin() -> Route {
    test_shrinking(choose_cloth(Route::empty()))
}

fn cut_both(r: Route) -> Route {
    cut_patches(cut_panels(r))
}

pub fn first() -> Route {
    let offset = work_out_offset(weigh_cloth(begin()));
    sew_and_set(cut_patches(work_out_plies(cut_panels(offset))))
}

// The plies are worked out right after the shrink test, and no cloth is weighed.
pub fn second() -> Route {
    sew_and_set(cut_both(work_out_offset(work_out_plies(begin()))))
}

// The cloth is weighed again, and the offset takes its weight into account.
pub fn third() -> Route {
    let weighed = weigh_cloth(work_out_plies(begin()));
    sew_and_set(cut_both(work_out_offset_by_weight(weighed)))
}
