// The usual job of the benchmark (host/src/bin/bench/cases.rs has it as a sheet), moved by search. Place p is bit p,
// variable v is bit v.
use route::Route;
use samples::{route_of, step};
use shelf::Shelf;

pub fn old() -> Route {
    let steps = [
        step(110, 1, 6, 0, 3),
        step(120, 2, 8, 1, 4),
        step(130, 4, 16, 2, 8),
        step(135, 16, 32, 8, 8192),
        step(140, 32, 64, 8, 16),
        step(150, 72, 128, 20, 32),
        step(160, 128, 768, 32, 64),
        step(170, 256, 1024, 64, 128),
        step(180, 512, 2048, 64, 256),
        step(190, 1024, 4096, 128, 512),
        step(200, 6144, 8192, 768, 1024),
        step(220, 8192, 16384, 1024, 4096),
    ];
    route_of(15, 1, steps)
}

pub fn new() -> Route {
    let steps = [
        step(110, 1, 2, 0, 3),
        step(130, 2, 4, 2, 8),
        step(140, 4, 8, 8, 16),
        step(120, 8, 16, 1, 4),
        step(150, 16, 32, 20, 32),
        step(160, 32, 64, 32, 64),
        step(180, 64, 128, 64, 256),
        step(170, 128, 256, 64, 128),
        step(190, 256, 512, 128, 512),
        step(200, 512, 1024, 768, 1024),
        step(210, 1024, 2048, 1024, 2048),
        step(220, 2048, 4096, 3072, 4096),
    ];
    route_of(13, 1, steps)
}

// The done names. The last two may be done in either order, and the round says in which.
pub fn done(round: u64) -> [u32; 10] {
    if round % 2 == 0 {
        [110, 120, 130, 135, 140, 150, 160, 170, 190, 180]
    } else {
        [110, 120, 130, 135, 140, 150, 160, 170, 180, 190]
    }
}

// The old route stored seven times, by the numbers 10 to 70.
pub fn seven() -> Shelf {
    let old = old();
    let mut s = Shelf::empty();
    for number in [10, 20, 30, 40, 50, 60, 70] {
        let _ = shelf::storing::put(&mut s, number, &old);
    }
    s
}

// And the new route as edition 80.
pub fn full() -> Shelf {
    let mut s = seven();
    let _ = shelf::storing::put(&mut s, 80, &new());
    s
}
