// The operation put: a bad shelf, the number, a full shelf, the rows of the route; then one edition more. Number and
// route are two, as 02 has them.
ghost use Rattle.std.specs.Prelude.{◌≡◌, ◌<◌};
ghost use Rattle.refusal.specs.Rows.{first};
ghost use Rattle.refusal.specs.Refusal.{outcome_of};
ghost use Rattle.route.specs.Steps.{steps_of};
ghost use Rattle.job.specs.Alone.{alone_rows};
ghost use Rattle.shelf.specs.Put.{shelf_rows, put_row, with_edition, stored, stored_with};

use crate::editions::{is_good, last_of, number_fits, numbers_in};
use crate::{Edition, Shelf};
use flat::laying::lay;
use job::checks::check_alone;
use refusal::{Refusal, Row};
use route::Route;

// The rows of the shelf and of the number.
fn check_number(s: &Shelf, number: u32) -> Result<(), Refusal>
    ensures { outcome_of result ≡ first (shelf_rows s.now number) }
{
    let len = s.len;
    let numbers = numbers_in(s);
    if !is_good(len, &numbers) {
        return Err(Row::BadShelf.at(1));
    }
    if !number_fits(last_of(&numbers[..len]), number) {
        return Err(Row::BadEdition.at(0));
    }
    if Shelf::EDITIONS <= len {
        return Err(Row::BadShelf.at(0));
    }
    Ok(())
}

// The rows of the route, as an old route's.
fn check_edition(r: &Route) -> Result<(), Refusal>
    ensures { outcome_of result ≡ first (alone_rows r.now.places (steps_of r.now)) }
{
    let mut a = [0u64; 260];
    let n = lay(r, &mut a);
    check_alone(r.places, &a[..n])?;
    Ok(())
}

// All rows of put in turn.
fn check(s: &Shelf, number: u32, route: &Route) -> Result<(), Refusal>
    ensures { outcome_of result ≡ put_row s.now number route.now }
{
    check_number(s, number)?;
    check_edition(route)
}

// One edition more.
#[tactic(auto, unfolding(crate::specs::Put::with_edition))]
fn store(s: &mut Shelf, number: u32, route: Route)
    requires { s.old.len < 8 }
    ensures { s.new ≡ with_edition s.old number route }
{
    let at = s.len;
    s.editions[at] = Edition { number, route };
    s.len = at + 1;
}

#[tactic(auto, using(crate::proofs::PutRows::put_room, crate::proofs::PutRows::put_stored, crate::proofs::PutRows::put_refused))]
pub fn put(s: &mut Shelf, number: u32, route: &Route) -> Result<(), Refusal>
    ensures { stored_with (outcome_of result) s.new ≡ stored s.old number route.now }
{
    check(s, number, route)?;
    store(s, number, *route);
    Ok(())
}
