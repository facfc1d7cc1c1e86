// The operations by their numbers.
use drive_load::Script;
use drive_load::stop::Stop;
use drive_out::Answer;
use drive_script::operations::Operation;
use shelf::Shelf;

// The next operation, which may change the shelf in hand.
pub fn answer(script: &mut Script<'_>, shelf: &mut Shelf, out: &mut Answer) -> Result<(), Stop> {
    match script.operation()? {
        Operation::Fire => drive_routes::fire(script, out),
        Operation::OverRoutes(op) => drive_routes::over_routes(op, script, out),
        Operation::OverLists(op) => drive_lists::over_lists(op, script, out),
        Operation::OverSheet(op) => drive_sheets::answer(op, script, out),
        Operation::OverShelf(op) => drive_shelf::answer(op, shelf, script, out),
        Operation::Find => drive_lookup::find(script, out),
        Operation::Compare => drive_lookup::compare(script, out),
        Operation::Convert(way) => drive_convert::convert(way, script, out),
    }
}
