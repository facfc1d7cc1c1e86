// A sheet between editions, into an out slice.
#![tactic(auto)]

use converting::down::down;
use converting::either;
use converting::up::up;
use drive_load::Script;
use drive_load::stop::Stop;
use drive_out::Answer;
use drive_script::operations::Way;
use out_slice::Wrote;

pub fn convert(way: Way, script: &mut Script<'_>, out: &mut Answer) -> Result<(), Stop> {
    let sheet = script.bytes()?;
    let mut text = script.fill()?;
    let r = match way {
        Way::Up => up(&sheet, &mut text),
        Way::Down => down(&sheet, &mut text),
        Way::Either => either::convert(&sheet, &mut text),
    };
    Ok(drive_answers::wrote(out, &Wrote::from(r), &text)?)
}
