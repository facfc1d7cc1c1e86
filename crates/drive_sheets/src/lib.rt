// The operations over a sheet.
#![tactic(auto)]

use drive_load::stop::Stop;
use drive_load::{LENT, Script};
use drive_out::Answer;
use drive_script::operations::OverSheet;
use facts::Sheet;
use out_slice::Wrote;
use reader::Counts;
use reader::reads::{read, read_scope};
use route::Step;

// With the work and the out slice.
fn print(sheet: &[u8], script: &mut Script<'_>, out: &mut Answer) -> Result<(), Stop> {
    let mut work = script.fill()?;
    let mut text = script.fill()?;
    let r = Wrote::from(ops::print::print(sheet, &mut work, &mut text));
    Ok(drive_answers::printed(out, &r, &work, &text)?)
}

// With the order.
fn try_sheet(sheet: &[u8], script: &mut Script<'_>, out: &mut Answer) -> Result<(), Stop> {
    let r = ops::tries::try_sheet(sheet, &script.bytes()?);
    Ok(drive_answers::fired(out, r)?)
}

// Into lists of three lengths. All their numbers are 7 before.
fn read_lists(sheet: &[u8], script: &mut Script<'_>, out: &mut Answer) -> Result<(), Stop> {
    let alloc = script.alloc;
    let seven = Step::of(7, true, 7, 7, 7, 7);
    let mut old = vec![in alloc; seven; script.count(LENT)?]?;
    let mut new = vec![in alloc; seven; script.count(LENT)?]?;
    let mut done = vec![in alloc; 7u32; script.count(LENT)?]?;
    let counts = Counts::from(lent_reading::read(sheet, &mut old, &mut new, &mut done));
    drive_answers::counts(out, &counts)?;
    drive_answers::lent(out, &old)?;
    drive_answers::lent(out, &new)?;
    Ok(out.runs(&done)?)
}

pub fn answer(op: OverSheet, script: &mut Script<'_>, out: &mut Answer) -> Result<(), Stop> {
    let sheet = script.bytes()?;
    match op {
        OverSheet::Read => drive_answers::sheet(out, &Sheet::from(read(&sheet)))?,
        OverSheet::ReadScope => drive_answers::sheet(out, &Sheet::from(read_scope(&sheet)))?,
        OverSheet::ReadLists => read_lists(&sheet, script, out)?,
        OverSheet::JobPart => out.runs(reader::part::job_part(&sheet))?,
        OverSheet::Print => print(&sheet, script, out)?,
        OverSheet::Try => try_sheet(&sheet, script, out)?,
    }
    Ok(())
}
