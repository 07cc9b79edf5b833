//! An operation that is lost, and then told.

use ec_base::{List, NoMemory, ObjId, OpNo};
use ec_cache::report::Report;
use std::alloc::Global;

// A report that owes operation 5, which was on these objects.
fn owing(alloc: Global, objects: &[ObjId]) -> Result<Report, NoMemory> {
    let lost = [(OpNo(5), List::of(objects.to_vec(alloc)?))];
    let mut report = Report::new(alloc)?;
    report.owe(&lost)?;
    Ok(report)
}

fn is_due(report: &Report, touched: &[ObjId], ops: &[OpNo]) -> Result<bool, NoMemory> {
    let due = report.due(touched)?;
    Ok(due.as_slice() == ops)
}

fn is_owed_for(report: &Report, objects: &[ObjId]) -> Result<bool, NoMemory> {
    let owed = report.objects()?;
    Ok(owed.as_slice() == objects)
}

// It's due once to the first two objects, then not to the first one, which is cleared, and stays owed for the others.
fn is_told_once(report: &mut Report, objects: [ObjId; 3]) -> Result<bool, NoMemory> {
    let [one, two, three] = objects;
    let is_told = is_due(report, &[one, two], &[OpNo(5)])?;
    report.clear(&[one]);
    Ok(is_told && is_due(report, &[one], &[])? && is_owed_for(report, &[two, three])?)
}

#[test]
fn a_lost_operation_is_reported_once(rt: HostRuntime) {
    let one = ObjId::root();
    let two = ObjId::new(2).expect(&rt, "an id");
    let three = ObjId::new(3).expect(&rt, "an id");
    let mut report = owing(rt.alloc(), &[one, two, three]).expect(&rt, "memory");
    let told = is_told_once(&mut report, [one, two, three]);
    drop(report);
    assert!(rt; told == Ok(true));
}
