//! Closures among three operations that a forder ties.

use ec_base::{List, NoMemory, ObjId, OpNo};
use ec_log::chains::{Ask, Order, OrderFault};
use ec_volume::Update;
use std::alloc::Global;

// The files 2 and 3.
fn file(number: u32) -> ObjId {
    ObjId::new(number).unwrap_or(ObjId::root())
}

fn overwrite(alloc: Global, obj: ObjId) -> Result<Update, NoMemory> {
    Ok(Update::Put {
        obj,
        at: 0,
        bytes: List::of(Vec::from_slice(alloc, b"y")?),
        inside: true,
    })
}

fn overwrites(alloc: Global) -> Result<Vec<Update>, NoMemory> {
    let mut updates = Vec::new(alloc);
    updates.push(overwrite(alloc, file(2))?)?;
    updates.push(overwrite(alloc, file(3))?)?;
    Ok(updates)
}

// Operations 5 and 7, and the forder 6 between them.
fn tied_by(alloc: Global, first: &Update, last: &Update) -> Result<Order, NoMemory> {
    let objs = List::of(Vec::from_slice(alloc, &[file(2), file(3)])?);
    let mut order = Order::new(alloc)?;
    order.add(OpNo(5), first)?;
    order.hold(OpNo(6), Update::Order { objs })?;
    order.add(OpNo(7), last)?;
    Ok(order)
}

// Operations 5 on file 2 and 7 on file 3, and the forder 6 between them.
fn tied(alloc: Global) -> Result<Order, NoMemory> {
    let updates = overwrites(alloc)?;
    match updates.as_slice() {
        [first, last] => tied_by(alloc, first, last),
        _ => Err(NoMemory),
    }
}

fn is_closure(ops: &[OpNo], want: &[u64]) -> bool {
    ops.iter().map(|op| op.0).eq(want.iter().copied())
}

fn is_of_object(order: &Order, obj: ObjId, want: &[u64]) -> bool {
    match order.closure_of_object(obj) {
        Ok(ops) => is_closure(ops.as_slice(), want),
        Err(_) => false,
    }
}

fn is_of_op(order: &Order, op: u64, want: &[u64]) -> bool {
    match order.closure_of_op(OpNo(op)) {
        Ok(ops) => is_closure(ops.as_slice(), want),
        Err(_) => false,
    }
}

fn lacks_the_ninth(order: &Order) -> bool {
    matches!(
        order.closure_of_op(OpNo(9)),
        Err(OrderFault::NoSuchOp(OpNo(9)))
    )
}

fn settle(order: &mut Order, op: u64) {
    order.settle(&[OpNo(op)]);
}

// Whether the sixth operation left an empty place between the others.
fn is_emptied(order: &Order) -> bool {
    order.count() == 2
        && order.get(OpNo(6)).is_none()
        && order.first(Ask::Object(file(3))) == Some(OpNo(7))
}

// All of them are in the closure of the last file, until the first two settle.
fn are_tied(order: &mut Order) -> bool {
    let are_tied = is_of_object(order, file(3), &[5, 6, 7])
        && is_of_op(order, 5, &[5])
        && lacks_the_ninth(order);
    settle(order, 6);
    let is_emptied = is_emptied(order);
    settle(order, 5);
    are_tied && is_emptied && is_of_object(order, file(3), &[7])
}

#[test]
fn a_forder_ties_two_files(rt: HostRuntime) {
    let mut order = tied(rt.alloc()).expect(&rt, "memory");
    let are_tied = are_tied(&mut order);
    drop(order);
    assert!(rt; are_tied);
}
