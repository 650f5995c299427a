//! Some parcels on their way.

use crate::same::{holds, same};
use bd_tickets::{Shelves, Tickets, kept_descriptors};
use std::test::Fail;

#[test]
fn each_descriptor_comes_back_once(rt: HostRuntime) -> Result<(), Fail> {
    let mut tickets = Tickets::new(rt.alloc());
    let mut first = Vec::new(rt.alloc());
    first.push(7).ok().ok_or("memory")?;
    first.push(8).ok().ok_or("memory")?;
    let mut second = Vec::new(rt.alloc());
    second.push(9).ok().ok_or("memory")?;
    holds(&rt, "the first is put", tickets.put(1 << 40, first).is_ok());
    holds(&rt, "the second is put", tickets.put(3, second).is_ok());
    let found = tickets.take(1 << 40).ok_or("the first")?;
    holds(&rt, "the first", found.as_slice() == [7, 8].as_slice());
    holds(&rt, "it comes once", tickets.take(1 << 40).is_none());
    let left = tickets.take_any().ok_or("the second")?;
    holds(&rt, "the second", left.as_slice() == [9].as_slice());
    holds(&rt, "there is no third", tickets.take_any().is_none());
    holds(&rt, "none is left", tickets.is_empty());
    Ok(())
}

#[test]
fn parcels_on_one_list_are_told_apart(rt: HostRuntime) -> Result<(), Fail> {
    let mut shelves = Shelves::new(rt.alloc()).ok().ok_or("memory")?;
    let mut first = Vec::new(rt.alloc());
    first.push(7).ok().ok_or("memory")?;
    let mut second = Vec::new(rt.alloc());
    second.push(8).ok().ok_or("memory")?;
    holds(&rt, "the first is put", shelves.put(3, first).is_ok());
    holds(&rt, "the second is put", shelves.put(1027, second).is_ok());
    let is_first = shelves.get(3).ok_or("the first")? == [7].as_slice();
    holds(&rt, "the first", is_first);
    let found = shelves.take(1027).ok_or("the second")?;
    holds(&rt, "the second", found.as_slice() == [8].as_slice());
    holds(&rt, "it comes once", shelves.get(1027).is_none());
    same(&rt, "the first is left", shelves.some_step(), Some(3));
    holds(&rt, "it comes", shelves.take(3).is_some());
    same(&rt, "none is left", shelves.some_step(), None);
    Ok(())
}

#[test]
fn a_request_keeps_what_it_says_or_nothing(rt: HostRuntime) -> Result<(), Fail> {
    same(&rt, "both", kept_descriptors(2, 2, true, true), 2);
    same(&rt, "one more came", kept_descriptors(2, 3, true, true), 0);
    let got = kept_descriptors(2, 2, false, true);
    same(&rt, "it isn't whole", got, 0);
    same(&rt, "it isn't run", kept_descriptors(2, 2, true, false), 0);
    Ok(())
}
