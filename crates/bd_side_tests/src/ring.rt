//! A ring of three, rings of rings, and numbers that come back.

use crate::same::{holds, same};
use bd_ring::Rings;
use std::test::Fail;

#[test]
fn turns_go_round(rt: HostRuntime) -> Result<(), Fail> {
    let mut rings = Rings::new(rt.alloc());
    let all = rings.add().ok_or("memory")?;
    let one = rings.add().ok_or("memory")?;
    let two = rings.add().ok_or("memory")?;
    let three = rings.add().ok_or("memory")?;
    holds(&rt, "the first enters", rings.enter(all, one));
    holds(&rt, "the second enters", rings.enter(all, two));
    holds(&rt, "the third enters", rings.enter(all, three));
    holds(&rt, "the second stands there", !rings.enter(all, two));
    same(&rt, "the first's turn", rings.take(all), Some(one));
    holds(&rt, "the first comes back", rings.enter(all, one));
    same(&rt, "the second is passed over", rings.pass(all), Some(two));
    same(&rt, "the third's turn", rings.take(all), Some(three));
    rings.leave(one);
    same(&rt, "the second's turn", rings.take(all), Some(two));
    same(&rt, "nobody's turn", rings.take(all), None);
    Ok(())
}

#[test]
fn rings_are_apart(rt: HostRuntime) -> Result<(), Fail> {
    let mut rings = Rings::new(rt.alloc());
    let all = rings.add().ok_or("memory")?;
    let user = rings.add().ok_or("memory")?;
    let other = rings.add().ok_or("memory")?;
    let one = rings.add().ok_or("memory")?;
    holds(&rt, "one enters the user's ring", rings.enter(user, one));
    holds(&rt, "the user enters", rings.enter(all, user));
    holds(&rt, "the other enters", rings.enter(all, other));
    holds(&rt, "one stands elsewhere", !rings.enter(all, one));
    holds(&rt, "the user's ring isn't empty", !rings.remove(user));
    same(&rt, "the user is passed over", rings.pass(all), Some(user));
    same(&rt, "the other's turn", rings.take(all), Some(other));
    same(&rt, "the user's turn", rings.take(all), Some(user));
    same(&rt, "nobody's turn", rings.take(all), None);
    let got = rings.first(user);
    same(&rt, "first of the user's ring", got, Some(one));
    holds(&rt, "one goes", rings.remove(one));
    same(&rt, "nobody stands there", rings.first(user), None);
    same(&rt, "its number comes back", rings.add(), Some(one));
    Ok(())
}

#[test]
fn numbers_come_back_before_the_rings_grow(rt: HostRuntime) -> Result<(), Fail> {
    let mut rings = Rings::new(rt.alloc());
    let all = rings.add().ok_or("memory")?;
    let one = rings.add().ok_or("memory")?;
    let two = rings.add().ok_or("memory")?;
    let three = rings.add().ok_or("memory")?;
    holds(&rt, "the first enters", rings.enter(all, one));
    holds(&rt, "the second enters", rings.enter(all, two));
    holds(&rt, "the first goes", rings.remove(one));
    holds(&rt, "the third goes", rings.remove(three));
    same(&rt, "the second is left", rings.pass(all), Some(two));
    same(&rt, "the third's number", rings.add(), Some(three));
    same(&rt, "the first's number", rings.add(), Some(one));
    same(&rt, "a new number", rings.add(), Some(4));
    same(&rt, "the second's turn", rings.take(all), Some(two));
    Ok(())
}
