//! How a store is used, in four examples that read alone:
//!
//! - `counting`: open a store, update and read through its session, close it;
//! - `reopening`: a store whose history is full goes on, in a second one on the state that the first ends in;
//! - `sweeping`: a hash that is full is swept of its old keys, page by page;
//! - `threads`: four threads on two nodes share a store.
#![tactic(auto)]

mod common;
mod counting;
mod reopening;
mod sweeping;
mod threads;

use std::io;

fn main(rt: HostRuntime) -> io::Result<()> {
    println!(rt; "counting")?;
    counting::tell(&rt, rt.alloc())?;
    println!(rt; "reopening")?;
    reopening::tell(&rt, rt.alloc())?;
    println!(rt; "sweeping")?;
    sweeping::tell(&rt, rt.alloc())?;
    println!(rt; "threads")?;
    threads::tell(&rt, rt.alloc())
}
