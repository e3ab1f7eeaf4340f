use crate::{Items, Memory, Queue};
use std::alloc::Global;

// Whether a queue hands out the one list that was put in, and is empty then.
fn hands_out_what_waits(alloc: Global) -> Result<bool, Memory> {
    let mut items = Items::new(alloc);
    items.push(3u8)?;
    items.set(0, 9);
    let mut waiting = Queue::new(alloc);
    waiting.push(items)?;
    Ok(waiting.len() == 1 && waiting.pop().is_some() && waiting.is_empty())
}

#[test]
fn what_no_command_reaches(rt: HostRuntime) {
    assert!(rt; hands_out_what_waits(rt.alloc()).is_ok_and(|holds| holds));
}
