// The follower replays what it hasn't seen.
ghost use Rattle.std.specs.Prelude.{◌≡◌, ◌%◌, ◌^◌, ◌≤◌, length, take};
ghost use Rattle.example_sums.specs.Sums.{total, Follows, CaughtUp, IsSum, IsTold};

use crate::kinds::{Numbers, RunningSum, Value};

fn replay(sum: &mut RunningSum, list: &Numbers)
    requires tail { sum.old.tail ≤ length list.now.items.items }
    requires sum { sum.old.sum ≡ total (take sum.old.tail list.now.items.items) % 2 ^ 64 }
    ensures tail { sum.new.tail ≡ length list.now.items.items }
    ensures sum { sum.new.sum ≡ total list.now.items.items % 2 ^ 64 }
{
    let length = list.items.len() as u64;
    for index in sum.tail..length {
        sum.sum = sum.sum.wrapping_add(list.items[index as usize]);
    }
    sum.tail = length;
}

/// The follower takes in all numbers of the list.
pub fn catch_up(follower: &mut Value, leader: &Value)
    requires { Follows leader.now follower.old }
    ensures { CaughtUp leader.now follower.new }
{
    match (follower, leader) {
        (Value::Sum(sum), Value::List(list)) => replay(sum, list),
        _ => unreachable!(),
    }
}

/// How many numbers the follower has taken in, and their sum.
pub fn tail_and_sum(follower: &Value) -> (u64, u64)
    requires { IsSum follower.now }
    ensures { IsTold follower.now result.0 result.1 }
{
    match follower {
        Value::List(_) => unreachable!(),
        Value::Sum(sum) => (sum.tail, sum.sum),
    }
}
