// The laws.
ghost use Rattle.store.specs.Adding.{ListsAdd, LooksAddNothing, PollsAdd, PostsAdd};
ghost use Rattle.store.specs.InOrder.{CallsInOrder};

/// What the calls add to the calls and answers of their sessions that have no clause `adds`: a look for no read, and a try in vain, add nothing. Of a
/// list each session adds its own update and its answer.
pub fn calls_add()
    ensures looks { LooksAddNothing }
    ensures lists { ListsAdd }
    ensures posts { PostsAdd }
    ensures polls { PollsAdd }
{}

/// A call that a session makes when another session has its answer comes after it: by what both had called before ([`Store::stand`](crate::Store::stand)),
/// by what the call added, and by what both have called then.
pub fn calls_in_order()
    ensures order { CallsInOrder }
{}
