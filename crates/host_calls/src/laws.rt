// The laws.
ghost use Rattle.host_calls.specs.Adding.{CallsAdd};

/// What a call at an open handle ([`call`](crate::calls::call), `goes`) adds to the calls and answers of its session, by what it asks and what it tells.
pub fn calls_add()
    ensures add { CallsAdd }
{}
