// What the definitions say of all stores that stand.

ghost use Rattle.settlement.specs.Settling.{NodesSettleAlone, EveryScheduleSettles};
ghost use Rattle.settlement.specs.Others.{LoggedBatchesEnd, NodesSettleOrOthersMove};

/// From every store that stands the list of one node answers all open calls of that node, wherever the other nodes have stopped. While these go
/// on, three steps of its node end a batch that is in the log, and once through its list the node has no call open, or another node has
/// added to the history or moved the base meanwhile.
pub fn nodes_settle()
    ensures alone { NodesSettleAlone }
    ensures logged { LoggedBatchesEnd }
    ensures meanwhile { NodesSettleOrOthersMove }
{}

/// After every list of steps of a new store the lists of all nodes answer each call of the whole trace, and one history explains them all.
pub fn every_schedule_settles()
    ensures { EveryScheduleSettles }
{}
