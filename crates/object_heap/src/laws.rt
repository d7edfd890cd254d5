//! Laws over the relation between heaps and worlds, and over the changes that calls make.

ghost use Rattle.object_heap.specs.Laws.{
  FollowsInTurn,
  IndicesAscend,
  RefusalsChangeNothing,
  RetainsInTurn,
  StopsAreTurns,
};

/// A heap follows itself by no events, and what follows one that follows a first follows the first by both lists in order.
pub fn heaps_follow_in_turn()
    ensures { FollowsInTurn }
{}

/// What no call takes away, no run of calls does.
pub fn heaps_retain_in_turn()
    ensures { RetainsInTurn }
{}

/// What a frame's call gives over a heap is the turn of its program, whoever answers.
pub fn stops_are_turns()
    ensures { StopsAreTurns }
{}

/// A definition or a deletion that is refused changes nothing.
pub fn refusals_change_nothing()
    ensures { RefusalsChangeNothing }
{}

/// The indices among the own keys of an object ascend, so each stands once.
pub fn indices_ascend()
    ensures { IndicesAscend }
{}
