//! Laws of a tree and maps that belong together, each the contract of a function that does nothing.

ghost use Rattle.transition_tree.specs.Laws.{HasLiveFronts, HasOneLiveEach};

/// No origin, prototype and path have two live maps.
pub fn one_live_map_each()
    ensures { HasOneLiveEach }
{}

/// Each front of a live map's path has a live map.
pub fn fronts_are_live()
    ensures { HasLiveFronts }
{}
