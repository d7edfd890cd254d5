//! The map that stands for a deprecated one.

ghost use Rattle.std.specs.Prelude.{◌≡◌, ◌+◌, ◌*◌, length, true, IfOk};
ghost use Rattle.property_keys.specs.Counts.{TakesAtMost};
ghost use Rattle.map_store.specs.Views.{IsKnown, KeepsEntries, map_at};
ghost use Rattle.transition_tree.specs.Paths.{Fits};
ghost use Rattle.transition_tree.specs.Rows.{HadMap, after, row_of};
ghost use Rattle.transition_tree.specs.Together.{BelongTogether, IsLiveAt};
ghost use Rattle.map_deprecation.specs.Moves.{AreOfOnePath};
ghost use Rattle.map_deprecation.specs.Updating.{Grows, root_of};

use map_store::{MapId, Maps};
use property_keys::{Ledger, NoMemory, Steps};
use transition_tree::{Path, Step, Tree};

/// The live map of a map's row, made where there is none, after each missing map of a front of its path, the shortest
/// first. Each is made by the representation that is kept for its row. After `NoMemory` some of them may be there. A path
/// of n steps takes n * (n + 2) counted steps at most.
pub fn updated<L: Ledger>(
    tree: &mut Tree,
    maps: &mut Maps,
    map: MapId,
    steps: &mut Steps<L>,
) -> Result<MapId, NoMemory>
    requires together { BelongTogether tree.old maps.old }
    requires known { IsKnown maps.old map }
    ensures live { IfOk result (IsLiveAt tree.new maps.new (row_of tree.old map)) }
    ensures path { IfOk result (λ live. AreOfOnePath (map_at maps.new map).entries (map_at maps.new live).entries) }
    ensures grows { Grows tree.old tree.new maps.old maps.new (row_of tree.old map) }
    ensures together { BelongTogether tree.new maps.new }
    ensures entries { KeepsEntries maps.old maps.new }
    ensures steps { let row = row_of tree.old map in
        let count = length row.path in
        TakesAtMost (count * (count + 2)) (L.ticks steps.old) (L.ticks steps.new) }
{
    let path = tree.path(map)?;
    let origin = maps.origin(map);
    let proto = maps.proto(map);
    let root = tree.root(maps, origin, proto)?;
    made_along(tree, maps, map, root, &path, steps)
}

/// The live map of a map's row, from the live root along the path.
fn made_along<L: Ledger>(
    tree: &mut Tree,
    maps: &mut Maps,
    map: MapId,
    root: MapId,
    path: &Path,
    steps: &mut Steps<L>,
) -> Result<MapId, NoMemory>
    requires together { BelongTogether tree.old maps.old }
    requires known { IsKnown maps.old map }
    requires root { IsLiveAt tree.old maps.old (root_of (row_of tree.old map)) root }
    requires path { let row = row_of tree.old map in path.now ≡ row.path }
    ensures live { IfOk result (IsLiveAt tree.new maps.new (row_of tree.old map)) }
    ensures grows { Grows tree.old tree.new maps.old maps.new (row_of tree.old map) }
    ensures together { BelongTogether tree.new maps.new }
    ensures steps { let count = length path.now in TakesAtMost (count * (count + 2)) (L.ticks steps.old) (L.ticks steps.new) }
{
    let mut at = root;
    for i in 0..path.len() {
        at = next(tree, maps, at, *path.at(i), steps)?;
    }
    Ok(at)
}

/// The live map by a step that was once made, made by the representation that is kept where there is none.
fn next<L: Ledger>(
    tree: &mut Tree,
    maps: &mut Maps,
    map: MapId,
    step: Step,
    steps: &mut Steps<L>,
) -> Result<MapId, NoMemory>
    requires together { BelongTogether tree.old maps.old }
    requires known { IsKnown maps.old map }
    requires live { let m = map_at maps.old map in m.live ≡ true }
    requires fits { Fits (map_at maps.old map) step }
    requires had { HadMap tree.old (after (row_of tree.old map) step) }
    ensures live { IfOk result (IsLiveAt tree.new maps.new (after (row_of tree.old map) step)) }
    ensures grows { Grows tree.old tree.new maps.old maps.new (after (row_of tree.old map) step) }
    ensures together { BelongTogether tree.new maps.new }
    ensures steps { let m = map_at maps.old map in TakesAtMost (length m.entries + 2) (L.ticks steps.old) (L.ticks steps.new) }
{
    match tree.child(maps, map, &step, steps) {
        Some(child) => Ok(child),
        None => {
            let kept = tree.kept(map, &step);
            tree.add_child(maps, map, step, kept, steps)
        }
    }
}
