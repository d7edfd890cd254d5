//! What becomes of a tree where a field meets a value that it does not take, and of a map that died by it.

ghost use Rattle.std.specs.Prelude.{◌≡◌, ◌↔◌, IfOk, IsTrue, OnErr, OnOk};
ghost use Rattle.property_keys.specs.Counts.{TakesAtMost, counted};
ghost use Rattle.map_store.specs.declared.entries.Kind.TheVariants as kind;
ghost use Rattle.map_store.specs.Views.{HasEntry, IsKnown, KeepsEntries, entry_at, map_at};
ghost use Rattle.transition_tree.specs.Rows.{IsAsBefore};
ghost use Rattle.transition_tree.specs.Together.{BelongTogether};
ghost use Rattle.map_deprecation.specs.Generalising.{Generalises, IsGiver, Names};

use crate::classes::{Class, join, takes};
use map_store::{MapId, Maps};
use property_keys::{Ledger, NoMemory, PropKey, Steps};
use transition_tree::{Step, Tree};

/// What gave an entry of a map: a step, the map that it led to, and the map that it led from.
#[derive(Clone, Copy)]
struct Giver {
    map: MapId,
    parent: MapId,
    step: Step,
}

/// Joins a class into the representation that is kept for the step which gave an entry, a stored one, and kills each
/// live map whose path goes through that step, in two steps at most. Nothing changes where that representation takes the
/// class. After `NoMemory` all is as before.
pub fn generalise<L: Ledger>(
    tree: &mut Tree,
    maps: &mut Maps,
    map: MapId,
    i: u32,
    class: Class,
    steps: &mut Steps<L>,
) -> Result<(), NoMemory>
    requires together { BelongTogether tree.old maps.old }
    requires known { IsKnown maps.old map }
    requires within { HasEntry maps.old map i }
    requires stored { let m = map_at maps.old map in let entry = entry_at m.entries i in entry.kind ≡ kind.Stored }
    ensures ok { let m = map_at maps.old map in
        let entry = entry_at m.entries i in
        OnOk result (Generalises tree.old tree.new maps.old maps.new map entry.key class) }
    ensures tree { OnErr result (IsAsBefore tree.old tree.new) }
    ensures maps { OnErr result (maps.new ≡ maps.old) }
    ensures together { BelongTogether tree.new maps.new }
    ensures entries { KeepsEntries maps.old maps.new }
    ensures steps { TakesAtMost 2 (L.ticks steps.old) (L.ticks steps.new) }
{
    let giver = giver_of(tree, maps, map, i, steps);
    let kept = tree.kept(giver.parent, &giver.step);
    if takes(kept, class) {
        return Ok(());
    }
    tree.keep(giver.parent, &giver.step, join(kept, class))?;
    if let Some(live) = tree.current(maps, giver.map, steps) {
        tree.drop_branch(maps, live);
    }
    Ok(())
}

/// What gave an entry, in one step: the last step of the map's path that names its key.
fn giver_of<L: Ledger>(tree: &Tree, maps: &Maps, map: MapId, i: u32, steps: &mut Steps<L>) -> Giver
    requires together { BelongTogether tree.now maps.now }
    requires known { IsKnown maps.now map }
    requires within { HasEntry maps.now map i }
    ensures giver { IsGiver tree.now maps.now map i result.map result.parent result.step }
    ensures steps { L.ticks steps.new ≡ counted (L.ticks steps.old) }
{
    let key = maps.entry(map, i, steps).key;
    let mut at = map;
    while let Some((parent, step)) = tree.came_by(at) {
        if is_named(step, key) {
            return Giver {
                map: at,
                parent,
                step,
            };
        }
        at = parent;
    }
    unreachable!()
}

/// Whether a step gives a key its entry or changes that.
fn is_named(step: Step, name: PropKey) -> bool
    ensures { IsTrue result ↔ Names step name }
{
    match step {
        Step::Add { key, .. } | Step::Redefine { key, .. } => key == name,
        Step::Close => false,
    }
}
