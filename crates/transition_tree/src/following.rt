//! The map that follows another by a step.

ghost use Rattle.std.specs.Prelude.{◌≡◌, ◌+◌, ◌++◌, ◌∷◌, [], length, IfOk, OnErr};
ghost use Rattle.property_keys.specs.Counts.{TakesAtMost};
ghost use Rattle.map_store.specs.Views.{IsKnown, map_at};
ghost use Rattle.transition_tree.specs.Paths.{Fits, Follows, MakesChild};

use crate::Step;
use map_store::{Entry, MapId, Maps, Representation};
use property_keys::{Ledger, NoMemory, Steps};

/// Makes the map that follows a map by a step. After `NoMemory` the maps are as before.
pub(crate) fn follow<L: Ledger>(
    maps: &mut Maps,
    map: MapId,
    step: Step,
    representation: Representation,
    steps: &mut Steps<L>,
) -> Result<MapId, NoMemory>
    requires known { IsKnown maps.old map }
    requires fits { Fits (map_at maps.old map) step }
    ensures ok { IfOk result (MakesChild maps.old maps.new map step representation) }
    ensures err { OnErr result (maps.new ≡ maps.old) }
    ensures steps { let m = map_at maps.old map in TakesAtMost (length m.entries + 1) (L.ticks steps.old) (L.ticks steps.new) }
{
    match step {
        Step::Add {
            key,
            kind,
            attributes,
        } => {
            let place = maps.count(map);
            maps.extend(
                map,
                Entry {
                    key,
                    kind,
                    attributes,
                    representation,
                    place,
                },
            )
        }
        Step::Redefine {
            key,
            kind,
            attributes,
        } => match maps.find(map, key, steps) {
            Some(i) => {
                let place = maps.entry(map, i, steps).place;
                maps.replace(
                    map,
                    i,
                    Entry {
                        key,
                        kind,
                        attributes,
                        representation,
                        place,
                    },
                )
            }
            None => unreachable!(),
        },
        Step::Close => maps.closed(map),
    }
}
