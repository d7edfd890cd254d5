//! Laws over the world in which a run begins. Each function here only names a law.

ghost use Rattle.es_model.specs.StartLaws.{
  ObjectsAreInOrder,
  StartIsSound,
  SymbolsAreInOrder,
  TextsAreInOrder,
};

/// Each start object stands at its number, and there are no others.
pub fn start_objects_are_in_order()
    ensures { ObjectsAreInOrder }
{}

/// Each well-known Symbol stands at its number, with its description.
pub fn start_symbols_are_in_order()
    ensures { SymbolsAreInOrder }
{}

/// Each start text stands at its number, and is found there.
pub fn start_texts_are_in_order()
    ensures { TextsAreInOrder }
{}

/// Whatever the script and the turns, the world in which a run begins is sound.
pub fn start_world_is_sound()
    ensures { StartIsSound }
{}
