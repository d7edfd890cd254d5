//! Laws of programs and outcomes, whatever the algorithms are.

ghost use Rattle.std.specs.Prelude.{◌≡◌, ℕ};
ghost use Rattle.es_model.specs.Completions.{Completion};
ghost use Rattle.es_model.specs.Belongs.{ChangesKeepNames, NamesStay};
ghost use Rattle.es_model.specs.Composing.{ComposesAfter, EndsAfter};
ghost use Rattle.es_model.specs.Stages.{StagesLead};

/// A program comes to what the stage comes to at which it stops by itself.
pub fn stages_lead_on()
    ensures { StagesLead }
{}

/// What comes after an outcome and then after that comes after the outcome, and nothing more comes after its end.
pub fn outcomes_compose()
    ensures after { ComposesAfter }
    ensures end { EndsAfter }
{}

/// What a frame keeps stays there, in later lists and after each change.
pub fn frames_go_on_belonging()
    ensures later { NamesStay }
    ensures change { ChangesKeepNames }
{}
