//! Laws of the model of a run. Each function here only names a law.

ghost use Rattle.es_model.specs.Belongs.{KeepsNames};
ghost use Rattle.es_model.specs.Grows.{KeepsLists, KeepsPrinted, KeepsScript};
ghost use Rattle.es_model.specs.Kept.{KeepsEachBy, KeepsSound};
ghost use Rattle.es_model.specs.Outcomes.{NeverRaises};
ghost use Rattle.es_model.specs.Servers.{IsDepthFreeBy, IsServerBy, IsThrifty};
ghost use Rattle.es_serve.specs.Run.{RunsArePaid, RunsStaySound};
ghost use Rattle.es_serve.specs.Serve.{model, program_of};

/// A task comes to the same at every depth that is enough for the turns that are left.
pub fn depth_is_free()
    ensures { IsDepthFreeBy program_of }
{}

/// The model does for each task what the task's program says, and answers its questions itself.
pub fn model_serves()
    ensures { IsServerBy program_of model }
{}

/// A task comes to fewer requests than a budget, and two budgets for each turn that is left. A budget is a number of the script.
pub fn requests_are_paid()
    ensures { IsThrifty model }
{}

/// No outcome has more turns left than its world had.
pub fn turns_never_rise()
    ensures { NeverRaises model }
{}

/// No task takes away an object, a text, a Symbol, a cell or a printed byte, gives an object another kind, or changes the script.
pub fn nothing_is_taken_away()
    ensures lists { KeepsLists model }
    ensures script { KeepsScript model }
    ensures printed { KeepsPrinted model }
{}

/// In a sound world a task whose names are all there keeps worlds sound: the world is sound at each request that it makes, with all that the request names there,
/// and at its end, with an answer of the task's kind whose names are there. At each charge and at a halt all that the world names is there, and no chain of
/// prototypes comes back to an object without passing a Proxy.
pub fn sound_worlds_are_kept()
    ensures each { KeepsEachBy program_of }
    ensures ends { KeepsSound model }
{}

/// All that a frame keeps is there after each task, each object with its kind.
pub fn frames_stay()
    ensures { KeepsNames model }
{}

/// The code of a script comes to fewer requests and parts than a budget of the script, and two budgets for each turn that is left.
pub fn runs_are_paid()
    ensures { RunsArePaid }
{}

/// A run of a script ends in a sound world, in which a value that it throws is there; or it halts in a world in which all that is named is there.
pub fn runs_stay_sound()
    ensures { RunsStaySound }
{}
