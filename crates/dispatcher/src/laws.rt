//! Laws of the dispatcher. Each function here only names a law.

ghost use Rattle.dispatcher.specs.Dispatching.{PrintsOn};
ghost use Rattle.dispatcher.specs.Table.{TableServes};

/// What serves a request, once its access is noted, does what the model does for it.
pub fn table_serves()
    ensures { TableServes }
{}

/// What is left takes back nothing of what was printed.
pub fn printing_goes_on()
    ensures { PrintsOn }
{}
