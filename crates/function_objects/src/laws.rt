//! Laws of functions of the script.

ghost use Rattle.function_objects.specs.Laws.{LinksSuffice};

/// In a sound world GetFunctionRealm has links enough for every chain of Proxies.
pub fn links_suffice()
    ensures { LinksSuffice }
{}
