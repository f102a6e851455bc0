//! Laws of a loaded board. Each is the contract of a function that does nothing.
ghost use Rattle.v8_loaded.specs.Laws.{ForbiddenStoresTrap, HandlersAreFetched, TrapTableIsFetched};

/// On a loaded board the supervisor fetches each word of the handlers, and the fetch sets R of their page and no other
/// bit.
pub fn handlers_are_fetched()
    ensures { HandlersAreFetched }
{}

/// On a loaded board the supervisor fetches each word of the trap table, and the fetch sets R of its page and no other
/// bit.
pub fn trap_table_is_fetched()
    ensures { TrapTableIsFetched }
{}

/// A store of user code to a page that may only be read takes the trap data_access_exception (09), and stores nothing.
pub fn forbidden_stores_trap()
    ensures { ForbiddenStoresTrap }
{}
