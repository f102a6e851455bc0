//! Laws of the layout. Each is the contract of a function that does nothing.
ghost use Rattle.v8_layout.specs.Laws.{MarksKeep, RightsHold, StoresAreForbidden, TablesMap, TablesStay};

/// On RAM with the tables of a loaded board each virtual address translates, or faults, as the layout says.
pub fn tables_map_addresses()
    ensures { TablesMap }
{}

/// RAM whose table words have changed in R and M alone has the tables of a loaded board still, and so the same address
/// map.
pub fn tables_stay()
    ensures { TablesStay }
{}

/// There user code may load exactly what may be read, and store exactly where what is there may be written. A store
/// where it may only be read is refused for the access rights of its page.
pub fn rights_are_those_of_the_pages()
    ensures exact { RightsHold }
    ensures forbidden { StoresAreForbidden }
{}

/// A mark on the entry of a mapped page, which sets R or R and M, keeps all that is loaded.
pub fn marks_keep_what_is_loaded()
    ensures { MarksKeep }
{}
