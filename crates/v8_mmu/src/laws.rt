// What holds of every walk, every mark and every store, whatever RAM holds.
ghost use Rattle.v8_mmu.specs.Laws.{OnePage, NoEndOnPath, OnePath, OneFault, NoFaultOnPath, MarksTwoBits};
ghost use Rattle.v8_mmu.specs.Laws.{StoresOneNumber};

/// What an address leads to is one page by one path, or the end of a path, and not both, whatever the access.
pub fn addresses_lead_one_way()
    ensures page { OnePage }
    ensures end { NoEndOnPath }
{}

/// An access has at most one translation path.
pub fn path_is_unique()
    ensures { OnePath }
{}

/// An access has at most one fault.
pub fn fault_is_unique()
    ensures { OneFault }
{}

/// An access that has a path has no fault.
pub fn no_fault_on_a_path()
    ensures { NoFaultOnPath }
{}

/// A mark sets the bit R of one entry, for a store also M, and no other bit of RAM.
pub fn marks_two_bits()
    ensures { MarksTwoBits }
{}

/// A number stored in RAM is read back at its place, and no other byte is changed.
pub fn stores_one_number()
    ensures { StoresOneNumber }
{}
