//! The law of what FreePages frees, the contract of a function that does nothing.
ghost use Rattle.page_services.specs.Laws.{FreedPagesLaw};

/// Each page that a FreePages frees was placed by AllocatePages: those that the call names, and those by
/// which their range grows to the borders of granules.
pub fn freed_pages_law()
    ensures { FreedPagesLaw }
{}
