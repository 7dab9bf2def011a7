//! The laws of machine files, each the contract of a function that does nothing.
ghost use Rattle.machine_files.specs.Laws.{MachineLaw};

/// The runs that a machine file lists are a valid machine of at most 65,536, whose numbers fit the
/// records of a memory map, and it lists at most 64 drivers.
pub fn machine_law()
    ensures { MachineLaw }
{}
