//! The laws of certificate blocks, each the contract of a function that does nothing.
ghost use Rattle.certificate_blocks.specs.BlockLaws.{AcceptedBlockLaw, BlockReadBackLaw};

/// The text of a block is read back as what it was made of.
pub fn block_read_back_law()
    ensures { BlockReadBackLaw }
{}

/// The text of a block of an accepted certificate is read back as what it was made of, and its check
/// says that it is accepted.
pub fn accepted_block_law()
    ensures { AcceptedBlockLaw }
{}
