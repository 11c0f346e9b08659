//! The bits of a record's system flag.
//!
//! | bits   | say                                                                      |
//! |--------|--------------------------------------------------------------------------|
//! | 4, 8   | of a transaction: 4 prepared, 8 committed, both rolled back, none plain  |
//! | 16, 32 | that the born host or the store host has an address of 16 bytes; no record has one |

/// The bits that tell of a transaction.
pub const TRANSACTION_BITS: u32 = 12;

/// What these are for a half message, which waits for a verdict.
pub const PREPARED: u32 = 4;

/// What these are for the copy of a half message to its topic.
pub const COMMITTED: u32 = 8;

/// The bits that say of a host that its address has 16 bytes.
pub const HOSTS_LONG: u32 = 48;
