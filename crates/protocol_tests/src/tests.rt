//! Drivers of several kinds.
mod drivers;
