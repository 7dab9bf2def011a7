//! A core as C holds it.

pub use region_cores::Rafkudin;
