//! Regions of raw memory, regions over given pages, and calls that are drawn.
mod drawn_calls;
mod given_pages;
mod regions;
