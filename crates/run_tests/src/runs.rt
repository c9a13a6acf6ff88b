//! Whole runs over a world in memory.

mod words;
mod worlds;
