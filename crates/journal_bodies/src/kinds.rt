//! The first bytes of bodies and operations.

pub const COMMIT: u8 = 1;

pub const FORGET: u8 = 2;

pub const ROOT: u8 = 3;

pub const PUT: u8 = 1;

pub const REMOVE: u8 = 2;
