//! Levels of the load path: of everything that is visible for a name, the first level that says something decides
//! (systemd.unit(5), "Unit File Load Path"). The choice of main files and the order of drop-ins use only levels, so
//! what makes up a level is defined here.

/// The number of levels. Levels are the numbers below it, and a smaller one comes before a greater one. The level of a
/// host's own directory is twice the rank; the level of the fleet's directory is twice the rank plus one.
pub const LEVELS: u8 = 8;
