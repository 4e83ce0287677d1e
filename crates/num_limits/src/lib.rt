// The numbers that the papers name, each said once; `specs/Capacities.antt` has the same for contracts and definitions.
#![tactic(auto)]

// An arc file: "Parameters, 1 to 50", "Stations, 0 to 16", "Records, 0 to 65,535", "arc u32 (1 to 999,999)".
pub const PARAMETERS_MOST: usize = 50;

pub const STATIONS_MOST: usize = 16;

pub const RECORDS_MOST: usize = 65535;

pub const ARC_MOST: u64 = 999999;

// The matrix sums of so many parameters.
pub const ARC_SUMS_MOST: usize = PARAMETERS_MOST * (PARAMETERS_MOST + 1) / 2;

// A tracking record: "each 32 + 2P bytes".
pub const RECORD_FIXED: usize = 32;

pub const PARTIAL_SIZE: usize = 2;

// "s not 1 to 256": 12; "Weight w = 65,536 divided by s²".
pub const SIGMA_MOST: u64 = 256;

pub const WEIGHT_TOP: u64 = 65536;

// "station already has 256"; ten types; "2099 Dec 31 is 54,787", and the day after it.
pub const COUNT_MOST: u32 = 256;

pub const TYPES: usize = 10;

pub const LAST_DAY: u64 = 54787;

pub const DAY_AFTER_LAST: u64 = LAST_DAY + 1;

// A normal file: "arcs (1 to 16", "parameters (1 to 500", and its matrix sums at the most.
pub const ARCS_MOST: usize = 16;

pub const LABELS_MOST: usize = 500;

// The same numbers in the widths that tests and a file's counts have.
pub const PARAMETERS_U64: u64 = PARAMETERS_MOST as u64;

pub const ARCS_U64: u64 = ARCS_MOST as u64;

pub const LABELS_U64: u64 = LABELS_MOST as u64;

pub const PARAMETERS_U32: u32 = PARAMETERS_MOST as u32;

pub const STATIONS_U32: u32 = STATIONS_MOST as u32;

pub const RECORDS_U32: u32 = RECORDS_MOST as u32;

pub const ARCS_U32: u32 = ARCS_MOST as u32;

pub const LABELS_U32: u32 = LABELS_MOST as u32;
