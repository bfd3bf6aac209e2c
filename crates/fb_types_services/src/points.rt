//! The names of events and ports of services, and of what comes to them from outside: IEC 61499-1 edition 2, 6.1 and annex A, this project's profile.

pub const INIT: &str = "INIT";

pub const INITO: &str = "INITO";

pub const REQ: &str = "REQ";

pub const CNF: &str = "CNF";

pub const IND: &str = "IND";

pub const RSP: &str = "RSP";

pub const START: &str = "START";

pub const STOP: &str = "STOP";

pub const EO: &str = "EO";

pub const COLD: &str = "COLD";

/// A value or a datagram comes.
pub const ARRIVE: &str = "ARRIVE";
/// A timer expires.
pub const EXPIRE: &str = "EXPIRE";
/// The device starts.
pub const BEGIN: &str = "BEGIN";

pub const QI: &str = "QI";

pub const QO: &str = "QO";

pub const DT: &str = "DT";

/// What the names of values begin with that are sent; a number from 1 on follows.
pub const SD: &str = "SD_";
/// The same of values that are received.
pub const RD: &str = "RD_";
