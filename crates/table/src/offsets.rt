// Where each subfield stands in its field or in its entry of a list, counted from 0.

// RCID: behind RCNM in every identifier field, and in every NAME.
pub const RCID: usize = 1;

// DSID, before its first text; those behind are found by the ends of its texts.
pub const DSID_EXPP: usize = 5;

pub const DSID_INTU: usize = 6;

pub const DSID_DSNM: usize = 7;

// DSSI: the levels, then the counts.
pub const DSSI_AALL: usize = 1;

pub const DSSI_NALL: usize = 2;

pub const DSSI_NOMR: usize = 3;

pub const DSSI_NOCR: usize = 7;

pub const DSSI_NOGR: usize = 11;

pub const DSSI_NOLR: usize = 15;

pub const DSSI_NOIN: usize = 19;

pub const DSSI_NOCN: usize = 23;

pub const DSSI_NOED: usize = 27;

pub const DSSI_NOFA: usize = 31;

// DSPM.
pub const DSPM_HDAT: usize = 5;

pub const DSPM_DUNI: usize = 12;

pub const DSPM_HUNI: usize = 13;

pub const DSPM_PUNI: usize = 14;

pub const DSPM_COUN: usize = 15;

pub const DSPM_COMF: usize = 16;

pub const DSPM_SOMF: usize = 20;

pub const DSPM_COMT: usize = 24;

// VRID and FRID.
pub const VRID_RVER: usize = 5;

pub const VRID_RUIN: usize = 7;

pub const FRID_PRIM: usize = 5;

pub const FRID_GRUP: usize = 6;

pub const FRID_OBJL: usize = 7;

pub const FRID_RVER: usize = 9;

pub const FRID_RUIN: usize = 11;

// The pointers, behind NAME or LNAM.
pub const VRPT_ORNT: usize = 5;

pub const VRPT_USAG: usize = 6;

pub const VRPT_TOPI: usize = 7;

pub const VRPT_MASK: usize = 8;

pub const FSPT_ORNT: usize = 5;

pub const FSPT_USAG: usize = 6;

pub const FSPT_MASK: usize = 7;

pub const FFPT_RIND: usize = 8;

pub const FFPT_COMT: usize = 9;

// An attribute's value, behind its label; X, behind Y; of a control its index and its count, behind the
// instruction.
pub const ATVL: usize = 2;

pub const XCOO: usize = 4;

pub const CONTROL_INDEX: usize = 1;

pub const CONTROL_COUNT: usize = 3;
