// The lengths of records and of their parts (01: Records, the table), and of the longest ones in a cluster of the largest size.
use settings::Settings;

pub const HEADER: usize = 8;

// A vote or a commit.
pub const VOTE: usize = 48;

pub const BLOCK_CERTIFICATE: usize = 56;

pub const TIMEOUT: usize = 112;

// A timeout certificate before its timeouts.
pub const TIMEOUTS_HEAD: usize = 24;

// A proposal before its progress certificate.
pub const PROPOSAL_HEAD: usize = 88;

pub const BLOCK: usize = 80;

pub const RELEASE: usize = 56;

// The longest progress certificate: a timeout certificate of all replicas.
pub const LONGEST_CERTIFICATE: usize = TIMEOUTS_HEAD + TIMEOUT * Settings::LARGEST as usize;

// The longest record: a proposal with it.
pub const LONGEST_RECORD: usize = PROPOSAL_HEAD + LONGEST_CERTIFICATE;
