//! The types that every part of the gateway shares: octets, addresses, suites, keys and faults.
#![tactic(auto)]

mod addresses;
mod digits;
mod faults;
mod fields;
mod identities;
mod items;
mod keys;
mod limits;
mod mkis;
mod numbers;
mod octets;
mod pad;
mod sources;
mod spellings;
mod suite_names;
mod suites;

pub use addresses::{Address, CallId, Kind, Side};
pub use digits::read_octets;
pub use faults::{
    CsFault, DropCause, Failed, Fault, HeadFault, IndexFault, MikeyFault, NoMemory, PskFault,
    Refusal, ScriptFault, SdesFault, SdpFault,
};
pub use fields::{cut, read_address, read_four, read_number};
pub use identities::{Identity, Noise304};
pub use items::Items;
pub use keys::{CipherKey, HalfKeys, MasterKey, SessionKeys};
pub use limits::{
    BATCH_MOST, CALLS_MOST, EARLIER_MILLIS, FIRST_PORT, IDLE_MILLIS, LINE_MOST, MEDIA_MOST,
    MEDIUM_PORTS, MKI_MOST, NOISE, NOTED_MOST, PAD_MOST, PAIRS_MOST, PLAIN_MOST, PROTECTED_MOST,
    RING_KEYS_MOST, RTCP_LIFE, RTCP_TAG, RTP_LIFE, SCRIPT_MOST, SDP_LINE_MOST, SDP_MOST,
    SESSION_KEYS_MOST, SLOT_PORTS, STREAMS_MOST, TICK_MOST, TURNS_MOST, WINDOW_LEAST, WINDOW_MOST,
    WORKERS_MOST,
};
pub use mkis::{Mki, mkis_differ};
pub use numbers::{octets_of_u32, read_u16, read_u32};
pub use octets::Octets;
pub use pad::{Pad, TooLong};
pub use sources::Admit;
pub use spellings::{
    address_spelling, cut_spelling, four_spelling, number_spelling, octets_spelling,
};
pub use suite_names::{read_suite, suite_spelling};
pub use suites::Suite;
