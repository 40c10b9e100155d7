// What a node links (include/aveluafi.h): every call under the prefix `aveluafi_`, for C and Rust, over the proved core. A slice is a
// pointer and a count of bytes. The collector is lent to its calls, and so are the fields of a header that is written.
#![tactic(auto)]

pub mod captures;
pub mod collecting;
pub mod compacting;
pub mod identification;
pub mod in_place;
pub mod judging;
pub mod reading;
pub mod streams;
pub mod version;
pub mod word;
