// Sealing at the feed: messages are wrapped under a published key and opened with f', away from any station.
// Rows are arrays of the largest degree with a degree beside them, since nothing here asks for memory.
#![tactic(auto)]

pub mod feed;
