// `EisRequestConverter` of src/request.rs: a client's request in, the next request for the station out.
#![tactic(auto)]

pub mod request;
