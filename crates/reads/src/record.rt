// A client's request as a record of a read: what `handle_request` takes of it, with a part of the read's texts in the place of the text.
ghost use Rattle.std.specs.Prelude.{◌≡◌, ◌<◌, length, get_or};

use requests::eis::Request;

#[derive(Clone, Copy, Debug, PartialEq)]
pub struct RequestRecord {
    pub object: u64,
    pub version: u32,
    pub request: Request,
    // The part is looked at where the request carries a text.
    pub start: usize,
    pub length: usize,
}

// A copy of the record at this place.
pub fn record_at(records: &[RequestRecord], i: usize) -> RequestRecord
    requires { i < length records.now }
    ensures { result ≡ get_or records.now i result }
{
    records[i]
}
