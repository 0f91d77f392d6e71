// The read of a turn: 31 keys and their frame, gathered and handed over in one call.
use crate::Session;
use bench_calls::DEVICE;
use eiproto::eiproto_enum::KeyState;
use reads::record::RequestRecord;
use requests::eis::{InterfaceRequest, KeyboardRequest, Request};

fn key(code: u32) -> RequestRecord {
    RequestRecord {
        object: DEVICE + 1,
        version: 2,
        request: Request::Interface(InterfaceRequest::Keyboard(KeyboardRequest::Key {
            key: code,
            state: KeyState::Press,
        })),
        start: 0,
        length: 0,
    }
}

pub fn keys(session: &mut Session, i: u64) {
    let mut out = [0u8; 16];
    let frame = RequestRecord {
        object: DEVICE,
        version: 2,
        request: bench_calls::frame(i),
        start: 0,
        length: 0,
    };
    let mut records = [frame; read_array::READ_LIMIT];
    for k in 0..31 {
        records[k] = key(k as u32);
    }
    read_array::handle_array(
        &mut session.control,
        &mut session.words,
        &mut session.reals,
        &mut session.texts,
        records,
        32,
        b"",
        5,
        &mut out,
    );
}
