// What the tests ask a poller for.
use poller::{Interest, Mode, Request};

pub fn request(file: u32, key: u64, mode: Mode) -> Request {
    Request {
        file,
        key,
        interest: Interest::READ,
        mode,
    }
}
