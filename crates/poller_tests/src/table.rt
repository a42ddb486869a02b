// A table of entries, for a poller of one's own.
use crate::request::request;
use poller::{Mode, Table};
use std::test::Fail;
use token::Error;

#[test]
fn keeps_to_a_limit(rt: HostRuntime) -> Result<(), Fail> {
    let mut table = Table::<64>::new(rt.alloc())?;
    assert_eq!(rt;
        table.add_within(1, request(7, 1, Mode::Level), Ok(())),
        Ok(())
    );
    assert_eq!(rt;
        table.add_within(1, request(7, 1, Mode::Level), Ok(())),
        Err(Error::Exists)
    );
    assert_eq!(rt;
        table.add_within(1, request(8, 1, Mode::Level), Ok(())),
        Err(Error::PollerFull)
    );
    assert_eq!(rt; table.add(request(8, 1, Mode::Level), Ok(())), Ok(()));
    assert_eq!(rt; table.find(8), Some(1));
    Ok(())
}
