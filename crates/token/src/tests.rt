// Keys, and the end of a factory's tokens.
use super::*;

#[test]
fn key_and_back(rt: HostRuntime) {
    let token = Token {
        id: 1,
        version: 2,
        sub_id: 3,
    };
    assert_eq!(rt; u64::from(token), 4_295_098_371);
    assert_eq!(rt; Token::from(4_295_098_371), token);
    let last = Token {
        id: 7,
        version: 65_535,
        sub_id: 0,
    };
    assert_eq!(rt; last.increment_version().version, 0);
}

#[test]
fn factory_ends(rt: HostRuntime) {
    let mut factory = TokenFactory::new(Token {
        id: 9,
        version: 4,
        sub_id: 8,
    });
    for sub_id in 0..65_535u16 {
        assert_eq!(rt;
            factory.token(),
            Ok(Token {
                id: 9,
                version: 4,
                sub_id,
            })
        );
    }
    assert_eq!(rt; factory.token(), Err(Error::SubIdsSpent));
    assert_eq!(rt; factory.next_token.sub_id, 65_535);
}
