// A token names a slot, the version at which the slot was given out, and one registration of its source.
ghost use Rattle.std.specs.Prelude.{◌≡◌};
ghost use Rattle.token.specs.Key.{Keyed, next_version, own_source, same_source};

#[derive(Clone, Copy, PartialEq, Eq, Debug)]
pub struct Token {
    pub id: u32,
    pub version: u16,
    pub sub_id: u16,
}

impl Token {
    pub fn same_source_as(self, other: Token) -> bool
        ensures { result ≡ same_source self other }
    {
        self.id == other.id && self.version == other.version
    }

    // The token of the slot's next giving-out.
    pub fn increment_version(self) -> Token
        ensures { result ≡ next_version self }
    {
        Token {
            id: self.id,
            version: self.version.wrapping_add(1),
            sub_id: 0,
        }
    }

    // The token of the whole source.
    pub fn forget_sub_id(self) -> Token
        ensures { result ≡ own_source self }
    {
        Token { sub_id: 0, ..self }
    }
}

// The number under which the poller knows the token.
impl From<Token> for u64 {
    ghost from_gives = { λ token key. Keyed token key };

    fn from(token: Token) -> u64 {
        (u64::from(token.id) << 32) + (u64::from(token.version) << 16) + u64::from(token.sub_id)
    }
}

impl From<u64> for Token {
    ghost from_gives = { λ key token. Keyed token key };

    fn from(key: u64) -> Token {
        Token {
            id: (key >> 32) as u32,
            version: (key >> 16 & 0xffff) as u16,
            sub_id: (key & 0xffff) as u16,
        }
    }
}
