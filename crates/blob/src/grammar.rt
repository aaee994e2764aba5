// The tokens that are found are those of the format.
ghost use Rattle.blob.specs.Grammar.{TokenSound, TokenComplete, TokenUnique, TokenAhead};
ghost use Rattle.blob.specs.Lexing.{TokensFollow, TokensOnly, TokensRise};

// A token is found just where one stands.
pub fn tokens_stand()
    ensures sound { TokenSound }
    ensures complete { TokenComplete }
    ensures unique { TokenUnique }
    ensures ahead { TokenAhead }
{}

// The list of tokens is the one that the format has, and their offsets rise.
pub fn lexing_stands()
    ensures follow { TokensFollow }
    ensures only { TokensOnly }
    ensures rise { TokensRise }
{}
