// Takes a word.
ghost use Rattle.std.specs.Prelude.{◌≡◌, ◌<◌, [], ◌∷◌, ◌≢◌};
ghost use Rattle.words.specs.Tokens.{spot_of, at_of, Right};
ghost use Rattle.fields.specs.Taking.{rest_of};

use crate::rest::Rest;
use words::Word;

impl<'a> Rest<'a> {
    // The next word.
    pub fn word(&mut self) -> Word<'a>
        requires { rest_of self.old ≢ [] }
        ensures taken { rest_of self.old ≡ spot_of result ∷ rest_of self.new }
        ensures right { Right result }
        ensures stands { at_of result ≡ self.old.words.at }
        ensures on { (spot_of result).place < self.new.words.at.place }
        ensures kept { self.new.words.at.line ≡ self.old.words.at.line }
    {
        self.words.word()
    }
}
