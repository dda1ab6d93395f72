// A fate as the two words that stand for it in the workspace, which is a lent list of words, and back: each fate is read as it was written.
ghost use Rattle.std.specs.Prelude.{◌≡◌};
ghost use Rattle.fates.specs.inner.FateWords.{fate_number, claimed_in, fate_from};

use crate::Fate;

// A fate's number, and how many pairs several corners claim, which is 0 for a fate that does not tell it.
#[derive(Clone, Copy)]
pub(crate) struct FateWords {
    pub number: u32,
    pub claims: u32,
}

impl From<Fate> for FateWords {
    ghost from_gives = { λ fate w. (w.number ≡ fate_number fate) × (w.claims ≡ claimed_in fate) };

    #[tactic(auto, unfolding(crate::specs::inner::FateWords::fate_number, crate::specs::inner::FateWords::claimed_in))]
    fn from(fate: Fate) -> FateWords {
        let (number, claims) = match fate {
            Fate::NotLowest => (0, 0),
            Fate::TooFewQuads => (1, 0),
            Fate::NoLabelling => (2, 0),
            Fate::TooFewLone(claims) => (3, claims),
            Fate::Kept(claims) => (4, claims),
        };
        FateWords { number, claims }
    }
}

impl From<FateWords> for Fate {
    ghost from_gives = { λ w fate. fate ≡ fate_from w.number w.claims };

    #[tactic(auto, unfolding(crate::specs::inner::FateWords::fate_from))]
    fn from(words: FateWords) -> Fate {
        match words.number {
            0 => Fate::NotLowest,
            1 => Fate::TooFewQuads,
            2 => Fate::NoLabelling,
            3 => Fate::TooFewLone(words.claims),
            _ => Fate::Kept(words.claims),
        }
    }
}
