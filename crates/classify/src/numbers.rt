// The number of a class, as a word of a class list has it, either way.
ghost use Rattle.std.specs.Prelude.{◌≡◌};
ghost use Rattle.classify.specs.Match.{class_number, class_from};

use crate::Class;

impl From<Class> for u32 {
    ghost from_gives = { λ class word. word ≡ class_number class };

    fn from(class: Class) -> u32 {
        match class {
            Class::Spurious => 0,
            Class::Grid => 1,
            Class::Diagonal => 2,
        }
    }
}

// Of every word: those above 2 are refused by row 5, and read as Diagonal.
impl From<u32> for Class {
    ghost from_gives = { λ word class. class ≡ class_from word };

    fn from(word: u32) -> Class {
        match word {
            0 => Class::Spurious,
            1 => Class::Grid,
            _ => Class::Diagonal,
        }
    }
}
