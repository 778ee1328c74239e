// Values, as one word writes them.
ghost use Rattle.std.specs.Prelude.{◌≡◌, ℕ, List, Option};
ghost use Rattle.std.specs.List.{list_all};
ghost use Rattle.line.specs.Numbers.{plain, whole_number, Decimal};
ghost use Rattle.line.specs.Lines.{kind_of};

use crate::instruction::Kind;

// A value that one word writes.
pub(crate) trait Word: Sized + Drop {
    // what the bytes of a word may be read as
    ghost writes: { List ℕ → Option Self → Type 0 };

    fn of_word(word: &str) -> Option<Self>
        ensures { writes word.now result };
}

// A body each: what `parse` gives is stated for each type by itself.
impl Word for usize {
    ghost writes = { λ w x. x ≡ whole_number 64 w };

    #[tactic(auto, using(crate::proofs::Numerals::read_whole))]
    fn of_word(word: &str) -> Option<usize> {
        word.parse().ok()
    }
}

impl Word for u32 {
    ghost writes = { λ w x. x ≡ whole_number 32 w };

    #[tactic(auto, using(crate::proofs::Numerals::read_whole))]
    fn of_word(word: &str) -> Option<u32> {
        word.parse().ok()
    }
}

impl Word for Kind {
    ghost writes = { λ w x. x ≡ kind_of w };

    fn of_word(word: &str) -> Option<Kind> {
        word.parse().ok()
    }
}

// A decimal number, rounded to the nearest f32; none where the word writes no number, or one
// that is too large for an f32.
impl Word for f32 {
    ghost writes = { Decimal };

    fn of_word(word: &str) -> Option<f32> {
        if !all_plain(word) {
            return None;
        }
        word.parse::<f32>().ok().filter(|x| x.is_finite())
    }
}

fn all_plain(word: &str) -> bool
    ensures { result ≡ list_all plain word.now }
{
    word.bytes().all(is_plain)
}

fn is_plain(byte: u8) -> bool
    ensures { result ≡ plain byte }
{
    matches!(byte, b'0'..=b'9' | b'.' | b'+' | b'-' | b'e' | b'E')
}
