// What both `new` have in common: the core's answer set apart from the range, which is a closed one where there is none.
ghost use Rattle.std.specs.Prelude.{◌≡◌};
ghost use Rattle.eeprom.specs.Range.{new_said};
ghost use Rattle.held.specs.Range.{alone, stands, ends};
ghost use Rattle.held.specs.Answers.{said_outcome};

use eeprom::{Pos, Range};
use refusal::Refusal;

// The end of the range that a refused `new` hands out: an odd one, so that every later call on it is 14.
const CLOSED_END: Pos = 1;

// A range that was asked for, and whether there is one. A struct of its own, since the laws in proofs/Opening are said of its fields.
#[derive(Clone, Copy)]
pub(crate) struct RangeStep {
    pub(crate) answer: Result<(), Refusal>,
    pub(crate) byte_pos: Pos,
    pub(crate) end: Pos,
}

// The range from a word on, for a number of words; refused, a closed one at 0.
#[tactic(auto, unfolding(crate::specs::Range::alone, crate::specs::Range::stands, crate::specs::Range::ends))]
pub(crate) fn range_step(start_word: u16, len_words: u16) -> RangeStep
    ensures { (said_outcome result.answer ≡ alone (new_said start_word len_words)) × ((result.byte_pos ≡ stands 0 (new_said start_word len_words)) × (result.end ≡ ends (new_said start_word len_words))) }
{
    match Range::new(start_word, len_words) {
        Ok(g) => RangeStep {
            answer: Ok(()),
            byte_pos: g.byte_pos,
            end: g.end,
        },
        Err(x) => RangeStep {
            answer: Err(x),
            byte_pos: 0,
            end: CLOSED_END,
        },
    }
}
