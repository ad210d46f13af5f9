//! The words of a command behind the first, which names it.
ghost use Rattle.std.specs.Prelude.{◌≡◌, ◌<◌, length};
ghost use Rattle.commands.specs.CommandWords.{word_at};
ghost use Rattle.plan_words.specs.Words.{behind};

use plan_arguments::WordList;

/// How many words there are behind the first.
#[tactic(auto, using(crate::proofs::WordLaws::length_behind))]
pub(crate) fn count_behind(words: &WordList) -> usize
    ensures { result ≡ length (behind words.now) }
{
    words.len().saturating_sub(1)
}

/// A word behind the first, counted from 0.
#[tactic(auto, using(crate::proofs::WordLaws::length_behind, crate::proofs::WordLaws::word_behind))]
pub(crate) fn word_behind(words: &WordList, i: usize) -> &str
    requires { i < length (behind words.now) }
    ensures { result.now ≡ word_at (behind words.now) i }
{
    let first = words.len() - count_behind(words);
    words.word(first + i)
}
