//! A law on answers: the contract of a function that does nothing. It speaks of the definitions alone.

ghost use Rattle.detect_top.specs.WordAnswers.{asked_of, asked_of_all};
ghost use Rattle.run_relation.specs.Laws.{AnswersAreOfWordsAndBytes};

/// The answer to any words and bytes has the status 0, 1 or 2. So 3, 4 and 5 always tell of a device or of memory.
#[tactic(auto, using(crate::proofs::AnswerStatus::status_of_all))]
pub fn all_answers_are_of_words_and_bytes()
    ensures { AnswersAreOfWordsAndBytes asked_of_all }
{}

/// So has the answer to words that work on one image.
#[tactic(auto, using(crate::proofs::AnswerStatus::status_by_words_and_bytes))]
pub fn answers_are_of_words_and_bytes()
    ensures { AnswersAreOfWordsAndBytes asked_of }
{}
